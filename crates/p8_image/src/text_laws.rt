// Laws of listings.
ghost use Rattle.std.specs.Prelude.{◌≡◌, List, map};
ghost use Rattle.std.specs.List.{All, flat_map};
ghost use Rattle.p8_bytecode.specs.declared.op.Op.{Op};
ghost use Rattle.p8_bytecode.specs.Spelling.{IsOp, spelled};
ghost use Rattle.p8_image.specs.Listing.{pieces_of};

/// Code that a compiler wrote, operation by operation, is cut into just the bytes of these operations: its listing has a line for
/// each.
pub fn operations_have_lines()
    ensures { (ops : List Op) → All IsOp ops → pieces_of (flat_map spelled ops) ≡ map spelled ops }
{}
