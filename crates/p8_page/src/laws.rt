// Laws of blocks. The functions do nothing: their contracts are the laws.
ghost use Rattle.std.specs.Prelude.{◌≡◌, ℕ, List, true, flat_map};
ghost use Rattle.p8_page.specs.Blocks.{AreBytes, are_inert, escaped, unescaped};

/// Whatever bytes stand in a block, its text is printed ASCII and line feeds, and has no `<`: no markup begins or ends in it.
pub fn blocks_are_inert()
    ensures { (bytes : List ℕ) → are_inert (flat_map escaped bytes) ≡ true }
{}

/// The text of a block stands for its bytes, all of them.
pub fn blocks_are_read_back()
    ensures { (bytes : List ℕ) → AreBytes bytes → unescaped (flat_map escaped bytes) ≡ bytes }
{}
