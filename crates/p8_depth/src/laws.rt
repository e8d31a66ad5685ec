// Law of the operand depth. The function does nothing: its contract is the law.
ghost use Rattle.std.specs.Prelude.{ℕ, ◌^◌, ◌<◌, length, map, All, Contains};
ghost use Rattle.p8_tree.specs.Statements.{Statements};
ghost use Rattle.p8_tree.specs.Sources.{MethodTree};
ghost use Rattle.p8_bytecode.specs.Spelling.{IsOp};
ghost use Rattle.p8_gen.specs.Names.{Names};
ghost use Rattle.p8_gen.specs.Methods.{method_code};
ghost use Rattle.p8_gen.specs.Uses.{line_of};
ghost use Rattle.p8_stmt.specs.Methods.{AreResolved, IsCodeOf};
ghost use Rattle.p8_stmt.specs.declared.code.MethodCode.{MethodCode};
ghost use Rattle.p8_depth.specs.Entries.{entries_of_method};
ghost use Rattle.p8_depth.specs.Paths.{IsComeTo, IsDepth};

/// Law: the depth that is told with the code of a method is the greatest number of longs that lie on the operand stack at once, along any path through
/// the bytes of the code, past each jump that depends on a value and along it. And no bytecode of a path finds fewer longs than it takes.
///
/// A path begins at the begin of the method with an empty stack (`begins`), or before, between or behind the statements of a body, with a long for
/// each `REPEAT e` around the body. So paths come also to statements to which no jump leads: they come to each bytecode of the method (`everywhere`).
/// The method is one whose names were resolved, its bytecodes are such as there are, and its code has fewer than 2^32 bytes.
pub fn depth_is_the_most_along_paths()
    ensures begins { (names : Names) → (ss : Statements) → Contains (entries_of_method names ss) (0, 0) }
    ensures depth { (names : Names) → (m : MethodTree) → (code : MethodCode) → AreResolved names m.body → IsCodeOf names m code →
        All IsOp (method_code names m.body).ops → length code.bytes < 2 ^ 32 → IsDepth code.bytes (entries_of_method names m.body) code.depth }
    ensures everywhere { (names : Names) → (m : MethodTree) → (code : MethodCode) → AreResolved names m.body → IsCodeOf names m code →
        All IsOp (method_code names m.body).ops → length code.bytes < 2 ^ 32 →
        All (IsComeTo code.bytes (entries_of_method names m.body)) (map line_of code.lines) }
{}
