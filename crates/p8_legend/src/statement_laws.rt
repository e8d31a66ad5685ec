// Laws of the lines of a statement in a memory. The function does nothing: its contract is the law.
ghost use Rattle.std.specs.Prelude.{ℕ, Option, IsTrue, is_some};
ghost use Rattle.p8_tree.specs.Nesting.{leaves_loop};
ghost use Rattle.p8_tree.specs.Proper.{IsProperStatement};
ghost use Rattle.p8_tree.specs.Statements.{Statement};
ghost use Rattle.p8_tree.specs.declared.faults.Fault.{Fault};
ghost use Rattle.p8_kinds.specs.Misuses.{MisuseInStatement};
ghost use Rattle.p8_gen.specs.Names.{Names};
ghost use Rattle.p8_gen.specs.Pieces.{Written};
ghost use Rattle.p8_gen.specs.Statements.{Loop, code};
ghost use Rattle.p8_compiled.specs.Agreeing.{Agrees, environment};
ghost use Rattle.p8_compiled.specs.Placing.{HasCode, HasLines, AreOps};
ghost use Rattle.p8_compiled.specs.Standing.{Compiled};
ghost use Rattle.p8_legend.specs.Standing.{around, StandsByLines};

/// Law: where a memory has the code of a statement, and a table its lines, there stands what the statement does, in the sense in which code keeps its
/// meaning, and the bytecodes between its ends have lines of this statement and of those inside it alone.
///
/// The statement is one of a source that was read, with each NEXT and each QUIT in a loop, and no name of it is used against its kind. The names
/// of the code generator agree with those of the project and its image. The code before the statement is any.
pub fn statements_stand_by_their_lines()
    ensures { (n : Names) → (t : Compiled) → (base : ℕ) → Agrees n t → (l : Option Loop) → (x : Statement) → IsProperStatement x →
        IsTrue (leaves_loop (is_some l) x) → ((f : Fault) → ¬ MisuseInStatement (environment n) x f) → (w : Written) →
        HasCode t.memory base (code n l x w) → HasLines t.table base (code n l x w).lines → AreOps (code n l x w).ops →
        StandsByLines t base x (around base l) w (code n l x w) }
{}
