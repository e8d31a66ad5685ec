// Laws of the code of methods. The functions do nothing: their contracts are the laws.
ghost use Rattle.std.specs.Prelude.{◌≡◌, ℕ, Bool, false, length, IsTrue};
ghost use Rattle.p8_tree.specs.Statements.{Statements};
ghost use Rattle.p8_tree.specs.Proper.{AreProperStatements};
ghost use Rattle.p8_tree.specs.Nesting.{leave_loops};
ghost use Rattle.p8_tree.specs.declared.faults.Fault.{Fault};
ghost use Rattle.p8_kinds.specs.Misuses.{MisuseInStatements};
ghost use Rattle.p8_gen.specs.Methods.{bytes_of, method_code};
ghost use Rattle.p8_gen.specs.Names.{Names, widened};
ghost use Rattle.p8_compiled.specs.Standing.{Compiled, with_hand};
ghost use Rattle.p8_compiled.specs.Bodies.{MethodAt};
ghost use Rattle.p8_compiled.specs.Placing.{HasCode, HasLines, IsNear, AreOps};
ghost use Rattle.p8_compiled.specs.Agreeing.{Agrees, environment};
ghost use Rattle.p8_compiled.specs.Moving.{AreSameWays};

/// Law: where a memory has the bytes of a method's code, there stands the method, in the sense in which code keeps its meaning. Each of its bytecodes
/// is made from the statement of its line.
///
/// The statements are those of a source that was read, with each NEXT and each QUIT in a loop, and no name of theirs is used
/// against its kind. The names of the code generator agree with those of the project and its image.
pub fn templates_stand()
    ensures { (n : Names) → (t : Compiled) → (base : ℕ) → Agrees n t → (ss : Statements) → AreProperStatements ss → IsTrue (leave_loops false ss) →
        ((f : Fault) → ¬ MisuseInStatements (environment n) ss f) → HasCode t.memory base (method_code n ss) →
        HasLines t.table base (method_code n ss).lines → MethodAt (with_hand t n.statement) ss base }
{}

/// Law: the code of a method ends where its bytes do.
pub fn code_ends_where_its_bytes_do()
    ensures { (n : Names) → (ss : Statements) → (method_code n ss).end ≡ length (bytes_of (method_code n ss)) }
{}

/// Law: the bytecodes of a method's code are such as there are, so that each can be written and read back, where the code has at most
/// 32,768 bytes and no jump of it goes too far.
pub fn templates_have_operations()
    ensures { (n : Names) → (t : Compiled) → Agrees n t → (ss : Statements) → AreProperStatements ss → IsTrue (leave_loops false ss) →
        ((f : Fault) → ¬ MisuseInStatements (environment n) ss f) → IsNear (method_code n ss) → AreOps (method_code n ss).ops }
{}

/// Law: which bytes, beside those of offsets, and which jumps stand before a place of a method's code doesn't depend on the choice of wide
/// jumps. So by any two choices its jumps go the same ways, and each place is moved by what the offsets before it have more or less.
pub fn widths_move_places()
    ensures { (n : Names) → (ss : Statements) → (a b : ℕ → Bool) → AreSameWays a b (method_code (widened n a) ss).ways (method_code (widened n b) ss).ways }
{}
