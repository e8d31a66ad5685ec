// What holds of the code of every method.
ghost use Rattle.std.specs.Prelude.{◌≡◌, ℕ, ◌+◌, false, List, Option, length};
ghost use Rattle.p8_tree.specs.declared.places.Place.{Place};
ghost use Rattle.p8_tree.specs.Proper.{IsProperTree, IsDone};
ghost use Rattle.p8_tree.specs.declared.faults.Fault.{Fault};
ghost use Rattle.p8_kinds.specs.Environments.{Environment, kind_in};
ghost use Rattle.p8_kinds.specs.Misuses.{MisuseIn, MisuseDone, name_alone};
ghost use Rattle.p8_tree.specs.Expressions.{Tree};
ghost use Rattle.p8_tree.specs.Statements.{Statements};
ghost use Rattle.p8_gen.specs.Methods.{method_code};
ghost use Rattle.p8_gen.specs.Names.{Names, moved};
ghost use Rattle.p8_gen.specs.Pieces.{Written};
ghost use Rattle.p8_gen.specs.Expressions.{value, alone};
ghost use Rattle.p8_gen.specs.Operations.{HaveBytes, AreWhole};
ghost use Rattle.p8_gen.specs.Statements.{Loop, SameLoop, body};

/// Law: how long the code of an expression or of statements is doesn't depend on where it stands, where its jumps go, or
/// where texts stand, as long as its jumps have the same numbers.
pub fn places_change_no_length()
    ensures expressions { (n : Names) → (texts : Place → ℕ) → (s : Place) → (e : Tree) → (v w : Written) → v.jumps ≡ w.jumps →
        (value n e v).end + w.end ≡ (value (moved n texts s) e w).end + v.end }
    ensures statements { (n : Names) → (texts : Place → ℕ) → (s : Place) → (l k : Option Loop) → SameLoop l k → (ss : Statements) → (v w : Written) →
        v.jumps ≡ w.jumps → (body n l ss v).end + w.end ≡ (body (moved n texts s) k ss w).end + v.end }
{}

/// Law: each bytecode of a method's code has a line.
pub fn each_bytecode_has_a_line()
    ensures { (n : Names) → (ss : Statements) → length (method_code n ss).lines ≡ length (method_code n ss).ops }
{}

/// Law: all bytecodes of a proper expression are ones that there are, as long as no jump goes too far. Its names fit their uses,
/// and the numbers of methods and objects have a byte.
pub fn bytecodes_are_whole()
    ensures values { (n : Names) → HaveBytes n → (env : Environment) → ((name : List ℕ) → n.kind name ≡ kind_in env name) → (e : Tree) →
        IsProperTree false e → ((f : Fault) → ¬ MisuseIn env e f) → (w : Written) → AreWhole w → AreWhole (value n e w) }
    ensures alone { (n : Names) → HaveBytes n → (env : Environment) → ((name : List ℕ) → n.kind name ≡ kind_in env name) → (e : Tree) → IsDone e →
        ((f : Fault) → ¬ MisuseDone env (name_alone e) e f) → (w : Written) → AreWhole w → AreWhole (alone n e w) }
{}
