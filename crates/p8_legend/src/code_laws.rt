// Laws of the lines of a method's code. The functions do nothing: their contracts are the laws.
ghost use Rattle.std.specs.Prelude.{◌≡◌, ℕ, ◌∷◌, ◌++◌, [], List, Option, map};
ghost use Rattle.p8_tree.specs.declared.places.Place.{Place};
ghost use Rattle.p8_tree.specs.Statements.{Action, Statement, Statements, statement};
ghost use Rattle.p8_gen.specs.Methods.{method_code};
ghost use Rattle.p8_gen.specs.Names.{Names};
ghost use Rattle.p8_gen.specs.Pieces.{Written, empty};
ghost use Rattle.p8_gen.specs.Statements.{Loop, code};
ghost use Rattle.p8_legend.specs.Lines.{begin_of, begins_from, places_of, places_in, places_of_body, AddsLines};

/// Law: the lines of a method's code begin where its bytecodes do.
pub fn lines_begin_where_bytecodes_do()
    ensures { (n : Names) → (ss : Statements) → map begin_of (method_code n ss).lines ≡ begins_from 0 (method_code n ss).ops }
{}

/// Law: the code of a statement has lines of this statement and of those inside it alone.
///
/// So each line of a statement that has none inside it is its own, as are the tests and the jumps of IF, CASE and REPEAT, which belong
/// to none of the statements inside. A method's lines are of its statements, or of its `RETURN` at the end.
pub fn lines_are_of_their_statements()
    ensures statements { (n : Names) → (l : Option Loop) → (x : Statement) → (w : Written) → AddsLines (places_of x) w (code n l x w) }
    ensures alone { (n : Names) → (l : Option Loop) → (place : Place) → (action : Action) → places_in action ≡ [] → (w : Written) →
        AddsLines (place ∷ []) w (code n l (statement place action) w) }
    ensures methods { (n : Names) → (ss : Statements) → AddsLines (places_of_body ss ++ n.statement ∷ []) empty (method_code n ss) }
{}
