// What the calls of this crate rest on: each line has a value.
ghost use Rattle.std.specs.Prelude.{◌≢◌, Bool, IsTrue};
ghost use Rattle.p8_lines.specs.declared.state.LineState as line_state;
ghost use Rattle.p8_lines.specs.declared.state.LineState.TheVariants as state_case;
ghost use Rattle.p8_declarations.specs.Constants.{constants_of_row};
ghost use Rattle.p8_declarations.specs.Variables.{variables_of_row};
ghost use Rattle.p8_declarations.specs.Objects.{objects_of_row};
ghost use Rattle.p8_declarations.specs.Methods.{method_of_row};
ghost use Rattle.p8_declarations.specs.Lines.{line_of_row};
ghost use Rattle.p8_statements.specs.Statements.{kind_of_row};
ghost use Rattle.p8_blocks.specs.Proper.{is_in_dat, LinesAreProper, RowsAreProper, MethodRowsAreProper};
ghost use Rattle.p8_blocks.specs.Values.{HaveKinds, HaveValues, begins_line};

/// Each line of `CON` has a value, and so has what follows the word `CON` on its line.
#[tactic(auto, using(crate::proofs::Constants::from_head, crate::proofs::Constants::from_item))]
pub fn constants_have_values()
    ensures head { HaveValues constants_of_row state_case.ConHead }
    ensures line { HaveValues constants_of_row state_case.ConItem }
{}

/// Each line of `VAR` has a value, and so has what follows the word `VAR` on its line.
#[tactic(auto, using(crate::proofs::Variables::from_head, crate::proofs::Variables::from_line))]
pub fn variables_have_values()
    ensures head { HaveValues variables_of_row state_case.VarHead }
    ensures line { HaveValues variables_of_row state_case.VarLine }
{}

/// Each line of `OBJ` has a value, and so has what follows the word `OBJ` on its line.
#[tactic(auto, using(crate::proofs::Objects::from_head, crate::proofs::Objects::from_line))]
pub fn objects_have_values()
    ensures head { HaveValues objects_of_row state_case.ObjHead }
    ensures line { HaveValues objects_of_row state_case.ObjLine }
{}

/// What follows `PUB`, or `PRI`, on its line has a value.
pub fn methods_have_values()
    ensures { (public : Bool) → HaveValues (method_of_row public) state_case.MethodName }
{}

/// Each line of `DAT` has a value, and so has what follows the word `DAT` on its line.
#[tactic(auto, using(crate::proofs::ProperData::head_has_value, crate::proofs::ProperData::line_has_value))]
pub fn data_have_values()
    ensures head { HaveValues line_of_row state_case.DatHead }
    ensures line { HaveValues line_of_row state_case.DatLine }
{}

/// The pieces of a line are proper, where its tokens are, and a line of a method that is an action is
/// a proper one: an action stands at the beginning of a statement alone.
pub fn rows_are_proper()
    ensures pieces { (q : line_state.LineState) → q ≢ state_case.Statement → RowsAreProper q (is_in_dat q) }
    ensures actions { (q : line_state.LineState) → IsTrue (begins_line q) → MethodRowsAreProper q }
{
    p8_grammar::spelled_is_proper();
}

/// Each line of `DAT` is proper, where its names, strings and expressions are.
pub fn data_are_proper()
    ensures head { LinesAreProper state_case.DatHead }
    ensures line { LinesAreProper state_case.DatLine }
{}

/// Each row that follows the diagram from the beginning of a statement is a statement.
pub fn statements_have_kinds()
    ensures { HaveKinds kind_of_row state_case.Statement }
{}

/// Each row that follows the diagram from `ELSE`, `ELSEIF` or `ELSEIFNOT` on is such a line.
pub fn chain_lines_have_kinds()
    ensures { HaveKinds kind_of_row state_case.ChainLine }
{}

/// Each row that follows the diagram from a closing `WHILE` or `UNTIL` on is the end of a loop.
pub fn loop_ends_have_kinds()
    ensures { HaveKinds kind_of_row state_case.LoopEndLine }
{}

/// Each row that follows the diagram from the beginning of a `CASE`'s item is an item or `OTHER`.
pub fn case_items_have_kinds()
    ensures { HaveKinds kind_of_row state_case.CaseItem }
{}
