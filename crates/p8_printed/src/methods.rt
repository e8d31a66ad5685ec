// What is written of a line of a method is read back.

ghost use Rattle.std.specs.Prelude.{◌≡◌, IsTrue, List, Some};
ghost use Rattle.p8_columns.specs.Lines.{Kind};
ghost use Rattle.p8_lexer.specs.Pieces.{Piece};
ghost use Rattle.p8_lines.specs.declared.state.LineState as state;
ghost use Rattle.p8_lines.specs.declared.state.LineState.TheVariants as state_case;
ghost use Rattle.p8_lines.specs.Tokens.{LineToken};
ghost use Rattle.p8_lines.specs.Lines.{Leads};
ghost use Rattle.p8_statements.specs.Statements.{kind_of_row};
ghost use Rattle.p8_blocks.specs.Values.{begins_line};
ghost use Rattle.p8_printed.specs.Rereading.{AreOfSource, LineReadsBack};

/// A line of a method is read back, but for places.
pub fn lines_read_back()
    ensures { (q : state.LineState) (us : List LineToken) (row : List Piece) (k : Kind) → IsTrue (begins_line q) → Leads q us row state_case.End →
        AreOfSource us → kind_of_row row ≡ Some k → LineReadsBack k }
{
    p8_expr::lexemes_are_proper();
    p8_blocks::rows_are_proper();
    p8_statements::kinds_are_proper();
}
