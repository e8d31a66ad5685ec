// What is written of a line of DAT is read back.

ghost use Rattle.std.specs.Prelude.{◌≡◌, ℕ, List, Some, option_map};
ghost use Rattle.p8_tree.specs.Sources.{Line};
ghost use Rattle.p8_tree.specs.Forgetting.{line_anywhere};
ghost use Rattle.p8_lexer.specs.Pieces.{Piece};
ghost use Rattle.p8_lines.specs.declared.state.LineState as state;
ghost use Rattle.p8_lines.specs.declared.state.LineState.TheVariants as state_case;
ghost use Rattle.p8_lines.specs.Tokens.{LineToken};
ghost use Rattle.p8_lines.specs.Lines.{Leads};
ghost use Rattle.p8_declarations.specs.Lines.{line_of_row};
ghost use Rattle.p8_printed.specs.Rereading.{AreOfSource, ReadsBack};
ghost use Rattle.p8_print.specs.DataWords.{words_of_line};

/// A line of `DAT` is read back, but for places.
pub fn data_read_back()
    ensures head { (us : List LineToken) (row : List Piece) (x : Line) → Leads state_case.DatHead us row state_case.End → AreOfSource us →
        line_of_row row ≡ Some (Some x) → ReadsBack line_of_row (option_map line_anywhere) state_case.DatLine (words_of_line x) (Some x) }
    ensures line { (us : List LineToken) (row : List Piece) (x : Line) → Leads state_case.DatLine us row state_case.End → AreOfSource us →
        line_of_row row ≡ Some (Some x) → ReadsBack line_of_row (option_map line_anywhere) state_case.DatLine (words_of_line x) (Some x) }
{
    p8_expr::lexemes_are_proper();
    p8_blocks::rows_are_proper();
    p8_blocks::data_are_proper();
}
