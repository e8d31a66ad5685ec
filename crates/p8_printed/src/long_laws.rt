// The text of a long is read as a line of DAT, and this line puts the long.
ghost use Rattle.std.specs.Prelude.{◌≡◌, ℕ, ◌<◌, ◌≤◌, ◌^◌, List, length, false};
ghost use Rattle.std.specs.Int.{to_le_bytes, w32};
ghost use Rattle.p8_tree.specs.Sources.{Line};
ghost use Rattle.p8_lexer.specs.declared.token.Token as token;
ghost use Rattle.p8_lexer.specs.Lexing.{longest_file, AreTokens};
ghost use Rattle.p8_lines.specs.Tokens.{all_tokens};
ghost use Rattle.p8_blocks.specs.Files.{IsFileWithinLimits};
ghost use Rattle.p8_tree.specs.declared.faults.Fault.{Fault};
ghost use Rattle.p8_fold.specs.Meanings.{Setting};
ghost use Rattle.p8_kinds.specs.declared.children.Children.{Children};
ghost use Rattle.p8_names.specs.Faults.{IsNameFault};
ghost use Rattle.p8_dat.specs.Blocks.{dat_bytes, IsDatFault};
ghost use Rattle.p8_printed.specs.ReadBack.{source_text, IsLineOf, file_with, start};

/// Law: the text that [`instr_text`](p8_instr::instr_text) gives for a long, as the only line of a source's `DAT`, has tokens, and
/// they are the file with the line of this long. It is no longer than a source may be.
///
/// So [`lex`](p8_lexer::lex) and [`parse`](p8_blocks::parse) give these tokens and this file by their contracts, or answer that there
/// was no memory.
pub fn text_is_read()
    ensures read { (long : ℕ) → long < 2 ^ 32
        → (tokens : List token.Token) × (line : Line) × AreTokens (source_text long) tokens × IsLineOf long line × IsFileWithinLimits (file_with line) (all_tokens (source_text long) tokens) }
    ensures short { (long : ℕ) → long < 2 ^ 32 → length (source_text long) ≤ longest_file }
{}

/// Law: nothing is wrong with the names of this file, whatever its objects would be.
pub fn names_are_good()
    ensures { (long : ℕ) (line : Line) (children : Children) → IsLineOf long line → (f : Fault) → ¬ IsNameFault (file_with line) children false f }
{}

/// Law: whatever names mean, the `DAT` of this file is the four bytes of the long, the lowest first, and nothing is wrong with it.
pub fn line_is_assembled()
    ensures bytes { (base : Setting) (long : ℕ) (line : Line) → IsLineOf long line → long < 2 ^ 32 →
        dat_bytes base start (file_with line) ≡ to_le_bytes w32 long }
    ensures clean { (base : Setting) (long : ℕ) (line : Line) → IsLineOf long line → long < 2 ^ 32 → (f : Fault) → ¬ IsDatFault base start (file_with line) f }
{}
