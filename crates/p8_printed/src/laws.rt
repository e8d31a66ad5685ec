// What is printed is read back.

ghost use Rattle.std.specs.Prelude.{◌≡◌, ℕ, ◌<◌, List, EachIndex, slice_index};
ghost use Rattle.p8_tree.specs.Sources.{Source};
ghost use Rattle.p8_tree.specs.Forgetting.{IsSameSource};
ghost use Rattle.p8_lexer.specs.declared.token.Token as token;
ghost use Rattle.p8_lexer.specs.Lexing.{AreTokens};
ghost use Rattle.p8_lines.specs.Tokens.{all_tokens};
ghost use Rattle.p8_blocks.specs.Files.{IsFileWithinLimits};
ghost use Rattle.p8_print.specs.Spelled.{text_of_lines};
ghost use Rattle.p8_print.specs.Layout.{lines_of};
ghost use Rattle.p8_printed.specs.Trees.{IsOfFile};

/// The tree that [`parse`](p8_blocks::parse) gives is one that a file has, at whatever places and of whatever length.
pub fn trees_are_of_files()
    ensures { (bytes : List ℕ) (tokens : List token.Token) (s : Source) → EachIndex bytes (λ i. slice_index bytes i < 256) → AreTokens bytes tokens →
        IsFileWithinLimits s (all_tokens bytes tokens) → IsOfFile s }
{
    p8_expr::tokens_are_lexemes();
}

/// The text of a tree that a file has has tokens, whatever its length, and they are a file with the same tree but for
/// places.
///
/// Where the text has at most 1,048,576 bytes, [`lex`](p8_lexer::lex) and [`parse`](p8_blocks::parse) give the same tree
/// but for places by their contracts, or answer that there was no memory.
pub fn printed_reads_back()
    ensures { (s : Source) → IsOfFile s
        → (tokens : List token.Token) × (s' : Source) × AreTokens (text_of_lines (lines_of s)) tokens × IsFileWithinLimits s' (all_tokens (text_of_lines (lines_of s)) tokens) × IsSameSource s' s }
{
    p8_expr::lexemes_are_proper();
    p8_blocks::files_are_proper();
    crate::proper_laws::proper_reads_back();
}
