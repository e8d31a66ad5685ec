// Proper trees are printed and read back.

ghost use Rattle.std.specs.Prelude.{◌≡◌, IsTrue, List};
ghost use Rattle.p8_tree.specs.Expressions.{Tree};
ghost use Rattle.p8_tree.specs.Sources.{Source};
ghost use Rattle.p8_tree.specs.Forgetting.{IsSameTree, IsSameSource};
ghost use Rattle.p8_tree.specs.Proper.{IsProperTree, IsDone, IsProperFile};
ghost use Rattle.p8_lexer.specs.declared.token.Token as token;
ghost use Rattle.p8_lexer.specs.Lexing.{AreTokens};
ghost use Rattle.p8_grammar.specs.Lexemes.{Setting, in_action, is_value, allows_index, is_dat, Token};
ghost use Rattle.p8_grammar.specs.Grammar.{IsExpression};
ghost use Rattle.p8_expr.specs.Sources.{AreLexemes};
ghost use Rattle.p8_lines.specs.Tokens.{all_tokens};
ghost use Rattle.p8_blocks.specs.Files.{IsFileWithinLimits};
ghost use Rattle.p8_print.specs.Spelled.{text_of_lines};
ghost use Rattle.p8_print.specs.Layout.{lines_of};

/// Each proper expression, and each proper action, is, but for its places, one that tokens of a source spell.
///
/// An expression is so in each setting of values in which a bracket may begin an index: in methods, in declarations and
/// in `DAT`.
pub fn expressions_are_spelled()
    ensures value { (s : Setting) (e : Tree) → IsTrue (allows_index s) → IsTrue (is_value s) → IsProperTree (is_dat s) e
        → (e' : Tree) × (tokens : List Token) × IsExpression s e' tokens × AreLexemes tokens × IsSameTree e' e }
    ensures action { (e : Tree) → IsDone e
        → (e' : Tree) × (tokens : List Token) × IsExpression in_action e' tokens × AreLexemes tokens × IsSameTree e' e }
{}

/// What is printed of a tree doesn't depend on its places.
pub fn places_are_not_printed()
    ensures { (s s' : Source) → IsSameSource s s' → lines_of s ≡ lines_of s' }
{}

/// The text of a proper tree, as [`print_tree`](p8_print::print_tree) writes it, has tokens, whatever its length, and they
/// are a file with the same tree but for places.
///
/// So each proper tree is, but for places, one that a file has. Where the text has at most 1,048,576 bytes,
/// [`lex`](p8_lexer::lex) and [`parse`](p8_blocks::parse) give the same tree but for places by their contracts, or answer
/// that there was no memory.
pub fn proper_reads_back()
    ensures { (s : Source) → IsProperFile s
        → (tokens : List token.Token) × (s' : Source) × AreTokens (text_of_lines (lines_of s)) tokens × IsFileWithinLimits s' (all_tokens (text_of_lines (lines_of s)) tokens) × IsSameSource s' s }
{}
