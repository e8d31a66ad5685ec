// Laws on expressions that are read from a source.
ghost use Rattle.std.specs.Prelude.{ℕ, ◌<◌, ◌≤◌, IsTrue, List, EachIndex, map, slice_index};
ghost use Rattle.p8_tree.specs.Expressions.{Tree};
ghost use Rattle.p8_tree.specs.Proper.{IsProperExpression, IsDone};
ghost use Rattle.p8_lexer.specs.declared.token.Token as lexer_token;
ghost use Rattle.p8_lexer.specs.Lexing.{AreTokens};
ghost use Rattle.p8_grammar.specs.Lexemes.{Setting, in_action, is_value, is_dat, Token};
ghost use Rattle.p8_grammar.specs.Proper.{AreProper};
ghost use Rattle.p8_expr.specs.Words.{token_of};
ghost use Rattle.p8_expr.specs.Parsing.{tree, greatest_height, Parses};
ghost use Rattle.p8_expr.specs.Sources.{AreLexemes};

/// The tokens of a file of bytes are words that a source can have.
pub fn tokens_are_lexemes()
    ensures { (bytes : List ℕ) (tokens : List lexer_token.Token) → EachIndex bytes (λ i. slice_index bytes i < 256) → AreTokens bytes tokens
        → AreLexemes (map (token_of bytes) tokens) }
{}

/// Words that a source can have are proper: an expression that they spell is
/// [so too](p8_grammar::spelled_is_proper).
pub fn lexemes_are_proper()
    ensures { (tokens : List Token) → AreLexemes tokens → AreProper tokens }
{}

/// What is read as an expression from the tokens of a file of bytes is a proper expression, and what is read as an action
/// a proper action.
pub fn read_is_proper()
    ensures value { (s : Setting) (limit : ℕ) (bytes : List ℕ) (tokens : List lexer_token.Token) (at end : ℕ) (e : Tree) → EachIndex bytes (λ i. slice_index bytes i < 256) → AreTokens bytes tokens
        → limit ≤ greatest_height → IsTrue (is_value s) → Parses s limit bytes tokens at (tree e end) → IsProperExpression (is_dat s) e }
    ensures action { (limit : ℕ) (bytes : List ℕ) (tokens : List lexer_token.Token) (at end : ℕ) (e : Tree) → EachIndex bytes (λ i. slice_index bytes i < 256) → AreTokens bytes tokens
        → limit ≤ greatest_height → Parses in_action limit bytes tokens at (tree e end) → IsDone e }
{
    p8_grammar::spelled_is_proper();
}
