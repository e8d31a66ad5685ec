// What is written of an expression is read back.

ghost use Rattle.std.specs.Prelude.{◌≡◌, ℕ, IsTrue, List, All};
ghost use Rattle.p8_lexer.specs.declared.token.Token as lexer_token;
ghost use Rattle.p8_tree.specs.Expressions.{Tree};
ghost use Rattle.p8_tree.specs.Forgetting.{IsSameTree};
ghost use Rattle.p8_grammar.specs.Lexemes.{Setting, is_value, allows_index, Token};
ghost use Rattle.p8_grammar.specs.Grammar.{IsExpression};
ghost use Rattle.p8_grammar.specs.Heights.{height};
ghost use Rattle.p8_expr.specs.Words.{lexeme_of_token};
ghost use Rattle.p8_print.specs.Spelled.{Spelled, IsReadable};
ghost use Rattle.p8_printed.specs.Reading.{IsWord};
ghost use Rattle.p8_print.specs.Wording.{words_of, wrapped};
ghost use Rattle.p8_expr.specs.Sources.{AreLexemes};
ghost use Rattle.p8_printed.specs.Lexemes.{lexeme_of_spelled, AreWords, IsInCapitals};

/// The words of an expression that a source can have can be read back, and they are read as the same expression, but
/// for its places.
///
/// They are read so in the same setting, and the expression that is read has the same height. Where a bracket may begin
/// an index, its words need no parentheses around them (`bare`). An action is read so, but no action stands in parentheses.
pub fn expression_reads_back()
    ensures readable { (s : Setting) (e : Tree) (ts : List Token) → IsExpression s e ts → AreLexemes ts → All IsReadable (wrapped e) }
    ensures capitals { (s : Setting) (e : Tree) (ts : List Token) → IsExpression s e ts → AreLexemes ts → All IsInCapitals (wrapped e) }
    ensures same { (s : Setting) (e : Tree) (ts us : List Token) → IsTrue (is_value s) → IsExpression s e ts → AreLexemes ts → AreWords us (wrapped e)
        → (e' : Tree) × IsExpression s e' us × IsSameTree e' e × (height e' ≡ height e) }
    ensures bare { (s : Setting) (e : Tree) (ts us : List Token) → IsTrue (allows_index s) → IsExpression s e ts → AreLexemes ts → AreWords us (words_of e)
        → (e' : Tree) × IsExpression s e' us × IsSameTree e' e × (height e' ≡ height e) }
{}

/// A token of a file that is a written word is to an expression what the word is.
///
/// That written lines have such tokens is said by [`reads_back`](crate::reads_back).
pub fn word_is_lexeme()
    ensures { (bytes : List ℕ) (line column : ℕ) (w : Spelled) (t : lexer_token.Token) → IsReadable w → IsInCapitals w → IsWord bytes line column w t
        → lexeme_of_token bytes t ≡ lexeme_of_spelled w }
{}
