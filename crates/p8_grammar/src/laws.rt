// Laws on the grammar of expressions.
ghost use Rattle.std.specs.Prelude.{◌≡◌, ℕ, ◌<◌, ◌↔◌, ◌++◌, IsTrue, List};
ghost use Rattle.p8_tree.specs.Expressions.{Tree};
ghost use Rattle.p8_tree.specs.Proper.{IsProperTree};
ghost use Rattle.p8_grammar.specs.Lexemes.{Setting, in_action, is_value, is_dat, Token};
ghost use Rattle.p8_grammar.specs.Grammar.{IsExpression, IsFront, IsLongestFront, OneTree};
ghost use Rattle.p8_grammar.specs.Heights.{height, IsTooHigh};
ghost use Rattle.p8_grammar.specs.Proper.{AreProper, IsProperAction};

/// Tokens spell at most one tree: the function does nothing, and its contract is the law.
pub fn one_tree()
    ensures { OneTree }
{}

/// What begins an expression's beginning begins an expression, so the longest run is found by taking
/// a token at a time.
pub fn fronts_begin_fronts()
    ensures { (s : Setting) (ts us : List Token) → IsFront s (ts ++ us) → IsFront s ts }
{}

/// Tokens have one longest run that begins an expression.
pub fn one_longest_front()
    ensures { (s : Setting) (ts : List Token) (n m : ℕ) → IsLongestFront s ts n → IsLongestFront s ts m → n ≡ m }
{}

/// An expression is higher than n exactly where each expression that begins with it is.
pub fn height_shows()
    ensures { (s : Setting) (n : ℕ) (ts : List Token) (e : Tree) → IsExpression s e ts → (IsTooHigh s n ts ↔ n < height e) }
{}

/// A tree that proper words spell is proper, of a value as of an action: the texts and the numbers in the words are the
/// only condition.
pub fn spelled_is_proper()
    ensures value { (s : Setting) (ts : List Token) (e : Tree) → IsTrue (is_value s) → IsExpression s e ts → AreProper ts → IsProperTree (is_dat s) e }
    ensures action { (ts : List Token) (e : Tree) → IsExpression in_action e ts → AreProper ts → IsProperAction e }
{}
