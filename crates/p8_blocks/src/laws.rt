// Laws of reading files.

ghost use Rattle.std.specs.Prelude.{◌≡◌, ◌≢◌, ℕ, ◌↔◌, IsTrue, List, ◌<◌, EachIndex, slice_index};
ghost use Rattle.p8_tree.specs.Proper.{IsProperFile};
ghost use Rattle.p8_grammar.specs.Proper.{AreProper};
ghost use Rattle.p8_tree.specs.declared.places.Place as place;
ghost use Rattle.p8_tree.specs.Sources.{Source};
ghost use Rattle.p8_tree.specs.declared.refusal.Refusal.TheVariants.{TooNested};
ghost use Rattle.p8_tree.specs.Refusals.{refusal_number};
ghost use Rattle.p8_lexer.specs.declared.token.Token as lexer_token;
ghost use Rattle.p8_lexer.specs.Lexing.{AreTokens};
ghost use Rattle.p8_lines.specs.declared.state.LineState.{LineState};
ghost use Rattle.p8_lines.specs.Tokens.{LineToken, terms, all_tokens};
ghost use Rattle.p8_statements.specs.Statements.{kind_of_row};
ghost use Rattle.p8_blocks.specs.Values.{HaveKinds, begins_line};
ghost use Rattle.p8_blocks.specs.Reading.{Answer, source, fault, Parses};
ghost use Rattle.p8_blocks.specs.Files.{IsFileWithinLimits, StopsAt, PassesLimits, PassesAt};
ghost use Rattle.p8_blocks.specs.Refusals.{IsRefused};

/// Each line of a method has a kind that suits the state from which it is read.
fn lines_have_kinds()
    ensures { (q : LineState) → IsTrue (begins_line q) → HaveKinds kind_of_row q }
{
    crate::row_laws::statements_have_kinds();
    crate::row_laws::chain_lines_have_kinds();
    crate::row_laws::loop_ends_have_kinds();
    crate::row_laws::case_items_have_kinds();
}

/// Reading gives a tree exactly where the tokens are a file with that tree, within the limits on heights and on how
/// deep blocks may stand.
pub fn files_are_read()
    ensures { (ts : List LineToken) (s : Source) → Parses ts (source s) ↔ IsFileWithinLimits s ts }
{
    lines_have_kinds();
}

/// Tokens have one answer.
pub fn one_answer()
    ensures { (ts : List LineToken) (a b : Answer) → Parses ts a → Parses ts b → a ≡ b }
{}

/// Each refusal but that of what is too high or too deep stands at the first token up to which no file begins so.
pub fn refusals_stand_first()
    ensures { (ts : List LineToken) (n : ℕ) (p : place.Place) → Parses ts (fault n p) → n ≢ refusal_number TooNested → StopsAt ts n p }
{
    crate::row_laws::constants_have_values();
    crate::row_laws::variables_have_values();
    crate::row_laws::objects_have_values();
    crate::row_laws::data_have_values();
    crate::row_laws::methods_have_values();
    lines_have_kinds();
}

/// A refusal of what is too high or too deep comes where each file that begins with some of the tokens goes past the
/// limits, and stands at the first token of the expression, or of the line of the text.
pub fn refusals_pass_limits()
    ensures passes { (ts : List LineToken) (n : ℕ) (p : place.Place) → Parses ts (fault n p) → n ≡ refusal_number TooNested → PassesLimits ts }
    ensures there { (ts : List LineToken) (n : ℕ) (p : place.Place) → Parses ts (fault n p) → n ≡ refusal_number TooNested → PassesAt ts p }
{
    crate::row_laws::constants_have_values();
    crate::row_laws::variables_have_values();
    crate::row_laws::objects_have_values();
    crate::row_laws::data_have_values();
    crate::row_laws::methods_have_values();
    lines_have_kinds();
}

/// What reading refuses has that refusal: it is told by the files that begin so.
pub fn refusals_are_read()
    ensures { (ts : List LineToken) (n : ℕ) (p : place.Place) → Parses ts (fault n p) → IsRefused ts n p }
{
    crate::row_laws::constants_have_values();
    crate::row_laws::variables_have_values();
    crate::row_laws::objects_have_values();
    crate::row_laws::data_have_values();
    crate::row_laws::methods_have_values();
    lines_have_kinds();
}

/// Tokens have one refusal: one number at one place.
pub fn one_refusal()
    ensures number { (ts : List LineToken) (n k : ℕ) (p q : place.Place) → IsRefused ts n p → IsRefused ts k q → n ≡ k }
    ensures place { (ts : List LineToken) (n k : ℕ) (p q : place.Place) → IsRefused ts n p → IsRefused ts k q → p ≡ q }
{
    crate::row_laws::constants_have_values();
    crate::row_laws::variables_have_values();
    crate::row_laws::objects_have_values();
    crate::row_laws::data_have_values();
    crate::row_laws::methods_have_values();
    lines_have_kinds();
}

/// A file within the limits on heights and depths has no refusal.
pub fn files_are_not_refused()
    ensures { (ts : List LineToken) (s : Source) (n : ℕ) (p : place.Place) → IsFileWithinLimits s ts → ¬ IsRefused ts n p }
{}

/// A file of proper words is proper.
pub fn files_are_proper()
    ensures { (ts : List LineToken) (s : Source) → IsFileWithinLimits s ts → AreProper (terms ts) → IsProperFile s }
{
    crate::row_laws::rows_are_proper();
    p8_declarations::declarations_are_proper();
    p8_statements::kinds_are_proper();
    crate::row_laws::data_are_proper();
}

/// The tokens of a file of bytes are proper words.
pub fn tokens_are_proper()
    ensures { (bytes : List ℕ) (tokens : List lexer_token.Token) → EachIndex bytes (λ i. slice_index bytes i < 256) → AreTokens bytes tokens →
        AreProper (terms (all_tokens bytes tokens)) }
{
    p8_expr::tokens_are_lexemes();
    p8_expr::lexemes_are_proper();
}
