// What is written is read back.

ghost use Rattle.std.specs.Prelude.{◌≡◌, ◌≢◌, ◌+◌, ◌≤◌, ℕ, List, length, All};
ghost use Rattle.p8_lexer.specs.declared.token.Token as token;
ghost use Rattle.p8_tree.specs.declared.faults.Fault.{Fault};
ghost use Rattle.p8_lexer.specs.Lexing.{longest_file, AreTokens, IsFault};
ghost use Rattle.p8_print.specs.Spelled.{SpelledLine, IsReadableLine, text_of_lines};
ghost use Rattle.p8_printed.specs.Reading.{column_behind, AreRead};

/// The text of lines of readable words has tokens, whatever its length, and they are these words and nothing else.
///
/// With the contract of [`lex`](p8_lexer::lex), each of its answers on such a text of at most 1,048,576 bytes is these
/// tokens, or that there was no memory.
pub fn reads_back()
    ensures read { (lines : List SpelledLine) → All IsReadableLine lines
        → (tokens : List token.Token) × AreTokens (text_of_lines lines) tokens × AreRead (text_of_lines lines) lines tokens }
    ensures only { (lines : List SpelledLine) (tokens : List token.Token) → All IsReadableLine lines
        → AreTokens (text_of_lines lines) tokens → AreRead (text_of_lines lines) lines tokens }
    ensures accepted { (lines : List SpelledLine) (fault : Fault) → All IsReadableLine lines
        → length (text_of_lines lines) ≤ longest_file → ¬ IsFault (text_of_lines lines) fault }
{}

/// Where no character in front of a word is a tab, its column is 1 and the number of these characters.
pub fn plain_columns()
    ensures { (column : ℕ) (characters : List ℕ) → All (λ c. c ≢ 9) characters
        → column_behind column characters ≡ column + length characters }
{}
