// Comments in braces.

ghost use Rattle.std.specs.Prelude.{◌≡◌, ◌≢◌, ◌<◌, length, slice_index};
ghost use Rattle.p8_lexer.specs.Lexing.{Is};
ghost use Rattle.p8_lexer.specs.Cutting.{IsLongest};
ghost use Rattle.p8_lexer.specs.declared.piece.PieceKind.TheVariants as piece;

use crate::characters::Characters;

/// Where a comment ends that begins a text with one brace; None where it isn't closed.
pub fn comment_end(text: &Characters) -> Option<usize>
    requires within { 0 < length text.now }
    requires brace { slice_index text.now 0 ≡ 123 }
    requires alone { slice_index text.now 1 ≢ 123 }
    ensures { IsLongest (Is piece.Comment text.now) (length text.now) result }
{
    let mut depth = 1usize;
    let mut i = 1;
    'characters: while i < text.len() {
        let c = text.at(i);
        if c == b'{' {
            depth += 1;
        } else if c == b'}' {
            if depth == 1 {
                return Some(i + 1);
            }
            depth -= 1;
        }
        i += 1;
    }
    None
}

/// Where a comment ends that begins a text with two braces; None where it isn't closed.
pub fn doc_comment_end(text: &Characters) -> Option<usize>
    requires within { 1 < length text.now }
    requires first { slice_index text.now 0 ≡ 123 }
    requires second { slice_index text.now 1 ≡ 123 }
    ensures { IsLongest (Is piece.DocComment text.now) (length text.now) result }
{
    let last = text.len() - 1;
    for i in 2..last {
        if text.at(i) == b'}' && text.at(i + 1) == b'}' {
            return Some(i + 2);
        }
    }
    None
}
