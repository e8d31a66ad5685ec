// Places in a source.

ghost use Rattle.std.specs.Prelude.{◌≡◌, ◌+◌, ◌*◌, ◌^◌, ◌<◌, ◌≤◌, length};
ghost use Rattle.p8_lexer.specs.Places.{behind, place_of};

use crate::characters::Characters;
use p8_tree::Place;

/// Where a text begins.
pub const START: Place = Place { line: 1, column: 1 };

/// The place after a character that stands at a place, after another character: lines end at LF, CR LF or CR, and a tab goes to the next column
/// of the form 8k + 1.
pub fn behind(before: u8, place: Place, c: u8) -> Place
    requires line { place.line < 2 ^ 31 }
    requires counted { 1 ≤ place.column }
    requires column { place.column < 2 ^ 31 }
    ensures place { result ≡ behind before place c }
    ensures line { result.line ≤ place.line + 1 }
    ensures counted { 1 ≤ result.column }
    ensures column { result.column ≤ place.column + 8 }
{
    let Place { line, column } = place;
    match c {
        b'\n' if before == b'\r' => place,
        b'\n' | b'\r' => Place {
            line: line + 1,
            column: 1,
        },
        b'\t' => Place {
            line,
            column: (column - 1) / 8 * 8 + 9,
        },
        _ => Place {
            line,
            column: column + 1,
        },
    }
}

/// The place of one character of a text, from that of an earlier one.
pub fn place_at(text: &Characters, from: usize, to: usize, place: Place) -> Place
    requires ordered { from ≤ to }
    requires within { to ≤ length text.now }
    requires short { length text.now ≤ 2 ^ 20 }
    requires known { place ≡ place_of text.now from }
    ensures { result ≡ place_of text.now to }
{
    let mut place = place;
    let mut before = if from == 0 { 0 } else { text.at(from - 1) };
    for i in from..to {
        let c = text.at(i);
        place = behind(before, place, c);
        before = c;
    }
    place
}
