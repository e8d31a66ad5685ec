// The lines that tell why there is nothing to run.
ghost use Rattle.std.specs.Prelude.{◌≡◌, ◌≤◌, ◌/◌, ◌%◌, ◌<◌, ◌++◌, ◌∷◌, [], codes};
ghost use Rattle.std.specs.Fmt.{decimal};
ghost use Rattle.p8_io.specs.Sinks.{Wrote};
ghost use Rattle.p8_image.specs.Messages.{fault_text, hex_digit as hex_digit_of};
ghost use Rattle.p8_inputs.specs.Stops.{refusal_line};

use itoa::Buffer;
use p8_image::LoadFault;
use p8_io::{Sink, write_pieces};
use p8_tree::{Fault, refusal_name};

/// Writes the line of a file that could not be read.
pub fn tell_unread<E: Sink>(file: &[u8], faults: &mut E)
    ensures wrote { Wrote (E.faults faults.old) (E.faults faults.new) (E.taken faults.old) (E.taken faults.new)
        (codes "prop: cannot read " ++ file.now ++ 10 ∷ []) }
    ensures later { E.faults faults.old ≤ E.faults faults.new }
{
    let _ = write_pieces(faults, &[b"prop: cannot read ", file, b"\n"]);
}

/// Writes the line of a file that doesn't exist.
pub fn tell_missing<E: Sink>(file: &[u8], faults: &mut E)
    ensures wrote { Wrote (E.faults faults.old) (E.faults faults.new) (E.taken faults.old) (E.taken faults.new)
        (codes "prop: " ++ file.now ++ codes " is missing" ++ 10 ∷ []) }
    ensures later { E.faults faults.old ≤ E.faults faults.new }
{
    let _ = write_pieces(faults, &[b"prop: ", file, b" is missing", b"\n"]);
}

/// Writes the line of want of memory.
pub fn tell_no_memory<E: Sink>(faults: &mut E)
    ensures wrote { Wrote (E.faults faults.old) (E.faults faults.new) (E.taken faults.old) (E.taken faults.new) (codes "prop: out of memory" ++ 10 ∷ []) }
    ensures later { E.faults faults.old ≤ E.faults faults.new }
{
    let _ = write_pieces(faults, &[b"prop: out of memory", b"\n"]);
}

/// Writes the line of a source and where it is refused, with the digits of the line, the column and the refusal's number.
fn tell_place<'a, E: Sink>(
    file: &'a [u8],
    line: &'a [u8],
    column: &'a [u8],
    number: &'a [u8],
    name: &'a [u8],
    faults: &mut E,
)
    ensures wrote { Wrote (E.faults faults.old) (E.faults faults.new) (E.taken faults.old) (E.taken faults.new)
        (codes "prop: " ++ file.now ++ codes ":" ++ line.now ++ codes ":" ++ column.now ++ codes ": " ++ number.now ++ codes " " ++ name.now ++ 10 ∷ []) }
    ensures later { E.faults faults.old ≤ E.faults faults.new }
{
    let _ = write_pieces(
        faults,
        &[
            b"prop: ", file, b":", line, b":", column, b": ", number, b" ", name, b"\n",
        ],
    );
}

/// Writes the line of a source and where it is refused, by which rule.
pub fn tell_refused<E: Sink>(file: &[u8], fault: Fault, faults: &mut E)
    ensures wrote { Wrote (E.faults faults.old) (E.faults faults.new) (E.taken faults.old) (E.taken faults.new) (refusal_line file.now fault) }
    ensures later { E.faults faults.old ≤ E.faults faults.new }
{
    let mut line = Buffer::new();
    let mut column = Buffer::new();
    let mut digits = Buffer::new();
    tell_place(
        file,
        line.format(fault.place.line).as_bytes(),
        column.format(fault.place.column).as_bytes(),
        digits.format(fault.number).as_bytes(),
        refusal_name(fault.number).as_bytes(),
        faults,
    );
}

/// A digit from 0 to 15, in capitals.
fn hex_digit(digit: u8) -> u8
    requires { digit < 16 }
    ensures { result ∷ [] ≡ hex_digit_of digit }
{
    if digit < 10 {
        b'0' + digit
    } else {
        b'A' - 10 + digit
    }
}

/// Writes the line of a file and its length, which is wrong.
fn tell_length<E: Sink>(file: &[u8], length: usize, faults: &mut E)
    ensures wrote { Wrote (E.faults faults.old) (E.faults faults.new) (E.taken faults.old) (E.taken faults.new)
        (codes "prop: " ++ file.now ++ codes ": length " ++ decimal length ++ 10 ∷ []) }
    ensures later { E.faults faults.old ≤ E.faults faults.new }
{
    let mut digits = Buffer::new();
    let _ = write_pieces(
        faults,
        &[
            b"prop: ",
            file,
            b": length ",
            digits.format(length).as_bytes(),
            b"\n",
        ],
    );
}

/// Writes the line of a file and the sum of its bytes, which is wrong.
fn tell_sum<E: Sink>(file: &[u8], sum: u8, faults: &mut E)
    ensures wrote { Wrote (E.faults faults.old) (E.faults faults.new) (E.taken faults.old) (E.taken faults.new)
        (codes "prop: " ++ file.now ++ codes ": sum " ++ hex_digit_of (sum / 16) ++ hex_digit_of (sum % 16) ++ 10 ∷ []) }
    ensures later { E.faults faults.old ≤ E.faults faults.new }
{
    let digits = [hex_digit(sum / 16), hex_digit(sum % 16)];
    let _ = write_pieces(faults, &[b"prop: ", file, b": sum ", &digits, b"\n"]);
}

/// Writes the line of a file and the place in its header that is wrong, by the place's name.
fn tell_header<E: Sink>(file: &[u8], name: &str, faults: &mut E)
    ensures wrote { Wrote (E.faults faults.old) (E.faults faults.new) (E.taken faults.old) (E.taken faults.new)
        (codes "prop: " ++ file.now ++ codes ": header " ++ name.now ++ 10 ∷ []) }
    ensures later { E.faults faults.old ≤ E.faults faults.new }
{
    let _ = write_pieces(
        faults,
        &[b"prop: ", file, b": header ", name.as_bytes(), b"\n"],
    );
}

/// Writes the line of a file and what is wrong with it.
pub fn tell_bad_program<E: Sink>(file: &[u8], fault: LoadFault, faults: &mut E)
    ensures wrote { Wrote (E.faults faults.old) (E.faults faults.new) (E.taken faults.old) (E.taken faults.new)
        (codes "prop: " ++ file.now ++ codes ": " ++ fault_text fault ++ 10 ∷ []) }
    ensures later { E.faults faults.old ≤ E.faults faults.new }
{
    match fault {
        LoadFault::BadLength { length } => tell_length(file, length, faults),
        LoadFault::BadChecksum { sum } => tell_sum(file, sum, faults),
        LoadFault::BadHeader { field } => tell_header(file, field.name(), faults),
    }
}

/// Writes the line of a pin script with a bad line.
pub fn tell_bad_script<E: Sink>(file: &[u8], line: u32, faults: &mut E)
    ensures wrote { Wrote (E.faults faults.old) (E.faults faults.new) (E.taken faults.old) (E.taken faults.new)
        (codes "prop: " ++ file.now ++ codes ": line " ++ decimal line ++ 10 ∷ []) }
    ensures later { E.faults faults.old ≤ E.faults faults.new }
{
    let mut digits = Buffer::new();
    let _ = write_pieces(
        faults,
        &[
            b"prop: ",
            file,
            b": line ",
            digits.format(line).as_bytes(),
            b"\n",
        ],
    );
}

/// Writes the line of a program of which nothing has a name.
pub fn tell_unnamed<E: Sink>(file: &[u8], name: &[u8], faults: &mut E)
    ensures wrote { Wrote (E.faults faults.old) (E.faults faults.new) (E.taken faults.old) (E.taken faults.new)
        (codes "prop: " ++ file.now ++ codes ": nothing is named " ++ name.now ++ 10 ∷ []) }
    ensures later { E.faults faults.old ≤ E.faults faults.new }
{
    let _ = write_pieces(
        faults,
        &[b"prop: ", file, b": nothing is named ", name, b"\n"],
    );
}
