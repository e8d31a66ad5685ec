// Each call of the outside fails once.
use crate::calls::{FILES, Failing, Left, MAIN, NOTHING, left_by};
use p8_prop::Status;
use p8_words::NoMemory;
use std::alloc::Global;

/// Words that run the project with a pin script.
const RUN: &str = "run main.spin 97600 --alone --pins a.pins";

/// More writes than a call makes.
const WRITES: u64 = 100;

/// Words, the number of the read that fails, and the line that tells it.
type Unread = (&'static str, u64, &'static str);

static UNREAD: [Unread; 11] = [
    (RUN, 1, "prop: cannot read main.spin\n"),
    (RUN, 2, "prop: cannot read blink.spin\n"),
    (RUN, 3, "prop: cannot read a.pins\n"),
    (
        "check main.spin bad.history",
        3,
        "prop: cannot read bad.history\n",
    ),
    (
        "raw a.pins 1 --pins=a.pins",
        2,
        "prop: cannot read a.pins\n",
    ),
    ("list main.spin", 2, "prop: cannot read blink.spin\n"),
    ("code main.spin", 2, "prop: cannot read blink.spin\n"),
    (
        "page main.spin 1 --pins=a.pins",
        3,
        "prop: cannot read a.pins\n",
    ),
    ("type a.pins 0 100 1", 1, "prop: cannot read a.pins\n"),
    ("convert a.binary", 1, "prop: cannot read a.binary\n"),
    (
        "run bad.spin 1 --alone --pins=bad.pins",
        1,
        "prop: cannot read bad.spin\n",
    ),
];

/// Whether a call tells that its read fails.
fn is_unread(alloc: Global, unread: &Unread) -> Result<bool, NoMemory> {
    let (words, read, line) = *unread;
    let failing = Failing { read, ..NOTHING };
    let left = left_by(alloc, MAIN, &FILES, words, failing)?;
    Ok(left.is_refusal(Status::ShelfFault, line))
}

#[test]
fn tells_the_read_that_fails(rt: HostRuntime) {
    for unread in &UNREAD {
        assert!(rt;
            matches!(is_unread(rt.alloc(), unread), Ok(true)),
            "{}: {}",
            unread.0,
            unread.1
        );
    }
}

/// What the run leaves where the write of this number fails; for 0 none does.
fn left_at(alloc: Global, write: u64) -> Result<Left, NoMemory> {
    let failing = Failing { write, ..NOTHING };
    left_by(alloc, MAIN, &FILES, RUN, failing)
}

/// Whether a write that failed is told, and what was written is a prefix of the whole text.
fn is_cut(left: &Left, whole: &Left) -> bool {
    left.status == Status::SinkFault
        && whole.out.bytes().starts_with(left.out.bytes())
        && left.faults.bytes() == "prop: cannot write\n".as_bytes()
}

/// Whether the run writes a prefix wherever a write fails. It makes as many writes as it takes until one more would fail and none
/// does.
fn writes_prefixes(alloc: Global) -> Result<bool, NoMemory> {
    let whole = left_at(alloc, 0)?;
    let mut all = whole.status == Status::Ok && whole.out.bytes().len() > 500;
    for write in 1..WRITES {
        let left = left_at(alloc, write)?;
        if left.status == Status::Ok {
            return Ok(all);
        }
        all = all && is_cut(&left, &whole);
    }
    Ok(false)
}

#[test]
fn writes_a_prefix_where_a_write_fails(rt: HostRuntime) {
    assert!(rt; matches!(writes_prefixes(rt.alloc()), Ok(true)));
}

/// Words, the numbers of the read and of the write that fail, and the status.
type Untold = (&'static str, u64, u64, Status);

static UNTOLD: [Untold; 8] = [
    ("run", 0, 0, Status::Usage),
    ("build bad.spin", 0, 0, Status::Refused),
    ("build main.spin", 2, 0, Status::ShelfFault),
    ("build none.spin", 0, 0, Status::Missing),
    ("build main.spin", 0, 1, Status::SinkFault),
    ("run bad.binary 1 --alone", 0, 0, Status::BadImage),
    ("raw a.pins 1 --pins bad.pins", 0, 0, Status::BadScript),
    ("check main.spin bad.history", 0, 0, Status::BadHistory),
];

/// Whether a call has its status where its line is not told.
fn is_untold(alloc: Global, untold: &Untold) -> Result<bool, NoMemory> {
    let (words, read, write, status) = *untold;
    let failing = Failing {
        read,
        write,
        told: 1,
    };
    let left = left_by(alloc, MAIN, &FILES, words, failing)?;
    Ok(left.is_refusal(status, ""))
}

#[test]
fn keeps_the_status_where_its_line_is_not_told(rt: HostRuntime) {
    for untold in &UNTOLD {
        assert!(rt;
            matches!(is_untold(rt.alloc(), untold), Ok(true)),
            "{}",
            untold.0
        );
    }
}
