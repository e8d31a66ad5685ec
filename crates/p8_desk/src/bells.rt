// The bells by which the threads of passes wake one another.
//
// A thread that gets an answer which names another cog rings that cog's bell: it comes next until it has said something or
// made a turn, so nobody else has to ring for it. A thread whose cog doesn't come next, and whose life has nothing to do
// meanwhile, sleeps at its bell until it is rung. It stills the bell before it tries again, so what a ring was for before that
// is seen by the try. It never yields: a thread that yields gives up its share of a busy processor each time.
ghost use Rattle.std.specs.Prelude.{◌≡◌, ◌<◌, ◌+◌, ◌*◌};

use crate::rule::{Board, Place, Rings};
use crate::turned::Turned;
use std::sync::Wait;
use std::time::Duration;

/// How many words the table has: the lock word, the count of turns, and a bell for each cog.
pub const WORDS: usize = 72;

/// The bell wasn't rung since its thread stilled it.
const STILL: u64 = 0;

/// The bell was rung: its thread is to try again.
const RUNG: u64 = 1;

/// The bell is still, and its thread sleeps there.
const ASLEEP: u64 = 2;

/// How many microseconds a thread sleeps at most whose cog doesn't come next, or that finds the lock word held. Then it looks again,
/// since no clause says that a bell is rung. A shorter sleep would cost more: each one sets a timer of the system.
const SLEEP: u64 = 10_000;

/// How often a thread looks at a lock word that it has found held, before it sleeps.
const LOOKS: u32 = 200;

/// The word of a cog's bell. No two bells lie in one cache line, so that a thread that looks at its own disturbs no other.
fn bell_of(cog: u8) -> usize
    ensures { result ≡ 8 + 8 * cog }
{
    8 + 8 * cog as usize
}

/// Rings the bell of a cog, and wakes its thread if it sleeps there. It waits for nobody.
pub fn ring(board: &Board, seat: &mut Place, cog: u8)
    requires own { (seat.old.table_id ≡ board.now.table_id) × (board.now.table_id.words ≡ 72) × (cog < 8) }
    ensures own { (seat.new.table_id ≡ seat.old.table_id) × (seat.new.id ≡ seat.old.id) }
    ensures same { seat.new.me ≡ seat.old.me }
{
    let bell = bell_of(cog);
    if board.peek(bell) != RUNG && board.swap::<Rings>(seat, bell, RUNG) == ASLEEP {
        board.wake_one(bell);
    }
}

/// Rings all bells.
pub fn ring_all(board: &Board, seat: &mut Place)
    requires own { (seat.old.table_id ≡ board.now.table_id) × (board.now.table_id.words ≡ 72) }
    ensures own { (seat.new.table_id ≡ seat.old.table_id) × (seat.new.id ≡ seat.old.id) }
    ensures same { seat.new.me ≡ seat.old.me }
{
    for cog in 0..8u8 {
        ring(board, seat, cog);
    }
}

/// Waits at the bell of a cog: asleep until it is rung, or ten milliseconds are over. The bell is still afterwards.
fn wait_at_bell<R: Wait>(rt: &R, board: &Board, seat: &mut Place, cog: u8)
    requires own { (seat.old.table_id ≡ board.now.table_id) × (board.now.table_id.words ≡ 72) × (cog < 8) }
    ensures own { (seat.new.table_id ≡ seat.old.table_id) × (seat.new.id ≡ seat.old.id) }
    ensures same { seat.new.me ≡ seat.old.me }
{
    let bell = bell_of(cog);
    if board.compare_exchange::<Rings>(seat, bell, STILL, ASLEEP) == STILL {
        board.park_timeout(rt, bell, ASLEEP as u32, Duration::from_micros(SLEEP));
    }
    board.store::<Rings>(seat, bell, STILL);
}

/// Waits while the pass of the cog `by` has the lock word: for a moment awake, since a turn is short, and then at the bell of the
/// cog `cog`, which is rung once that cog comes next.
fn wait_for_lock<R: Wait>(rt: &R, board: &Board, seat: &mut Place, cog: u8, by: u8)
    requires own { (seat.old.table_id ≡ board.now.table_id) × (board.now.table_id.words ≡ 72) × (cog < 8) }
    ensures own { (seat.new.table_id ≡ seat.old.table_id) × (seat.new.id ≡ seat.old.id) }
    ensures same { seat.new.me ≡ seat.old.me }
{
    for _ in 0..LOOKS {
        if board.peek(0) != u64::from(by) + 1 {
            return;
        }
    }
    wait_at_bell(rt, board, seat, cog);
}

/// Waits after a try that was answered so: while another cog's pass has the desk, or while another cog comes next and the life of
/// the cog is idle.
pub fn wait_after<R: Wait>(
    rt: &R,
    board: &Board,
    seat: &mut Place,
    cog: u8,
    answer: Turned,
    idle: bool,
)
    requires own { (seat.old.table_id ≡ board.now.table_id) × (board.now.table_id.words ≡ 72) × (cog < 8) }
    ensures own { (seat.new.table_id ≡ seat.old.table_id) × (seat.new.id ≡ seat.old.id) }
    ensures same { seat.new.me ≡ seat.old.me }
{
    match answer {
        Turned::Held { by } => wait_for_lock(rt, board, seat, cog, by),
        Turned::After { .. } if idle => wait_at_bell(rt, board, seat, cog),
        _ => {}
    }
}
