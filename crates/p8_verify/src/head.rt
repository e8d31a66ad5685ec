// The head of a history file.
ghost use Rattle.std.specs.Prelude.{◌≡◌, ◌≤◌, IsTrue, ◌↔◌, MatchOption, IfSome, drop, length};
ghost use Rattle.p8_verify.specs.Files.{head_bytes, IsHeadWithin, IsHead, NoHead};

use crate::records::long_bytes;
use byteorder::{ByteOrder, LittleEndian};
use p8_ledger::Limits;

/// How many bytes a head has.
pub const HEAD: usize = 16;

/// The most clocks of a history that is kept in a file.
const MOST_CLOCKS: u32 = 100_000_000;

/// The most turns of a history that is kept in a file, and the greatest limit of its turns.
const MOST_TURNS: u32 = 40_000;

/// What a history file says of its history before its turns.
#[derive(Clone, Copy)]
pub struct HistoryHead {
    /// The limit of the clocks.
    pub clocks: u32,
    /// The limit of the number of turns.
    pub turns: u32,
    /// The number of turns.
    pub count: u32,
}

impl HistoryHead {
    /// The limits of the history.
    pub fn limits(self) -> Limits
        ensures { result ≡ record { clocks = self.clocks; turns = self.turns } }
    {
        Limits {
            clocks: u64::from(self.clocks),
            turns: u64::from(self.turns),
        }
    }

    fn is_within(self) -> bool
        ensures { IsTrue result ↔ IsHeadWithin self }
    {
        self.clocks <= MOST_CLOCKS && self.turns <= MOST_TURNS && self.count <= MOST_TURNS
    }

    /// The 16 bytes of a head.
    pub fn bytes(self) -> [u8; HEAD]
        ensures { result ≡ head_bytes self }
    {
        let [c0, c1, c2, c3] = long_bytes(self.clocks);
        let [t0, t1, t2, t3] = long_bytes(self.turns);
        let [n0, n1, n2, n3] = long_bytes(self.count);
        [
            b'P', b'8', b'H', b'1', c0, c1, c2, c3, t0, t1, t2, t3, n0, n1, n2, n3,
        ]
    }

    /// Whether bytes are this head, with numbers that a head may have.
    fn is_head_of(self, bytes: &[u8]) -> bool
        ensures { IsTrue result ↔ (IsHeadWithin self × (bytes.now ≡ head_bytes self)) }
    {
        self.is_within() && self.bytes().as_slice() == bytes
    }

    /// The head with which these bytes begin; `None` exactly where they begin with none.
    pub fn read(bytes: &[u8]) -> Option<HistoryHead>
        ensures head { MatchOption result (NoHead bytes.now) (λ head. IsHead bytes.now head (drop 16 bytes.now)) }
        ensures length { IfSome result (λ _. 16 ≤ length bytes.now) }
    {
        if bytes.len() < HEAD {
            return None;
        }
        let head = HistoryHead {
            clocks: LittleEndian::read_u32(&bytes[4..]),
            turns: LittleEndian::read_u32(&bytes[8..]),
            count: LittleEndian::read_u32(&bytes[12..]),
        };
        if head.is_head_of(&bytes[..HEAD]) {
            Some(head)
        } else {
            None
        }
    }
}

/// What follows the head with which these bytes begin.
pub fn after_head(bytes: &[u8]) -> &[u8]
    requires { 16 ≤ length bytes.now }
    ensures { result.now ≡ drop 16 bytes.now }
{
    &bytes[HEAD..]
}
