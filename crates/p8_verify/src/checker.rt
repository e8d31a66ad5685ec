// The checker of history files.
ghost use Rattle.std.specs.Prelude.{◌≡◌, ℕ, IfOk};
ghost use Rattle.p8_access.specs.Proper.{IsProperOrigin};
ghost use Rattle.p8_verify.specs.declared.verdicts.Verdict.{Verdict};
ghost use Rattle.p8_verify.specs.declared.verdicts.Verdict.TheVariants.{Good};
ghost use Rattle.p8_verify.specs.declared.checker.VerifyFault.TheVariants.{NoMemory as OutOfMemory};
ghost use Rattle.p8_verify.specs.Verdicts.{IsVerdict, IsEndedFile};
ghost use Rattle.p8_verify.specs.Answers.{Tells, Gives};

use crate::verdicts::{Cause, Verdict, verdict_on};
use p8_access::Boot;
use p8_pins::PinScript;
use p8_words::NoMemory;
use std::alloc::Global;

/// Why a file wasn't found to be that of an ended history.
#[derive(Clone, Copy, Debug, PartialEq, Eq)]
pub enum VerifyFault {
    /// It is another file: this turn is the first of which that can be said, with the cause. Turns are counted from 1
    /// on, and 0 stands for the head.
    Bad { turn: u64, cause: Cause },
    /// There was no memory.
    NoMemory,
}

impl From<NoMemory> for VerifyFault {
    ghost from_gives = { λ _ given. given ≡ OutOfMemory };

    fn from(_: NoMemory) -> VerifyFault {
        VerifyFault::NoMemory
    }
}

/// Checks that a file is the history of a boot and a pin script that has ended, within the limits of the file's
/// head, and tells the number of its turns.
///
/// It is refused at the first turn at which it isn't that file: for its form where any part of it has a wrong one,
/// else for what a machine does in that turn's place. The cause tells what differs first. The only other error is
/// want of memory.
pub fn verify(
    alloc: Global,
    boot: Boot,
    script: PinScript,
    bytes: &[u8],
) -> Result<u64, VerifyFault>
    requires { IsProperOrigin boot.first }

    // What is told is the verdict on the file, which has no other.
    ensures verdict { Tells boot script bytes.now result }
    ensures only { (verdict : Verdict) → IsVerdict boot script bytes.now verdict → Gives result verdict }

    // It is good exactly where the file is that of the ended history.
    ensures good { IfOk result (IsEndedFile boot script bytes.now) }
    ensures each { (count : ℕ) → IsEndedFile boot script bytes.now count → Gives result (Good count) }
{
    match verdict_on(alloc, boot, script, bytes)? {
        Verdict::Good(count) => Ok(count),
        Verdict::Bad { turn, cause } => Err(VerifyFault::Bad { turn, cause }),
    }
}
