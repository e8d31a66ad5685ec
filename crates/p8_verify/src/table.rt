// The record of a turn: which numbers stand for its access and its answer.
ghost use Rattle.std.specs.Prelude.{◌≡◌};
ghost use Rattle.p8_access.specs.Proper.{IsProper};
ghost use Rattle.p8_verify.specs.Halts.{IsProperReason, IsProperHalt};
ghost use Rattle.p8_ledger.specs.Turns.{HasNumber};
ghost use Rattle.p8_verify.specs.Table.{IsOriginWithin, IsTestWithin, IsReasonWithin, IsAccessWithin, IsAnswerWithin, fields, width_number};
ghost use Rattle.p8_verify.specs.Table.{target_number, pair, start_fields, test_fields, reason_fields, access_fields, answer_fields};

use p8_access::{Access, Answer, Origin, Reason, Test, Width};

/// The numbers of an access in a record.
#[derive(Clone, Copy)]
pub struct AccessFields {
    /// Its place among the kinds of access.
    pub kind: u8,
    /// A width, a target, or which kind of wait or halt it is.
    pub extra: u8,
    pub a: u32,
    pub b: u32,
    pub c: u32,
}

/// The numbers of an answer in a record.
#[derive(Clone, Copy)]
pub struct AnswerFields {
    /// Its place among the kinds of answer.
    pub kind: u8,
    pub value: u32,
}

/// In place of the number of a cog: the lowest one that is stopped.
const NO_TARGET: u8 = 255;

impl AccessFields {
    fn new(kind: u8, extra: u8, a: u32, b: u32, c: u32) -> AccessFields
        ensures { result ≡ fields kind extra a b c }
    {
        AccessFields {
            kind,
            extra,
            a,
            b,
            c,
        }
    }

    /// An access that names nothing.
    fn plain(kind: u8) -> AccessFields
        ensures { result ≡ fields kind 0 0 0 0 }
    {
        AccessFields::new(kind, 0, 0, 0, 0)
    }

    /// An access that names a number alone.
    fn with(kind: u8, a: u32) -> AccessFields
        ensures { result ≡ fields kind 0 a 0 0 }
    {
        AccessFields::new(kind, 0, a, 0, 0)
    }

    fn of_start(target: Option<u8>, origin: Origin) -> AccessFields
        ensures fields { result ≡ start_fields (target_number target) origin }
        ensures within { IsOriginWithin origin }
    {
        let extra = target.unwrap_or(NO_TARGET);
        match origin {
            Origin::Pasm { code, par } => AccessFields::new(5, extra, pair(code, par), 0, 0),
            Origin::Spin {
                entry,
                pbase,
                vbase,
                frame,
                size,
            } => AccessFields::new(
                5,
                extra,
                pair(entry, pbase),
                pair(vbase, frame),
                pair(size, 1),
            ),
        }
    }

    fn of_wait(test: Test) -> AccessFields
        ensures fields { result ≡ test_fields test }
        ensures within { IsTestWithin test }
    {
        match test {
            Test::Count { target } => AccessFields::new(15, 0, target, 0, 0),
            Test::PinsEqual { state, mask } => AccessFields::new(15, 1, state, mask, 0),
            Test::PinsDiffer { state, mask } => AccessFields::new(15, 2, state, mask, 0),
        }
    }

    fn of_halt(reason: Reason) -> AccessFields
        ensures fields { result ≡ reason_fields reason }
        ensures within { IsProperReason reason → IsReasonWithin reason }
    {
        match reason {
            Reason::Opcode(long) => AccessFields::new(17, 0, long, 0, 0),
            Reason::Register(register) => AccessFields::new(17, 1, u32::from(register), 0, 0),
            Reason::Rom(address) => AccessFields::new(17, 2, u32::from(address), 0, 0),
            Reason::Byte(address) => AccessFields::new(17, 3, u32::from(address), 0, 0),
            Reason::Deep => AccessFields::new(17, 4, 0, 0, 0),
            Reason::Stack => AccessFields::new(17, 5, 0, 0, 0),
            Reason::Under => AccessFields::new(17, 6, 0, 0, 0),
            Reason::Table => AccessFields::new(17, 7, 0, 0, 0),
            Reason::Port => AccessFields::new(17, 8, 0, 0, 0),
            Reason::Reset => AccessFields::new(17, 9, 0, 0, 0),
        }
    }

    /// The numbers of an access.
    pub fn of(access: Access) -> AccessFields
        ensures fields { result ≡ access_fields access }
        ensures within { IsProper access → IsProperHalt access → IsAccessWithin access }
    {
        match access {
            Access::Begin => AccessFields::plain(0),
            Access::Load => AccessFields::plain(1),
            Access::Read { width, address } => {
                AccessFields::new(2, width_number(width), u32::from(address), 0, 0)
            }
            Access::Write {
                width,
                address,
                value,
            } => AccessFields::new(3, width_number(width), u32::from(address), value, 0),
            Access::CogId => AccessFields::plain(4),
            Access::CogInit { target, origin } => AccessFields::of_start(target, origin),
            Access::CogStop { cog } => AccessFields::with(6, u32::from(cog)),
            Access::LockNew => AccessFields::plain(7),
            Access::LockRet { lock } => AccessFields::with(8, u32::from(lock)),
            Access::LockSet { lock } => AccessFields::with(9, u32::from(lock)),
            Access::LockClr { lock } => AccessFields::with(10, u32::from(lock)),
            Access::ClkSet { mode } => AccessFields::with(11, u32::from(mode)),
            Access::PinsIn => AccessFields::plain(12),
            Access::OutSet { value } => AccessFields::with(13, value),
            Access::DirSet { value } => AccessFields::with(14, value),
            Access::Wait { test } => AccessFields::of_wait(test),
            Access::Clock => AccessFields::plain(16),
            Access::Halt { reason } => AccessFields::of_halt(reason),
        }
    }
}

impl AnswerFields {
    /// The numbers of an answer.
    pub fn of(answer: Answer) -> AnswerFields
        ensures fields { result ≡ answer_fields answer }
        ensures within { HasNumber answer → IsAnswerWithin answer }
    {
        let (kind, value) = match answer {
            Answer::Done => (0, 0),
            Answer::Value(value) => (1, value),
            Answer::Number(Some(number)) => (2, u32::from(number)),
            Answer::Number(None) => (3, 0),
            Answer::Was(false) => (4, 0),
            Answer::Was(true) => (5, 0),
        };
        AnswerFields { kind, value }
    }
}

fn width_number(width: Width) -> u8
    ensures { result ≡ width_number width }
{
    match width {
        Width::Byte => 0,
        Width::Word => 1,
        Width::Long => 2,
    }
}

/// Two words in a long.
fn pair(low: u16, high: u16) -> u32
    ensures { result ≡ pair low high }
{
    u32::from(low) + 65_536 * u32::from(high)
}
