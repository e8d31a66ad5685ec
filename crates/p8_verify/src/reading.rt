// The turn that a record may be of.
ghost use Rattle.std.specs.Prelude.{◌≡◌, ◌<◌, ◌≤◌, ◌^◌, ◌%◌, length};
ghost use Rattle.p8_verify.specs.Reading.{width_by, target_by, origin_by, test_by, reason_by, access_by, answer_by, turn_by};

use crate::table::{AccessFields, AnswerFields};
use byteorder::{ByteOrder, LittleEndian};
use p8_access::{Access, Answer, Key, Origin, Reason, Test, Turn, Width};

/// The last 16 bits of a number.
fn low_word(number: u32) -> u16
    ensures { result ≡ number % 65536 }
{
    (number % 65_536) as u16
}

/// The last eight bits of a number.
fn low_byte(number: u32) -> u8
    ensures { result ≡ number % 256 }
{
    (number % 256) as u8
}

fn width_by(extra: u8) -> Width
    ensures { result ≡ width_by extra }
{
    match extra {
        0 => Width::Byte,
        1 => Width::Word,
        _ => Width::Long,
    }
}

fn target_by(extra: u8) -> Option<u8>
    ensures { result ≡ target_by extra }
{
    (extra != 255).then_some(extra)
}

fn origin_by(fields: &AccessFields) -> Origin
    ensures { result ≡ origin_by fields.now }
{
    let first = low_word(fields.a);
    let second = (fields.a / 65_536) as u16;
    if fields.c < 65_536 {
        return Origin::Pasm {
            code: first,
            par: second,
        };
    }
    Origin::Spin {
        entry: first,
        pbase: second,
        vbase: low_word(fields.b),
        frame: (fields.b / 65_536) as u16,
        size: low_word(fields.c),
    }
}

fn test_by(fields: &AccessFields) -> Test
    ensures { result ≡ test_by fields.now }
{
    match fields.extra {
        0 => Test::Count { target: fields.a },
        1 => Test::PinsEqual {
            state: fields.a,
            mask: fields.b,
        },
        _ => Test::PinsDiffer {
            state: fields.a,
            mask: fields.b,
        },
    }
}

fn reason_by(fields: &AccessFields) -> Reason
    ensures { result ≡ reason_by fields.now }
{
    match fields.extra {
        0 => Reason::Opcode(fields.a),
        1 => Reason::Register(low_word(fields.a)),
        2 => Reason::Rom(low_word(fields.a)),
        3 => Reason::Byte(low_word(fields.a)),
        4 => Reason::Deep,
        5 => Reason::Stack,
        6 => Reason::Under,
        7 => Reason::Table,
        8 => Reason::Port,
        _ => Reason::Reset,
    }
}

fn access_by(fields: &AccessFields) -> Access
    ensures { result ≡ access_by fields.now }
{
    match fields.kind {
        0 => Access::Begin,
        1 => Access::Load,
        2 => Access::Read {
            width: width_by(fields.extra),
            address: low_word(fields.a),
        },
        3 => Access::Write {
            width: width_by(fields.extra),
            address: low_word(fields.a),
            value: fields.b,
        },
        4 => Access::CogId,
        5 => Access::CogInit {
            target: target_by(fields.extra),
            origin: origin_by(fields),
        },
        6 => Access::CogStop {
            cog: low_byte(fields.a),
        },
        7 => Access::LockNew,
        8 => Access::LockRet {
            lock: low_byte(fields.a),
        },
        9 => Access::LockSet {
            lock: low_byte(fields.a),
        },
        10 => Access::LockClr {
            lock: low_byte(fields.a),
        },
        11 => Access::ClkSet {
            mode: low_byte(fields.a),
        },
        12 => Access::PinsIn,
        13 => Access::OutSet { value: fields.a },
        14 => Access::DirSet { value: fields.a },
        15 => Access::Wait {
            test: test_by(fields),
        },
        16 => Access::Clock,
        _ => Access::Halt {
            reason: reason_by(fields),
        },
    }
}

fn answer_by(fields: AnswerFields) -> Answer
    ensures { result ≡ answer_by fields }
{
    match fields.kind {
        0 => Answer::Done,
        1 => Answer::Value(fields.value),
        2 => Answer::Number(Some(low_byte(fields.value))),
        3 => Answer::Number(None),
        4 => Answer::Was(false),
        _ => Answer::Was(true),
    }
}

/// The turn of the record with which these bytes begin, where they begin with one.
pub fn turn_by(bytes: &[u8]) -> Turn
    requires { 24 ≤ length bytes.now }
    ensures turn { result ≡ turn_by bytes.now }
    ensures clock { result.key.clock < 2 ^ 32 }
{
    let access = AccessFields {
        kind: bytes[5],
        extra: bytes[7],
        a: LittleEndian::read_u32(&bytes[8..]),
        b: LittleEndian::read_u32(&bytes[12..]),
        c: LittleEndian::read_u32(&bytes[16..]),
    };
    let answer = AnswerFields {
        kind: bytes[6],
        value: LittleEndian::read_u32(&bytes[20..]),
    };
    Turn {
        key: Key {
            clock: u64::from(LittleEndian::read_u32(bytes)),
            cog: bytes[4],
        },
        access: access_by(&access),
        answer: answer_by(answer),
    }
}
