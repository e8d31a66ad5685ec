// The text of an access with its answer, in a line.
ghost use Rattle.std.specs.Prelude.{◌≡◌, ◌≤◌, ◌+◌, ◌++◌, List, codes, length, take};
ghost use Rattle.std.specs.Fmt.{decimal};
ghost use Rattle.p8_instr.specs.Numerals.{hex};
ghost use Rattle.p8_access.specs.declared.order.Turn.{Turn};
ghost use Rattle.p8_access.specs.Worlds.{World};
ghost use Rattle.p8_access.specs.Hub.{cog_state, origin_of};
ghost use Rattle.p8_report.specs.Origins.{AreOrigins};
ghost use Rattle.p8_report.specs.Text.{number_text, previous_text, width_text, digits_of, code_of, parameter_of, kind_text, test_text, reason_text};
ghost use Rattle.p8_report.specs.Text.{access_text};

use crate::line::{
    PAGE, write_byte, write_decimal, write_long, write_number, write_text, write_word,
};
use crate::origins::Origins;
use crate::words::{code_in, kind_name, parameter_in, value_in};
use p8_access::{Access, Answer, Origin, Reason, Test, Width};
use p8_instr::register_digits;

/// A text, and where a cog's code begins, with PAR or the frame.
fn write_origin(page: &mut [u8; PAGE], at: usize, text: &[u8], origin: &Origin) -> usize
    requires { at + length text.now + 9 ≤ 4096 }
    ensures end { result ≡ at + length text.now + 9 }
    ensures text { take result page.new ≡ take at page.old ++ (text.now ++ hex 4 (code_of origin.now) ++ codes " " ++ hex 4 (parameter_of origin.now)) }
{
    let at = write_word(page, at, text, code_in(origin) as u32);
    write_word(page, at, b" ", parameter_in(origin) as u32)
}

/// A read or a write: its word, its width, the address, and the value in the digits of the width.
#[inline(always)]
fn write_move(
    page: &mut [u8; PAGE],
    at: usize,
    word: &[u8],
    width: Width,
    address: u16,
    value: u32,
) -> usize
    requires { at + length word.now + 18 ≤ 4096 }
    ensures end { result ≤ at + length word.now + 18 }
    ensures text { take result page.new ≡ take at page.old ++
        (word.now ++ width_text width ++ codes " " ++ hex 4 address ++ codes " " ++ hex (digits_of width) value) }
{
    let at = write_text(page, at, word);
    match width {
        Width::Byte => {
            let at = write_word(page, at, b"byte ", address as u32);
            write_byte(page, at, b" ", value)
        }
        Width::Word => {
            let at = write_word(page, at, b"word ", address as u32);
            write_word(page, at, b" ", value)
        }
        Width::Long => {
            let at = write_word(page, at, b"long ", address as u32);
            write_long(page, at, b" ", value)
        }
    }
}

/// A word, and the number of a cog or a lock.
fn write_numbered(page: &mut [u8; PAGE], at: usize, word: &[u8], number: u8) -> usize
    requires { at + length word.now + 3 ≤ 4096 }
    ensures end { result ≤ at + length word.now + 3 }
    ensures text { take result page.new ≡ take at page.old ++ (word.now ++ decimal number) }
{
    let at = write_text(page, at, word);
    write_number(page, at, number)
}

/// The number of a cog or a lock in an answer, or `none`.
fn write_answered(page: &mut [u8; PAGE], at: usize, word: &[u8], answer: Answer) -> usize
    requires { at + length word.now + 4 ≤ 4096 }
    ensures end { result ≤ at + length word.now + 4 }
    ensures text { take result page.new ≡ take at page.old ++ (word.now ++ number_text answer) }
{
    let at = write_text(page, at, word);
    match answer {
        Answer::Number(Some(number)) => write_number(page, at, number),
        Answer::Number(None) | Answer::Done | Answer::Value(_) | Answer::Was(_) => {
            write_text(page, at, b"none")
        }
    }
}

/// A start of a cog: which one, the kind of its code, and where that begins.
fn write_start(page: &mut [u8; PAGE], at: usize, origin: &Origin, answer: Answer) -> usize
    requires { at + 27 ≤ 4096 }
    ensures end { result ≤ at + 27 }
    ensures text { take result page.new ≡ take at page.old ++
        (codes "coginit " ++ number_text answer ++ codes " " ++ kind_text origin.now ++ codes " " ++ hex 4 (code_of origin.now) ++ codes " " ++
        hex 4 (parameter_of origin.now)) }
{
    let at = write_answered(page, at, b"coginit ", answer);
    let at = write_text(page, at, b" ");
    let at = write_text(page, at, kind_name(origin));
    write_origin(page, at, b" ", origin)
}

/// A word, a lock, and the lock's previous state, 0 or 1.
fn write_lock(page: &mut [u8; PAGE], at: usize, word: &[u8], lock: u8, answer: Answer) -> usize
    requires { at + length word.now + 5 ≤ 4096 }
    ensures end { result ≤ at + length word.now + 5 }
    ensures text { take result page.new ≡ take at page.old ++ (word.now ++ decimal lock ++ codes " " ++ previous_text answer) }
{
    let at = write_numbered(page, at, word, lock);
    let at = write_text(page, at, b" ");
    match answer {
        Answer::Was(true) => write_text(page, at, b"1"),
        Answer::Was(false) | Answer::Done | Answer::Value(_) | Answer::Number(_) => {
            write_text(page, at, b"0")
        }
    }
}

/// The number that a cog is told for its own.
fn write_cog_id(page: &mut [u8; PAGE], at: usize, number: u32) -> usize
    requires { at + 16 ≤ 4096 }
    ensures end { result ≤ at + 16 }
    ensures text { take result page.new ≡ take at page.old ++ (codes "cogid " ++ decimal number) }
{
    let at = write_text(page, at, b"cogid ");
    write_decimal(page, at, number)
}

/// A word and two longs.
fn write_longs(page: &mut [u8; PAGE], at: usize, word: &[u8], first: u32, second: u32) -> usize
    requires { at + length word.now + 17 ≤ 4096 }
    ensures end { result ≡ at + length word.now + 17 }
    ensures text { take result page.new ≡ take at page.old ++ (word.now ++ hex 8 first ++ codes " " ++ hex 8 second) }
{
    let at = write_long(page, at, word, first);
    write_long(page, at, b" ", second)
}

/// What a wait waits for.
fn write_test(page: &mut [u8; PAGE], at: usize, test: Test) -> usize
    requires { at + 25 ≤ 4096 }
    ensures end { result ≤ at + 25 }
    ensures text { take result page.new ≡ take at page.old ++ test_text test }
{
    match test {
        Test::Count { target } => write_long(page, at, b"waitcnt ", target),
        Test::PinsEqual { state, mask } => write_longs(page, at, b"waitpeq ", state, mask),
        Test::PinsDiffer { state, mask } => write_longs(page, at, b"waitpne ", state, mask),
    }
}

/// A register, in three digits.
fn write_register(page: &mut [u8; PAGE], at: usize, register: u16) -> usize
    requires { at + 12 ≤ 4096 }
    ensures end { result ≡ at + 12 }
    ensures text { take result page.new ≡ take at page.old ++ (codes "register " ++ hex 3 register) }
{
    let at = write_text(page, at, b"register ");
    write_text(page, at, &register_digits(register as u32))
}

/// Why a cog halted.
fn write_reason(page: &mut [u8; PAGE], at: usize, reason: Reason) -> usize
    requires { at + 15 ≤ 4096 }
    ensures end { result ≤ at + 15 }
    ensures text { take result page.new ≡ take at page.old ++ reason_text reason }
{
    match reason {
        Reason::Opcode(long) => write_long(page, at, b"opcode ", long),
        Reason::Register(register) => write_register(page, at, register),
        Reason::Rom(address) => write_word(page, at, b"rom ", address as u32),
        Reason::Byte(address) => write_word(page, at, b"byte ", address as u32),
        Reason::Deep => write_text(page, at, b"deep"),
        Reason::Stack => write_text(page, at, b"stack"),
        Reason::Under => write_text(page, at, b"under"),
        Reason::Table => write_text(page, at, b"table"),
        Reason::Port => write_text(page, at, b"port"),
        Reason::Reset => write_text(page, at, b"reset"),
    }
}

/// Writes an access with its answer; `origins` are what the cogs were started with, and `cog` made it.
#[inline(always)]
pub fn write_access(
    page: &mut [u8; PAGE],
    at: usize,
    origins: &Origins,
    cog: u8,
    access: &Access,
    answer: &Answer,
) -> usize
    requires { at + 27 ≤ 4096 }
    ensures end { result ≤ at + 27 }
    ensures text { (w : World) (past : List Turn) → AreOrigins w past origins.now →
        take result page.new ≡ take at page.old ++ access_text (origin_of (cog_state w past cog)) access.now answer.now }
{
    match *access {
        Access::Begin => write_origin(page, at, b"begin ", origins.of_cog(cog)),
        Access::Load => write_word(page, at, b"load ", code_in(origins.of_cog(cog)) as u32),
        Access::Read { width, address } => {
            write_move(page, at, b"rd", width, address, value_in(*answer))
        }
        Access::Write {
            width,
            address,
            value,
        } => write_move(page, at, b"wr", width, address, value),
        Access::CogId => write_cog_id(page, at, value_in(*answer)),
        Access::CogInit { origin, .. } => write_start(page, at, &origin, *answer),
        Access::CogStop { cog } => write_numbered(page, at, b"cogstop ", cog),
        Access::LockNew => write_answered(page, at, b"locknew ", *answer),
        Access::LockRet { lock } => write_numbered(page, at, b"lockret ", lock),
        Access::LockSet { lock } => write_lock(page, at, b"lockset ", lock, *answer),
        Access::LockClr { lock } => write_lock(page, at, b"lockclr ", lock, *answer),
        Access::ClkSet { mode } => write_byte(page, at, b"clkset ", mode as u32),
        Access::PinsIn => write_long(page, at, b"ina ", value_in(*answer)),
        Access::OutSet { value } => write_long(page, at, b"outa ", value),
        Access::DirSet { value } => write_long(page, at, b"dira ", value),
        Access::Wait { test } => write_test(page, at, test),
        Access::Clock => write_long(page, at, b"cnt ", value_in(*answer)),
        Access::Halt { reason } => {
            let at = write_text(page, at, b"halt ");
            write_reason(page, at, reason)
        }
    }
}
