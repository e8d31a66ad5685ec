// What a cog does in a turn, in words.
ghost use Rattle.std.specs.Prelude.{◌≡◌, ◌++◌, codes, OnOk};
ghost use Rattle.p8_report.specs.Text.{code_of, number_text};
ghost use Rattle.p8_view.specs.Words.{access_text, asked_text, local_for, move_text, moved_text, place_for, start_text, variable_text, wait_text};
ghost use Rattle.p8_legend.specs.Legends.{address_text};

use crate::starts::{push_reason, push_start};
use crate::words::{push_lock, push_long, push_number, push_value, width_name};
use p8_access::{Access, Answer, Origin, Test, Width};
use p8_instr::{byte_digits, push_text};
use p8_legend::Legend;
use p8_report::{code_in, push_longs, push_numbered, value_in};
use p8_words::NoMemory;

/// What a bytecode at an address, by which a cog asks that was started with `own`, names in the frame of its method; nothing for Propeller
/// Assembly.
pub(crate) fn local_of<'a>(legend: &'a Legend, own: &Origin, counter: Option<u16>) -> &'a [u8]
    ensures { result.now ≡ local_for legend.now own.now counter }
{
    match own {
        Origin::Pasm { .. } => &[],
        Origin::Spin { .. } => legend.local(counter),
    }
}

/// Appends the place of what asks, at an address: of the bytecode of Spin, or of the line of DAT.
pub(crate) fn push_place_of(
    out: &mut Vec<u8>,
    legend: &Legend,
    own: &Origin,
    counter: Option<u16>,
) -> Result<(), NoMemory>
    ensures { OnOk result (out.new.items ≡ out.old.items ++ place_for legend.now own.now counter) }
{
    match own {
        Origin::Pasm { .. } => legend.push_line(out, counter),
        Origin::Spin { .. } => legend.push_place(out, counter),
    }
}

/// Appends an address by its name in the frame of a method, and where that is empty by the names of the hub.
fn push_variable(
    out: &mut Vec<u8>,
    legend: &Legend,
    local: &[u8],
    address: u16,
) -> Result<(), NoMemory>
    ensures { OnOk result (out.new.items ≡ out.old.items ++ variable_text legend.now.names local.now address) }
{
    match local {
        [] => legend.push_address(out, address),
        [_, ..] => push_text(out, local),
    }
}

/// Appends what is read or written: the word for that, the width and the address, which may have a name in the frame of a method.
fn push_place(
    out: &mut Vec<u8>,
    legend: &Legend,
    local: &[u8],
    word: &[u8],
    width: Width,
    address: u16,
) -> Result<(), NoMemory>
    ensures { OnOk result (out.new.items ≡ out.old.items ++ moved_text legend.now.names local.now word.now width address) }
{
    push_text(out, word)?;
    push_text(out, width_name(width))?;
    push_text(out, b" ")?;
    push_variable(out, legend, local, address)
}

/// Appends a read or a write with its value.
fn push_move(
    out: &mut Vec<u8>,
    legend: &Legend,
    local: &[u8],
    word: &[u8],
    width: Width,
    address: u16,
    value: u32,
) -> Result<(), NoMemory>
    ensures { OnOk result (out.new.items ≡ out.old.items ++ move_text legend.now.names local.now word.now width address value) }
{
    push_place(out, legend, local, word, width, address)?;
    push_text(out, b" = ")?;
    push_value(out, width, value)
}

/// Appends a text and an address.
fn push_named(out: &mut Vec<u8>, legend: &Legend, text: &[u8], address: u16) -> Result<(), NoMemory>
    ensures { OnOk result (out.new.items ≡ out.old.items ++ (text.now ++ address_text legend.now.names address)) }
{
    push_text(out, text)?;
    legend.push_address(out, address)
}

/// Appends that the longs of a cog's code are read.
fn push_load(out: &mut Vec<u8>, legend: &Legend, own: &Origin) -> Result<(), NoMemory>
    ensures { OnOk result (out.new.items ≡ out.old.items ++ (codes "load of " ++ address_text legend.now.names (code_of own.now) ++ codes ", 496 longs")) }
{
    push_named(out, legend, b"load of ", code_in(own))?;
    push_text(out, b", 496 longs")
}

/// Appends what a wait waits for.
fn push_wait(out: &mut Vec<u8>, test: Test) -> Result<(), NoMemory>
    ensures { OnOk result (out.new.items ≡ out.old.items ++ wait_text test) }
{
    match test {
        Test::Count { target } => push_numbered(out, b"waitcnt until ", u64::from(target)),
        Test::PinsEqual { state, mask } => push_longs(out, b"waitpeq ", state, mask),
        Test::PinsDiffer { state, mask } => push_longs(out, b"waitpne ", state, mask),
    }
}

/// Appends a start of a cog.
fn push_cog_init(
    out: &mut Vec<u8>,
    legend: &Legend,
    origin: &Origin,
    answer: Answer,
) -> Result<(), NoMemory>
    ensures { OnOk result (out.new.items ≡ out.old.items ++ (codes "coginit " ++ number_text answer ++ codes " " ++ start_text legend.now.names origin.now)) }
{
    push_number(out, b"coginit ", answer)?;
    push_text(out, b" ")?;
    push_start(out, legend, origin)
}

/// Appends an access without its answer. What it reads or writes may have a name in the frame of a method.
pub(crate) fn push_asked(
    out: &mut Vec<u8>,
    legend: &Legend,
    local: &[u8],
    access: &Access,
) -> Result<(), NoMemory>
    ensures { OnOk result (out.new.items ≡ out.old.items ++ asked_text legend.now.names local.now access.now) }
{
    match *access {
        Access::Begin => push_text(out, b"begin"),
        Access::Load => push_text(out, b"load"),
        Access::Read { width, address } => push_place(out, legend, local, b"read ", width, address),
        Access::Write {
            width,
            address,
            value,
        } => push_move(out, legend, local, b"write ", width, address, value),
        Access::CogId => push_text(out, b"cogid"),
        Access::CogInit { origin, .. } => {
            push_text(out, b"coginit ")?;
            push_start(out, legend, &origin)
        }
        Access::CogStop { cog } => push_numbered(out, b"cogstop ", u64::from(cog)),
        Access::LockNew => push_text(out, b"locknew"),
        Access::LockRet { lock } => push_numbered(out, b"lockret ", u64::from(lock)),
        Access::LockSet { lock } => push_numbered(out, b"lockset ", u64::from(lock)),
        Access::LockClr { lock } => push_numbered(out, b"lockclr ", u64::from(lock)),
        Access::ClkSet { mode } => {
            push_text(out, b"clkset ")?;
            push_text(out, &byte_digits(u32::from(mode)))
        }
        Access::PinsIn => push_text(out, b"ina"),
        Access::OutSet { value } => push_long(out, b"outa ", value),
        Access::DirSet { value } => push_long(out, b"dira ", value),
        Access::Wait { test } => push_wait(out, test),
        Access::Clock => push_text(out, b"cnt"),
        Access::Halt { reason } => {
            push_text(out, b"halt ")?;
            push_reason(out, reason)
        }
    }
}

/// Appends an access with its answer. The cog that makes it was started with `own`, and what it reads or writes may have a name in the frame of a
/// method.
pub(crate) fn push_access(
    out: &mut Vec<u8>,
    legend: &Legend,
    own: &Origin,
    local: &[u8],
    access: &Access,
    answer: Answer,
) -> Result<(), NoMemory>
    ensures { OnOk result (out.new.items ≡ out.old.items ++ access_text legend.now.names own.now local.now access.now answer) }
{
    match *access {
        Access::Begin => {
            push_text(out, b"begin of ")?;
            push_start(out, legend, own)
        }
        Access::Load => push_load(out, legend, own),
        Access::Read { width, address } => {
            push_move(
                out,
                legend,
                local,
                b"read ",
                width,
                address,
                value_in(answer),
            )
        }
        Access::CogId => push_numbered(out, b"cogid ", u64::from(value_in(answer))),
        Access::CogInit { origin, .. } => push_cog_init(out, legend, &origin, answer),
        Access::LockNew => push_number(out, b"locknew ", answer),
        Access::LockSet { lock } => push_lock(out, b"lockset ", lock, answer),
        Access::LockClr { lock } => push_lock(out, b"lockclr ", lock, answer),
        Access::PinsIn => push_long(out, b"ina ", value_in(answer)),
        Access::Clock => push_long(out, b"cnt ", value_in(answer)),
        Access::Write { .. }
        | Access::CogStop { .. }
        | Access::LockRet { .. }
        | Access::ClkSet { .. }
        | Access::OutSet { .. }
        | Access::DirSet { .. }
        | Access::Wait { .. }
        | Access::Halt { .. } => push_asked(out, legend, local, access),
    }
}
