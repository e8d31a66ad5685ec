// Texts that are appended.
ghost use Rattle.std.specs.Prelude.{◌≡◌, ◌<◌, ◌≤◌, ◌+◌, ◌-◌, ◌/◌, ◌%◌, ◌^◌, ◌++◌, codes, flat_map, replicate, take, OnOk};
ghost use Rattle.std.specs.Fmt.{decimal};
ghost use Rattle.p8_wave.specs.Variables.{width_of, name_of, scope_name, is_in as stands_in, is_of_cog, is_of_locks, is_of_pins};
ghost use Rattle.p8_wave.specs.Wave.{binary, value_text, variable_text};
ghost use Rattle.p8_wave.specs.Sections.{change_text, entry_text, declared_in};

use crate::entries::Entry;
use crate::snapshot::Snapshot;
use crate::variables::{Scope, Variable};
use itoa::Buffer;
use p8_instr::push_text;
use p8_words::NoMemory;

/// Appends a number in decimal digits.
pub fn push_decimal(out: &mut Vec<u8>, number: u64) -> Result<(), NoMemory>
    ensures { OnOk result (out.new.items ≡ out.old.items ++ decimal number) }
{
    push_text(out, Buffer::new().format(number).as_bytes())
}

/// Appends so many spaces.
pub fn push_spaces(out: &mut Vec<u8>, count: usize) -> Result<(), NoMemory>
    ensures { OnOk result (out.new.items ≡ out.old.items ++ replicate count 32) }
{
    for _ in 0..count {
        push_text(out, b" ")?;
    }
    Ok(())
}

/// A text and a number in decimal digits.
pub fn push_numbered(out: &mut Vec<u8>, text: &[u8], number: u32) -> Result<(), NoMemory>
    ensures { OnOk result (out.new.items ≡ out.old.items ++ (text.now ++ decimal number)) }
{
    push_text(out, text)?;
    push_text(out, Buffer::new().format(number).as_bytes())
}

/// The binary digit at a place of a number that has so many of them; place 0 is the first.
fn binary_digit(width: u8, value: u32, place: u8) -> u8
    requires width { width ≤ 32 }
    requires place { place < width }
    ensures { result ≡ 48 + value / 2 ^ (width - 1 - place) % 2 }
{
    b'0' + ((value >> (width - 1 - place)) % 2) as u8
}

/// The first so many of some digits.
fn first_digits(digits: &[u8; 32], count: u8) -> &[u8]
    requires { count ≤ 32 }
    ensures { result.now ≡ take count digits.now }
{
    &digits[..usize::from(count)]
}

/// A number in this many binary digits, at most 32.
fn push_binary(out: &mut Vec<u8>, width: u8, value: u32) -> Result<(), NoMemory>
    requires { width ≤ 32 }
    ensures { OnOk result (out.new.items ≡ out.old.items ++ binary width value) }
{
    let mut digits = [b'0'; 32];
    for place in 0..width {
        digits[usize::from(place)] = binary_digit(width, value, place);
    }
    push_text(out, first_digits(&digits, width))?;
    Ok(())
}

impl Variable {
    /// How many bits it has.
    pub fn width(self) -> u8
        ensures width { result ≡ width_of self }
        ensures most { result ≤ 32 }
    {
        match self {
            Variable::Outa(_) | Variable::Dira(_) => 32,
            Variable::State(_) => 2,
            Variable::Pin(_) | Variable::Lock(_) | Variable::Taken(_) => 1,
        }
    }

    /// Whether it stands in a scope.
    fn is_in(self, scope: Scope) -> bool
        ensures { result ≡ stands_in scope self }
    {
        match self {
            Variable::Pin(_) => scope.is_of_pins(),
            Variable::Outa(cog) => scope.is_of_cog(cog),
            Variable::Dira(cog) => scope.is_of_cog(cog),
            Variable::State(cog) => scope.is_of_cog(cog),
            Variable::Lock(_) => scope.is_of_locks(),
            Variable::Taken(_) => scope.is_of_locks(),
        }
    }
}

impl Scope {
    /// Whether it is that of the pins.
    fn is_of_pins(self) -> bool
        ensures { result ≡ is_of_pins self }
    {
        match self {
            Scope::Pins => true,
            Scope::Cog(_) | Scope::Locks => false,
        }
    }

    /// Whether it is that of this cog.
    fn is_of_cog(self, cog: u8) -> bool
        ensures { result ≡ is_of_cog cog self }
    {
        match self {
            Scope::Cog(number) => number == cog,
            Scope::Pins | Scope::Locks => false,
        }
    }

    /// Whether it is that of the locks.
    fn is_of_locks(self) -> bool
        ensures { result ≡ is_of_locks self }
    {
        match self {
            Scope::Locks => true,
            Scope::Pins | Scope::Cog(_) => false,
        }
    }
}

/// The name of a variable.
fn push_name(out: &mut Vec<u8>, variable: Variable) -> Result<(), NoMemory>
    ensures { OnOk result (out.new.items ≡ out.old.items ++ name_of variable) }
{
    match variable {
        Variable::Pin(pin) => push_numbered(out, b"P", u32::from(pin)),
        Variable::Outa(_) => push_text(out, b"outa"),
        Variable::Dira(_) => push_text(out, b"dira"),
        Variable::State(_) => push_text(out, b"state"),
        Variable::Lock(lock) => push_numbered(out, b"lock", u32::from(lock)),
        Variable::Taken(lock) => push_numbered(out, b"taken", u32::from(lock)),
    }
}

/// The name of a scope.
fn push_scope_name(out: &mut Vec<u8>, scope: Scope) -> Result<(), NoMemory>
    ensures { OnOk result (out.new.items ≡ out.old.items ++ scope_name scope) }
{
    match scope {
        Scope::Pins => push_text(out, b"pins"),
        Scope::Cog(cog) => push_numbered(out, b"cog", u32::from(cog)),
        Scope::Locks => push_text(out, b"locks"),
    }
}

/// The declaration of a variable, for which this character stands.
fn push_variable(out: &mut Vec<u8>, mark: u8, variable: Variable) -> Result<(), NoMemory>
    ensures { OnOk result (out.new.items ≡ out.old.items ++ variable_text mark variable) }
{
    push_numbered(out, b"$var wire ", u32::from(variable.width()))?;
    push_text(out, &[b' ', mark, b' '])?;
    push_name(out, variable)?;
    push_text(out, b" $end\n")
}

/// The declaration of an entry, where it stands in a scope.
fn push_declared(out: &mut Vec<u8>, scope: Scope, entry: &Entry) -> Result<(), NoMemory>
    ensures { OnOk result (out.new.items ≡ out.old.items ++ declared_in scope entry.now) }
{
    if entry.variable.is_in(scope) {
        push_variable(out, entry.mark, entry.variable)
    } else {
        Ok(())
    }
}

/// The declarations of those entries that stand in a scope.
pub fn push_declarations(out: &mut Vec<u8>, scope: Scope, entries: &[Entry]) -> Result<(), NoMemory>
    ensures { OnOk result (out.new.items ≡ out.old.items ++ flat_map (declared_in scope) entries.now) }
{
    for entry in entries {
        push_declared(out, scope, entry)?;
    }
    Ok(())
}

/// The begin of a scope.
pub fn push_scope_head(out: &mut Vec<u8>, scope: Scope) -> Result<(), NoMemory>
    ensures { OnOk result (out.new.items ≡ out.old.items ++ (codes "$scope module " ++ scope_name scope ++ codes " $end\n")) }
{
    push_text(out, b"$scope module ")?;
    push_scope_name(out, scope)?;
    push_text(out, b" $end\n")
}

/// The value of a variable of this width, for which this character stands.
fn push_value(out: &mut Vec<u8>, width: u8, mark: u8, value: u32) -> Result<(), NoMemory>
    requires { width ≤ 32 }
    ensures { OnOk result (out.new.items ≡ out.old.items ++ value_text width mark value) }
{
    if width == 1 {
        push_binary(out, 1, value)?;
        push_text(out, &[mark, b'\n'])
    } else {
        push_text(out, b"b")?;
        push_binary(out, width, value)?;
        push_text(out, &[b' ', mark, b'\n'])
    }
}

/// The value of an entry in a snapshot.
fn push_entry(out: &mut Vec<u8>, entry: &Entry, snapshot: &Snapshot) -> Result<(), NoMemory>
    ensures { OnOk result (out.new.items ≡ out.old.items ++ entry_text snapshot.now entry.now) }
{
    push_value(
        out,
        entry.variable.width(),
        entry.mark,
        snapshot.value(entry.variable),
    )
}

/// The value of an entry in the second snapshot, where it differs from that in the first.
fn push_change(
    out: &mut Vec<u8>,
    entry: &Entry,
    old: &Snapshot,
    new: &Snapshot,
) -> Result<(), NoMemory>
    ensures { OnOk result (out.new.items ≡ out.old.items ++ change_text old.now new.now entry.now) }
{
    if old.differs(new, entry.variable) {
        push_entry(out, entry, new)
    } else {
        Ok(())
    }
}

/// The values of all entries in a snapshot.
pub fn push_values(
    out: &mut Vec<u8>,
    entries: &[Entry],
    snapshot: &Snapshot,
) -> Result<(), NoMemory>
    ensures { OnOk result (out.new.items ≡ out.old.items ++ flat_map (entry_text snapshot.now) entries.now) }
{
    for entry in entries {
        push_entry(out, entry, snapshot)?;
    }
    Ok(())
}

/// The values of the entries that differ in two snapshots.
pub fn push_changes(
    out: &mut Vec<u8>,
    entries: &[Entry],
    old: &Snapshot,
    new: &Snapshot,
) -> Result<(), NoMemory>
    ensures { OnOk result (out.new.items ≡ out.old.items ++ flat_map (change_text old.now new.now) entries.now) }
{
    for entry in entries {
        push_change(out, entry, old, new)?;
    }
    Ok(())
}
