// The variables of a wave in parts, each of one scope: a part in which nothing changes is passed over.
ghost use Rattle.std.specs.Prelude.{◌≡◌, ◌<◌, ◌++◌, List, [], ◌∷◌, map, flat_map, IfOk, OnOk};
ghost use Rattle.std.specs.List.{range_with_len, list_any};
ghost use Rattle.p8_wave.specs.declared.entries.Entry.{Entry};
ghost use Rattle.p8_wave.specs.declared.variables.Variable.TheVariants.{Pin};
ghost use Rattle.p8_wave.specs.Variables.{variables, cog_variables, lock_variables};
ghost use Rattle.p8_wave.specs.Sections.{still, marked, some_differ, change_text};
ghost use Rattle.p8_wave.specs.Parts.{AreInside, together};

use crate::appending::push_changes;
use crate::entries::{Entry, mark_entries, push_cog, push_locks, push_pins};
use crate::snapshot::Snapshot;
use crate::variables::Scope;
use p8_words::NoMemory;
use std::alloc::Global;
use std::marker::Model;

/// The entries of variables that stand in one scope.
#[derive(Drop)]
pub struct Part {
    scope: Scope,
    entries: Vec<Entry>,
}

impl Model for Part {
    ghost use Rattle.std.specs.Prelude.{List};
    ghost use Rattle.p8_wave.specs.declared.entries.Entry.{Entry};
    ghost use Rattle.p8_wave.specs.Parts.{AreInside};

    ghost Value = { List Entry };

    ghost view = { λ p. p.entries.items };

    ghost invariant = { λ p. AreInside p.scope p.entries.items };
}

impl Part {
    /// A part with these entries.
    fn new(scope: Scope, entries: Vec<Entry>) -> Part
        requires { AreInside scope entries.items }
        ensures { result ≡ entries.items }
    {
        Part { scope, entries }
    }

    /// Its entries.
    fn entries(&self) -> &[Entry]
        ensures { result.now ≡ self.now }
    {
        &self.entries
    }

    /// Marks the entries that differ in two snapshots, and tells whether there are any.
    fn mark(&mut self, old: &Snapshot, new: &Snapshot) -> bool
        ensures any { result ≡ some_differ old.now new.now self.old }
        ensures marked { self.new ≡ map (marked old.now new.now) self.old }
    {
        if old.is_same_in(new, self.scope) {
            return false;
        }
        mark_entries(&mut self.entries, old, new)
    }

    /// The values of the entries that differ in two snapshots.
    fn push(&self, out: &mut Vec<u8>, old: &Snapshot, new: &Snapshot) -> Result<(), NoMemory>
        ensures { OnOk result (out.new.items ≡ out.old.items ++ flat_map (change_text old.now new.now) self.now) }
    {
        if old.is_same_in(new, self.scope) {
            return Ok(());
        }
        push_changes(out, &self.entries, old, new)
    }
}

/// The part of the pins.
fn pins_part(alloc: Global) -> Result<Part, NoMemory>
    ensures { IfOk result (λ part. part ≡ map (λ n. still (Pin n)) (range_with_len 0 32)) }
{
    let mut entries = Vec::new(alloc);
    push_pins(&mut entries)?;
    Ok(Part::new(Scope::Pins, entries))
}

/// The part of a cog.
fn cog_part(alloc: Global, cog: u8) -> Result<Part, NoMemory>
    requires { cog < 8 }
    ensures { IfOk result (λ part. part ≡ map still (cog_variables cog)) }
{
    let mut entries = Vec::new(alloc);
    push_cog(&mut entries, cog)?;
    Ok(Part::new(Scope::Cog(cog), entries))
}

/// The part of the locks.
fn locks_part(alloc: Global) -> Result<Part, NoMemory>
    ensures { IfOk result (λ part. part ≡ flat_map (λ n. map still (lock_variables n)) (range_with_len 0 8)) }
{
    let mut entries = Vec::new(alloc);
    push_locks(&mut entries)?;
    Ok(Part::new(Scope::Locks, entries))
}

/// One part more.
fn push_part(parts: &mut Vec<Part>, part: Part) -> Result<(), NoMemory>
    ensures { OnOk result (parts.new.items ≡ parts.old.items ++ part ∷ []) }
{
    match parts.push(part) {
        Ok(()) => Ok(()),
        Err(_) => Err(NoMemory),
    }
}

/// The parts of the cogs.
fn push_cogs(alloc: Global, parts: &mut Vec<Part>) -> Result<(), NoMemory>
    ensures { OnOk result (together parts.new.items ≡ together parts.old.items ++ flat_map (λ n. map still (cog_variables n)) (range_with_len 0 8)) }
{
    for cog in 0..8 {
        let part = cog_part(alloc, cog)?;
        push_part(parts, part)?;
    }
    Ok(())
}

/// The variables that may be shown, of which none has changed: all, or those of the pins and the locks alone.
pub fn parts(alloc: Global, pins_only: bool) -> Result<Vec<Part>, NoMemory>
    ensures { IfOk result (λ parts. together parts.items ≡ map still (variables pins_only)) }
{
    let mut parts = Vec::new(alloc);
    let pins = pins_part(alloc)?;
    push_part(&mut parts, pins)?;
    if !pins_only {
        push_cogs(alloc, &mut parts)?;
    }
    let locks = locks_part(alloc)?;
    push_part(&mut parts, locks)?;
    Ok(parts)
}

/// Marks the entries that differ in two snapshots, and tells whether there are any.
fn mark_parts(parts: &mut [Part], old: &Snapshot, new: &Snapshot) -> bool
    ensures any { result ≡ list_any (some_differ old.now new.now) parts.old }
    ensures marked { parts.new ≡ map (map (marked old.now new.now)) parts.old }
{
    let mut any = false;
    for part in parts.iter_mut() {
        let differs = part.mark(old, new);
        any |= differs;
    }
    any
}

/// The same, of a list of parts.
pub fn mark_all(parts: &mut Vec<Part>, old: &Snapshot, new: &Snapshot) -> bool
    ensures any { result ≡ list_any (some_differ old.now new.now) parts.old.items }
    ensures marked { parts.new.items ≡ map (map (marked old.now new.now)) parts.old.items }
{
    mark_parts(parts, old, new)
}

/// The values of the entries that differ in two snapshots.
pub fn push_parts(
    out: &mut Vec<u8>,
    parts: &[Part],
    old: &Snapshot,
    new: &Snapshot,
) -> Result<(), NoMemory>
    ensures { OnOk result (out.new.items ≡ out.old.items ++ flat_map (change_text old.now new.now) (together parts.now)) }
{
    for part in parts {
        part.push(out, old, new)?;
    }
    Ok(())
}

/// The entries of all parts.
pub fn joined(alloc: Global, parts: &[Part]) -> Result<Vec<Entry>, NoMemory>
    ensures { IfOk result (λ entries. entries.items ≡ together parts.now) }
{
    let mut entries = Vec::new(alloc);
    for part in parts {
        entries.extend_from_slice(part.entries())?;
    }
    Ok(entries)
}
