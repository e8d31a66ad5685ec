// The variables of a wave, with the characters that stand for them.
ghost use Rattle.std.specs.Prelude.{◌≡◌, ◌||◌, ◌++◌, ◌<◌, ◌≤◌, ℕ, List, [], map, flat_map, filter, if◌then◌else◌, IfOk, OnOk};
ghost use Rattle.std.specs.List.{range_with_len};
ghost use Rattle.p8_wave.specs.declared.variables.Variable.TheVariants.{Pin};
ghost use Rattle.p8_wave.specs.Variables.{cog_variables, lock_variables};
ghost use Rattle.p8_wave.specs.Following.{differs};
ghost use Rattle.p8_wave.specs.Sections.{unmarked, still, marked as marked_by, some_differ};

use crate::snapshot::Snapshot;
use crate::variables::Variable;
use p8_words::NoMemory;
use std::alloc::Global;

/// A variable, the character that stands for it, and whether it has changed so far.
#[derive(Clone, Copy)]
pub struct Entry {
    pub variable: Variable,
    pub mark: u8,
    pub changes: bool,
}

/// A variable that has not changed.
fn unchanged(variable: Variable, mark: u8) -> Entry
    ensures { result ≡ unmarked variable mark }
{
    Entry {
        variable,
        mark,
        changes: false,
    }
}

/// The pins, from `!` on.
pub fn push_pins(entries: &mut Vec<Entry>) -> Result<(), NoMemory>
    ensures { OnOk result (entries.new.items ≡ entries.old.items ++ map (λ n. still (Pin n)) (range_with_len 0 32)) }
{
    for pin in 0..32 {
        entries.extend_from_slice(&[unchanged(Variable::Pin(pin), 33 + pin)])?;
    }
    Ok(())
}

/// What is shown of a cog, from `A` on for the first.
pub fn push_cog(entries: &mut Vec<Entry>, cog: u8) -> Result<(), NoMemory>
    requires { cog < 8 }
    ensures { OnOk result (entries.new.items ≡ entries.old.items ++ map still (cog_variables cog)) }
{
    entries.extend_from_slice(&[
        unchanged(Variable::Outa(cog), 65 + 3 * cog),
        unchanged(Variable::Dira(cog), 66 + 3 * cog),
        unchanged(Variable::State(cog), 67 + 3 * cog),
    ])?;
    Ok(())
}

/// What is shown of the locks, from `Y` on.
pub fn push_locks(entries: &mut Vec<Entry>) -> Result<(), NoMemory>
    ensures { OnOk result (entries.new.items ≡ entries.old.items ++ flat_map (λ n. map still (lock_variables n)) (range_with_len 0 8)) }
{
    for lock in 0..8 {
        entries.extend_from_slice(&[
            unchanged(Variable::Lock(lock), 89 + 2 * lock),
            unchanged(Variable::Taken(lock), 90 + 2 * lock),
        ])?;
    }
    Ok(())
}

/// The entries that are shown: those that have changed, or all.
pub fn shown(alloc: Global, entries: &[Entry], all: bool) -> Result<Vec<Entry>, NoMemory>
    ensures { IfOk result (λ shown. shown.items ≡ filter (λ e. all || e.changes) entries.now) }
{
    let shown = entries
        .iter()
        .copied()
        .filter(|entry| all || entry.changes)
        .collect(alloc)?;
    Ok(shown)
}

/// Marks an entry that differs in two snapshots, and tells whether it does.
fn mark_change(entry: &mut Entry, old: &Snapshot, new: &Snapshot) -> bool
    ensures differs { result ≡ differs old.now new.now entry.old.variable }
    ensures marked { entry.new ≡ marked_by old.now new.now entry.old }
{
    let differs = old.differs(new, entry.variable);
    entry.changes = differs || entry.changes;
    differs
}

/// Marks the entries that differ in two snapshots, and tells whether there are any.
fn mark_changes(entries: &mut [Entry], old: &Snapshot, new: &Snapshot) -> bool
    ensures any { result ≡ some_differ old.now new.now entries.old }
    ensures marked { entries.new ≡ map (marked_by old.now new.now) entries.old }
{
    let mut any = false;
    for entry in entries.iter_mut() {
        let differs = mark_change(entry, old, new);
        any |= differs;
    }
    any
}

/// The same, of a list of entries.
pub fn mark_entries(entries: &mut Vec<Entry>, old: &Snapshot, new: &Snapshot) -> bool
    ensures any { result ≡ some_differ old.now new.now entries.old.items }
    ensures marked { entries.new.items ≡ map (marked_by old.now new.now) entries.old.items }
{
    mark_changes(entries, old, new)
}
