// The begin of a wave: what its variables are, and their values at clock 0.
ghost use Rattle.std.specs.Prelude.{◌≡◌, ◌++◌, flat_map, OnOk};
ghost use Rattle.p8_wave.specs.Variables.{scopes};
ghost use Rattle.p8_wave.specs.Wave.{scope_with};
ghost use Rattle.p8_wave.specs.Sections.{scope_of, head_of, first_of};

use crate::appending::{push_declarations, push_scope_head, push_values};
use crate::entries::Entry;
use crate::scale::Scale;
use crate::snapshot::Snapshot;
use crate::variables::Scope;
use p8_instr::push_text;
use p8_words::NoMemory;
use std::alloc::Global;

/// A scope with these declarations; one without any doesn't stand.
fn push_scope_with(out: &mut Vec<u8>, scope: Scope, declarations: &[u8]) -> Result<(), NoMemory>
    ensures { OnOk result (out.new.items ≡ out.old.items ++ scope_with scope declarations.now) }
{
    match declarations {
        [] => Ok(()),
        [_, ..] => {
            push_scope_head(out, scope)?;
            push_text(out, declarations)?;
            push_text(out, b"$upscope $end\n")
        }
    }
}

/// A scope with those entries that stand in it.
fn push_scope(
    alloc: Global,
    out: &mut Vec<u8>,
    scope: Scope,
    entries: &[Entry],
) -> Result<(), NoMemory>
    ensures { OnOk result (out.new.items ≡ out.old.items ++ scope_of entries.now scope) }
{
    let mut declarations = Vec::new(alloc);
    push_declarations(&mut declarations, scope, entries)?;
    push_scope_with(out, scope, &declarations)
}

/// These scopes.
fn push_each(
    alloc: Global,
    out: &mut Vec<u8>,
    each: &[Scope],
    entries: &[Entry],
) -> Result<(), NoMemory>
    ensures { OnOk result (out.new.items ≡ out.old.items ++ flat_map (scope_of entries.now) each.now) }
{
    for scope in each {
        push_scope(alloc, out, *scope, entries)?;
    }
    Ok(())
}

/// All scopes.
fn push_scopes(alloc: Global, out: &mut Vec<u8>, entries: &[Entry]) -> Result<(), NoMemory>
    ensures { OnOk result (out.new.items ≡ out.old.items ++ flat_map (scope_of entries.now) scopes) }
{
    let each = [
        Scope::Pins,
        Scope::Cog(0),
        Scope::Cog(1),
        Scope::Cog(2),
        Scope::Cog(3),
        Scope::Cog(4),
        Scope::Cog(5),
        Scope::Cog(6),
        Scope::Cog(7),
        Scope::Locks,
    ];
    push_each(alloc, out, &each, entries)
}

/// The time scale, and the declarations of the entries that are shown.
pub fn push_head(
    alloc: Global,
    out: &mut Vec<u8>,
    scale: &Scale,
    entries: &[Entry],
) -> Result<(), NoMemory>
    ensures { OnOk result (out.new.items ≡ out.old.items ++ head_of scale.now.frequency scale.now.period entries.now) }
{
    push_text(out, b"$version Propeller P8X32A $end\n")?;
    scale.push(out)?;
    push_scopes(alloc, out, entries)?;
    push_text(out, b"$enddefinitions $end\n")
}

/// The values at clock 0 of the entries that are shown.
pub fn push_first(out: &mut Vec<u8>, entries: &[Entry], first: &Snapshot) -> Result<(), NoMemory>
    ensures { OnOk result (out.new.items ≡ out.old.items ++ first_of first.now entries.now) }
{
    push_text(out, b"#0\n$dumpvars\n")?;
    push_values(out, entries, first)?;
    push_text(out, b"$end\n")
}
