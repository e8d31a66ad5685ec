// The pages that tell of the commands.
ghost use Rattle.std.specs.Prelude.{◌≡◌, ◌++◌, None, map, IfOk, OnOk};
ghost use Rattle.std.specs.List.{flat_map};
ghost use Rattle.p8_commands.specs.Pages.{spelled, spelled_by, words_line, argument_line, about_line, example_line, page_of, summary_of, help_text};
ghost use Rattle.p8_commands.specs.Seen.{argument_of, entry_in, text_of};

use crate::table::{Argument, ArgumentKind, CommandEntry, Subcommand};
use p8_words::NoMemory;
use std::alloc::Global;

/// Appends a name between two pieces.
fn push_between(out: &mut Vec<u8>, before: &[u8], name: &[u8], after: &[u8]) -> Result<(), NoMemory>
    ensures { OnOk result (out.new.items ≡ out.old.items ++ (before.now ++ (name.now ++ after.now))) }
{
    out.extend_from_slice(before)?;
    out.extend_from_slice(name)?;
    out.extend_from_slice(after)?;
    Ok(())
}

/// Appends an argument of this kind and name, whose value has that name.
fn push_spelled(
    out: &mut Vec<u8>,
    kind: ArgumentKind,
    name: &[u8],
    value: &[u8],
) -> Result<(), NoMemory>
    ensures { OnOk result (out.new.items ≡ out.old.items ++ spelled_by kind name.now value.now) }
{
    match kind {
        ArgumentKind::Operand => push_between(out, b" ", name, b""),
        ArgumentKind::OptionalOperand => push_between(out, b" [", name, b"]"),
        ArgumentKind::Valued => {
            push_between(out, b" [--", name, b" ")?;
            push_between(out, b"", value, b"]")
        }
        ArgumentKind::Flag => push_between(out, b" [--", name, b"]"),
    }
}

/// Appends an argument as it stands on the command line.
fn push_argument(out: &mut Vec<u8>, argument: Argument) -> Result<(), NoMemory>
    ensures { OnOk result (out.new.items ≡ out.old.items ++ spelled (argument_of argument)) }
{
    push_spelled(
        out,
        argument.kind,
        argument.name.as_bytes(),
        argument.value.as_bytes(),
    )
}

/// Appends the line of the words of a command.
#[tactic(auto, unfolding(crate::specs::Pages::words_line))]
fn push_words_line(out: &mut Vec<u8>, row: CommandEntry) -> Result<(), NoMemory>
    ensures { OnOk result (out.new.items ≡ out.old.items ++ words_line (entry_in row)) }
{
    push_between(out, b"prop ", row.word.as_bytes(), b"")?;
    for argument in row.arguments {
        push_argument(out, *argument)?;
    }
    out.extend_from_slice(b"\n")?;
    Ok(())
}

/// Appends the line of an argument and what it says.
#[tactic(auto, unfolding(crate::specs::Pages::argument_line))]
fn push_argument_line(out: &mut Vec<u8>, argument: Argument) -> Result<(), NoMemory>
    ensures { OnOk result (out.new.items ≡ out.old.items ++ argument_line (argument_of argument)) }
{
    out.extend_from_slice(b" ")?;
    push_argument(out, argument)?;
    push_between(out, b": ", argument.about.as_bytes(), b"\n")?;
    Ok(())
}

/// Appends the lines of some arguments.
fn push_argument_lines(out: &mut Vec<u8>, arguments: &[Argument]) -> Result<(), NoMemory>
    ensures { OnOk result (out.new.items ≡ out.old.items ++ flat_map argument_line (map argument_of arguments.now)) }
{
    for argument in arguments {
        push_argument_line(out, *argument)?;
    }
    Ok(())
}

/// Appends the line of what a command does.
#[tactic(auto, unfolding(crate::specs::Pages::about_line))]
fn push_about_line(out: &mut Vec<u8>, row: CommandEntry) -> Result<(), NoMemory>
    ensures { OnOk result (out.new.items ≡ out.old.items ++ about_line (entry_in row)) }
{
    out.extend_from_slice(row.about.as_bytes())?;
    out.extend_from_slice(b"\n")?;
    Ok(())
}

/// Appends the line of an example.
#[tactic(auto, unfolding(crate::specs::Pages::example_line))]
fn push_example_line(out: &mut Vec<u8>, example: &[u8]) -> Result<(), NoMemory>
    ensures { OnOk result (out.new.items ≡ out.old.items ++ example_line example.now) }
{
    out.extend_from_slice(b"e.g. ")?;
    out.extend_from_slice(example)?;
    out.extend_from_slice(b"\n")?;
    Ok(())
}

/// Appends the lines of some examples.
fn push_example_lines(out: &mut Vec<u8>, examples: &[&str]) -> Result<(), NoMemory>
    ensures { OnOk result (out.new.items ≡ out.old.items ++ flat_map example_line (map text_of examples.now)) }
{
    for example in examples {
        push_example_line(out, example.as_bytes())?;
    }
    Ok(())
}

/// Appends the page of a command.
fn push_page(out: &mut Vec<u8>, row: CommandEntry) -> Result<(), NoMemory>
    ensures { OnOk result (out.new.items ≡ out.old.items ++ page_of (entry_in row)) }
{
    push_words_line(out, row)?;
    push_about_line(out, row)?;
    push_argument_lines(out, row.arguments)?;
    push_example_lines(out, row.examples)?;
    Ok(())
}

/// Appends the words of a command and what it does.
fn push_summary(out: &mut Vec<u8>, command: Subcommand) -> Result<(), NoMemory>
    ensures { OnOk result (out.new.items ≡ out.old.items ++ summary_of command) }
{
    let row = command.row();
    push_words_line(out, row)?;
    out.extend_from_slice(b"  ")?;
    push_about_line(out, row)?;
    Ok(())
}

/// Appends what each command does.
fn push_all(out: &mut Vec<u8>) -> Result<(), NoMemory>
    ensures { OnOk result (out.new.items ≡ out.old.items ++ help_text None) }
{
    for command in Subcommand::all() {
        push_summary(out, *command)?;
    }
    Ok(())
}

/// The page of a command, with its words, what it does, its arguments with their limits, and examples; or, where no command is named,
/// the words of each and what it does. The only error is want of memory.
pub fn help_page(alloc: Global, topic: Option<Subcommand>) -> Result<Vec<u8>, NoMemory>
    ensures { IfOk result (λ text. text.items ≡ help_text topic) }
{
    let mut out = Vec::new(alloc);
    match topic {
        Some(command) => push_page(&mut out, command.row())?,
        None => push_all(&mut out)?,
    }
    Ok(out)
}
