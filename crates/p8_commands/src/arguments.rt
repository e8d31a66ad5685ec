// What `clap` makes of the words of a command.
ghost use Rattle.std.specs.Prelude.{◌≡◌, true, false, map, string_bytes, IfOk};
ghost use Rattle.clap.specs.Faults.{is_simple_and_free};
ghost use Rattle.clap.specs.Simple.{app_of};
ghost use Rattle.clap.specs.Walk.{rule_of};
ghost use Rattle.p8_commands.specs.Seen.{entry_in};
ghost use Rattle.p8_commands.specs.Table.{app_for, rule_by};
ghost use Rattle.p8_commands.specs.Taking.{Takes};
ghost use Rattle.p8_commands.specs.declared.table.ArgumentKind.TheVariants.{Operand, OptionalOperand, Valued, Flag};

use crate::table::{ArgumentKind, CommandEntry};
use clap::error::ErrorKind;
use clap::{Arg, ArgAction, ArgMatches, Command};
use p8_words::NoMemory;
use std::alloc::Global;

/// An operand, which stands by its place and has to be there.
fn operand<'a>(alloc: Global, name: &'a str) -> Arg<'a>
    ensures rule { rule_of result ≡ rule_by Operand name.now }
    ensures local { result.global ≡ false }
{
    Arg::new(alloc, name).required(true)
}

/// An operand that may be left out.
fn optional_operand<'a>(alloc: Global, name: &'a str) -> Arg<'a>
    ensures rule { rule_of result ≡ rule_by OptionalOperand name.now }
    ensures local { result.global ≡ false }
{
    Arg::new(alloc, name)
}

/// An option `--name`, which takes a value and may be given once.
fn valued<'a>(alloc: Global, name: &'a str) -> Arg<'a>
    ensures rule { rule_of result ≡ rule_by Valued name.now }
    ensures local { result.global ≡ false }
{
    Arg::new(alloc, name).long(name)
}

/// A flag `--name`, which takes no value and may be given once.
fn flag<'a>(alloc: Global, name: &'a str) -> Arg<'a>
    ensures rule { rule_of result ≡ rule_by Flag name.now }
    ensures local { result.global ≡ false }
{
    Arg::new(alloc, name).long(name).action(ArgAction::SetTrue)
}

/// An argument as `clap` takes it.
fn arg_for<'a>(alloc: Global, kind: ArgumentKind, name: &'a str) -> Arg<'a>
    ensures rule { rule_of result ≡ rule_by kind name.now }
    ensures local { result.global ≡ false }
{
    match kind {
        ArgumentKind::Operand => operand(alloc, name),
        ArgumentKind::OptionalOperand => optional_operand(alloc, name),
        ArgumentKind::Valued => valued(alloc, name),
        ArgumentKind::Flag => flag(alloc, name),
    }
}

/// A command as `clap` takes it.
pub fn command_for<'a>(alloc: Global, row: CommandEntry) -> Result<Command<'a>, NoMemory>
    ensures { IfOk result (λ command. app_of command ≡ app_for (entry_in row)) }
{
    let mut command = Command::new(alloc, row.word);
    for argument in row.arguments {
        command = command.arg(arg_for(alloc, argument.kind, argument.name))?;
    }
    Ok(command)
}

/// What `clap` finds in the words of a command, of which the first is its name, or None where it finds a fault
/// with them. A call for help is such a fault.
pub fn matches_in<'a>(
    command: Command<'a>,
    words: &'a [String],
) -> Result<Option<ArgMatches<'a>>, NoMemory>
    requires { is_simple_and_free (app_of command) ≡ true }
    ensures { IfOk result (Takes (app_of command.entry) (map string_bytes words.now)) }
{
    match command.try_get_matches_from(words) {
        Ok(matches) => Ok(Some(matches)),
        Err(error) => match error.kind() {
            ErrorKind::OutOfMemory => Err(NoMemory),
            _ => Ok(None),
        },
    }
}
