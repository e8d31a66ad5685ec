// The words of the command line.
ghost use Rattle.std.specs.Prelude.{◌≡◌, ◌≤◌, Some, None, codes, map, option_map, option_and_then, string_bytes, IfOk, IfSome};
ghost use Rattle.std.specs.Option.{ForSome};
ghost use Rattle.clap.specs.Matches.{first_value, found_of};
ghost use Rattle.p8_commands.specs.Commands.{command_of, said_to, meaning_of, run_of, traced_of, saved_of, number_by};
ghost use Rattle.p8_commands.specs.Commands.{dump_by, is_given as is_given_by, has_flag as has_flag_by, check_of, read_of, shown_of, paged_of};
ghost use Rattle.p8_commands.specs.Commands.{pin_of, bits_of, serial_of, type_of, program_of, columns_by, plot_of, cog_by, dumped_of, shown_by};
ghost use Rattle.p8_commands.specs.Commands.{view_of, page_of, code_of, explain_of, seed_of, topic_of, convert_of};
ghost use Rattle.p8_commands.specs.Naming.{name_of};
ghost use Rattle.p8_commands.specs.Numbers.{most_clocks, most_page_turns, most_saved_turns, most_seed, most_shown_clocks, most_turns, last_cog};
ghost use Rattle.p8_commands.specs.Numbers.{last_pin, least_bits, most_bits, least_columns, most_columns};
ghost use Rattle.p8_commands.specs.Ranges.{IsInRam};
ghost use Rattle.p8_commands.specs.Seen.{command_if_any, dump_if_any, run_if_any, running, IsDumpInRam, IsWithin, HasLimits};

use crate::arguments::{command_for, matches_in};
use crate::command::{Command, Dump, Run};
use crate::image_kind::ImageKind;
use crate::numbers::{cog_in, is_of_digits, number_from, number_in, range_in, refusal_in};
use crate::pins::{LAST_PIN, mask_in, span_by, span_in};
use crate::table::Subcommand;
use clap::ArgMatches;
use p8_words::NoMemory;
use std::alloc::Global;

/// The greatest number of clocks of a run that is traced or saved, or of which bytes are read, and the greatest clock at which bytes are sent.
const MOST_CLOCKS: u64 = 100_000_000;

/// The greatest number of clocks of a run that is shown, as a wave, a picture, a view or a page.
const MOST_SHOWN_CLOCKS: u64 = 4_000_000_000;

/// The greatest number of turns that may be asked for.
const MOST_TURNS: u64 = 1_000_000;

/// How many turns a run makes at most where no number is asked for.
const USUAL_TURNS: u64 = 100_000;

/// The greatest number of turns of a history that is kept in a file, and how many it has at most where no number is asked for.
const MOST_SAVED_TURNS: u64 = 40_000;

/// The greatest number of turns that a page shows, and how many it has at most where no number is asked for.
const MOST_PAGE_TURNS: u64 = 20_000;

/// How many clocks a bit has at least and at most.
const LEAST_BITS: u64 = 2;

const MOST_BITS: u64 = 10_000;

/// How many columns a picture has at most: what may be asked for, and where nothing is.
const LEAST_COLUMNS: u64 = 20;

const MOST_COLUMNS: u64 = 400;

const USUAL_COLUMNS: u16 = 101;

/// The greatest seed of a made program.
const MOST_SEED: u64 = 4_294_967_295;

/// The number that the value of an option says, at most so great, or None for another spelling. Where it has no value it is the usual number.
fn number_or(value: Option<&str>, most: u64, usual: u64) -> Option<u64>
    requires most { most ≤ most_seed }
    requires usual { usual ≤ most }
    ensures number { result ≡ number_by most usual (name_of value.entry) }
    ensures within { ForSome result (λ number. number ≤ most) }
{
    match value {
        None => Some(usual),
        Some(text) => number_in(text.as_bytes(), most),
    }
}

/// The range that the value of `--dump` says, where it has one, or None for another spelling.
fn dump_in(value: Option<&str>) -> Option<Option<(u16, u16)>>
    ensures dump { result ≡ dump_by (name_of value.entry) }
    ensures in_ram { IfSome result IsInRam }
{
    match value {
        None => Some(None),
        Some(text) => Some(Some(range_in(text.as_bytes())?)),
    }
}

/// A run by the values of the arguments that every run has, with the value of `--dump`, or None where one of them is lacking or has another
/// spelling.
fn run_in<'a>(
    matches: &ArgMatches<'a>,
    clocks: u64,
    most: u64,
    usual: u64,
    dump: Option<&str>,
) -> Option<Run<'a>>
    requires clocks { clocks ≤ most_shown_clocks }
    requires most { most ≤ most_turns }
    requires usual { usual ≤ most }
    ensures seen { run_if_any result ≡ run_of clocks most usual (name_of dump.entry) (first_value (found_of matches.now)) }
    ensures within { IfSome result IsWithin }
    ensures clocks { IfSome result (λ run. run.clocks ≤ clocks) }
    ensures turns { IfSome result (λ run. run.turns ≤ most) }
{
    let file = matches.get_str("FILE")?;
    let clocks = number_in(matches.get_str("CLOCKS")?.as_bytes(), clocks)?;
    let turns = number_or(matches.get_str("turns"), most, usual)?;
    let dump = dump_in(dump)?;
    Some(Run {
        file,
        clocks,
        script: matches.get_str("pins"),
        turns,
        dump,
    })
}

/// A run that is traced.
fn traced_in<'a>(matches: &ArgMatches<'a>) -> Option<Run<'a>>
    ensures seen { run_if_any result ≡ traced_of (first_value (found_of matches.now)) }
    ensures within { IfSome result IsWithin }
{
    run_in(
        matches,
        MOST_CLOCKS,
        MOST_TURNS,
        USUAL_TURNS,
        matches.get_str("dump"),
    )
}

/// A run that is saved.
fn saved_in<'a>(matches: &ArgMatches<'a>) -> Option<Run<'a>>
    ensures seen { run_if_any result ≡ saved_of (first_value (found_of matches.now)) }
    ensures within { IfSome result IsWithin }
    ensures clocks { IfSome result (λ run. run.clocks ≤ most_clocks) }
    ensures turns { IfSome result (λ run. run.turns ≤ most_saved_turns) }
{
    run_in(
        matches,
        MOST_CLOCKS,
        MOST_SAVED_TURNS,
        MOST_SAVED_TURNS,
        None,
    )
}

/// A run of which the bytes on a pin are read.
fn read_in<'a>(matches: &ArgMatches<'a>) -> Option<Run<'a>>
    ensures seen { run_if_any result ≡ read_of (first_value (found_of matches.now)) }
    ensures within { IfSome result IsWithin }
{
    run_in(matches, MOST_CLOCKS, MOST_TURNS, USUAL_TURNS, None)
}

/// A run that is shown, as a wave, a picture or a view.
fn shown_in<'a>(matches: &ArgMatches<'a>) -> Option<Run<'a>>
    ensures seen { run_if_any result ≡ shown_of (first_value (found_of matches.now)) }
    ensures within { IfSome result IsWithin }
{
    run_in(matches, MOST_SHOWN_CLOCKS, MOST_TURNS, USUAL_TURNS, None)
}

/// A run that is shown in a browser.
fn paged_in<'a>(matches: &ArgMatches<'a>) -> Option<Run<'a>>
    ensures seen { run_if_any result ≡ paged_of (first_value (found_of matches.now)) }
    ensures within { IfSome result IsWithin }
    ensures turns { IfSome result (λ run. run.turns ≤ most_page_turns) }
{
    run_in(
        matches,
        MOST_SHOWN_CLOCKS,
        MOST_PAGE_TURNS,
        MOST_PAGE_TURNS,
        None,
    )
}

/// Whether a flag with this value is given.
fn is_given(value: Option<&str>) -> bool
    ensures { result ≡ is_given_by (name_of value.entry) }
{
    match value {
        None => false,
        Some(text) => text == "true",
    }
}

/// Whether the flag of this name is given.
fn has_flag(matches: &ArgMatches<'_>, name: &str) -> bool
    ensures { result ≡ has_flag_by name.now (first_value (found_of matches.now)) }
{
    is_given(matches.get_str(name))
}

/// The command to check a history file, or None where a file isn't named.
fn check_in<'a>(matches: &ArgMatches<'a>) -> Option<Command<'a>>
    ensures seen { command_if_any result ≡ check_of (first_value (found_of matches.now)) }
    ensures within { IfSome result HasLimits }
{
    Some(Command::Check {
        raw: has_flag(matches, "raw"),
        file: matches.get_str("FILE")?,
        history: matches.get_str("HISTORY")?,
        script: matches.get_str("pins"),
    })
}

/// The number of a pin.
fn pin_in(matches: &ArgMatches<'_>) -> Option<u8>
    ensures seen { result ≡ pin_of (first_value (found_of matches.now)) }
    ensures within { ForSome result (λ pin. pin ≤ last_pin) }
{
    let pin = number_in(matches.get_str("PIN")?.as_bytes(), LAST_PIN)?;
    Some(pin as u8)
}

/// How many clocks a bit has.
fn bits_in(matches: &ArgMatches<'_>) -> Option<u32>
    ensures seen { result ≡ bits_of (first_value (found_of matches.now)) }
    ensures least { ForSome result (λ bits. least_bits ≤ bits) }
    ensures within { ForSome result (λ bits. bits ≤ most_bits) }
{
    let bits = number_from(matches.get_str("BITS")?.as_bytes(), LEAST_BITS, MOST_BITS)?;
    Some(bits as u32)
}

/// The command to read the bytes on a pin, or None where a value has another spelling.
fn serial_in<'a>(matches: &ArgMatches<'a>) -> Option<Command<'a>>
    ensures seen { command_if_any result ≡ serial_of (first_value (found_of matches.now)) }
    ensures within { IfSome result HasLimits }
{
    Some(Command::Serial {
        raw: has_flag(matches, "raw"),
        run: read_in(matches)?,
        pin: pin_in(matches)?,
        bits: bits_in(matches)?,
    })
}

/// The command to send the bytes of a file, or None where a value has another spelling.
fn type_in<'a>(matches: &ArgMatches<'a>) -> Option<Command<'a>>
    ensures seen { command_if_any result ≡ type_of (first_value (found_of matches.now)) }
    ensures within { IfSome result HasLimits }
{
    Some(Command::TypeFile {
        file: matches.get_str("FILE")?,
        pin: pin_in(matches)?,
        bits: bits_in(matches)?,
        start: number_from(matches.get_str("START")?.as_bytes(), 1, MOST_CLOCKS)?,
    })
}

/// The command to run an image or a source, or None where an image is to have short code.
fn program_in(alone: bool, short: bool, run: Run<'_>) -> Option<Command<'_>>
    requires { IsWithin run }
    ensures seen { command_if_any result ≡ program_of alone short (running run.entry) }
    ensures within { IfSome result HasLimits }
{
    if short && ImageKind::named(run.file).is_some() {
        return None;
    }
    Some(Command::Run { alone, short, run })
}

/// The command to write the code of a file, or None where an image is to have short code.
fn code_in(short: bool, file: &str) -> Option<Command<'_>>
    ensures seen { command_if_any result ≡ code_of short file.now }
    ensures within { IfSome result HasLimits }
{
    match ImageKind::named(file) {
        None => Some(Command::CodeSource { short, file }),
        Some(_) if short => None,
        Some(kind) => Some(Command::CodeImage { kind, file }),
    }
}

/// How many columns a picture has at most, by the value of `--width`, or None for another spelling.
fn columns_in(value: Option<&str>) -> Option<u16>
    ensures columns { result ≡ columns_by (name_of value.entry) }
    ensures least { ForSome result (λ columns. least_columns ≤ columns) }
    ensures within { ForSome result (λ columns. columns ≤ most_columns) }
{
    let Some(text) = value else {
        return Some(USUAL_COLUMNS);
    };
    let columns = number_from(text.as_bytes(), LEAST_COLUMNS, MOST_COLUMNS)?;
    Some(columns as u16)
}

/// The command to draw pins, or None where a value has another spelling.
fn plot_in<'a>(matches: &ArgMatches<'a>) -> Option<Command<'a>>
    ensures seen { command_if_any result ≡ plot_of (first_value (found_of matches.now)) }
    ensures within { IfSome result HasLimits }
{
    let run = shown_in(matches)?;
    let pins = mask_in(matches.get_str("PINS")?.as_bytes())?;
    let columns = columns_in(matches.get_str("width"))?;
    let (from, to) = span_in(matches.get_str("FROM:TO"), run.clocks)?;
    Some(Command::Plot {
        alone: has_flag(matches, "alone"),
        raw: has_flag(matches, "raw"),
        ascii: has_flag(matches, "ascii"),
        run,
        pins,
        from,
        to,
        columns,
    })
}

/// The cog that the value of `--cog` says, or all of them where it has none, or None for another spelling.
fn shown_cog(value: Option<&str>) -> Option<Option<u8>>
    ensures cog { result ≡ cog_by (name_of value.entry) }
    ensures within { IfSome result (λ cog. ForSome cog (λ number. number ≤ last_cog)) }
{
    match value {
        None => Some(None),
        Some(text) => Some(Some(cog_in(text.as_bytes())?)),
    }
}

/// The clocks that the values of `--from` and `--to` say of a run with so many, or None for another spelling.
fn shown_clocks(from: Option<&str>, to: Option<&str>, clocks: u64) -> Option<(u64, u64)>
    requires { clocks ≤ most_seed }
    ensures shown { result ≡ shown_by clocks (name_of from.entry) (name_of to.entry) }
    ensures first { ForSome result (λ shown. shown.0 ≤ clocks) }
{
    span_by(number_or(from, clocks, 0), number_or(to, clocks, clocks))
}

/// What the value of `--dump` says is dumped in the end of a view: `A:N` is a range, and any other word a name.
fn dumped_by(value: Option<&str>) -> Option<Dump<'_>>
    ensures dump { dump_if_any result ≡ dumped_of (name_of value.entry) }
    ensures in_ram { IsDumpInRam result }
{
    let word = value?;
    match range_in(word.as_bytes()) {
        Some(range) => Some(Dump::Range(range)),
        None => Some(Dump::Name(word)),
    }
}

/// The command to show a run, or None where a value has another spelling.
fn view_in<'a>(matches: &ArgMatches<'a>) -> Option<Command<'a>>
    ensures seen { command_if_any result ≡ view_of (first_value (found_of matches.now)) }
    ensures within { IfSome result HasLimits }
{
    let run = shown_in(matches)?;
    let cog = shown_cog(matches.get_str("cog"))?;
    let (from, to) = shown_clocks(matches.get_str("from"), matches.get_str("to"), run.clocks)?;
    Some(Command::View {
        raw: has_flag(matches, "raw"),
        pins_only: has_flag(matches, "pins-only"),
        quiet: has_flag(matches, "quiet"),
        run,
        cog,
        from,
        to,
        dump: dumped_by(matches.get_str("dump")),
    })
}

/// The command to show a run in a browser, or None where a value has another spelling.
fn page_in<'a>(matches: &ArgMatches<'a>) -> Option<Command<'a>>
    ensures seen { command_if_any result ≡ page_of (first_value (found_of matches.now)) }
    ensures within { IfSome result HasLimits }
{
    let run = paged_in(matches)?;
    let (from, to) = shown_clocks(matches.get_str("from"), matches.get_str("to"), run.clocks)?;
    Some(Command::Page {
        raw: has_flag(matches, "raw"),
        run,
        from,
        to,
    })
}

/// The command to explain what a word names, or None where it is of digits and not the number of a refusal.
fn explain_in(word: &str) -> Option<Command<'_>>
    ensures seen { command_if_any result ≡ explain_of word.now }
    ensures within { IfSome result HasLimits }
{
    if !word.is_empty() && is_of_digits(word.as_bytes()) {
        return Some(Command::ExplainNumber {
            number: refusal_in(word.as_bytes())?,
        });
    }
    Some(Command::ExplainFile { file: word })
}

/// The seed of a made program.
fn seed_in(matches: &ArgMatches<'_>) -> Option<u32>
    ensures { result ≡ seed_of (first_value (found_of matches.now)) }
{
    let seed = number_in(matches.get_str("SEED")?.as_bytes(), MOST_SEED)?;
    Some(seed as u32)
}

/// What help is asked for by this word, or by none.
fn topic_in(word: Option<&str>) -> Option<Option<Subcommand>>
    ensures { result ≡ topic_of (name_of word.entry) }
{
    match word {
        None => Some(None),
        Some(word) => Some(Some(Subcommand::named(word)?)),
    }
}

/// The command to convert a file, or None where its name is none of an image.
fn convert_in(file: &str) -> Option<Command<'_>>
    ensures seen { command_if_any result ≡ convert_of file.now }
    ensures within { IfSome result HasLimits }
{
    Some(Command::Convert {
        kind: ImageKind::named(file)?,
        file,
    })
}

/// The command of the values of its arguments, or None where one of them has another spelling.
fn meaning_in<'a>(command: Subcommand, matches: &ArgMatches<'a>) -> Option<Command<'a>>
    ensures seen { command_if_any result ≡ meaning_of command (first_value (found_of matches.now)) }
    ensures within { IfSome result HasLimits }
{
    match command {
        Subcommand::Build => Some(Command::Build {
            short: has_flag(matches, "short"),
            file: matches.get_str("FILE")?,
        }),
        Subcommand::List => Some(Command::List {
            short: has_flag(matches, "short"),
            file: matches.get_str("FILE")?,
        }),
        Subcommand::Code => code_in(has_flag(matches, "short"), matches.get_str("FILE")?),
        Subcommand::Map => Some(Command::Map {
            file: matches.get_str("FILE")?,
        }),
        Subcommand::Explain => explain_in(matches.get_str("WORD")?),
        Subcommand::Hint => Some(Command::Hint {
            file: matches.get_str("FILE")?,
        }),
        Subcommand::Raw => Some(Command::Raw {
            run: traced_in(matches)?,
        }),
        Subcommand::Run => program_in(
            has_flag(matches, "alone"),
            has_flag(matches, "short"),
            traced_in(matches)?,
        ),
        Subcommand::Save => Some(Command::Save {
            raw: has_flag(matches, "raw"),
            run: saved_in(matches)?,
        }),
        Subcommand::Check => check_in(matches),
        Subcommand::Serial => serial_in(matches),
        Subcommand::TypeFile => type_in(matches),
        Subcommand::Wave => Some(Command::Wave {
            alone: has_flag(matches, "alone"),
            raw: has_flag(matches, "raw"),
            all: has_flag(matches, "all"),
            pins_only: has_flag(matches, "pins-only"),
            run: shown_in(matches)?,
        }),
        Subcommand::Plot => plot_in(matches),
        Subcommand::View => view_in(matches),
        Subcommand::Page => page_in(matches),
        Subcommand::Convert => convert_in(matches.get_str("FILE")?),
        Subcommand::Make => Some(Command::Make {
            seed: seed_in(matches)?,
            alone: has_flag(matches, "alone"),
        }),
        Subcommand::Help => Some(Command::Help {
            topic: topic_in(matches.get_str("COMMAND"))?,
        }),
    }
}

/// The command that words say by a row of the table, or None where they say another thing.
fn said_in<'a>(
    alloc: Global,
    command: Subcommand,
    words: &'a [String],
) -> Result<Option<Command<'a>>, NoMemory>
    ensures seen { IfOk result (λ said. command_if_any said ≡ said_to command (map string_bytes words.now)) }
    ensures within { IfOk result (λ said. IfSome said HasLimits) }
{
    match matches_in(command_for(alloc, command.row())?, words)? {
        None => Ok(None),
        Some(matches) => Ok(meaning_in(command, &matches)),
    }
}

/// What the words after the program's name ask for, or None where they are no command. The first word chooses the row of the table, and
/// by that row the library `clap` reads all of them.
///
/// # Errors
///
/// Want of memory.
pub fn command_in<'a>(alloc: Global, words: &'a [String]) -> Result<Option<Command<'a>>, NoMemory>
    ensures seen { IfOk result (λ said. command_if_any said ≡ command_of (map string_bytes words.now)) }
    ensures within { IfOk result (λ said. IfSome said HasLimits) }
{
    let [word, ..] = words else {
        return Ok(None);
    };
    match Subcommand::named(word.as_str()) {
        None => Ok(None),
        Some(command) => said_in(alloc, command, words),
    }
}
