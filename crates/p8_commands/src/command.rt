// What the words of the command line ask for.
ghost use Rattle.std.specs.Prelude.{◌≡◌, if◌then◌else◌, Some, None};
ghost use Rattle.p8_commands.specs.Commands.{alone_of, explains as explains_of};
ghost use Rattle.p8_commands.specs.Seen.{command_read};

use crate::image_kind::ImageKind;
use crate::table::Subcommand;

/// A run of a file.
#[derive(Clone, Copy)]
pub struct Run<'a> {
    pub file: &'a str,
    /// No turn is made at this clock or later; at most 4,000,000,000, and 100,000,000 where the run isn't shown as a wave, a picture, a view or a page.
    pub clocks: u64,
    /// The file of a pin script.
    pub script: Option<&'a str>,
    /// How many turns the run makes at most; at most 1,000,000.
    pub turns: u64,
    /// The range of hub RAM to dump in the end: an address, and how many bytes from there on.
    pub dump: Option<(u16, u16)>,
}

/// What is dumped in the end of a view.
#[derive(Clone, Copy)]
pub enum Dump<'a> {
    /// A range of hub RAM: an address, and how many bytes from there on.
    Range((u16, u16)),
    /// All of the variable or the label of this name.
    Name(&'a str),
}

/// A command.
#[derive(Clone, Copy)]
pub enum Command<'a> {
    /// Writes the image of a source, with its short code where it is short.
    Build {
        short: bool,
        file: &'a str,
    },
    /// Writes the listing of a source, with its short code where it is short.
    List {
        short: bool,
        file: &'a str,
    },
    /// Writes the code of a project for reading, with its short code where it is short.
    CodeSource {
        short: bool,
        file: &'a str,
    },
    /// Writes the code of an image of this kind for reading.
    CodeImage {
        kind: ImageKind,
        file: &'a str,
    },
    /// Writes the map of a source.
    Map {
        file: &'a str,
    },
    /// Tells why a source is refused.
    ExplainFile {
        file: &'a str,
    },
    /// Tells a refusal.
    ExplainNumber {
        /// Its number, 1 to 31.
        number: u8,
    },
    /// Hints at what is accepted in a source and is most likely a slip.
    Hint {
        file: &'a str,
    },
    /// Writes the trace of a run of hub memory, by one thread.
    Raw {
        run: Run<'a>,
    },
    /// Writes the trace of a run of an image or a source, by one thread or by a crew. A source has its short code where it is short, and an image
    /// never is.
    Run {
        alone: bool,
        short: bool,
        run: Run<'a>,
    },
    /// Writes the history of a run as a file. What is run is hub memory where it is raw, and else an image or a source.
    Save {
        raw: bool,
        run: Run<'a>,
    },
    /// Checks that a history file is that of a run of a file, which is hub memory where it is raw, and else an image or a source.
    Check {
        raw: bool,
        file: &'a str,
        history: &'a str,
        /// The file of a pin script.
        script: Option<&'a str>,
    },
    /// Reads the bytes that stand on a pin of a run, with so many clocks a bit. What is run is hub memory where it is raw, and else an image or a
    /// source.
    Serial {
        raw: bool,
        run: Run<'a>,
        /// At most 31.
        pin: u8,
        /// 2 to 10,000 clocks.
        bits: u32,
    },
    /// Writes a pin script that sends the bytes of a file on a pin, with so many clocks a bit, from a clock on.
    TypeFile {
        file: &'a str,
        /// At most 31.
        pin: u8,
        /// 2 to 10,000 clocks.
        bits: u32,
        /// 1 to 100,000,000.
        start: u64,
    },
    /// Writes the wave of a run, of all that it has or of what changes, by one thread or by a crew. What is run is hub memory where it is raw, and
    /// else an image or a source.
    Wave {
        alone: bool,
        raw: bool,
        all: bool,
        /// Whether it has the pins and the locks alone.
        pins_only: bool,
        run: Run<'a>,
    },
    /// Draws the levels of some pins of a run, by one thread or by a crew. What is run is hub memory where it is raw, and else an image or a source.
    Plot {
        alone: bool,
        raw: bool,
        /// Whether it is drawn with characters of ASCII alone.
        ascii: bool,
        run: Run<'a>,
        /// The mask of the pins: bit p for pin p.
        pins: u32,
        /// The first clock.
        from: u64,
        /// The clock before which it ends, at least the first one and at most the run's.
        to: u64,
        /// How many columns a line has at most: 20 to 400.
        columns: u16,
    },
    /// Writes the history of a run for reading, by one thread. What is run is hub memory where it is raw, and else an image or a source.
    View {
        raw: bool,
        /// Whether it has the turns that change pins alone.
        pins_only: bool,
        /// Whether it has no turn at all, and what holds in the end alone.
        quiet: bool,
        /// The run; it has no dump of its own.
        run: Run<'a>,
        /// The one cog that is shown, at most 7, or None for all of them.
        cog: Option<u8>,
        /// The first clock that is shown.
        from: u64,
        /// The clock before which it ends, at least the first one and at most the run's.
        to: u64,
        /// What is dumped in the end.
        dump: Option<Dump<'a>>,
    },
    /// Writes a page that shows a run in a browser, by one thread. What is run is hub memory where it is raw, and else an image or a source.
    Page {
        raw: bool,
        /// The run, of at most 20,000 turns; it has no dump.
        run: Run<'a>,
        /// The first clock that is shown.
        from: u64,
        /// The clock before which it ends, at least the first one and at most the run's.
        to: u64,
    },
    /// Writes an image of this kind as the other kind of file.
    Convert {
        kind: ImageKind,
        file: &'a str,
    },
    /// Writes the summary of a run of the made program of a seed, by one thread or by a crew.
    Make {
        seed: u32,
        alone: bool,
    },
    /// Tells of one command, or of all of them.
    Help {
        topic: Option<Subcommand>,
    },
}

impl Command<'_> {
    /// Whether it explains why a source is refused.
    pub fn explains(self) -> bool
        ensures { result ≡ explains_of (command_read self.entry) }
    {
        match self {
            Command::ExplainFile { .. } => true,
            Command::Build { .. } | Command::List { .. } => false,
            Command::CodeSource { .. } | Command::CodeImage { .. } => false,
            Command::Map { .. } | Command::ExplainNumber { .. } => false,
            Command::Hint { .. } => false,
            Command::Raw { .. } | Command::Run { .. } => false,
            Command::Save { .. } | Command::Check { .. } => false,
            Command::Serial { .. } | Command::TypeFile { .. } => false,
            Command::Wave { .. } | Command::Plot { .. } | Command::View { .. } => false,
            Command::Page { .. } => false,
            Command::Convert { .. } | Command::Make { .. } => false,
            Command::Help { .. } => false,
        }
    }

    /// Whether one thread alone carries it out.
    pub fn is_alone(self) -> bool
        ensures { (if result then Some (command_read self.entry) else None) ≡ alone_of (Some (command_read self.entry)) }
    {
        match self {
            Command::Build { .. } | Command::List { .. } => true,
            Command::CodeSource { .. } | Command::CodeImage { .. } => true,
            Command::Map { .. } => true,
            Command::ExplainFile { .. } | Command::ExplainNumber { .. } => true,
            Command::Hint { .. } => true,
            Command::Raw { .. } | Command::Save { .. } => true,
            Command::Check { .. } | Command::Convert { .. } => true,
            Command::Serial { .. } | Command::TypeFile { .. } => true,
            Command::View { .. } => true,
            Command::Page { .. } => true,
            Command::Help { .. } => true,
            Command::Run { alone, .. } => alone,
            Command::Wave { alone, .. } => alone,
            Command::Plot { alone, .. } => alone,
            Command::Make { alone, .. } => alone,
        }
    }
}
