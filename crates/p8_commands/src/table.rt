// The table of the commands, by which words are read and of which pages are made.
ghost use Rattle.std.specs.Prelude.{◌≡◌};
ghost use Rattle.p8_commands.specs.Seen.{entry_in, argument_of};
ghost use Rattle.p8_commands.specs.Table.{entry_of, subcommands, subcommand_named, operand as operand_told};

/// How an argument stands on the command line.
#[derive(Clone, Copy, Debug, PartialEq, Eq)]
pub enum ArgumentKind {
    /// By its place, and it has to be there.
    Operand,
    /// By its place, and it may be left out.
    OptionalOperand,
    /// As `--name` with a value, once at most.
    Valued,
    /// As `--name` without a value, once at most.
    Flag,
}

/// An argument of a command.
#[derive(Clone, Copy)]
pub struct Argument {
    pub kind: ArgumentKind,
    pub name: &'static str,
    /// What the value of an argument with a name is called; empty for any other argument.
    pub value: &'static str,
    /// What it says, with its limits.
    pub about: &'static str,
}

/// A row of the table.
#[derive(Clone, Copy)]
pub struct CommandEntry {
    /// The first word of the command.
    pub word: &'static str,
    pub arguments: &'static [Argument],
    /// What the command does.
    pub about: &'static str,
    /// Examples of its words.
    pub examples: &'static [&'static str],
}

/// A command, by the first of its words.
#[derive(Clone, Copy, Debug, PartialEq, Eq)]
pub enum Subcommand {
    /// Writes the image of a source.
    Build,
    /// Writes the listing of a source.
    List,
    /// Writes the code of a project or of an image for reading.
    Code,
    /// Writes the map of a source.
    Map,
    /// Tells why a source is refused, or tells a refusal.
    Explain,
    /// Tells what is most likely a slip in a source.
    Hint,
    /// Runs hub memory.
    Raw,
    /// Runs an image or a source.
    Run,
    /// Writes the history of a run as a file.
    Save,
    /// Checks a history file.
    Check,
    /// Reads the bytes that stand on a pin of a run.
    Serial,
    /// Writes a pin script that sends the bytes of a file.
    TypeFile,
    /// Writes the wave of a run.
    Wave,
    /// Draws the levels of some pins of a run.
    Plot,
    /// Writes the history of a run for reading.
    View,
    /// Writes a page that shows a run in a browser.
    Page,
    /// Writes an image as the other kind of file.
    Convert,
    /// Runs a made program.
    Make,
    /// Tells of the commands.
    Help,
}

const SOURCE_FILE: Argument = Argument {
    kind: ArgumentKind::Operand,
    name: "FILE",
    value: "",
    about: "the top file of a project, a source in Spin",
};

const CLOCKS: Argument = Argument {
    kind: ArgumentKind::Operand,
    name: "CLOCKS",
    value: "",
    about: "no turn is made at this clock or later: 1 to 10 digits, at most 100000000",
};

const SHOWN_RUN_CLOCKS: Argument = Argument {
    kind: ArgumentKind::Operand,
    name: "CLOCKS",
    value: "",
    about: "no turn is made at this clock or later: 1 to 10 digits, at most 4000000000",
};

const PINS: Argument = Argument {
    kind: ArgumentKind::Valued,
    name: "pins",
    value: "F",
    about: "a pin script: a line CLOCK LEVELS for each change of the input pins, 1 to 10 digits, a space and 8 hexadecimal digits (9000 00000001; bit p is pin p), clocks rising; else all are low",
};

const TURNS: Argument = Argument {
    kind: ArgumentKind::Valued,
    name: "turns",
    value: "K",
    about: "the run ends after K turns too: 1 to 10 digits, at most 1000000; else 100000",
};

const SAVED_TURNS: Argument = Argument {
    kind: ArgumentKind::Valued,
    name: "turns",
    value: "K",
    about: "the run ends after K turns too: 1 to 10 digits, at most 40000; else 40000",
};

const PAGE_TURNS: Argument = Argument {
    kind: ArgumentKind::Valued,
    name: "turns",
    value: "K",
    about: "the run ends after K turns too: 1 to 10 digits, at most 20000; else 20000",
};

const DUMP: Argument = Argument {
    kind: ArgumentKind::Valued,
    name: "dump",
    value: "A:N",
    about: "adds N bytes of hub RAM from the address A on: 4 hexadecimal digits, and 1 to 5 digits, at least 1, with A + N at most 32768",
};

const ALONE: Argument = Argument {
    kind: ArgumentKind::Flag,
    name: "alone",
    value: "",
    about: "one thread makes all turns, in place of eight",
};

const MEMORY_FILE: Argument = Argument {
    kind: ArgumentKind::Operand,
    name: "FILE",
    value: "",
    about: "the bytes of hub memory from address 0000 on, at most 32768; cog 0 starts on them as PASM",
};

const PROGRAM_FILE: Argument = Argument {
    kind: ArgumentKind::Operand,
    name: "FILE",
    value: "",
    about: "an image where the name ends in .binary or .eeprom, and else a source in Spin",
};

const ANY_FILE: Argument = Argument {
    kind: ArgumentKind::Operand,
    name: "FILE",
    value: "",
    about: "an image where the name ends in .binary or .eeprom, and else a source in Spin; with --raw hub memory",
};

const RAW: Argument = Argument {
    kind: ArgumentKind::Flag,
    name: "raw",
    value: "",
    about: "FILE has the bytes of hub memory from address 0000 on, at most 32768; cog 0 starts on them as PASM",
};

const HISTORY_FILE: Argument = Argument {
    kind: ArgumentKind::Operand,
    name: "HISTORY",
    value: "",
    about: "the history of a run of FILE, as save writes it",
};

const PIN: Argument = Argument {
    kind: ArgumentKind::Operand,
    name: "PIN",
    value: "",
    about: "the number of a pin: 1 to 10 digits, at most 31",
};

const BITS: Argument = Argument {
    kind: ArgumentKind::Operand,
    name: "BITS",
    value: "",
    about: "how many clocks a bit has: 1 to 10 digits, from 2 to 10000",
};

const START: Argument = Argument {
    kind: ArgumentKind::Operand,
    name: "START",
    value: "",
    about: "the clock at which the first byte begins: 1 to 10 digits, from 1 to 100000000",
};

const SHOWN_PINS: Argument = Argument {
    kind: ArgumentKind::Operand,
    name: "PINS",
    value: "",
    about: "the pins to draw: pins and ranges N-M of pins, divided by commas, each 1 to 10 digits, at most 31",
};

const SHOWN_CLOCKS: Argument = Argument {
    kind: ArgumentKind::OptionalOperand,
    name: "FROM:TO",
    value: "",
    about: "the clocks to draw, from FROM on and before TO: each 1 to 10 digits, FROM at most TO, and TO at most CLOCKS; else all",
};

const ASCII: Argument = Argument {
    kind: ArgumentKind::Flag,
    name: "ascii",
    value: "",
    about: "draws with characters of ASCII alone",
};

const WIDTH: Argument = Argument {
    kind: ArgumentKind::Valued,
    name: "width",
    value: "N",
    about: "a line has N columns at most: 1 to 10 digits, from 20 to 400; else 101",
};

const SHORT: Argument = Argument {
    kind: ArgumentKind::Flag,
    name: "short",
    value: "",
    about: "shorter code with the same meaning, of a source alone",
};

const ALL: Argument = Argument {
    kind: ArgumentKind::Flag,
    name: "all",
    value: "",
    about: "shows what never changes too",
};

const PINS_ONLY: Argument = Argument {
    kind: ArgumentKind::Flag,
    name: "pins-only",
    value: "",
    about: "shows the pins and the locks alone, for readers that take no variable of more than one bit",
};

const EXPLAINED: Argument = Argument {
    kind: ArgumentKind::Operand,
    name: "WORD",
    value: "",
    about: "the top file of a project, a source in Spin; or the number of a refusal, 1 or 2 digits, from 1 to 31",
};

const COG: Argument = Argument {
    kind: ArgumentKind::Valued,
    name: "cog",
    value: "N",
    about: "shows what this cog does alone: 1 digit, from 0 to 7",
};

const FROM: Argument = Argument {
    kind: ArgumentKind::Valued,
    name: "from",
    value: "CLOCK",
    about: "shows nothing before this clock: 1 to 10 digits, at most the clock of --to; else 0",
};

const TO: Argument = Argument {
    kind: ArgumentKind::Valued,
    name: "to",
    value: "CLOCK",
    about: "shows nothing at this clock or later: 1 to 10 digits, at most CLOCKS; else CLOCKS",
};

const CHANGES_OF_PINS: Argument = Argument {
    kind: ArgumentKind::Flag,
    name: "pins-only",
    value: "",
    about: "shows what changes pins alone",
};

const QUIET: Argument = Argument {
    kind: ArgumentKind::Flag,
    name: "quiet",
    value: "",
    about: "shows no turn, and tells the end alone",
};

const ALONE_IN_ANY_CASE: Argument = Argument {
    kind: ArgumentKind::Flag,
    name: "alone",
    value: "",
    about: "changes nothing: one thread makes all turns in any case",
};

const NAMED_DUMP: Argument = Argument {
    kind: ArgumentKind::Valued,
    name: "dump",
    value: "A:N|NAME",
    about: "adds N bytes of hub RAM from the address A on, as run has it; or all of the variable or the label NAME, or of OBJECT.NAME",
};

const MESSAGE_FILE: Argument = Argument {
    kind: ArgumentKind::Operand,
    name: "FILE",
    value: "",
    about: "the bytes to send, at most 5000",
};

const CODE_FILE: Argument = Argument {
    kind: ArgumentKind::Operand,
    name: "FILE",
    value: "",
    about: "an image, where its name ends in .binary or .eeprom; or else the top file of a project",
};

const IMAGE_FILE: Argument = Argument {
    kind: ArgumentKind::Operand,
    name: "FILE",
    value: "",
    about: "an image, whose name ends in .binary or .eeprom",
};

const SEED: Argument = Argument {
    kind: ArgumentKind::Operand,
    name: "SEED",
    value: "",
    about: "the number of a made program: 1 to 10 digits, at most 4294967295",
};

const TOPIC: Argument = Argument {
    kind: ArgumentKind::OptionalOperand,
    name: "COMMAND",
    value: "",
    about: "the word of a command; else all commands are told",
};

impl Subcommand {
    /// All commands, in the order in which they are told.
    pub fn all() -> &'static [Subcommand]
        ensures { result.now ≡ subcommands }
    {
        &[
            Subcommand::Build,
            Subcommand::List,
            Subcommand::Code,
            Subcommand::Map,
            Subcommand::Explain,
            Subcommand::Hint,
            Subcommand::Raw,
            Subcommand::Run,
            Subcommand::Save,
            Subcommand::Check,
            Subcommand::Serial,
            Subcommand::TypeFile,
            Subcommand::Wave,
            Subcommand::Plot,
            Subcommand::View,
            Subcommand::Page,
            Subcommand::Convert,
            Subcommand::Make,
            Subcommand::Help,
        ]
    }

    /// The command's row of the table.
    pub fn row(self) -> CommandEntry
        ensures { entry_in result ≡ entry_of self }
    {
        match self {
            Subcommand::Build => CommandEntry {
                word: "build",
                arguments: &[SOURCE_FILE, SHORT],
                about: "Writes the image of a source, as a .binary file holds it.",
                examples: &[
                    "prop build blink.spin > blink.binary",
                    "prop build blink.spin --short",
                ],
            },
            Subcommand::List => CommandEntry {
                word: "list",
                arguments: &[SOURCE_FILE, SHORT],
                about: "Writes the listing of a source: its objects, their methods, and the code of each.",
                examples: &["prop list blink.spin", "prop list blink.spin --short"],
            },
            Subcommand::Code => CommandEntry {
                word: "code",
                arguments: &[CODE_FILE, SHORT],
                about: "Writes the code of a project or of an image, for reading.",
                examples: &["prop code blink.spin", "prop code blink.binary"],
            },
            Subcommand::Map => CommandEntry {
                word: "map",
                arguments: &[SOURCE_FILE],
                about: "Writes the map of a source: where in the hub each variable, label, method and text of its objects stands.",
                examples: &["prop map blink.spin", "prop map blink.spin | less"],
            },
            Subcommand::Explain => CommandEntry {
                word: "explain",
                arguments: &[EXPLAINED],
                about: "Tells why a source is refused, with the line that is and what mends it; or tells a refusal by its number.",
                examples: &["prop explain blink.spin", "prop explain 12"],
            },
            Subcommand::Hint => CommandEntry {
                word: "hint",
                arguments: &[SOURCE_FILE],
                about: "Tells what is accepted in a source and is most likely a slip, each with its line; or that there is nothing to hint at.",
                examples: &["prop hint blink.spin", "prop hint blink.spin | less"],
            },
            Subcommand::Raw => CommandEntry {
                word: "raw",
                arguments: &[MEMORY_FILE, CLOCKS, PINS, TURNS, DUMP],
                about: "Runs hub memory up to a clock, and writes the trace.",
                examples: &[
                    "prop raw hub.bin 20000 --turns 100",
                    "prop raw hub.bin 20000 --pins button.pins",
                ],
            },
            Subcommand::Run => CommandEntry {
                word: "run",
                arguments: &[PROGRAM_FILE, CLOCKS, PINS, TURNS, DUMP, ALONE, SHORT],
                about: "Runs an image or a source up to a clock, and writes the trace.",
                examples: &[
                    "prop run blink.spin 20000 --dump 0000:16",
                    "prop run blink.binary 200000 --pins button.pins --alone",
                ],
            },
            Subcommand::Save => CommandEntry {
                word: "save",
                arguments: &[ANY_FILE, CLOCKS, PINS, SAVED_TURNS, RAW],
                about: "Runs a file up to a clock, and writes the history, from which check tells whether a run has it.",
                examples: &[
                    "prop save blink.spin 20000 > blink.history",
                    "prop save blink.spin 20000 --turns 500",
                ],
            },
            Subcommand::Check => CommandEntry {
                word: "check",
                arguments: &[ANY_FILE, HISTORY_FILE, PINS, RAW],
                about: "Checks that a history is that of a run of a file: writes its number of turns, or tells the first turn that isn't.",
                examples: &[
                    "prop check blink.spin blink.history",
                    "prop check blink.binary blink.history --pins button.pins",
                ],
            },
            Subcommand::Serial => CommandEntry {
                word: "serial",
                arguments: &[ANY_FILE, CLOCKS, PIN, BITS, PINS, TURNS, RAW],
                about: "Runs a file up to a clock, and writes the bytes that stand on a pin as 8 data bits, no parity and one stop bit.",
                examples: &[
                    "prop serial hello.spin 200000 30 694",
                    "prop serial echo.spin 400000 30 694 --pins hello.pins",
                ],
            },
            Subcommand::TypeFile => CommandEntry {
                word: "type",
                arguments: &[MESSAGE_FILE, PIN, BITS, START],
                about: "Writes a pin script that sends the bytes of a file on a pin, as serial reads them.",
                examples: &[
                    "prop type hello.txt 31 694 20000 > hello.pins",
                    "prop type hello.txt 0 100 1000",
                ],
            },
            Subcommand::Wave => CommandEntry {
                word: "wave",
                arguments: &[
                    ANY_FILE,
                    SHOWN_RUN_CLOCKS,
                    PINS,
                    TURNS,
                    RAW,
                    ALL,
                    PINS_ONLY,
                    ALONE,
                ],
                about: "Runs a file up to a clock, and writes the wave of its pins, cogs and locks as a value change dump.",
                examples: &[
                    "prop wave blink.spin 200000 > blink.vcd",
                    "prop wave blink.spin 200000 --all --pins-only",
                ],
            },
            Subcommand::Plot => CommandEntry {
                word: "plot",
                arguments: &[
                    ANY_FILE,
                    SHOWN_RUN_CLOCKS,
                    SHOWN_PINS,
                    SHOWN_CLOCKS,
                    PINS,
                    TURNS,
                    RAW,
                    ASCII,
                    WIDTH,
                    ALONE,
                ],
                about: "Runs a file up to a clock, and draws the levels of some pins as text, a line for each pin.",
                examples: &[
                    "prop plot blink.spin 200000 16",
                    "prop plot blink.spin 200000 0,16-23 1000:9000 --ascii --width 60",
                ],
            },
            Subcommand::View => CommandEntry {
                word: "view",
                arguments: &[
                    ANY_FILE,
                    SHOWN_RUN_CLOCKS,
                    PINS,
                    TURNS,
                    ALONE_IN_ANY_CASE,
                    RAW,
                    COG,
                    FROM,
                    TO,
                    CHANGES_OF_PINS,
                    QUIET,
                    NAMED_DUMP,
                ],
                about: "Runs a file up to a clock, and writes its history for reading, with the names and the lines of a source, and what each cog does in the end.",
                examples: &[
                    "prop view blink.spin 20000 --cog 1",
                    "prop view blink.spin 200000 --quiet --dump ser.rx_head",
                ],
            },
            Subcommand::Page => CommandEntry {
                word: "page",
                arguments: &[ANY_FILE, SHOWN_RUN_CLOCKS, PINS, PAGE_TURNS, RAW, FROM, TO],
                about: "Runs a file up to a clock, and writes a page in HTML that shows the run in a browser: cogs, pins, the hub, and the lines of a source.",
                examples: &[
                    "prop page blink.spin 200000 > blink.html",
                    "prop page blink.spin 200000 --from 8000 --turns 500",
                ],
            },
            Subcommand::Convert => CommandEntry {
                word: "convert",
                arguments: &[IMAGE_FILE],
                about: "Writes an image as the other kind of file: of a .binary the .eeprom, of an .eeprom the .binary.",
                examples: &[
                    "prop convert blink.binary > blink.eeprom",
                    "prop convert blink.eeprom > blink.binary",
                ],
            },
            Subcommand::Make => CommandEntry {
                word: "make",
                arguments: &[SEED, ALONE],
                about: "Runs a made program for eight cogs, and writes a summary.",
                examples: &["prop make 1", "prop make 4294967295 --alone"],
            },
            Subcommand::Help => CommandEntry {
                word: "help",
                arguments: &[TOPIC],
                about: "Writes what a command does, its arguments, their limits and two examples.",
                examples: &["prop help run", "prop help"],
            },
        }
    }

    /// The command that a word names, or None where it names none.
    #[tactic(auto, unfolding(crate::specs::Table::subcommand_named))]
    pub fn named(word: &str) -> Option<Subcommand>
        ensures { result ≡ subcommand_named word.now }
    {
        for command in Subcommand::all() {
            if command.row().word == word {
                return Some(*command);
            }
        }
        None
    }
}
