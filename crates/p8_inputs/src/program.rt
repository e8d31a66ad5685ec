// What is run.
ghost use Rattle.std.specs.Prelude.{◌≡◌};
ghost use Rattle.p8_inputs.specs.Programs.{format_for, format_named, format_of};

use p8_commands::ImageKind;

/// What the file to run is taken for.
#[derive(Clone, Copy, Debug, PartialEq, Eq)]
pub enum Format {
    /// Hub memory from address $0000 on, on which cog 0 starts as PASM at $0000 with PAR 0. It has at most 32,768 bytes.
    Memory,
    /// An image of a program, as a `.binary` file holds it, which says itself how cog 0 starts.
    Image,
    /// An image of a program, as an `.eeprom` file holds it: the whole memory that a run begins with.
    Eeprom,
    /// The top file of a project of sources in Spin, whose image is run, with the short code of its methods where it is short.
    Source { short: bool },
}

impl Format {
    /// What an image of a kind is taken for.
    pub fn of(kind: ImageKind) -> Format
        ensures { result ≡ format_of kind }
    {
        match kind {
            ImageKind::Binary => Format::Image,
            ImageKind::Eeprom => Format::Eeprom,
        }
    }

    /// What a file to run is taken for, by its name: an image where that ends in `.binary` or `.eeprom`, and else a source, with its short code where
    /// it is short.
    pub fn named(short: bool, file: &str) -> Format
        ensures { result ≡ format_named short file.now }
    {
        match ImageKind::named(file) {
            Some(kind) => Format::of(kind),
            None => Format::Source { short },
        }
    }

    /// What a file to run is taken for: hub memory where it is raw, and else by its name.
    pub fn chosen(raw: bool, file: &str) -> Format
        ensures { result ≡ format_for raw file.now }
    {
        if raw {
            Format::Memory
        } else {
            Format::named(false, file)
        }
    }
}

/// A file to run.
#[derive(Clone, Copy, Debug, PartialEq, Eq)]
pub struct Program<'a> {
    /// Its name on the shelf.
    pub file: &'a str,
    /// What it is taken for.
    pub format: Format,
}
