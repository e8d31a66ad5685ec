// The kinds of files that hold an image.
ghost use Rattle.std.specs.Prelude.{◌≡◌};
ghost use Rattle.p8_commands.specs.Kinds.{kind_named};

/// A kind of file that holds an image.
#[derive(Clone, Copy, Debug, PartialEq, Eq)]
pub enum ImageKind {
    /// The objects alone, as a `.binary` file holds them.
    Binary,
    /// The whole hub memory, as an `.eeprom` file holds it.
    Eeprom,
}

impl ImageKind {
    /// The kind of image that a file is by its name, or None where it is none: an image's name ends in `.binary` or in `.eeprom`,
    /// in small letters.
    pub fn named(file: &str) -> Option<ImageKind>
        ensures { result ≡ kind_named file.now }
    {
        let name = file.as_bytes();
        if name.ends_with(b".binary") {
            Some(ImageKind::Binary)
        } else if name.ends_with(b".eeprom") {
            Some(ImageKind::Eeprom)
        } else {
            None
        }
    }
}
