// The status of the program.
ghost use Rattle.std.specs.Prelude.{◌≡◌};
ghost use Rattle.p8_prop.specs.Codes.{code_of};

/// How a command ended. Every status but `Ok` comes with a line on standard error.
#[derive(Clone, Copy, Debug, PartialEq, Eq)]
pub enum Status {
    /// The command was carried out and its text was written.
    Ok,
    /// The words are no command.
    Usage,
    /// A source is refused.
    Refused,
    /// A file could not be read.
    ShelfFault,
    /// A file doesn't exist, or nothing of a program has a name that is asked for.
    Missing,
    /// The text could not be written, or only a part of it.
    SinkFault,
    /// There was no memory.
    NoMemory,
    /// An image is refused.
    BadImage,
    /// A pin script is refused.
    BadScript,
    /// A history file isn't the history of the run that it was checked against.
    BadHistory,
}

impl Status {
    /// The exit status of the program: 0 to 9, in the order of the variants.
    pub fn code(&self) -> u8
        ensures { result ≡ code_of self.now }
    {
        match self {
            Status::Ok => 0,
            Status::Usage => 1,
            Status::Refused => 2,
            Status::ShelfFault => 3,
            Status::Missing => 4,
            Status::SinkFault => 5,
            Status::NoMemory => 6,
            Status::BadImage => 7,
            Status::BadScript => 8,
            Status::BadHistory => 9,
        }
    }
}
