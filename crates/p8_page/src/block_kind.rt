// What a block of a page is.
ghost use Rattle.std.specs.Prelude.{◌≡◌};
ghost use Rattle.p8_page.specs.Blocks.{word_of};

/// What a block of a page is, by the word that its mark has.
#[derive(Clone, Copy)]
pub enum BlockKind {
    /// The name of the file that was run.
    File,
    /// The clocks that are shown: the first one, and the one behind the last.
    Range,
    /// The first window of each cog among them.
    Windows,
    /// The lines of the view.
    View,
    /// The 32 pins, from each clock on at which they change.
    Pins,
    /// The lines of the map.
    Map,
    /// The name of a file of the project.
    Name,
    /// The bytes of the file whose name stands before.
    Source,
}

impl BlockKind {
    /// Its word.
    pub(crate) fn word(self) -> &'static [u8]
        ensures { result.now ≡ word_of self }
    {
        match self {
            BlockKind::File => b"file",
            BlockKind::Range => b"range",
            BlockKind::Windows => b"windows",
            BlockKind::View => b"view",
            BlockKind::Pins => b"pins",
            BlockKind::Map => b"map",
            BlockKind::Name => b"name",
            BlockKind::Source => b"source",
        }
    }
}
