// A file whose names have their kinds.
use crate::children::Children;
use crate::kinds::Kinds;
use p8_tree::SourceFile;

/// A file, what it sees of its objects, and the kinds of its names.
#[derive(Drop)]
pub struct Named<'a> {
    pub file: &'a SourceFile,
    pub children: &'a Children,
    pub kinds: Kinds,
}
