// The files of a project.
use crate::sequences::{List, Text};
use crate::sources::SourceFile;

/// A project: its files in the order in which they are first mentioned, its top file first.
#[derive(Drop)]
pub struct Project {
    pub files: List<ProjectFile>,
}

/// A file of a project.
#[derive(Drop)]
pub struct ProjectFile {
    /// The file's name, as it is mentioned.
    pub name: Text,
    pub tree: SourceFile,
}
