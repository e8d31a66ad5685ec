//! The words of the command line of `prop`: the table of the commands, what words say by it, and the pages of help that are made of it.
#![tactic(auto)]

mod arguments;
mod command;
mod image_kind;
mod numbers;
mod page;
mod pins;
mod table;
mod words;

pub use command::{Command, Dump, Run};
pub use image_kind::ImageKind;
pub use page::help_page;
pub use table::Subcommand;
pub use words::command_in;
