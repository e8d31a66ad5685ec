//! The page of a run: one HTML file that shows it in a browser, without a network.
//!
//! A page is a head, blocks and a tail. The blocks are all that is told of the run, each with its bytes escaped; head and tail are the same in
//! every page: the style (`style`), the buttons and places (`frame`) and the script (`script`), which reads the blocks and draws them.
#![tactic(auto)]

mod block_kind;
mod blocks;
mod escaping;
mod frame;
mod laws;
mod numbers;
mod pages;
mod script;
mod style;

pub use block_kind::BlockKind;
pub use blocks::{push_map, push_source};
pub use laws::{blocks_are_inert, blocks_are_read_back};
pub use pages::{Span, page};
