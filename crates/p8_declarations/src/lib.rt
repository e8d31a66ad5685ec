//! What the lines of `CON`, `VAR`, `OBJ` and `DAT` and the heads of methods declare: from the pieces of a line to items of
//! the tree.
#![tactic(auto)]

mod con_line;
mod data_laws;
mod data_part;
mod data_pieces;
mod declaration_pieces;
mod instructions;
mod items;
mod laws;
mod lines;
mod method_head;
mod obj_line;
mod part;
mod var_line;

pub use con_line::constants;
pub use data_laws::{conditions_agree, instructions_agree};
pub use laws::declarations_are_proper;
pub use lines::{DatRow, dat_line};
pub use method_head::method;
pub use obj_line::object;
pub use var_line::variables;
