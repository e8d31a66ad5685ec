//! The code of methods: its templates as definitions, how long code is, and the parts of what writes it.
#![tactic(auto)]

mod calls;
mod code;
mod coder;
mod expressions;
mod labels;
mod laws;
mod sizes;
mod variables;
mod writer;

pub use code::{Code, StringUse, expr_code};
pub use coder::{Coder, Tables};
pub use expressions::{BuiltForm, form_of_built};
pub use labels::Labels;
pub use laws::{bytecodes_are_whole, each_bytecode_has_a_line, places_change_no_length};
pub use variables::{Base, Home, Operation};
pub use writer::{Jump, Kept, Line, Writer};
