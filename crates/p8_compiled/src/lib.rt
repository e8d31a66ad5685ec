//! What compiled code keeps of its source. The definitions stand in specs/.
//!
//! Bytecodes do what a source says, wherever they stand in a memory: the templates of the code generator stand for their
//! source wherever their bytes stand. So the lives of Spin in a history are what the source says.
#![tactic(auto)]

mod laws;
mod template_laws;
mod told_laws;

pub use laws::{accesses_are_asked_for_their_statements, code_keeps_meaning};
pub use template_laws::{
    code_ends_where_its_bytes_do, templates_have_operations, templates_stand, widths_move_places,
};
pub use told_laws::{lives_are_told, turns_come_after_few_bytecodes};
