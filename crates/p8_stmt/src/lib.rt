//! The code of statements and of whole methods, and why a method can't be compiled.
//!
//! Also the least set of jumps of a method with two bytes for their offset, and the short code of a method.
#![tactic(auto)]

mod code;
mod context;
mod expression_depths;
mod faults;
mod forms;
mod frames;
mod jump_laws;
mod short;
mod spelling;
mod statement_depths;
mod statements;
mod widths;

pub use code::{CodeFault, MethodCode, method_code, method_code_with, method_size, method_ways};
pub use frames::MethodSize;
pub use jump_laws::{one_short_code, short_code_has_no_fault, short_code_is_no_longer};
pub use short::short_code;
