//! Files: from the tokens of a source to its tree, block by block and line by line.
#![tactic(auto)]

mod declarations;
mod entry;
mod first;
mod growing;
mod laws;
mod lines;
mod parsing;
mod row_laws;
mod statements;
mod words;

pub use declarations::{read_constants, read_data, read_method, read_objects, read_variables};
pub use laws::{
    files_are_not_refused, files_are_proper, one_answer, one_refusal, tokens_are_proper,
};
pub use parsing::parse;
pub use row_laws::{
    case_items_have_kinds, chain_lines_have_kinds, constants_have_values, data_are_proper,
    data_have_values, loop_ends_have_kinds, methods_have_values, objects_have_values,
    rows_are_proper, statements_have_kinds, variables_have_values,
};
pub use statements::read_statement;
