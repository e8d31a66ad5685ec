//! The legend of a project: which name stands at an address of the hub, and from which place of a source the code there is made.
//!
//! The line table has, for each bytecode of the project's image, the statement that it is made from; laws say that it does.
#![tactic(auto)]

mod code_laws;
mod code_places;
mod dat_laws;
mod dat_lines;
mod instances;
mod laws;
mod legend;
mod life_laws;
mod local_laws;
mod locals;
mod name_laws;
mod objects;
mod parts;
mod paths;
mod place_laws;
mod project;
mod project_names;
mod ranges;
mod row_laws;
mod rows;
mod statement_laws;
mod table;
mod table_laws;
mod variables;

pub use code_laws::{lines_are_of_their_statements, lines_begin_where_bytecodes_do};
pub use dat_laws::addresses_of_dat_have_their_lines;
pub use laws::one_legend;
pub use legend::{Legend, push_address};
pub use life_laws::{accesses_are_asked_by_their_lines, bytecodes_stand_at_their_lines};
pub use local_laws::locals_are_named_by_their_frames;
pub use locals::push_frame;
pub use name_laws::{
    maps_tell_where_the_image_has_it, names_stand_by_their_kinds,
    names_stand_where_the_image_has_them,
};
pub use objects::label_names;
pub use parts::legend_of_parts;
pub use place_laws::{places_are_those_of_rows, turns_have_the_places_of_their_statements};
pub use project::table_of_accepted;
pub use project_names::{legend_of_accepted, project_legend};
pub use ranges::{FoundRange, Range, Ranges};
pub use row_laws::{
    accesses_are_asked_for_the_statements_of_their_rows,
    turns_are_asked_for_the_statements_of_their_rows,
};
pub use statement_laws::statements_stand_by_their_lines;
pub use table::{LineRow, LineTable};
pub use table_laws::{
    each_byte_of_code_has_a_row, rows_are_of_their_methods, table_tells_each_address_once,
};
pub use variables::variable_names;
