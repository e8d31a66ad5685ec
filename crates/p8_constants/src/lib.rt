//! What a file defines: its items in the order of the source, the names that they define, and its constants.
//!
//! Which constants there are, how they are found, and the names of an expression. They are found component by component of
//! the graph of what mentions what: its strongly connected components are numbered so that no edge leads to a greater number.
#![tactic(auto)]

mod constant_graph;
mod directed_graph;
mod evaluation;
mod first_faults;
mod found;
mod index;
mod instances;
mod items;
mod labels;
mod language;
mod laws;
mod mentions;
mod name_set;
mod names;
mod node_order;
mod numbering;
mod plan;
mod repeats;
mod rows;
mod rules;
mod search;

pub use directed_graph::Graph;
pub use found::{FileConstants, constants_of};
pub use instances::first_instance_fault;
pub use items::{Item, items_of};
pub use labels::first_label_repeat;
pub use language::{NamedConstant, predefined};
pub use laws::{
    Layers, Order, lower_is_not_circular, one_meaning, one_value, ordered_is_not_circular,
    steps_add,
};
pub use mentions::{Names, names_in};
pub use name_set::NameSet;
pub use names::{Defined, names_of, own_names};
pub use node_order::in_order;
pub use numbering::components;
pub use repeats::{FileNames, file_names, first_own_repeat, predefined_names};
pub use rules::{count_fault, count_value, first_count_fault, first_params_fault, lacks_pub};
