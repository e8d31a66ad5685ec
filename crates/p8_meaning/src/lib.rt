//! What the source of a project means: what each of its methods does, as accesses and their answers. The definitions stand in
//! specs/.
//!
//! Also shorter trees of a method, with the same meaning: constant trees become numbers, and what never runs goes.
#![tactic(auto)]

mod building;
mod chains;
mod expressions;
mod folder;
mod folding_laws;
mod known;
mod laws;
mod loops;
mod statements;

pub use folding_laws::{
    folded_sources_have_folded_methods, folds_keep_meaning, folds_keep_statements,
};
pub use laws::{greater_bound_tells_more, source_halts_are_few};
pub use statements::folded_body;
