//! The view of a history that has ended: what each cog does, turn by turn, in the names of the program's sources.
#![tactic(auto)]

mod accesses;
mod cogs;
mod doings;
mod drives;
mod ending;
mod laws;
mod nexts;
mod place_laws;
mod starts;
mod times;
mod turns;
mod views;
mod words;

pub use laws::missed_wait_ends;
pub use place_laws::{lines_show_the_lines_of_dat, lines_show_the_places_of_their_statements};
pub use turns::{ViewOptions, turn_lines};
pub use views::view;
