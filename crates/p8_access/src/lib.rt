//! What a cog asks of the machine, and what is made of it: accesses, histories and courses.
//!
//! All that a cog does beyond its own registers is an access; an access with its answer is a turn. The histories of a
//! world, and what the hub is after one, are what the machine, its printed trace and every checker of it rest on. A course
//! is what is done access by access; it is read with clocks and without. The definitions stand in specs/.
#![tactic(auto)]

mod course_laws;
mod fitting_laws;
mod history_laws;
mod kinds;
mod lives;
mod memory;
mod order;
mod states;

pub use course_laws::readings_agree;
pub use fitting_laws::{
    a_course_ends_its_list, lists_that_fit_are_told, lives_that_fit_are_retold,
};
pub use history_laws::{each_legal_past_begins_it, keys_rise, one_history};
pub use kinds::{Access, Answer, Origin, Reason, Test, Width};
pub use lives::{Life, Next};
pub use memory::{Boot, Ram};
pub use order::{Key, Turn, key_before, window};
pub use states::CogState;
