//! What a command begins with: the file to run with all files of its project, and the pin script, read from a shelf; and why
//! there is nothing to run.
#![tactic(auto)]

mod boots;
mod codes;
mod convert;
mod inputs;
mod laws;
mod page;
mod program;
mod sources;
mod stop;
mod telling;
mod view;

pub use codes::{code_of_image, code_of_source};
pub use convert::other_image;
pub use inputs::{Inputs, Recorded, read_inputs, read_message, read_recorded};
pub use laws::{one_reading, one_source};
pub use page::{Paged, read_paged};
pub use program::{Format, Program};
pub use sources::{hints_of_source, image_of_source, listing_of_source, map_of_source};
pub use stop::Stop;
pub use telling::tell_refused;
pub use view::{Viewed, read_viewed};
