//! Images of programs: what a `.binary` file has to be, what starts from it, and the listing of a project.
#![tactic(auto)]

mod appending;
mod bytes;
mod clocks;
mod code;
mod dat;
mod faults;
mod header;
mod image;
mod laws;
mod objects;
mod parts;
mod plan;
mod project_image;
mod project_listing;
mod sizes;
mod text_laws;

pub use bytes::linked_codes;
pub use clocks::Clock;
pub use code::{line_size, push_bytes};
pub use dat::{longs_of, push_long_head};
pub use faults::{Field, LoadFault, TooLarge};
pub use header::Header;
pub use image::{Image, load, load_eeprom};
pub use laws::{eeprom_comes_back, image_loads, parts_stand};
pub use objects::{push_method_head, push_object_line};
pub use parts::{MethodPart, ObjectPart, TextUse, Variable};
pub use project_image::{frame_end, layout};
pub use project_listing::listing;
pub use sizes::Offsets;
pub use text_laws::operations_have_lines;
