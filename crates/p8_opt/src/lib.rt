//! Building with shorter code of the same meaning, and what the image of a project keeps of its source.
//!
//! Folded methods could have been read, and their code is no longer. The memory of a project's image has the project's
//! methods, and keeps their meaning, with short code and without; and the image loads to the boot of its layout. The
//! definitions stand in specs/.
#![tactic(auto)]

mod building;
mod built_laws;
mod coding;
mod folded_laws;
mod laws;
mod objects;
mod placed_laws;

pub use building::{Shortened, build_short, build_short_parts, shorten};
pub use built_laws::{
    built_images_keep_meaning, built_images_load, built_short_images_keep_meaning,
    short_images_load,
};
pub use folded_laws::{
    folded_bodies_are_proper, folded_bodies_misuse_nothing, folded_methods_are_no_longer,
    resolved_files_can_be_folded, resolved_files_hide_none,
};
pub use laws::{one_short_build, short_images_keep_meaning, short_lives_are_told};
pub use placed_laws::{
    images_have_their_lines, images_have_their_methods, images_keep_meaning,
    recoded_images_have_their_lines, recoded_images_have_their_methods,
    recoded_images_keep_meaning,
};
