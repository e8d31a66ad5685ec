//! The pins of a history over its clocks: waves and pictures.
//!
//! A wave is a history that has ended, as a Value Change Dump, the text of IEEE 1364-2005 (section 18) that
//! viewers of waveforms open. What a wave is stands in specs/: the value of each variable at each clock, the clocks at which something
//! changes, and the text. A picture is the levels of pins as text for a terminal.
#![tactic(auto)]

mod appending;
mod axes;
mod courses;
mod ending;
mod entries;
mod grid;
mod heads;
mod parts;
mod picture;
mod pin_level;
mod plot_laws;
mod plot_scale;
mod scale;
mod sections;
mod signals;
mod snapshot;
mod trace;
mod variables;
mod view;
mod walks;
mod waves;

pub use picture::plot;
pub use plot_laws::{columns_cover, lines_fit, texts_apart, times_exact};
pub use variables::{Scope, Selection, Variable};
pub use view::View;
pub use waves::wave;
