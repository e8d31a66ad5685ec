//! Pin scripts, and the pins of a run.
//!
//! A script says the levels of the input pins over the clocks of a run, and so the clocks at which waits for pins and for
//! the system counter end. The 32 pins of a run at each clock are a list of changes, and a cursor goes along it.
#![tactic(auto)]

mod change;
mod changes;
mod cursor;
mod ending;
mod laws;
mod line_text;
mod matching;
mod pin_script;
mod registers;
mod script_fault;
mod spans;
mod walk;

pub use change::Change;
pub use changes::pin_changes;
pub use cursor::Cursor;
pub use ending::run_end;
pub use laws::one_reading;
pub use pin_script::PinScript;
pub use script_fault::ScriptFault;
pub use spans::Span;
