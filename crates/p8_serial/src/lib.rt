//! Serial bytes on a pin of a run, and the pin script that sends bytes.
//!
//! A frame has a low start bit, eight data bits from the lowest on, no parity and one high stop bit. What is read of a pin is a function of its level at
//! each clock; what sends bytes is a pin script, and is read back as these bytes.
#![tactic(auto)]

mod decoding;
mod frames;
mod laws;
mod numbers;
mod sending;

pub use decoding::serial_text;
pub use laws::typed_is_read;
pub use sending::typed;
