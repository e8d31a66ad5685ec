// What a run begins from.
use crate::outcome::Limits;
use p8_access::Boot;
use p8_pins::PinScript;

/// What a run begins from: the boot, the levels of the input pins, and the limits.
#[derive(Drop)]
pub struct Start {
    pub boot: Boot,
    pub script: PinScript,
    pub limits: Limits,
}
