// How far a bytecode is.
use crate::variable_place::VariablePlace;
use p8_access::{Access, Origin, Width};

/// What a called method begins with.
#[derive(Clone, Copy)]
pub struct Callee {
    /// The address of its first bytecode.
    pub entry: u16,
    /// The base of its object.
    pub pbase: u16,
    /// The base of its object's variables.
    pub vbase: u16,
    /// The bytes of its locals, without its parameters.
    pub locals: u16,
}

/// What a value is read for.
#[derive(Clone, Copy)]
#[rattlefmt::skip]
pub enum Wanted {
    /// To be pushed.
    Pushed,
    /// To be changed by the effect, which may have a right side.
    Changed { effect: u8, right: u32 },
    /// To be left, when this value is written.
    Replaced { value: u32 },
    /// To be stepped by REPEAT, which jumps while the new value lies between these.
    Stepped { by: u32, from: u32, to: u32, target: u16 },
}

/// What longs are written for.
#[derive(Clone, Copy)]
#[rattlefmt::skip]
pub enum Given {
    /// A method is called.
    Called { callee: Callee },
    /// A method is started in a cog; so many operands are taken then.
    Started { target: Option<u8>, origin: Origin, taken: usize },
}

/// What comes after an answer.
#[derive(Clone, Copy)]
pub enum Later {
    /// The bytecode is done, and leaves this value if there is one.
    Left {
        value: Option<u32>,
    },
    /// The answer's value is left.
    Push,
    /// The answer's value is that of a place.
    Value {
        place: VariablePlace,
        wanted: Wanted,
    },
    /// The operands from this place up to that are written, the first to this address.
    Arguments {
        address: u16,
        next: usize,
        end: usize,
        given: Given,
    },
    /// The answer is a byte of a text, which has so many before it.
    Counted {
        address: u16,
        count: u32,
    },
    /// The answer is a byte of the first of two texts.
    Compared {
        first: u16,
        second: u16,
    },
    /// The answer is a byte of the second of two texts, and this is the byte of the first.
    ComparedWith {
        first: u16,
        second: u16,
        byte: u32,
    },
    /// So many elements are still to be filled.
    Filled {
        width: Width,
        address: u16,
        value: u32,
        left: u32,
    },
    /// The answer is an element to be moved, and so many are after it.
    Fetched {
        width: Width,
        to: u16,
        from: u16,
        left: u32,
    },
    /// So many elements are still to be moved.
    Moved {
        width: Width,
        to: u16,
        from: u16,
        left: u32,
    },
}

/// How a bytecode stands that doesn't halt the cog.
#[derive(Clone, Copy)]
pub enum Step {
    /// It is done.
    Done,
    /// It asks an access.
    Asking { access: Access, later: Later },
}
