// The accesses of a cog and their answers.

/// How many bytes a hub access moves.
#[derive(Clone, Copy, Debug, PartialEq, Eq)]
pub enum Width {
    /// One byte.
    Byte,
    /// Two bytes, at an even address.
    Word,
    /// Four bytes, at a multiple of 4.
    Long,
}

/// What a cog is started with. Every address is a hub address in bytes.
#[derive(Clone, Copy, Debug, PartialEq, Eq)]
#[rattlefmt::skip]
pub enum Origin {
    /// Propeller Assembly: 496 longs from `code` on, with `par` in the register PAR.
    /// Both are multiples of 4.
    Pasm { code: u16, par: u16 },
    /// A Spin method: the address of its first bytecode, the bases of its object and of its
    /// variables, its frame (a multiple of 4), and the bytes of the frame after its result.
    Spin { entry: u16, pbase: u16, vbase: u16, frame: u16, size: u16 },
}

/// What a wait waits for (Propeller Manual v1.2, WAITCNT, WAITPEQ and WAITPNE).
#[derive(Clone, Copy, Debug, PartialEq, Eq)]
pub enum Test {
    /// The system counter CNT equals the target.
    Count { target: u32 },
    /// The pins under the mask equal the state.
    PinsEqual { state: u32, mask: u32 },
    /// The pins under the mask differ from the state.
    PinsDiffer { state: u32, mask: u32 },
}

/// Why a cog halts: its code asks for what this machine doesn't do (this project's profile).
#[derive(Clone, Copy, Debug, PartialEq, Eq)]
pub enum Reason {
    /// The long at hand is an instruction that isn't carried out.
    Opcode(u32),
    /// A value other than 0 was written to this register of a counter or of the video generator.
    Register(u16),
    /// A read of this hub address, which is in ROM.
    Rom(u16),
    /// No bytecode stands at this hub address.
    Byte(u16),
    /// More than 128 methods would be active.
    Deep,
    /// The operand stack or the open call marks would pass 16,384.
    Stack,
    /// A bytecode has too few operands, or a call has no open mark.
    Under,
    /// A method or an object outside its table.
    Table,
    /// A wait for the pins of port B.
    Port,
    /// CLKSET with the reset bit.
    Reset,
}

/// One thing that a cog does beyond its own registers.
#[derive(Clone, Copy, Debug, PartialEq, Eq)]
#[rattlefmt::skip]
pub enum Access {
    /// A Spin life begins.
    Begin,
    /// A PASM life takes its 496 longs.
    Load,
    /// Reads hub memory at an aligned address.
    Read { width: Width, address: u16 },
    /// Writes hub memory at an aligned address; the value is reduced to the width.
    Write { width: Width, address: u16, value: u32 },
    /// Asks for the cog's own number.
    CogId,
    /// Starts a cog: the named one, or the lowest stopped one.
    CogInit { target: Option<u8>, origin: Origin },
    /// Stops a cog.
    CogStop { cog: u8 },
    /// Takes the lowest lock that isn't taken.
    LockNew,
    /// Gives a lock back.
    LockRet { lock: u8 },
    /// Sets a lock and asks for its previous state.
    LockSet { lock: u8 },
    /// Clears a lock and asks for its previous state.
    LockClr { lock: u8 },
    /// Sets the clock mode, which changes nothing in this machine.
    ClkSet { mode: u8 },
    /// Reads all 32 pins.
    PinsIn,
    /// Writes the cog's register OUTA.
    OutSet { value: u32 },
    /// Writes the cog's register DIRA.
    DirSet { value: u32 },
    /// Waits until a test holds.
    Wait { test: Test },
    /// Reads the system counter CNT.
    Clock,
    /// The cog halts.
    Halt { reason: Reason },
}

/// What the machine answers to an access.
#[derive(Clone, Copy, Debug, PartialEq, Eq)]
pub enum Answer {
    /// Nothing but that it was done.
    Done,
    /// The value of a read, of the pins, of the counter, or the cog's own number.
    Value(u32),
    /// The cog that was started or the lock that was taken, or that none was free.
    Number(Option<u8>),
    /// Whether the lock was set before.
    Was(bool),
}
