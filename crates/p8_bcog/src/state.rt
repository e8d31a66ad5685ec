// What a Spin cog is where a bytecode begins.
ghost use Rattle.std.specs.Prelude.{◌≡◌};
ghost use Rattle.p8_bcog.specs.Origins.{IsSpin};
ghost use Rattle.p8_bcog.specs.Replay.{first_of};

use crate::calls::Calls;
use crate::marks::Marks;
use crate::stack::OperandStack;
use p8_access::Origin;
use p8_words::NoMemory;
use std::alloc::Global;

/// What stands in a Spin cog where a bytecode begins. Addresses are hub addresses in bytes.
#[derive(Drop)]
pub struct SpinState {
    /// The address of the bytecode.
    pub at: u16,
    /// The base of the object.
    pub pbase: u16,
    /// The base of the object's variables.
    pub vbase: u16,
    /// The frame of the method: its result, then its parameters and locals.
    pub frame: u16,
    /// The bytes of the frame after the result.
    pub size: u16,
    /// The height of the operand stack above which operands are counted: that of the newest open mark of
    /// the method, or where it has none that at which the method began.
    pub base: u16,
    pub stack: OperandStack,
    pub marks: Marks,
    pub calls: Calls,
    /// The cog's own registers.
    pub outa: u32,
    pub outb: u32,
    pub dira: u32,
    pub dirb: u32,
    /// The register PAR: the frame with which the life began.
    pub par: u16,
}

impl SpinState {
    /// All memory that a cog needs, beside a stack. Nothing of use stands there before `begin`.
    pub fn new(alloc: Global, stack: OperandStack) -> Result<SpinState, NoMemory> {
        Ok(SpinState {
            at: 0,
            pbase: 0,
            vbase: 0,
            frame: 0,
            size: 0,
            base: 0,
            stack,
            marks: Marks::new(alloc)?,
            calls: Calls::new(alloc)?,
            outa: 0,
            outb: 0,
            dira: 0,
            dirb: 0,
            par: 0,
        })
    }

    /// Makes it what stands in a cog that a Spin origin has started.
    pub fn begin(&mut self, origin: Origin)
        requires { IsSpin origin }
        ensures { self.new ≡ first_of origin }
    {
        match origin {
            Origin::Spin {
                entry,
                pbase,
                vbase,
                frame,
                size,
            } => {
                self.at = entry;
                self.pbase = pbase;
                self.vbase = vbase;
                self.frame = frame;
                self.size = size;
                self.par = frame;
            }
            Origin::Pasm { .. } => unreachable!(),
        }
        self.base = 0;
        self.stack.clear();
        self.marks.clear();
        self.calls.clear();
        self.outa = 0;
        self.outb = 0;
        self.dira = 0;
        self.dirb = 0;
    }
}
