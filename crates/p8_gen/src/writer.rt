// Writing code.
ghost use Rattle.std.specs.Prelude.{◌≡◌, ◌≤◌, ◌+◌, ℕ, OnOk, Some, None, false, true, [], ◌∷◌, ◌++◌, length, IfOk};
ghost use Rattle.std.specs.Bool.{OnTrue, OnFalse};
ghost use Rattle.p8_bytecode.specs.Spelling.{spelled};
ghost use Rattle.p8_gen.specs.Names.{wide_in};
ghost use Rattle.p8_gen.specs.Pieces.{Written, empty, nowhere, from_place, one, byte, with_number, text, jump_by, jump, jumping, jump_size, offset};
ghost use Rattle.p8_gen.specs.Pieces.{told, reach, is_near};
ghost use Rattle.p8_gen.specs.Uses.{way_of};
ghost use Rattle.p8_gen.specs.Writing.{Stands};

use crate::code::StringUse;
use crate::sizes::size_of;
use p8_bytecode::{Op, REFERENCE_OBJECTMEM_BYTE};
use p8_tree::Place;
use std::alloc::{AllocError, Global};
use std::mem;

/// The way of a jump, in bytes from the first byte of its method. Its offset is counted from one place to the other.
#[derive(Clone, Copy, Debug, PartialEq, Eq)]
pub struct Jump {
    /// The place after the jump.
    pub from: u32,
    /// The place that it jumps to.
    pub to: u32,
}

/// A line of a method's code: one bytecode.
#[derive(Clone, Copy, Debug, PartialEq, Eq)]
pub struct Line {
    /// Where the bytecode begins, in bytes from the first byte of the method.
    pub offset: u32,
    /// The place of the statement that it is made from; of the `RETURN` at the end of a method, the place of the method's name.
    pub statement: Place,
}

/// What is written of a method's code.
#[derive(Drop)]
pub struct Kept {
    pub ops: Vec<Op>,
    pub strings: Vec<StringUse>,
    /// The statements of which a jump goes too far for its width.
    pub too_far: Vec<Place>,
    /// The ways of its jumps.
    pub ways: Vec<Jump>,
    /// For each bytecode where it begins and which statement it is made from.
    pub lines: Vec<Line>,
}

/// A writer of code: it counts the bytes and the jumps, and keeps the code unless it only counts.
#[derive(Drop)]
pub struct Writer {
    /// How many bytes are written.
    pub end: u32,
    /// How many jumps are, which is the number of the next one.
    pub jumps: u32,
    /// The place of the statement from which the next bytecode is made.
    pub statement: Place,
    /// What is written, where it is kept.
    pub kept: Option<Kept>,
}

/// A bytecode that has nothing beside its byte.
pub(crate) fn bare(code: u8) -> Op
    ensures { result ≡ record { code = code; first = 0; second = 0; third = 0; effect = 0; long_form = false } }
{
    Op {
        code,
        first: 0,
        second: 0,
        third: 0,
        effect: 0,
        long_form: false,
    }
}

/// A place before every source, at which code is that was made from no statement yet.
fn nowhere() -> Place
    ensures { result ≡ nowhere }
{
    Place { line: 0, column: 0 }
}

/// The offset from one place to another, as a word in two's complement.
fn offset(from: u32, to: u32) -> u32
    ensures { result ≡ offset from to }
{
    to.wrapping_sub(from)
}

/// How far an offset goes: it has 15 bits in the wide form, and 7 in the other.
fn reach(wide: bool) -> u64
    ensures value { result ≡ reach wide }
    ensures bound { result ≤ 16384 }
{
    if wide { 16_384 } else { 64 }
}

/// Whether an offset has room in a jump of this width.
fn is_near(wide: bool, from: u32, to: u32) -> bool
    ensures { result ≡ is_near wide from to }
{
    let (from, to) = (u64::from(from), u64::from(to));
    let reach = reach(wide);
    from <= to + reach && to < from + reach
}

/// Whether the jump of a number is wide. One past the end of the choice is.
fn is_wide(widths: &[bool], number: u32) -> bool
    ensures { result ≡ wide_in widths.now number }
{
    match widths.get(number as usize) {
        Some(wide) => *wide,
        None => true,
    }
}

/// How many bytes a jump has.
fn jump_size(wide: bool) -> u32
    ensures { result ≡ jump_size wide }
{
    if wide { 3 } else { 2 }
}

impl Writer {
    /// A writer that keeps code, without any yet. It takes no memory.
    pub fn new(alloc: Global) -> Writer
        ensures { Stands result empty }
    {
        Writer {
            end: 0,
            jumps: 0,
            statement: nowhere(),
            kept: Some(Kept {
                ops: Vec::new(alloc),
                strings: Vec::new(alloc),
                too_far: Vec::new(alloc),
                ways: Vec::new(alloc),
                lines: Vec::new(alloc),
            }),
        }
    }

    /// A writer that only counts, from a place with so many jumps before it.
    pub fn counter_from(end: u32, jumps: u32) -> Writer
        ensures { Stands result (from_place end jumps) }
    {
        Writer {
            end,
            jumps,
            statement: nowhere(),
            kept: None,
        }
    }

    /// What is written, of a writer that keeps it. One that only counts has nothing, and answers as where memory is wanting.
    pub fn into_kept(self) -> Result<Kept, AllocError>
        ensures { IfOk result (λ kept. Some kept ≡ self.kept) }
    {
        self.kept.ok_or(AllocError)
    }

    /// A writer that only counts, from where this one ends.
    pub fn counter(&self) -> Writer
        ensures { (w : Written) → Stands self.now w → Stands result w }
    {
        Writer {
            end: self.end,
            jumps: self.jumps,
            statement: self.statement,
            kept: None,
        }
    }

    /// Ends at a place with so many jumps before it, where this writer only counts; says whether it does.
    pub fn counts(&mut self, end: u32, jumps: u32) -> bool
        ensures counts { OnTrue result ((w : Written) → end ≡ w.end → jumps ≡ w.jumps → self.old.statement ≡ w.statement → Stands self.new w) }
        ensures writes { OnFalse result (self.new ≡ self.old) }
    {
        if self.kept.is_none() {
            self.end = end;
            self.jumps = jumps;
            true
        } else {
            false
        }
    }

    /// The bytecodes that follow are made from the statement at a place. Answers the place of the statement before.
    pub fn at_statement(&mut self, place: Place) -> Place
        ensures before { result ≡ self.old.statement }
        ensures stands { (w : Written) → Stands self.old w → Stands self.new (record w { statement = place }) }
    {
        mem::replace(&mut self.statement, place)
    }

    // Keeps a bytecode, with which the code ends at a place, and the statement that it is made from.
    fn put(&mut self, op: Op, end: u32) -> Result<(), AllocError>
        ensures { (w : Written) → Stands self.old w →
            OnOk result (Stands self.new (record w { ops = w.ops ++ op ∷ []; end = end; lines = w.lines ++ (w.end, w.statement) ∷ [] })) }
    {
        let line = Line {
            offset: self.end,
            statement: self.statement,
        };
        self.end = end;
        match &mut self.kept {
            None => Ok(()),
            Some(kept) => {
                kept.ops.push(op)?;
                kept.lines.push(line)?;
                Ok(())
            }
        }
    }

    // Keeps a statement whose jump goes too far for its width.
    fn tell(&mut self, wide: bool, statement: Place, from: u32, to: u32) -> Result<(), AllocError>
        ensures { (w : Written) → Stands self.old w → OnOk result (Stands self.new (record w { too_far = w.too_far ++ told wide statement from to })) }
    {
        match &mut self.kept {
            Some(kept) if !is_near(wide, from, to) => {
                kept.too_far.push(statement)?;
                Ok(())
            }
            _ => Ok(()),
        }
    }

    // Keeps that the next bytecode pushes the address of a text.
    fn record_text(&mut self, place: Place) -> Result<(), AllocError>
        ensures { (w : Written) → Stands self.old w → OnOk result (Stands self.new (record w { texts = w.texts ++ (length w.ops, place) ∷ [] })) }
    {
        match &mut self.kept {
            None => Ok(()),
            Some(kept) => {
                let at = u32::try_from(kept.ops.len()).map_err(|_| AllocError)?;
                kept.strings.push(StringUse { at, place })?;
                Ok(())
            }
        }
    }

    /// Appends a bytecode.
    pub fn one(&mut self, op: Op) -> Result<(), AllocError>
        ensures { (w : Written) → Stands self.old w → OnOk result (Stands self.new (one op w)) }
    {
        let end = self.end.checked_add(size_of(&op)).ok_or(AllocError)?;
        self.put(op, end)
    }

    /// Appends a bytecode that has nothing beside its byte.
    pub fn byte(&mut self, code: u8) -> Result<(), AllocError>
        ensures { (w : Written) → Stands self.old w → OnOk result (Stands self.new (byte code w)) }
    {
        self.one(bare(code))
    }

    /// Appends a bytecode with a number after it.
    pub fn with_number(&mut self, code: u8, number: u32) -> Result<(), AllocError>
        ensures { (w : Written) → Stands self.old w → OnOk result (Stands self.new (with_number code number w)) }
    {
        self.one(Op {
            first: number,
            ..bare(code)
        })
    }

    /// Appends the bytecode that pushes the address of the text which stands at this place of the source. Where the text
    /// stands in the object isn't known yet, and 0 stands in its place.
    pub fn text(&mut self, place: Place) -> Result<(), AllocError>
        ensures { (w : Written) → Stands self.old w → OnOk result (Stands self.new (text place 0 w)) }
    {
        self.record_text(place)?;
        self.with_number(REFERENCE_OBJECTMEM_BYTE, 0)
    }

    // Keeps the way of one more jump.
    fn go(&mut self, from: u32, to: u32) -> Result<(), AllocError>
        ensures { (w : Written) → Stands self.old w → OnOk result (Stands self.new (record w { jumps = w.jumps + 1; ways = w.ways ++ (from, to) ∷ [] })) }
    {
        self.jumps = self.jumps.checked_add(1).ok_or(AllocError)?;
        match &mut self.kept {
            None => Ok(()),
            Some(kept) => {
                kept.ways.push(Jump { from, to })?;
                Ok(())
            }
        }
    }

    // Appends a bytecode that jumps to a place and ends at another one.
    fn jump_by(
        &mut self,
        wide: bool,
        statement: Place,
        op: Op,
        end: u32,
        to: u32,
    ) -> Result<(), AllocError>
        ensures { (w : Written) → Stands self.old w → OnOk result (Stands self.new (jump_by wide statement op end to w)) }
    {
        self.tell(wide, statement, end, to)?;
        self.go(end, to)?;
        self.put(op, end)
    }

    /// Appends a statement's jump to a place, as wide as it is chosen.
    pub fn jump(
        &mut self,
        widths: &[bool],
        statement: Place,
        code: u8,
        to: u32,
    ) -> Result<(), AllocError>
        ensures { (w : Written) → Stands self.old w → OnOk result (Stands self.new (jump (wide_in widths.now) statement code to w)) }
    {
        let wide = is_wide(widths, self.jumps);
        let end = self.end.checked_add(jump_size(wide)).ok_or(AllocError)?;
        let op = Op {
            first: offset(end, to),
            long_form: wide,
            ..bare(code)
        };
        self.jump_by(wide, statement, op, end, to)
    }

    /// Appends a statement's change of a variable that jumps as well, as wide as it is chosen.
    pub fn jumping(
        &mut self,
        widths: &[bool],
        statement: Place,
        to: u32,
        op: Op,
    ) -> Result<(), AllocError>
        ensures { (w : Written) → Stands self.old w → OnOk result (Stands self.new (jumping (wide_in widths.now) statement to op w)) }
    {
        let wide = is_wide(widths, self.jumps);
        let op = Op {
            long_form: wide,
            ..op
        };
        let end = self.end.checked_add(size_of(&op)).ok_or(AllocError)?;
        let op = Op {
            second: offset(end, to),
            ..op
        };
        self.jump_by(wide, statement, op, end, to)
    }
}
