// The text of a bytecode: its name and its operands.
ghost use Rattle.std.specs.Prelude.{◌≡◌, ◌++◌, ◌*◌, ◌-◌, codes, length, replicate, slice_get, unwrap_or, None, Some, MatchOption, OnOk};
ghost use Rattle.std.specs.Fmt.{decimal};
ghost use Rattle.p8_instr.specs.Numerals.{hex};
ghost use Rattle.p8_bytecode.specs.Reading.{op_at};
ghost use Rattle.p8_bytecode.specs.Table.{operands_of as operands_by};
ghost use Rattle.p8_bcog.specs.Bytecodes.{less_one_if, packed};
ghost use Rattle.p8_legend.specs.Frames.{method_of};
ghost use Rattle.p8_code.specs.Operations.{action_text, base_of as base_by, call_text, called_text, change_text, file_of, inside_text, named_text};
ghost use Rattle.p8_code.specs.Operations.{offset_of as offset_by, op_text, operand_text, own_text, placed_text, step_text, target};
ghost use Rattle.p8_code.specs.Operations.{text_used as text_at, variable_text};
ghost use Rattle.p8_code.specs.Views.{scope_in, scope_of};

use crate::bytecodes::{effect_name, push_bytecode_name, register_name};
use p8_bytecode::{
    CALL, MARK_INTERPRETED, OBJCALL, OBJCALL_INDEXED, Op, Operands, operands_of, take_op,
};
use p8_image::{MethodPart, ObjectPart, TextUse};
use p8_instr::{push_text, word_digits};
use p8_legend::{Ranges, push_address, push_frame};
use p8_map::{FileNames, MethodNames, push_items, push_number};
use p8_tree::Text;
use p8_words::{NoMemory, rotated_left};

/// What is known where the code of a method stands: what has a name there, and the lines of its source.
#[derive(Clone, Copy)]
pub(crate) struct Scope<'a> {
    /// The names of all files.
    pub(crate) files: &'a [FileNames],
    /// Those of the method's file.
    pub(crate) own: &'a FileNames,
    pub(crate) object: &'a ObjectPart,
    /// The variables of the object, from their begin on.
    pub(crate) variables: &'a Ranges,
    /// The labels of the object, from its begin on.
    pub(crate) labels: &'a Ranges,
    pub(crate) method: &'a MethodNames,
    pub(crate) part: &'a MethodPart,
    /// The lines of the file.
    pub(crate) source: &'a [Text],
}

/// Where the name of a bytecode begins, behind the address.
const NAME_COLUMN: usize = 20;

/// The text whose offset stands at a place of a code.
fn text_used<'a>(mut uses: &[TextUse], texts: &'a [Text], at: u64) -> Option<&'a Text>
    ensures { MatchOption result (text_at uses.entry.now texts.now at ≡ None) (λ text. text_at uses.entry.now texts.now at ≡ Some text.now) }
{
    while let [place, rest @ ..] = uses {
        if u64::from(place.at) == at {
            return texts.get(place.text as usize);
        }
        uses = rest;
    }
    None
}

impl Scope<'_> {
    /// The method of a number of the object inside of a number.
    fn method_inside(&self, object: usize, number: u32) -> Option<&MethodNames>
        ensures { MatchOption result (method_of (file_of self.now.files.now (slice_get self.now.object.now.instances object)) number ≡ None)
            (λ m. method_of (file_of self.now.files.now (slice_get self.now.object.now.instances object)) number ≡ Some m.now) }
    {
        let file = *self.object.instances.as_slice().get(object)?;
        let names = self.files.get(usize::from(file))?;
        names
            .methods
            .as_slice()
            .get(number.saturating_sub(1) as usize)
    }

    /// Appends the name of the object inside of a number, or its place in the table.
    fn push_object(&self, out: &mut Vec<u8>, object: usize, place: u32) -> Result<(), NoMemory>
        ensures { OnOk result (out.new.items ≡ out.old.items ++ unwrap_or (slice_get self.now.own.now.instances object) (decimal place)) }
    {
        match self.own.instances.as_slice().get(object) {
            None => push_number(out, u64::from(place)),
            Some(name) => push_text(out, name.as_slice()),
        }
    }

    /// Appends the name of the object inside of a number, or its place in the table, and the name of its method of a number.
    fn push_inside(
        &self,
        out: &mut Vec<u8>,
        object: usize,
        place: u32,
        number: u32,
    ) -> Result<(), NoMemory>
        ensures { OnOk result (out.new.items ≡ out.old.items ++ inside_text (scope_of self.now) object place number) }
    {
        self.push_object(out, object, place)?;
        push_text(out, b".")?;
        match self.method_inside(object, number) {
            None => push_number(out, u64::from(number)),
            Some(method) => push_text(out, method.name.as_slice()),
        }
    }

    /// Appends what stands at an offset from a base: 1 is data of the object, 2 its variables, and 3 the frame.
    fn push_variable(&self, out: &mut Vec<u8>, base: u8, offset: u32) -> Result<(), NoMemory>
        ensures { OnOk result (out.new.items ≡ out.old.items ++ variable_text (scope_of self.now) base offset) }
    {
        match base {
            1 => push_address(self.labels, out, (offset % 65_536) as u16),
            2 => push_address(self.variables, out, (offset % 65_536) as u16),
            _ => push_frame(out, self.method, u64::from(offset)),
        }
    }

    /// Appends a space and that, unless the base is a popped address.
    fn push_placed(&self, out: &mut Vec<u8>, base: u8, offset: u32) -> Result<(), NoMemory>
        ensures { OnOk result (out.new.items ≡ out.old.items ++ placed_text base (variable_text (scope_of self.now) base offset)) }
    {
        if base == 0 {
            return Ok(());
        }
        push_text(out, b" ")?;
        self.push_variable(out, base, offset)
    }
}

/// Appends the name of a method of the same object, or its number.
fn push_own(out: &mut Vec<u8>, scope: Option<&Scope<'_>>, number: u32) -> Result<(), NoMemory>
    ensures { OnOk result (out.new.items ≡ out.old.items ++ own_text (scope_in scope.entry) number) }
{
    let Some(scope) = scope else {
        return push_number(out, u64::from(number));
    };
    let methods = scope.own.methods.as_slice();
    match methods.get(number.saturating_sub(1) as usize) {
        None => push_number(out, u64::from(number)),
        Some(method) => push_text(out, method.name.as_slice()),
    }
}

/// Appends the names of an object by its place in the table and of its method of a number, or these numbers.
fn push_called(
    out: &mut Vec<u8>,
    scope: Option<&Scope<'_>>,
    place: u32,
    number: u32,
) -> Result<(), NoMemory>
    ensures { OnOk result (out.new.items ≡ out.old.items ++ called_text (scope_in scope.entry) place number) }
{
    let Some(scope) = scope else {
        push_number(out, u64::from(place))?;
        push_text(out, b".")?;
        return push_number(out, u64::from(number));
    };
    let object = (place.saturating_sub(1) as usize).saturating_sub(scope.own.methods.len());
    scope.push_inside(out, object, place, number)
}

/// Appends a number behind a text.
fn push_behind(out: &mut Vec<u8>, text: &[u8], number: u32) -> Result<(), NoMemory>
    ensures { OnOk result (out.new.items ≡ out.old.items ++ (text.now ++ decimal number)) }
{
    push_text(out, text)?;
    push_number(out, u64::from(number))
}

/// Appends what a bytecode calls or starts, or else its number.
fn push_call(out: &mut Vec<u8>, scope: Option<&Scope<'_>>, op: &Op) -> Result<(), NoMemory>
    ensures { OnOk result (out.new.items ≡ out.old.items ++ call_text (scope_in scope.entry) op.now) }
{
    match op.code {
        CALL => push_own(out, scope, op.first),
        OBJCALL => push_called(out, scope, op.first, op.second),
        OBJCALL_INDEXED => {
            push_called(out, scope, op.first, op.third)?;
            push_behind(out, b" of ", op.second)
        }
        MARK_INTERPRETED => {
            push_own(out, scope, op.first)?;
            push_behind(out, b" ", op.second)
        }
        _ => push_number(out, u64::from(op.first)),
    }
}

/// The base of a bytecode of a variable.
fn base_of(op: &Op) -> u8
    ensures { result ≡ base_by op.now }
{
    if op.code < 0x80 {
        2 + op.code / 32 % 2
    } else {
        op.code / 4 % 4
    }
}

/// The offset of a bytecode of a variable.
fn offset_of(op: &Op) -> u32
    ensures { result ≡ offset_by op.now }
{
    if op.code < 0x80 {
        u32::from(op.code / 4 % 8 * 4)
    } else {
        op.first
    }
}

/// Appends what a bytecode of a variable names whose offset stands at a place of the code: a text, a name, or the offset.
fn push_named(
    out: &mut Vec<u8>,
    scope: Option<&Scope<'_>>,
    at: u64,
    base: u8,
    offset: u32,
) -> Result<(), NoMemory>
    ensures { OnOk result (out.new.items ≡ out.old.items ++ named_text (scope_in scope.entry) at base offset) }
{
    let Some(scope) = scope else {
        if base == 0 {
            return Ok(());
        }
        push_text(out, b" ")?;
        return push_text(out, &word_digits(offset));
    };
    let texts = scope.object.texts.as_slice();
    match text_used(scope.part.uses.as_slice(), texts, at) {
        None => scope.push_placed(out, base, offset),
        Some(text) => {
            push_text(out, b" ")?;
            push_items(out, text.as_slice())
        }
    }
}

/// Appends the address to which a jump leads whose offset is counted from an address.
fn push_target(out: &mut Vec<u8>, after: u16, offset: u32) -> Result<(), NoMemory>
    ensures { OnOk result (out.new.items ≡ out.old.items ++ (codes " " ++ hex 4 (target after offset))) }
{
    let target = after.wrapping_add((offset % 65_536) as u16);
    push_text(out, b" ")?;
    push_text(out, &word_digits(u32::from(target)))
}

/// A value less 1, where the flag is set.
fn less_one_if(flag: bool, value: u32) -> u32
    ensures { result ≡ less_one_if flag value }
{
    if flag { value.wrapping_sub(1) } else { value }
}

/// The constant that a byte packs.
fn packed(byte: u32) -> u32
    ensures { result ≡ packed byte }
{
    let power = rotated_left(2, byte % 32);
    let value = less_one_if(byte / 32 % 2 == 1, power);
    if byte / 64 % 2 == 1 { !value } else { value }
}

/// Appends the address to which a step of `REPEAT` leads.
fn push_step(out: &mut Vec<u8>, after: u16, op: &Op) -> Result<(), NoMemory>
    ensures { OnOk result (out.new.items ≡ out.old.items ++ step_text after op.now) }
{
    match op.effect {
        0x02 | 0x06 => push_target(out, after, op.second),
        _ => Ok(()),
    }
}

/// Appends the effect of a bytecode that ends at an address, if it has one.
fn push_change(out: &mut Vec<u8>, changes: bool, after: u16, op: &Op) -> Result<(), NoMemory>
    ensures { OnOk result (out.new.items ≡ out.old.items ++ change_text changes after op.now) }
{
    if !changes {
        return Ok(());
    }
    push_text(out, b" ")?;
    push_text(out, effect_name(op.effect % 128))?;
    push_step(out, after, op)?;
    if op.effect >= 128 {
        push_text(out, b" PUSH")
    } else {
        Ok(())
    }
}

/// What is done with a register.
fn action_of(byte: u32) -> &'static [u8]
    ensures { result.now ≡ action_text byte }
{
    if byte < 0xA0 {
        b" PUSH "
    } else if byte < 0xC0 {
        b" POP "
    } else {
        b" EFFECT "
    }
}

/// Appends what stands behind the name of a bytecode, at a place of the code: of the one that ends at an address.
fn push_operands(
    out: &mut Vec<u8>,
    scope: Option<&Scope<'_>>,
    at: u64,
    after: u16,
    op: &Op,
) -> Result<(), NoMemory>
    ensures { OnOk result (out.new.items ≡ out.old.items ++ operand_text (scope_in scope.entry) at after op.now (operands_by op.now.code)) }
{
    match operands_of(op.code) {
        None | Some(Operands::Nothing) => Ok(()),
        Some(Operands::Offset) => push_target(out, after, op.first),
        Some(Operands::SevenBits) => push_behind(out, b" ", packed(op.first)),
        Some(Operands::Register) => {
            push_text(out, action_of(op.first))?;
            push_text(out, register_name(op.first))?;
            push_change(out, op.first >= 0xC0, after, op)
        }
        Some(Operands::ShortVariable | Operands::Variable) => {
            push_named(out, scope, at, base_of(op), offset_of(op))?;
            push_change(out, op.code % 4 == 2, after, op)
        }
        Some(
            Operands::OneByte
            | Operands::TwoBytes
            | Operands::ThreeBytes
            | Operands::Word
            | Operands::Triple
            | Operands::Long,
        ) => {
            push_text(out, b" ")?;
            push_call(out, scope, op)
        }
    }
}

/// Appends the spaces up to the column of a bytecode's name, behind so many bytes.
fn push_gap(out: &mut Vec<u8>, size: usize) -> Result<(), NoMemory>
    ensures { OnOk result (out.new.items ≡ out.old.items ++ replicate (20 - 3 * size) 32) }
{
    let gap = NAME_COLUMN.saturating_sub(size.saturating_mul(3));
    for _ in 0..gap {
        push_text(out, b" ")?;
    }
    Ok(())
}

/// Appends a bytecode in its column, by its bytes, which end at an address; what stands after its byte stands at a place of the code. Nothing is
/// appended where no bytecode stands there whole.
pub(crate) fn push_op(
    out: &mut Vec<u8>,
    scope: Option<&Scope<'_>>,
    at: u64,
    after: u16,
    piece: &[u8],
) -> Result<(), NoMemory>
    ensures { OnOk result (out.new.items ≡ out.old.items ++ op_text (scope_in scope.entry) at after (length piece.now) (op_at piece.now 0)) }
{
    let Some((op, _)) = take_op(piece, 0) else {
        return Ok(());
    };
    push_gap(out, piece.len())?;
    push_bytecode_name(out, op.code)?;
    push_operands(out, scope, at, after, &op)
}
