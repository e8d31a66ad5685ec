// The code of a method.
ghost use Rattle.std.specs.Prelude.{◌≡◌, ◌*◌, ◌<◌, map, flat_map, IfOk, IfErr, OnOk, All};
ghost use Rattle.p8_tree.specs.Views.{method_of, statements_of};
ghost use Rattle.p8_bytecode.specs.Spelling.{spelled};
ghost use Rattle.p8_tree.specs.declared.faults.Fault.{Fault};
ghost use Rattle.p8_tree.specs.Faults.{IsFirstFault, IfRefused};
ghost use Rattle.p8_gen.specs.Methods as methods;
ghost use Rattle.p8_gen.specs.Operations.{IsWhole};
ghost use Rattle.p8_gen.specs.Scopes.{names_from, names_of};
ghost use Rattle.p8_gen.specs.Names.{widened, wide_in};
ghost use Rattle.p8_gen.specs.Uses.{line_of, use_of, way_of};
ghost use Rattle.p8_stmt.specs.Methods.{AreResolved, IsCodeOf, IsMethodFault, most_longs, rebodied, size_of};
ghost use Rattle.p8_stmt.specs.Spelled.{placed};

use crate::context::Context;
use crate::faults::first_fault;
use crate::frames::{MethodSize, frame_longs, is_too_large, longs_in};
use crate::spelling::{place_uses, put_ops};
use crate::statement_depths::held_in;
use p8_bytecode::RETURN;
use p8_gen::{Coder, Jump, Kept, Line, StringUse, Tables, Writer};
use p8_kinds::Kinds;
use p8_tree::{Fault, List, Method, Stmt, Text};
use p8_words::{Fail, NoMemory};
use std::alloc::{AllocError, Global};

/// The code of a method.
#[derive(Drop)]
pub struct MethodCode {
    /// Its bytecodes one after the other, with 80 00 where the offset of a text comes.
    pub bytes: Text,
    /// The bytes of its locals, without its result and its parameters.
    pub locals: u16,
    /// How many longs it holds at once on the operand stack.
    pub depth: u16,
    /// Where in the bytes the two bytes of a text's offset stand, and where the text stands in the source.
    pub strings: List<StringUse>,
    /// Its line table: for each bytecode, in their order, where it begins and which statement it is made from.
    pub lines: List<Line>,
}

/// Why a method can't be compiled: 25 at a statement with a jump that goes too far for its width, or 26 at the method's name, where its
/// frame has more than 2,048 longs or it holds more than 128 on the operand stack.
pub type CodeFault = Fault;

/// The code of the method with this number.
///
/// Its statements are those of a source that was read and resolved; `kinds` are those of the file's names, and `tables` are made of
/// the same file. Where a text stands in the object isn't known yet, and 0 stands for its offset. Where the method can't be
/// compiled, the first fault is told, by place and then by number. The calls go as deep as blocks stand in one another and
/// expressions are high, which is 64 each at most where they were read.
pub fn method_code(
    alloc: Global,
    kinds: &Kinds,
    tables: &Tables,
    method: &Method,
    number: u32,
) -> Result<MethodCode, Fail<CodeFault>>
    requires { AreResolved (names_from kinds.now number tables.now method.now.place) (statements_of method.now.body) }
    ensures code { IfOk result (IsCodeOf (names_from kinds.now number tables.now method.now.place) (method_of method.now)) }
    ensures clean { OnOk result ((f : Fault) → ¬ IsMethodFault (names_from kinds.now number tables.now method.now.place) (method_of method.now) f) }
    ensures refused { IfErr result (IfRefused (IsFirstFault (IsMethodFault (names_from kinds.now number tables.now method.now.place) (method_of method.now)))) }
{
    method_code_with(
        alloc,
        kinds,
        tables,
        method,
        number,
        method.body.as_slice(),
        &[],
    )
}

/// The code of a method with another body, and with a choice of wide jumps.
///
/// The choice tells by a jump's number, counted from 0 in the order in which they are written, whether its offset has two bytes; else
/// it has one, and the fault 25 is told where the offset isn't among -64 to 63. A jump past the end of the choice is wide. All else is
/// as in [`method_code`].
pub fn method_code_with(
    alloc: Global,
    kinds: &Kinds,
    tables: &Tables,
    method: &Method,
    number: u32,
    body: &[Stmt],
    widths: &[bool],
) -> Result<MethodCode, Fail<CodeFault>>
    requires { AreResolved (names_from kinds.now number tables.now method.now.place) (statements_of body.now) }
    ensures code { IfOk result (IsCodeOf (widened (names_from kinds.now number tables.now method.now.place) (wide_in widths.now))
        (rebodied (method_of method.now) (statements_of body.now))) }
    ensures clean { OnOk result ((f : Fault) → ¬ IsMethodFault
        (widened (names_from kinds.now number tables.now method.now.place) (wide_in widths.now)) (rebodied (method_of method.now) (statements_of body.now)) f) }
    ensures refused { IfErr result (IfRefused (IsFirstFault
        (IsMethodFault (widened (names_from kinds.now number tables.now method.now.place) (wide_in widths.now))
        (rebodied (method_of method.now) (statements_of body.now))))) }
{
    let coder = Coder {
        kinds,
        number,
        tables,
        widths,
        statement: method.place,
    };
    let kept = written(alloc, &coder, body)?;
    let depth = held_in(&coder, body);
    let longs = longs_in(&coder, method.locals.as_slice());
    let too_large = is_too_large(method.params.len(), longs, depth);
    match first_fault(alloc, kept.too_far.as_slice(), method.place, too_large)? {
        Some(fault) => Err(Fail::Refused(fault)),
        None => Ok(coded(alloc, kept, longs, depth)?),
    }
}

/// How large a method is, whether or not it can be compiled: what the refusal 26 compares with its limits.
pub fn method_size(kinds: &Kinds, tables: &Tables, method: &Method, number: u32) -> MethodSize
    ensures { result ≡ size_of (names_from kinds.now number tables.now method.now.place) (method_of method.now) }
{
    let coder = Coder {
        kinds,
        number,
        tables,
        widths: &[],
        statement: method.place,
    };
    let longs = longs_in(&coder, method.locals.as_slice());
    MethodSize {
        longs: frame_longs(method.params.len(), longs),
        held: held_in(&coder, method.body.as_slice()),
    }
}

/// The ways of the jumps in the code that [`method_code_with`] makes of the same, whether or not they go too far: for each jump the
/// place after it and the place that it jumps to, in bytes from the first byte of the method.
pub fn method_ways(
    alloc: Global,
    kinds: &Kinds,
    tables: &Tables,
    method: &Method,
    number: u32,
    body: &[Stmt],
    widths: &[bool],
) -> Result<List<Jump>, NoMemory>
    ensures { IfOk result (λ ways. map way_of ways ≡
        (methods.method_code (widened (names_from kinds.now number tables.now method.now.place) (wide_in widths.now)) (statements_of body.now)).ways) }
{
    let coder = Coder {
        kinds,
        number,
        tables,
        widths,
        statement: method.place,
    };
    let kept = written(alloc, &coder, body)?;
    Ok(List::from_vec(kept.ways))
}

// What is written of a method's code: its body, and a RETURN.
fn written(alloc: Global, coder: &Coder<'_>, body: &[Stmt]) -> Result<Kept, AllocError>
    ensures ops { IfOk result (λ kept. kept.ops.items ≡ (methods.method_code (names_of coder.now) (statements_of body.now)).ops) }
    ensures texts { IfOk result (λ kept. map use_of kept.strings.items ≡ (methods.method_code (names_of coder.now) (statements_of body.now)).texts) }
    ensures too_far { IfOk result (λ kept. kept.too_far.items ≡ (methods.method_code (names_of coder.now) (statements_of body.now)).too_far) }
    ensures ways { IfOk result (λ kept. map way_of kept.ways.items ≡ (methods.method_code (names_of coder.now) (statements_of body.now)).ways) }
    ensures lines { IfOk result (λ kept. map line_of kept.lines.items ≡ (methods.method_code (names_of coder.now) (statements_of body.now)).lines) }
{
    let context = Context {
        coder: *coder,
        enclosing: None,
    };
    let mut out = Writer::new(alloc);
    context.body(body, &mut out)?;
    out.at_statement(coder.statement);
    out.byte(RETURN)?;
    out.into_kept()
}

// The code of a method whose bytecodes are ones that there are.
fn coded(alloc: Global, kept: Kept, longs: u32, depth: u16) -> Result<MethodCode, NoMemory>
    requires ops { All IsWhole kept.ops.items }
    requires frame { longs < most_longs }
    ensures bytes { IfOk result (λ code. code.bytes ≡ flat_map spelled kept.ops.items) }
    ensures strings { IfOk result (λ code. map use_of code.strings ≡ map (placed kept.ops.items) (map use_of kept.strings.items)) }
    ensures lines { IfOk result (λ code. code.lines ≡ kept.lines.items) }
    ensures locals { IfOk result (λ code. code.locals ≡ 4 * longs) }
    ensures depth { IfOk result (λ code. code.depth ≡ depth) }
{
    let spelled = put_ops(alloc, kept.ops.as_slice())?;
    let strings = place_uses(alloc, &spelled, kept.strings.as_slice())?;
    Ok(MethodCode {
        bytes: Text::from_vec(spelled.bytes),
        locals: (4 * longs) as u16,
        depth,
        strings,
        lines: List::from_vec(kept.lines),
    })
}
