// The short code of a method.
ghost use Rattle.std.specs.Prelude.{IfOk};
ghost use Rattle.p8_tree.specs.Views.{method_of, statements_of};
ghost use Rattle.p8_tree.specs.declared.faults.Fault.{Fault};
ghost use Rattle.p8_gen.specs.Scopes.{names_from};
ghost use Rattle.p8_stmt.specs.Methods.{AreResolved, IsMethodFault, rebodied};
ghost use Rattle.p8_stmt.specs.Jumps.{IsShortCode};

use crate::code::{MethodCode, method_code_with};
use crate::widths::least_widths;
use p8_gen::Tables;
use p8_kinds::Kinds;
use p8_tree::{Method, Stmt};
use p8_words::{Fail, NoMemory};
use std::alloc::Global;

/// The code of the method with this number and this body, with two bytes for the offsets of the least set of jumps such
/// that every other offset fits in one byte, from -64 to 63.
///
/// The body's statements could have been read and resolved, and the method with it is one that compiles with two bytes
/// for every offset. `kinds` are those of the file's names, and `tables` are made of the same file. Where a text stands
/// in the object isn't known yet, and 0 stands for its offset. The calls go as deep as blocks stand in one another and
/// expressions are high. Source of the offsets' forms: the public Spin bytecode listing; the choice is this project's.
pub fn short_code(
    alloc: Global,
    kinds: &Kinds,
    tables: &Tables,
    method: &Method,
    number: u32,
    body: &[Stmt],
) -> Result<MethodCode, NoMemory>
    requires resolved { AreResolved (names_from kinds.now number tables.now method.now.place) (statements_of body.now) }
    requires accepted { (f : Fault) → ¬ IsMethodFault (names_from kinds.now number tables.now method.now.place)
        (rebodied (method_of method.now) (statements_of body.now)) f }
    ensures { IfOk result (IsShortCode (names_from kinds.now number tables.now method.now.place) (method_of method.now) (statements_of body.now)) }
{
    let widths = least_widths(alloc, kinds, tables, method, number, body)?;
    match method_code_with(
        alloc,
        kinds,
        tables,
        method,
        number,
        body,
        widths.as_slice(),
    ) {
        Ok(code) => Ok(code),
        Err(Fail::NoMemory) => Err(NoMemory),
        Err(Fail::Refused(_)) => unreachable!(),
    }
}
