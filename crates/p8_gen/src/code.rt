// Code of an expression.
ghost use Rattle.std.specs.Prelude.{◌≡◌, map, IfOk};
ghost use Rattle.p8_tree.specs.Views.{tree_of};
ghost use Rattle.p8_gen.specs.Pieces.{empty};
ghost use Rattle.p8_gen.specs.Expressions.{value};
ghost use Rattle.p8_gen.specs.Files.{names_in};
ghost use Rattle.p8_gen.specs.Uses.{use_of};

use crate::coder::{Coder, Tables};
use crate::writer::Writer;
use p8_bytecode::Op;
use p8_kinds::{Label, Named};
use p8_tree::{Expr, List, Place};
use p8_words::NoMemory;
use std::alloc::Global;

/// The code of an expression: bytecodes one after the other.
#[derive(Drop)]
pub struct Code {
    pub ops: List<Op>,
    /// The bytecodes that push the address of a text.
    pub strings: List<StringUse>,
}

/// A use of a text in code.
#[derive(Clone, Copy, Debug, PartialEq, Eq)]
pub struct StringUse {
    /// Which bytecode pushes the text's address, counted from 0.
    pub at: u32,
    /// Where the text stands in the source: the place of `STRING`.
    pub place: Place,
}

/// The code that leaves the value of an expression.
///
/// The expression stands in the body of the file's method with this number, and `labels` are those of the file's data; of two
/// with one name the first counts. A name means what it is in the method, or else in the file. Where a text stands in the object
/// isn't known yet, and 0 stands for its offset. The calls go as deep as the expression is high, which is 64 at most where it was
/// read.
pub fn expr_code(
    alloc: Global,
    expr: &Expr,
    named: &Named<'_>,
    labels: &List<Label>,
    method: u8,
) -> Result<Code, NoMemory>
    ensures ops { IfOk result (λ code. code.ops ≡ (value (names_in named.now.kinds named.now.children.now labels.now method expr.now.place)
        (tree_of expr.now) empty).ops) }
    ensures strings { IfOk result (λ code. map use_of code.strings ≡
        (value (names_in named.now.kinds named.now.children.now labels.now method expr.now.place) (tree_of expr.now) empty).texts) }
{
    let tables = Tables::of(alloc, named, labels.as_slice())?;
    let coder = Coder {
        kinds: &named.kinds,
        number: u32::from(method),
        tables: &tables,
        widths: &[],
        statement: expr.place,
    };
    let mut out = Writer::new(alloc);
    coder.value(expr, &mut out)?;
    let kept = out.into_kept()?;
    Ok(Code {
        ops: List::from_vec(kept.ops),
        strings: List::from_vec(kept.strings),
    })
}
