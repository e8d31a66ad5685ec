// The bytes of a method, and where texts are used among them.
ghost use Rattle.std.specs.Prelude.{◌≡◌, ◌++◌, [], ◌∷◌, List, length, map, flat_map, take, IfOk, OnOk, All};
ghost use Rattle.p8_bytecode.specs.declared.op.Op.{Op};
ghost use Rattle.p8_bytecode.specs.Spelling.{spelled};
ghost use Rattle.p8_gen.specs.Operations.{IsWhole};
ghost use Rattle.p8_gen.specs.Uses.{use_of};
ghost use Rattle.p8_stmt.specs.Spelled.{begins_of, placed, IsSpelled};

use p8_bytecode::{Op, put_op};
use p8_gen::StringUse;
use p8_tree::List;
use p8_words::NoMemory;
use std::alloc::{AllocError, Global};

/// Bytecodes as bytes.
#[derive(Drop)]
pub(crate) struct Spelled {
    pub bytes: Vec<u8>,
    /// Where each bytecode begins.
    pub begins: Vec<u32>,
}

/// The bytes of bytecodes that there are, and where each begins.
pub(crate) fn put_ops(alloc: Global, ops: &[Op]) -> Result<Spelled, NoMemory>
    requires { All IsWhole ops.now }
    ensures { IfOk result (λ made. IsSpelled made ops.now) }
{
    let mut bytes = Vec::new(alloc);
    let mut begins = Vec::new(alloc);
    for op in ops {
        push_begin(&mut begins, bytes.len())?;
        put_whole(*op, &mut bytes)?;
    }
    Ok(Spelled { bytes, begins })
}

fn put_whole(op: Op, bytes: &mut Vec<u8>) -> Result<(), NoMemory>
    requires { IsWhole op }
    ensures { OnOk result (bytes.new.items ≡ bytes.old.items ++ spelled op) }
{
    put_op(&op, bytes)
}

fn push_begin(begins: &mut Vec<u32>, begin: usize) -> Result<(), AllocError>
    ensures { OnOk result (begins.new.items ≡ begins.old.items ++ begin ∷ []) }
{
    begins.push(u32::try_from(begin).map_err(|_| AllocError)?)?;
    Ok(())
}

/// The uses of texts by their places among the bytes. They are given by the numbers of the bytecodes.
pub(crate) fn place_uses(
    alloc: Global,
    spelled: &Spelled,
    uses: &[StringUse],
) -> Result<List<StringUse>, NoMemory>
    ensures { (ops : List Op) → IsSpelled spelled.now ops → IfOk result (λ uses_placed. map use_of uses_placed ≡ map (placed ops) (map use_of uses.now)) }
{
    let mut placed = List::new(alloc);
    for text in uses {
        placed.push(place_use(spelled, *text)?)?;
    }
    Ok(placed)
}

// The text's offset stands after the bytecode's byte.
fn place_use(spelled: &Spelled, text: StringUse) -> Result<StringUse, NoMemory>
    ensures { (ops : List Op) → IsSpelled spelled.now ops → IfOk result (λ use_placed. use_of use_placed ≡ placed ops (use_of text)) }
{
    let total = u32::try_from(spelled.bytes.len()).map_err(|_| NoMemory)?;
    let begin = begin_of(&spelled.begins, total, text.at as usize);
    let at = begin.checked_add(1).ok_or(NoMemory)?;
    Ok(StringUse {
        at,
        place: text.place,
    })
}

// Where the bytecode of a number begins, or else where all of them end.
fn begin_of(begins: &[u32], total: u32, number: usize) -> u32
    ensures { (ops : List Op) → begins.now ≡ begins_of 0 ops → total ≡ length (flat_map spelled ops) → result ≡ length (flat_map spelled (take number ops)) }
{
    if number < begins.len() {
        begins[number]
    } else {
        total
    }
}
