// CALL: the label of the end of a subroutine.
ghost use Rattle.std.specs.Prelude.{◌≡◌, ◌<◌, ◌++◌, ◌%◌, ◌==◌, ◌||◌, not, Some, IfOk, option_map, codes};
ghost use Rattle.p8_tree.specs.Faults.{fault};
ghost use Rattle.p8_tree.specs.declared.refusal.Refusal.TheVariants.{OperandRange};
ghost use Rattle.p8_fold.specs.Values.{where_so};
ghost use Rattle.p8_tree.specs.Views.{tree_of};
ghost use Rattle.p8_fold.specs.ConstantEntries.{setting_of};
ghost use Rattle.p8_dat.specs.Encoding.{is_address, field, return_meaning, end_meaning, return_fault, label_field};

use crate::operands::{Operand, field, name_alone};
use p8_fold::{Consts, Meaning};
use p8_tree::{Expr, Place, Refusal, Text};
use std::alloc::{AllocError, Global};

// The name of the label of a subroutine's end, by that of the subroutine.
fn return_name(alloc: Global, name: &Text) -> Result<Text, AllocError>
    ensures { IfOk result (λ text. text ≡ name.now ++ codes "_RET") }
{
    let mut bytes = name.as_slice().to_vec(alloc)?;
    bytes.extend_from_slice(b"_RET")?;
    Ok(Text::from_vec(bytes))
}

// What the label of a subroutine's end means.
fn return_meaning(
    alloc: Global,
    source: &Option<Expr>,
    consts: &Consts,
) -> Result<Option<Meaning>, AllocError>
    ensures { IfOk result (λ meaning. meaning ≡ return_meaning (setting_of consts.now) (option_map tree_of source.now)) }
{
    match source {
        None => Ok(None),
        Some(source) => end_meaning(alloc, name_alone(source), consts),
    }
}

fn end_meaning(
    alloc: Global,
    name: Option<&Text>,
    consts: &Consts,
) -> Result<Option<Meaning>, AllocError>
    ensures { IfOk result (λ meaning. meaning ≡ end_meaning (setting_of consts.now) (option_map (λ t. t.now) name.entry)) }
{
    match name {
        None => Ok(None),
        Some(name) => {
            let end = return_name(alloc, name)?;
            Ok(consts.meaning(&end))
        }
    }
}

// The label of a subroutine's end as an operand.
fn return_operand(meaning: Option<Meaning>, call: Place, label: Place) -> Operand
    ensures field { result.field ≡ label_field meaning }
    ensures in_range { result.field < 512 }
    ensures fault { result.fault ≡ return_fault meaning call label }
{
    match meaning {
        Some(Meaning::Label { cog, offset }) => label_operand(cog, offset, label),
        _ => Operand {
            field: 0,
            fault: Some(Refusal::NoRetLabel.at(call)),
        },
    }
}

fn label_operand(cog: u32, offset: u32, label: Place) -> Operand
    ensures field { result.field ≡ field (Some cog) }
    ensures in_range { result.field < 512 }
    ensures fault { result.fault ≡ where_so (not (is_address cog) || not (offset % 4 == 0)) (fault OperandRange label) }
{
    let off = cog >= 512 || offset % 4 != 0;
    Operand {
        field: field(cog),
        fault: if off {
            Some(Refusal::OperandRange.at(label))
        } else {
            None
        },
    }
}

// The destination of CALL.
pub(crate) fn called(
    alloc: Global,
    source: &Option<Expr>,
    call: Place,
    label: Place,
    consts: &Consts,
) -> Result<Operand, AllocError>
    ensures field { IfOk result (λ o. o.field ≡ label_field (return_meaning (setting_of consts.now) (option_map tree_of source.now))) }
    ensures in_range { IfOk result (λ o. o.field < 512) }
    ensures fault { IfOk result (λ o. o.fault ≡ return_fault (return_meaning (setting_of consts.now) (option_map tree_of source.now)) call label) }
{
    let meaning = return_meaning(alloc, source, consts)?;
    Ok(return_operand(meaning, call, label))
}
