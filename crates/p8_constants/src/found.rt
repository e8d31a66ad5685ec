// The constants of a file.
ghost use Rattle.std.specs.Prelude.{◌≡◌, ℕ, List, IfOk, IsSome, Some, None, MatchOption};
ghost use Rattle.p8_tree.specs.Views.{source_of};
ghost use Rattle.p8_tree.specs.declared.faults.Fault.{Fault};
ghost use Rattle.p8_tree.specs.Faults.{IsFirstFault};
ghost use Rattle.p8_fold.specs.declared.meanings.Meaning.TheVariants.{Value};
ghost use Rattle.p8_fold.specs.ConstantEntries.{setting_of};
ghost use Rattle.p8_constants.specs.Items.{definitions, definition};
ghost use Rattle.p8_constants.specs.Constants.{scope_of, Has, IsConstant, IsConstantFault};

use crate::evaluation::Evaluation;
use crate::plan::plan_of;
use p8_fold::Consts;
use p8_tree::{Fault, SourceFile};
use p8_words::NoMemory;
use std::alloc::Global;

/// The constants of a file, and what is wrong with them.
#[derive(Drop)]
pub struct FileConstants {
    /// What names mean: those outside, and each constant of the file with its value. A refused expression counts as 0.
    pub consts: Consts,
    /// The first fault of the expressions of `CON`: 12, 13, 15 or 16.
    pub fault: Option<Fault>,
}

/// Finds the constants of a file, where all other names mean what `outside` says.
///
/// A constant may be used before its line. A name that has an entry in `outside` means that, also where the file defines it.
/// It takes time and memory in proportion to the file, but for look-ups of names, which take the logarithm of their number.
pub fn constants_of(
    alloc: Global,
    file: &SourceFile,
    outside: Consts,
) -> Result<FileConstants, NoMemory>
    ensures outside { IfOk result (λ found. (n : List ℕ) → IsSome ((setting_of outside).name n) →
        (setting_of found.consts).name n ≡ (setting_of outside).name n) }
    ensures constants { IfOk result (λ found. (n : List ℕ) → IsConstant (scope_of (setting_of outside) (source_of file.now)) n →
        (v : ℕ) × ((setting_of found.consts).name n ≡ Some (Value v)) × Has (scope_of (setting_of outside) (source_of file.now)) n v) }
    ensures others { IfOk result (λ found. (n : List ℕ) → (setting_of outside).name n ≡ None →
        definition (definitions (source_of file.now)) n ≡ None → (setting_of found.consts).name n ≡ None) }
    ensures objects { IfOk result (λ found. (object name : List ℕ) →
        (setting_of found.consts).constant object name ≡ (setting_of outside).constant object name) }
    ensures here { IfOk result (λ found. (setting_of found.consts).here ≡ (setting_of outside).here) }
    ensures fault { IfOk result (λ found. MatchOption found.fault ((f : Fault) → ¬ IsConstantFault (setting_of outside) (source_of file.now) f)
        (IsFirstFault (IsConstantFault (setting_of outside) (source_of file.now)))) }
{
    let plan = plan_of(alloc, file, &outside)?;
    let mut evaluation = Evaluation {
        values: vec![in alloc; 0; plan.numbers.len()]?,
        consts: outside,
        fault: None,
    };
    for place in 0..plan.order.len() {
        evaluation.evaluate(alloc, &plan, place)?;
    }
    evaluation.enter_all(&plan)?;
    let Evaluation { consts, fault, .. } = evaluation;
    Ok(FileConstants { consts, fault })
}
