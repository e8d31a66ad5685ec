// Names that are no constants for a while: a method's own names, in the method.
ghost use Rattle.std.specs.Prelude.{◌≡◌, ◌⊎◌, ℕ, List, Some, IsTrue, if◌then◌else◌, OnOk, option_map};
ghost use Rattle.p8_fold.specs.ConstantEntries.{setting_of};
ghost use Rattle.p8_fold.specs.declared.meanings.Meaning.TheVariants.{Other};
ghost use Rattle.p8_constants.specs.Names.{spelled};
ghost use Rattle.p8_constants.specs.Standing.{all_defined_of};
ghost use Rattle.p8_kinds.specs.Kinds.{own};
ghost use Rattle.p8_kinds.specs.FileSettings.{meaning_of_kind};
ghost use Rattle.p8_names.specs.Settings.{is_one_of};
ghost use Rattle.p8_names.specs.Changes.{HasNames};

use crate::outside::put_meaning;
use p8_constants::Defined;
use p8_fold::{Consts, Meaning};
use p8_kinds::{Kinds, NameKind};
use p8_tree::Text;
use p8_words::NoMemory;

/// Says that these names are no constants.
pub(crate) fn hide(consts: &mut Consts, names: &[Defined<'_>]) -> Result<(), NoMemory>
    ensures { OnOk result (HasNames (setting_of consts.old) (setting_of consts.new)
        (λ n. if is_one_of (spelled (all_defined_of names.now)) n then Some Other else (setting_of consts.old).name n)) }
{
    for defined in names {
        put_meaning(consts, defined.name, Some(Meaning::Other))?;
    }
    Ok(())
}

// What a name of the whole file means.
fn meaning_of(kinds: &Kinds, name: &Text) -> Option<Meaning>
    ensures { result ≡ option_map meaning_of_kind (own kinds.now 0 name.now) }
{
    match kinds.own(0, name) {
        None => None,
        Some(kind) => Some(meaning_of_kind(kind)),
    }
}

fn meaning_of_kind(kind: NameKind) -> Meaning
    ensures { result ≡ meaning_of_kind kind }
{
    match kind {
        NameKind::Const(value) => Meaning::Value(value),
        NameKind::Object { .. } => Meaning::Object,
        _ => Meaning::Other,
    }
}

/// Says again of these names what they mean by the kinds of the whole file, as all others do.
pub(crate) fn restore(
    consts: &mut Consts,
    kinds: &Kinds,
    names: &[Defined<'_>],
) -> Result<(), NoMemory>
    requires { (n : List ℕ) → ((setting_of consts.old).name n ≡ option_map meaning_of_kind (own kinds.now 0 n)) ⊎
        IsTrue (is_one_of (spelled (all_defined_of names.now)) n) }
    ensures { OnOk result (HasNames (setting_of consts.old) (setting_of consts.new) (λ n. option_map meaning_of_kind (own kinds.now 0 n))) }
{
    for defined in names {
        put_meaning(consts, defined.name, meaning_of(kinds, defined.name))?;
    }
    Ok(())
}
