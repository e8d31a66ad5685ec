// Names that are defined twice.
ghost use Rattle.std.specs.Prelude.{◌≡◌, ◌||◌, ℕ, List, [], ◌∷◌, ◌++◌, ◌↔◌, IsTrue, Contains, IfOk, OnOk, map};
ghost use Rattle.p8_tree.specs.Views.{method_of};
ghost use Rattle.p8_constants.specs.Names.{spelled, file_names, predefined as table, predefined_names};
ghost use Rattle.p8_constants.specs.Repeats.{Repeats, RepeatIn, HasOwnRepeat, NameRepeatIn};
ghost use Rattle.p8_constants.specs.Rules.{InAny};
ghost use Rattle.p8_constants.specs.FileItems.{method as method_tree};
ghost use Rattle.p8_constants.specs.Standing.{item_of, items_of, defined_of, all_defined_of, IsFirstOf, Holds, valued};

use crate::first_faults::where_so;
use crate::items::Item;
use crate::language::{NamedConstant, predefined};
use crate::name_set::NameSet;
use crate::names::{Defined, names_of, own_names};
use p8_tree::{Fault, Method, Refusal, first_of_two};
use std::alloc::{AllocError, Global};

// One of two.
fn either(first: bool, second: bool) -> bool
    ensures { result ≡ (first || second) }
{
    first || second
}

// Whether a name is in one of two sets, of which the second one takes it.
fn is_in_then_put(shared: &NameSet, own: &mut NameSet, name: &[u8]) -> Result<bool, AllocError>
    ensures told { (before : List (List ℕ)) → Holds shared.now before → (behind : List (List ℕ)) → Holds own.old behind →
        IfOk result (λ is_in. IsTrue is_in ↔ Contains (before ++ behind) name.now) }
    ensures taken { OnOk result ((names : List (List ℕ)) → Holds own.old names → Holds own.new (names ++ name.now ∷ [])) }
{
    let in_shared = shared.has(name);
    let in_own = own.has_then_put(name)?;
    Ok(either(in_shared, in_own))
}

// 14 where a name is in one of two sets, of which the second one takes it.
fn repeated(
    shared: &NameSet,
    own: &mut NameSet,
    defined: Defined<'_>,
) -> Result<Option<Fault>, AllocError>
    ensures told { (before : List (List ℕ)) → Holds shared.now before → (behind : List (List ℕ)) → Holds own.old behind →
        IfOk result (λ told. IsFirstOf told (Repeats (before ++ behind) (defined_of defined.entry))) }
    ensures taken { OnOk result ((names : List (List ℕ)) → Holds own.old names → Holds own.new (names ++ defined.entry.name.now ∷ [])) }
{
    let fault = Refusal::Duplicate.at(defined.place);
    let is_in = is_in_then_put(shared, own, defined.name.as_slice())?;
    Ok(where_so(is_in, fault))
}

/// The first of these names that is in a shared set, or among those before it: in a set of their own, which takes them.
pub(crate) fn first_repeated(
    shared: &NameSet,
    own: &mut NameSet,
    names: &[Defined<'_>],
) -> Result<Option<Fault>, AllocError>
    ensures first { IfOk result (λ first. (before : List (List ℕ)) → Holds shared.now before → (behind : List (List ℕ)) → Holds own.old behind →
        IsFirstOf first (RepeatIn (before ++ behind) (all_defined_of names.now))) }
    ensures taken { IfOk result (λ _. (behind : List (List ℕ)) → Holds own.old behind → Holds own.new (behind ++ spelled (all_defined_of names.now))) }
{
    let mut first = None;
    for defined in names {
        first = first_of_two(first, repeated(shared, own, *defined)?);
    }
    Ok(first)
}

// 14 where a method's own name is in a set, or stands twice in the method.
fn own_repeated(
    alloc: Global,
    shared: &NameSet,
    item: Item<'_>,
) -> Result<Option<Fault>, AllocError>
    ensures { IfOk result (λ first. (names : List (List ℕ)) → Holds shared.now names → IsFirstOf first (HasOwnRepeat names (item_of item.entry))) }
{
    match item {
        Item::Method(method) => repeated_in(alloc, shared, method),
        _ => Ok(None),
    }
}

fn repeated_in(
    alloc: Global,
    shared: &NameSet,
    method: &Method,
) -> Result<Option<Fault>, AllocError>
    ensures { IfOk result (λ first. (names : List (List ℕ)) → Holds shared.now names →
        IsFirstOf first (HasOwnRepeat names (method_tree (method_of method.now)))) }
{
    let names = own_names(alloc, method)?;
    let mut own = NameSet::new(alloc);
    Ok(first_repeated(shared, &mut own, &names)?)
}

/// The first of the methods' own names that is in a set, of the file's names, or stands twice in its method.
pub fn first_own_repeat(
    alloc: Global,
    shared: &NameSet,
    items: &[Item<'_>],
) -> Result<Option<Fault>, AllocError>
    ensures { IfOk result (λ first. (names : List (List ℕ)) → Holds shared.now names → IsFirstOf first (InAny (HasOwnRepeat names) (items_of items.now))) }
{
    let mut first = None;
    for item in items {
        first = first_of_two(first, own_repeated(alloc, shared, *item)?);
    }
    Ok(first)
}

/// The names of the space of a file, and the first of them that is defined twice.
#[derive(Drop)]
pub struct FileNames {
    /// All names of the space, those that the language defines among them.
    pub names: NameSet,
    /// 14 at the first name that is defined before, or that the language defines.
    pub repeated: Option<Fault>,
}

/// The names of the space of a file with these items.
pub fn file_names(
    alloc: Global,
    items: &[Item<'_>],
    predefined: &[NamedConstant],
) -> Result<FileNames, AllocError>
    requires { valued predefined.now ≡ table }
    ensures names { IfOk result (λ r. Holds r.names (file_names (items_of items.now))) }
    ensures repeated { IfOk result (λ r. IsFirstOf r.repeated (NameRepeatIn (items_of items.now))) }
{
    let mut names = NameSet::new(alloc);
    put_predefined(predefined, &mut names)?;
    let defined = names_of(alloc, items)?;
    let nothing = NameSet::new(alloc);
    let repeated = first_repeated(&nothing, &mut names, &defined)?;
    Ok(FileNames { names, repeated })
}

fn put_predefined(predefined: &[NamedConstant], names: &mut NameSet) -> Result<(), AllocError>
    ensures { OnOk result ((before : List (List ℕ)) → Holds names.old before → Holds names.new (before ++ map (λ x. x.0) (valued predefined.now))) }
{
    for constant in predefined {
        names.put(constant.name.as_slice())?;
    }
    Ok(())
}

/// The names of the constants that the language defines: those that are there from the start in each file, before all that
/// the file defines.
pub fn predefined_names(alloc: Global) -> Result<NameSet, AllocError>
    ensures { IfOk result (λ names. Holds names predefined_names) }
{
    let constants = predefined(alloc)?;
    let mut names = NameSet::new(alloc);
    put_predefined(&constants, &mut names)?;
    Ok(names)
}
