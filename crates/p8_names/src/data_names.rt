// The names in the lines of `DAT`, each looked up among the local labels that its line sees and the names of the file.
ghost use Rattle.std.specs.Prelude.{◌≡◌, ◌<◌, ◌≤◌, ◌+◌, ℕ, List, Option, None, IfOk, OnOk, length, drop, map, option_map, if◌then◌else◌};
ghost use Rattle.p8_tree.specs.Expressions.{Tree};
ghost use Rattle.p8_tree.specs.Views.{tree_of, datum_of, instruction_of, contents_of};
ghost use Rattle.p8_tree.specs.Sources.{Instr};
ghost use Rattle.p8_fold.specs.ConstantEntries.{setting_of};
ghost use Rattle.p8_constants.specs.Standing.{item_of, items_of, IsFirstOf};
ghost use Rattle.p8_kinds.specs.declared.scope.Scope.{Scope as declared_scope};
ghost use Rattle.p8_kinds.specs.Environments.{environment_of};
ghost use Rattle.p8_kinds.specs.Kinds.{own};
ghost use Rattle.p8_names.specs.Faults.{labels_ahead, labels_at, count_of_datum, UnknownInOption, UnknownInData, UnknownInContents, HasUnknown, UnknownInLines};
ghost use Rattle.p8_names.specs.Regions.{environment_at, UnknownInDatum, is_end, IsLabelEntered, HasLabels, IsInRegion};

use crate::next_kinds::one_more;
use crate::own_kinds::enter;
use p8_constants::Item;
use p8_kinds::{Kinds, NameKind, Scope, first_unknown};
use p8_tree::{DatBody, DatItem, Expr, ExprKind, Fault, InstrLine, Text, first_of_two};
use p8_words::NoMemory;

/// The size that a local label has.
const LONG: u8 = 4;

// The first fault of the names of an expression, where there is one.
fn unknown_in_option(scope: &Scope, expr: &Option<Expr>) -> Option<Fault>
    ensures { IsFirstOf result (UnknownInOption (environment_of scope.now) (option_map tree_of expr.now)) }
{
    match expr {
        None => None,
        Some(expr) => first_unknown(scope, expr),
    }
}

// Whether a datum is a string.
fn is_string(value: &Expr) -> bool
    ensures { (count : Option Tree) → count_of_datum (tree_of value.now) count ≡ (if result then None else count) }
{
    match &value.kind {
        ExprKind::Str(_) => true,
        ExprKind::Call(_) => false,
        ExprKind::Strings(_) => false,
        ExprKind::Number(_) | ExprKind::Here | ExprKind::Var(_) => false,
        ExprKind::Unary(_, _) | ExprKind::Binary(_, _, _) => false,
        ExprKind::Assign(_, _, _) | ExprKind::Change(_, _) | ExprKind::Address(_) => false,
        ExprKind::ObjectAddress(_) | ExprKind::ObjConst(_, _, _) => false,
        ExprKind::Built(_, _) | ExprKind::Look(_, _, _) => false,
    }
}

// The first fault of the names of a datum's count: that of a string isn't looked at.
fn unknown_in_count(scope: &Scope, item: &DatItem) -> Option<Fault>
    ensures { IsFirstOf result (UnknownInOption (environment_of scope.now) (count_of_datum (datum_of item.now).value (datum_of item.now).count)) }
{
    if is_string(&item.value) {
        None
    } else {
        unknown_in_option(scope, &item.count)
    }
}

// The first fault of the names of a datum.
fn unknown_in_datum(scope: &Scope, item: &DatItem) -> Option<Fault>
    ensures { IsFirstOf result (UnknownInDatum (environment_of scope.now) (datum_of item.now)) }
{
    let value = first_unknown(scope, &item.value);
    first_of_two(value, unknown_in_count(scope, item))
}

// The first fault of the names of a line's data.
fn unknown_in_data(scope: &Scope, items: &[DatItem]) -> Option<Fault>
    ensures { IsFirstOf result (UnknownInData (environment_of scope.now) (map datum_of items.now)) }
{
    let mut first = None;
    for item in items {
        first = first_of_two(first, unknown_in_datum(scope, item));
    }
    first
}

// The first fault of the names of an instruction's operands.
fn unknown_in_operands(scope: &Scope, line: &InstrLine) -> Option<Fault>
    ensures { IsFirstOf result (UnknownInContents (environment_of scope.now) (Instr (instruction_of line.now))) }
{
    let dest = unknown_in_option(scope, &line.dest);
    first_of_two(dest, unknown_in_option(scope, &line.source))
}

// The first fault of the names of what a line has after its label.
fn unknown_in_contents(scope: &Scope, body: &DatBody) -> Option<Fault>
    ensures { IsFirstOf result (UnknownInContents (environment_of scope.now) (contents_of body.now)) }
{
    match body {
        DatBody::Nothing => None,
        DatBody::Data(_, items) => unknown_in_data(scope, items.as_slice()),
        DatBody::Org(expr) => unknown_in_option(scope, expr),
        DatBody::Res(expr) => unknown_in_option(scope, expr),
        DatBody::Fit(expr) => unknown_in_option(scope, expr),
        DatBody::Instr(line) => unknown_in_operands(scope, line),
    }
}

// The first fault of the names of an item, if it is a line of `DAT`.
fn unknown_in_item(scope: &Scope, item: Item<'_>) -> Option<Fault>
    ensures { IsFirstOf result (HasUnknown (environment_of scope.now) (item_of item.entry)) }
{
    match item {
        Item::Line(line) => unknown_in_contents(scope, &line.body),
        _ => None,
    }
}

// Whether a label ends what local labels before it belong to.
fn is_end(label: Option<&Text>) -> bool
    ensures { result ≡ is_end (option_map (λ n. n.now) label.entry) }
{
    match label {
        None => false,
        Some(label) => !label.is_local(),
    }
}

// Enters a label, unless it is there.
fn enter_label(kinds: &mut Kinds, number: u32, label: Option<&Text>) -> Result<(), NoMemory>
    ensures { OnOk result (IsLabelEntered kinds.old kinds.new number (option_map (λ n. n.now) label.entry)) }
{
    match label {
        None => Ok(()),
        Some(label) => enter(kinds, number, label, NameKind::Label { size: LONG }),
    }
}

// Enters the local labels of items, up to the next other label.
fn enter_labels(kinds: &mut Kinds, number: u32, items: &[Item<'_>]) -> Result<(), NoMemory>
    requires { (n : List ℕ) → own kinds.old number n ≡ None }
    ensures { OnOk result (HasLabels kinds.old kinds.new number (labels_ahead (items_of items.now))) }
{
    for item in items {
        if is_end(item.label()) {
            return Ok(());
        }
        enter_label(kinds, number, item.label())?;
    }
    Ok(())
}

// Enters the local labels of what stands after a label at the next number.
fn begin_region(scope: &mut Scope, behind: &[Item<'_>]) -> Result<(), NoMemory>
    requires { (m : ℕ) (n : List ℕ) → scope.old.number < m → own scope.old.kinds m n ≡ None }
    ensures { OnOk result ((initial : declared_scope) (first : ℕ) (region : List (List ℕ)) → IsInRegion initial scope.old first region →
        IsInRegion initial scope.new first (labels_ahead (items_of behind.now))) }
{
    let number = one_more(scope.number)?;
    enter_labels(&mut scope.kinds, number, behind)?;
    scope.number = number;
    Ok(())
}

// Comes to a line: one with a label that isn't local sees the local labels after it.
fn come_to(scope: &mut Scope, label: Option<&Text>, behind: &[Item<'_>]) -> Result<(), NoMemory>
    requires { (m : ℕ) (n : List ℕ) → scope.old.number < m → own scope.old.kinds m n ≡ None }
    ensures { OnOk result ((initial : declared_scope) (first : ℕ) (region : List (List ℕ)) → IsInRegion initial scope.old first region →
        IsInRegion initial scope.new first (labels_at region (option_map (λ n. n.now) label.entry) (items_of behind.now))) }
{
    if is_end(label) {
        begin_region(scope, behind)
    } else {
        Ok(())
    }
}

// The items after one of them.
fn behind<'a, 'b>(items: &'a [Item<'b>], index: usize) -> &'a [Item<'b>]
    requires { index < length items.now }
    ensures { result.now ≡ drop (index + 1) items.now }
{
    items.split_at(index + 1).1
}

/// The first fault of the names in the lines of `DAT`: one without a definition, 15, or before `#` one that is no object, 16.
/// None exactly where there is none.
///
/// Local labels are entered at numbers from `number` on, a number for each label that isn't local; the kinds below `number`
/// stay what they are.
pub(crate) fn first_unknown_in_lines(
    scope: &mut Scope,
    number: u32,
    items: &[Item<'_>],
) -> Result<Option<Fault>, NoMemory>
    requires own { 0 < number }
    requires free { (m : ℕ) (n : List ℕ) → number ≤ m → own scope.old.kinds m n ≡ None }
    ensures fault { IfOk result (λ first. IsFirstOf first
        (UnknownInLines (environment_at scope.old.kinds scope.old.publics (setting_of scope.old.consts)) (labels_ahead (items_of items.now))
        (items_of items.now))) }
    ensures kinds { IfOk result (λ _. (m : ℕ) (n : List ℕ) → m < number → own scope.new.kinds m n ≡ own scope.old.kinds m n) }
    ensures consts { IfOk result (λ _. scope.new.consts ≡ scope.old.consts) }
    ensures publics { IfOk result (λ _. scope.new.publics ≡ scope.old.publics) }
{
    enter_labels(&mut scope.kinds, number, items)?;
    scope.number = number;
    let mut first = None;
    for (index, item) in items.iter().enumerate() {
        come_to(scope, item.label(), behind(items, index))?;
        first = first_of_two(first, unknown_in_item(scope, *item));
    }
    Ok(first)
}
