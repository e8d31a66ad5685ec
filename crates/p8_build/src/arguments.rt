// How many arguments a call is given, and how many are expected.
ghost use Rattle.std.specs.Prelude.{◌≡◌, Some, length, option_map};
ghost use Rattle.std.specs.Borrow.{Bor};
ghost use Rattle.std.specs.Map.{lookup};
ghost use Rattle.std.specs.Str.{bytes_eq};
ghost use Rattle.p8_tree.specs.Faults.{is_same_place};
ghost use Rattle.p8_tree.specs.Views.{call_of, form_of, variable_of};
ghost use Rattle.p8_constants.specs.Standing.{item_of, items_of as item_trees};
ghost use Rattle.p8_kinds.specs.declared.children.Child.{Child as ChildSeen};
ghost use Rattle.p8_kinds.specs.Uses.{argument_count};
ghost use Rattle.p8_names.specs.Settings.{with_children};
ghost use Rattle.p8_build.specs.Arguments.{differing, of_variable, own_told, params_among, params_in, params_of, params_seen, told_at, wanted_by};
ghost use Rattle.p8_build.specs.Searching.{search_of};

use crate::sizes::Size;
use p8_constants::Item;
use p8_kinds::{Child, ChildMethod, argument_count};
use p8_tree::{Call, Expr, ExprKind, Place, Target, Text};

/// Where a call is looked for, and what is known of the names there.
#[derive(Clone, Copy)]
pub(crate) struct Sought<'a> {
    /// The items of the file.
    pub(crate) items: &'a [Item<'a>],
    /// What it sees of the file of each item of `OBJ`, in their order.
    pub(crate) children: &'a [Child],
    /// The place of the call.
    pub(crate) place: Place,
}

// How many parameters an item has, if it is a method of a name.
fn params_in(item: Item<'_>, name: &Text) -> Option<usize>
    ensures { result ≡ params_in (item_of item.entry) name.now }
{
    match item {
        Item::Method(method) => {
            if name.as_slice() == method.name.as_slice() {
                Some(method.params.len())
            } else {
                None
            }
        }
        _ => None,
    }
}

// How many parameters the first method of a name has.
fn params_of(items: &[Item<'_>], name: &Text) -> Option<usize>
    ensures { result ≡ params_of (item_trees items.now) name.now }
{
    for item in items {
        if let Some(count) = params_in(*item, name) {
            return Some(count);
        }
    }
    None
}

// What is seen of the file of the object of a name.
fn child_of<'a>(items: &[Item<'_>], children: &'a [Child], name: &Text) -> Option<&'a Child>
    ensures { option_map (λ (child : Bor ChildSeen). child.now) result ≡ lookup (bytes_eq name.now) (with_children (item_trees items.now) children.now) }
{
    let mut left = children;
    for item in items {
        match *item {
            Item::Object(object) => {
                let [child, rest @ ..] = left else {
                    return None;
                };
                if name.as_slice() == object.name.as_slice() {
                    return Some(child);
                }
                left = rest;
            }
            Item::Constant(_) | Item::Variable(_) | Item::Method(_) | Item::Line(_) => {}
        }
    }
    None
}

// How many parameters the first of an object's methods of a name has.
fn params_among(methods: &[ChildMethod], name: &Text) -> Option<usize>
    ensures { result ≡ params_among methods.now name.now }
{
    for method in methods {
        if name.as_slice() == method.name.as_slice() {
            return Some(usize::from(method.params));
        }
    }
    None
}

fn params_seen(child: Option<&Child>, name: &Text) -> Option<usize>
    ensures { result ≡ params_seen (option_map (λ (child : Bor ChildSeen). child.now) child.entry) name.now }
{
    match child {
        None => None,
        Some(child) => params_among(child.methods.as_slice(), name),
    }
}

// What is told of so many arguments, where another number is expected.
fn differing(wanted: Option<usize>, given: usize) -> Option<Size>
    ensures { result ≡ differing wanted given }
{
    match wanted {
        None => None,
        Some(wanted) => {
            if wanted == given {
                None
            } else {
                Some(Size::Arguments { wanted, given })
            }
        }
    }
}

// What is told of a place, if it is the one that is looked for.
fn told_at(sought: &Sought<'_>, place: Place, told: Option<Size>) -> Option<Size>
    ensures { result ≡ told_at (search_of sought.now) place told }
{
    if is_same_place(sought.place, place) {
        told
    } else {
        None
    }
}

fn is_same_place(place: Place, other: Place) -> bool
    ensures { result ≡ is_same_place place other }
{
    place.line == other.line && place.column == other.column
}

// A name alone is called without arguments, if it is a method's.
fn of_variable(sought: &Sought<'_>, variable: &Target) -> Option<Size>
    ensures { result ≡ of_variable (search_of sought.now) (variable_of variable.now) }
{
    match variable {
        Target::Named(name, None, place) => {
            told_at(sought, *place, differing(params_of(sought.items, name), 0))
        }
        _ => None,
    }
}

// How many arguments a method has, of the same file or of an object's.
fn wanted_by(sought: &Sought<'_>, object: &Option<Text>, method: &Text) -> Option<usize>
    ensures { result ≡ wanted_by (search_of sought.now) object.now method.now }
{
    match object {
        None => params_of(sought.items, method),
        Some(object) => params_seen(child_of(sought.items, sought.children, object), method),
    }
}

fn of_call(sought: &Sought<'_>, call: &Call, place: Place) -> Option<Size>
    ensures { result ≡ own_told (search_of sought.now) place (call_of call.now) }
{
    let wanted = wanted_by(sought, &call.object, &call.method);
    let given = call.args.as_slice().len();
    told_at(sought, call.method_place, differing(wanted, given))
}

fn of_built(sought: &Sought<'_>, code: u8, arguments: &[Expr], place: Place) -> Option<Size>
    ensures { result ≡ told_at (search_of sought.now) place (differing (Some (argument_count code)) (length arguments.now)) }
{
    let wanted = Some(argument_count(code));
    told_at(sought, place, differing(wanted, arguments.len()))
}

/// What is told of an expression by itself, if it is a call at the place that is looked for, with another number of arguments than is
/// expected.
pub(crate) fn own_told(sought: &Sought<'_>, expr: &Expr) -> Option<Size>
    ensures { result ≡ own_told (search_of sought.now) expr.now.place (form_of expr.now.kind) }
{
    match &expr.kind {
        ExprKind::Var(variable) => of_variable(sought, variable),
        ExprKind::Call(call) => of_call(sought, call, expr.place),
        ExprKind::Built(code, arguments) => of_built(sought, *code, arguments, expr.place),
        _ => None,
    }
}
