// The texts of a file, and their numbers.
ghost use Rattle.std.specs.Prelude.{◌≡◌, ◌+◌, [], map, OnOk, IfOk, if◌then◌else◌};
ghost use Rattle.std.specs.List.{flat_map};
ghost use Rattle.std.specs.Option.{option_or};
ghost use Rattle.p8_tree.specs.declared.places.Place.{Place as PlaceOf};
ghost use Rattle.p8_tree.specs.Views.{form_of, method_of, trees_of};
ghost use Rattle.p8_tree.specs.Faults.{is_same_place};
ghost use Rattle.p8_fold.specs.ConstantEntries.{setting_of};
ghost use Rattle.p8_fold.specs.Values.{text_of_items};
ghost use Rattle.p8_build.specs.Parts.{strings_in_method, text_in};
ghost use Rattle.p8_build.specs.Numbers.{text_of, at_place, number_by, AreNumbers, use_by};

use crate::statements::strings_of;
use crate::string_texts::StringText;
use p8_fold::{Consts, put_text};
use p8_gen::StringUse;
use p8_image::TextUse;
use p8_tree::{Expr, ExprKind, List, Method, Place, Text};
use p8_words::NoMemory;
use std::alloc::{AllocError, Global};
use std::collections::BTreeMap;

type Places = BTreeMap<(u32, u32), u32>;

/// The `STRING`s of some methods, in the order of the methods and of their places in the source.
pub(crate) fn strings_of_all<'a>(
    alloc: Global,
    methods: &[&'a Method],
) -> Result<List<StringText<'a>>, NoMemory>
    ensures { IfOk result (λ s. map text_of s ≡ flat_map strings_in_method (map (λ m. method_of m.now) methods.now)) }
{
    let mut all = Vec::new(alloc);
    for method in methods {
        let mut strings = strings_of(alloc, method)?;
        all.append(&mut strings)?;
    }
    Ok(List::from_vec(all))
}

/// The texts of `STRING`s, in their order, by the constants of their file.
pub(crate) fn texts_in(
    alloc: Global,
    consts: &Consts,
    strings: &[StringText<'_>],
) -> Result<List<Text>, AllocError>
    ensures { IfOk result (λ texts. texts ≡ map (λ x. text_in (setting_of consts.now) (text_of x).1) strings.now) }
{
    let mut texts = List::new(alloc);
    for string in strings {
        texts.push(text_in(alloc, consts, string.form)?)?;
    }
    Ok(texts)
}

/// The text of a `STRING`, without the 0 behind it. No other form has one.
fn text_in(alloc: Global, consts: &Consts, form: &ExprKind) -> Result<Text, AllocError>
    ensures { IfOk result (λ text. text ≡ text_in (setting_of consts.now) (form_of form.now)) }
{
    match form {
        ExprKind::Str(text) => Text::copy_of(alloc, text.as_slice()),
        ExprKind::Strings(items) => text_of_items(alloc, consts, items),
        ExprKind::Call(_) => Ok(no_text(alloc)),
        ExprKind::Number(_) | ExprKind::Here | ExprKind::Var(_) => Ok(no_text(alloc)),
        ExprKind::Unary(_, _) | ExprKind::Binary(_, _, _) => Ok(no_text(alloc)),
        ExprKind::Assign(_, _, _) | ExprKind::Change(_, _) => Ok(no_text(alloc)),
        ExprKind::Address(_) | ExprKind::ObjectAddress(_) => Ok(no_text(alloc)),
        ExprKind::ObjConst(_, _, _) => Ok(no_text(alloc)),
        ExprKind::Built(_, _) | ExprKind::Look(_, _, _) => Ok(no_text(alloc)),
    }
}

/// The text of a `STRING` with these items.
fn text_of_items(alloc: Global, consts: &Consts, items: &[Expr]) -> Result<Text, AllocError>
    ensures { IfOk result (λ text. text ≡ text_of_items (setting_of consts.now) (trees_of items.now)) }
{
    let mut text = Vec::new(alloc);
    put_text(items, consts, &mut text)?;
    Ok(Text::from_vec(text))
}

fn no_text(alloc: Global) -> Text
    ensures { result ≡ [] }
{
    Text::from_vec(Vec::new(alloc))
}

/// The numbers of texts by their places, counted from 0. Of two at one place the first counts.
#[derive(Drop)]
pub(crate) struct TextNumbers {
    pub(crate) places: Places,
    /// How many texts there are.
    pub(crate) count: u32,
}

impl TextNumbers {
    /// The numbers of these texts.
    pub(crate) fn of(alloc: Global, strings: &[StringText<'_>]) -> Result<TextNumbers, NoMemory>
        ensures { IfOk result (λ numbers. AreNumbers numbers (map text_of strings.now)) }
    {
        let mut places = BTreeMap::new(alloc);
        let mut count = 0;
        for string in strings {
            enter(&mut places, string.place, count)?;
            count = one_more(count)?;
        }
        Ok(TextNumbers { places, count })
    }

    /// The number of the text at a place, or how many texts there are where none stands there.
    fn number(&self, place: Place) -> u32
        ensures { result ≡ number_by self.now place }
    {
        match self.places.get(&(place.line, place.column)) {
            Some(number) => *number,
            None => self.count,
        }
    }

    /// The uses of texts, each with the text's number.
    pub(crate) fn uses(
        &self,
        alloc: Global,
        strings: &[StringUse],
    ) -> Result<List<TextUse>, AllocError>
        ensures { IfOk result (λ uses. uses ≡ map (use_by (number_by self.now)) strings.now) }
    {
        let mut uses = List::new(alloc);
        for string in strings {
            uses.push(TextUse {
                at: string.at,
                text: self.number(string.place),
            })?;
        }
        Ok(uses)
    }
}

/// The number that is one greater: there is no memory for more texts than a number tells.
fn one_more(number: u32) -> Result<u32, NoMemory>
    ensures { IfOk result (λ n. n ≡ number + 1) }
{
    number.checked_add(1).ok_or(NoMemory)
}

/// Enters a number at a place that has none yet.
fn enter(places: &mut Places, place: Place, number: u32) -> Result<(), AllocError>
    ensures { OnOk result ((p : PlaceOf) → at_place p places.new ≡ option_or (at_place p places.old) (if is_same_place place p then Some number else None)) }
{
    if places.get(&(place.line, place.column)).is_some() {
        return Ok(());
    }
    places.insert((place.line, place.column), number)?;
    Ok(())
}
