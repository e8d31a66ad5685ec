// What code is written by.
ghost use Rattle.std.specs.Prelude.{◌≡◌, ℕ, List, IfOk};
ghost use Rattle.p8_tree.specs.Views.{tree_of};
ghost use Rattle.p8_words.specs.Operators.{or_zero};
ghost use Rattle.p8_fold.specs.ConstantEntries.{setting_of};
ghost use Rattle.p8_fold.specs.Values.{value};
ghost use Rattle.p8_kinds.specs.Kinds.{own};
ghost use Rattle.p8_kinds.specs.FileSettings.{file_setting};
ghost use Rattle.p8_kinds.specs.Publics.{public_of};
ghost use Rattle.p8_gen.specs.Files.{first_offset};
ghost use Rattle.p8_gen.specs.Labels.{offset_in};
ghost use Rattle.p8_gen.specs.Scopes.{names_of};

use crate::labels::Labels;
use p8_fold::{Consts, value_of};
use p8_kinds::{Kinds, Label, NameKind, Named, consts_of, publics_of};
use p8_tree::{Expr, Place, Text};
use p8_words::NoMemory;
use std::alloc::Global;

/// What the code of all methods of a file needs of names, beside their kinds.
#[derive(Drop)]
pub struct Tables {
    /// The `PUB`s of each object's file, by the object's number among the items of `OBJ`.
    pub publics: Kinds,
    /// What names mean where a constant is needed.
    pub consts: Consts,
    /// Where the labels of the file's data stand.
    pub labels: Labels,
}

impl Tables {
    /// The tables of a file whose names have their kinds, with the labels of its data. Of two labels with one name the first
    /// counts. They don't depend on the method, so they serve all methods of the file.
    pub fn of(alloc: Global, named: &Named<'_>, labels: &[Label]) -> Result<Tables, NoMemory>
        ensures publics { IfOk result (λ tables. (item : ℕ) → (name : List ℕ) → own tables.publics item name ≡ public_of named.now.children.now item name) }
        ensures consts { IfOk result (λ tables. setting_of tables.consts ≡ file_setting named.now.kinds named.now.children.now) }
        ensures labels { IfOk result (λ tables. (name : List ℕ) → offset_in tables.labels name ≡ first_offset labels.now name) }
    {
        Ok(Tables {
            publics: publics_of(alloc, named.children)?,
            consts: consts_of(alloc, &named.kinds, named.children)?,
            labels: Labels::of(alloc, labels)?,
        })
    }
}

/// What is known of names where code is written, and the statement at hand.
#[derive(Clone, Copy)]
pub struct Coder<'a> {
    /// The kinds of the file's names.
    pub kinds: &'a Kinds,
    /// The number of the method, whose own names come before those of the whole file.
    pub number: u32,
    pub tables: &'a Tables,
    /// Which jumps of the method are wide, by their numbers; one past the end is.
    pub widths: &'a [bool],
    /// The place of the statement, by which a jump is told that goes too far.
    pub statement: Place,
}

impl Coder<'_> {
    /// What a name is here; `RESULT` is the first long of the frame.
    pub fn kind(&self, name: &Text) -> Option<NameKind>
        ensures { result ≡ (names_of self.now).kind name.now }
    {
        if name.as_slice() == b"RESULT".as_slice() {
            Some(NameKind::Local { offset: 0 })
        } else {
            self.kinds.find(self.number, name)
        }
    }

    /// The value of a constant expression, 0 where it has none.
    pub fn constant(&self, expr: &Expr) -> u32
        ensures { result ≡ or_zero (value (names_of self.now).constants (tree_of expr.now)) }
    {
        match value_of(expr, &self.tables.consts) {
            Ok(value) => value,
            Err(_) => 0,
        }
    }
}
