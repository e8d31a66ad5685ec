// What the words of a form have told.
ghost use Rattle.std.specs.Prelude.{◌≡◌, ◌&&◌, IfOk};
ghost use Rattle.p8_tree.specs.Views.{tree_of, variable_of};
ghost use Rattle.p8_grammar.specs.Grammar.{place_of};
ghost use Rattle.p8_grammar.specs.Machine.{used, takes, reading};
ghost use Rattle.p8_grammar.specs.Lexemes.{is_in};
ghost use Rattle.p8_grammar.specs.Views.{setting_of, access_of};
ghost use Rattle.p8_expr.specs.Views.{use_of, is_reading};

use p8_grammar::{Access, Setting};
use p8_tree::{Expr, ExprKind, Place, Target, Text};
use std::alloc::{AllocError, Global};
use std::mem;

/// What a variable is read for.
#[derive(Clone, Copy)]
pub enum Use {
    /// Its value.
    Reading,
    /// Its address, with the place of `@`.
    Addressing(Place),
    /// A change that stands before it, with its place and its effect byte.
    Changing(Place, u8),
}

impl Use {
    /// Whether it is the value.
    pub fn is_reading(self) -> bool
        ensures { result ≡ is_reading (use_of self) }
    {
        matches!(self, Use::Reading)
    }

    /// Whether a variable of this access may be read for this in a setting.
    pub fn takes_in(self, access: Access, setting: Setting) -> bool
        ensures { result ≡ (is_in (setting_of setting) (access_of access) && takes (use_of self) (access_of access)) }
    {
        access.is_in(setting) && self.takes(access)
    }

    // Whether a variable of this access may be read for this.
    fn takes(self, access: Access) -> bool
        ensures { result ≡ takes (use_of self) (access_of access) }
    {
        match self {
            Use::Reading => true,
            Use::Addressing(_) => matches!(access, Access::Memory),
            Use::Changing(_, _) => access.is_written(),
        }
    }
}

/// What the words of a form have told. Which of it counts, the form's stage says.
#[derive(Drop)]
pub struct Parts {
    pub usage: Use,
    /// Whether the name may be an object's or a method's.
    pub plain: bool,
    /// Whether `\` stands before a call.
    pub trap: bool,
    pub place: Place,
    /// A name, or a string's characters.
    pub name: Text,
    /// The place of a method's name, or of a string.
    pub at: Place,
    /// A size in bytes, or a bytecode.
    pub number: u8,
    /// A register's address, and what may be done with it.
    pub register: u16,
    pub access: Access,
}

impl Parts {
    /// Nothing is told.
    pub fn new(alloc: Global) -> Parts
        ensures { use_of result.usage ≡ reading }
    {
        let place = Place { line: 1, column: 1 };
        Parts {
            usage: Use::Reading,
            plain: false,
            trap: false,
            place,
            name: Text::from_vec(Vec::new(alloc)),
            at: place,
            number: 0,
            register: 0,
            access: Access::Memory,
        }
    }
}

/// A text that isn't needed where it is any more.
pub fn taken(alloc: Global, text: &mut Text) -> Text
    ensures { result ≡ text.old }
{
    mem::replace(text, Text::from_vec(Vec::new(alloc)))
}

// The place of a variable's first token.
fn place_of(target: &Target) -> Place
    ensures { result ≡ place_of (variable_of target.now) }
{
    match target {
        Target::Named(_, _, place) => *place,
        Target::Part(_, _, _, place) => *place,
        Target::Memory(_, _, _, place) => *place,
        Target::Register(_, _, place) => *place,
    }
}

/// A variable in its use.
pub fn used(alloc: Global, usage: Use, variable: Target) -> Result<Box<Expr>, AllocError>
    ensures { IfOk result (λ e. tree_of e.value ≡ used (use_of usage) (variable_of variable)) }
{
    let (place, kind) = match usage {
        Use::Reading => (place_of(&variable), ExprKind::Var(variable)),
        Use::Addressing(place) => (place, ExprKind::Address(variable)),
        Use::Changing(place, effect) => (place, ExprKind::Change(variable, effect)),
    };
    Ok(Box::new(alloc, Expr { place, kind })?)
}
