// A form that is under way.
ghost use Rattle.std.specs.Prelude.{◌≡◌, IfOk, OnOk, MatchOption, None, Some, min, IsTrue, ◌↔◌, List, ◌∷◌};
ghost use Rattle.p8_tree.specs.Expressions.{node};
ghost use Rattle.p8_tree.specs.Views.{form_of, variable_of};
ghost use Rattle.p8_grammar.specs.Heights.{height_in, height_in_variable};
ghost use Rattle.p8_grammar.specs.Machine as machine;
ghost use Rattle.p8_grammar.specs.Least.{shape_least};
ghost use Rattle.p8_tree.specs.Views.{trees_of};
ghost use Rattle.p8_tree.specs.Bridges.{boxed_index};
ghost use Rattle.p8_grammar.specs.Lexemes as lexemes;
ghost use Rattle.p8_grammar.specs.Grammar.{applied, calls};
ghost use Rattle.p8_expr.specs.declared.parts.Parts as parts;
ghost use Rattle.p8_expr.specs.declared.form.Stage.TheVariants as stage;
ghost use Rattle.p8_expr.specs.declared.form.Grown.TheVariants as grown;
ghost use Rattle.p8_expr.specs.Views.{shape_of, hole_at, takes_text, IsTall, IsHighIn, HasVariable, variable_in, Gives};

use crate::parts::{Parts, taken, used};
use crate::value::{Value, over};
use p8_tree::{Call, Expr, ExprKind, Item, Place, Target, Text};
use std::alloc::{AllocError, Global};
use std::mem;

/// How far a form has come, where a word comes next or it is whole.
#[derive(Drop)]
pub enum Stage {
    /// Nothing but what a variable is read for.
    Using,
    /// The colon of a local label.
    Coloned,
    /// `BYTE`, `WORD` or `LONG`.
    Sized,
    Named,
    /// A name that may be an object's, with an index.
    Element(Box<Expr>),
    /// A name and a dot.
    Dotted,
    /// A name, a dot and a size.
    Parted,
    /// Main memory at an address.
    Memory(Box<Expr>),
    Register,
    /// Another name with an index.
    Indexed(Box<Expr>),
    PartIndexed(Box<Expr>),
    MemoryIndexed(Box<Expr>, Box<Expr>),
    /// A register with its bits.
    Bits(Box<Item>),
    /// `\`
    Trapping,
    /// A name behind `\`.
    Trapped,
    /// That with an index.
    TrappedElement(Box<Expr>),
    /// An object with its dot.
    ObjectDot(Option<Box<Expr>>),
    /// A method of another object.
    Method(Text, Option<Box<Expr>>),
    /// A built-in.
    Built,
    /// An object's name and `#`.
    Hashed,
    StringWord,
    ConstantWord,
    LookWord,
    /// `STRING` with its parenthesis.
    StringOpened,
    /// A string where the first item of `STRING` comes.
    StringRead,
    /// Items of `STRING`, the last one a string of several characters.
    StringsRead(Vec<Expr>),
    /// So of a `LOOK` function.
    ChoicesRead(Box<Expr>, Vec<Item>),
    Done(Box<Expr>),
}

/// How far a form has come, where an expression comes next.
#[derive(Drop)]
pub enum Hole {
    Parenthesis,
    NameIndex,
    PartIndex,
    MemoryAddress,
    MemoryIndex(Box<Expr>),
    FirstBit,
    LastBit(Box<Expr>),
    TrappedIndex,
    /// Arguments of a method, of another object or of an element of it.
    Arguments(Option<Text>, Option<Box<Expr>>, Vec<Expr>),
    /// Arguments of a built-in.
    BuiltArguments(Vec<Expr>),
    /// The first item of `STRING`, which is no string alone.
    FirstItem,
    NextItem(Vec<Expr>),
    Constant,
    /// What a `LOOK` function looks for.
    LookFor,
    Choice(Box<Expr>, Vec<Item>),
    /// The last value of a range.
    ChoiceTo(Box<Expr>, Vec<Item>, Box<Expr>),
}

impl Hole {
    /// Whether a string of several characters may stand in place of the expression.
    pub fn takes_text(&self) -> bool
        ensures { (s : lexemes.Setting) (p : parts.Parts) (k : List machine.Frame) → result ≡ takes_text (machine.inside_frame s (hole_at self.now p) ∷ k) }
    {
        match self {
            Hole::NextItem(_) => true,
            Hole::Choice(_, _) => true,
            _ => false,
        }
    }
}

/// What has become of a form with a word.
#[derive(Drop)]
pub enum Grown {
    /// The word doesn't belong to it, and it's as before.
    Not,
    Stays,
    /// An expression comes next, and the highest one before it has this height.
    Opens(Hole, u8),
}

/// A form that is under way, with the height of the highest expression in it, or of the whole form's own, counted up to 65.
#[derive(Drop)]
pub struct Form {
    pub stage: Stage,
    pub parts: Parts,
    pub high: u8,
}

impl Form {
    /// Nothing is begun.
    pub fn new(alloc: Global) -> Form
        ensures { (shape_of result ≡ machine.fresh) × IsTall result }
    {
        Form {
            stage: Stage::Using,
            parts: Parts::new(alloc),
            high: 0,
        }
    }

    /// The least height of an operand that begins so.
    pub fn least(&self) -> u8
        ensures { IsTall self.now → result ≡ min 65 (shape_least (shape_of self.now)) }
    {
        match &self.stage {
            Stage::Done(_) => self.high,
            Stage::Sized => 2,
            Stage::ConstantWord => 2,
            Stage::LookWord => 2,
            _ => over(self.high),
        }
    }

    /// Whether nothing is begun, where a value may be read.
    pub fn is_fresh(&self) -> bool
        ensures { IsTrue result ↔ (shape_of self.now ≡ machine.fresh) }
    {
        match &self.stage {
            Stage::Using => self.parts.usage.is_reading(),
            _ => false,
        }
    }

    /// It is whole, with the height of the highest expression in it.
    pub fn finish(&mut self, alloc: Global, place: Place, kind: ExprKind) -> Result<(), AllocError>
        ensures shape { OnOk result (shape_of self.new ≡ machine.done (node place (form_of kind))) }
        ensures high { self.old.high ≡ min 65 (height_in (form_of kind)) → OnOk result (IsTall self.new) }
    {
        self.stage = Stage::Done(Box::new(alloc, Expr { place, kind })?);
        self.high = over(self.high);
        Ok(())
    }

    /// An expression comes next: nothing is left of it but what its words have told.
    pub fn opens(&mut self, hole: Hole) -> Grown
        requires { self.old.stage ≡ stage.Using }
        ensures grown { result ≡ grown.Opens hole self.old.high }
        ensures form { (self.new.parts ≡ self.old.parts) × (self.new.stage ≡ stage.Using) × (self.new.high ≡ 0) }
    {
        let high = self.high;
        self.high = 0;
        Grown::Opens(hole, high)
    }

    /// It has come so far.
    pub fn stays(&mut self, stage: Stage) -> Grown
        ensures { (result ≡ grown.Stays) × (self.new.stage ≡ stage) × (self.new.parts ≡ self.old.parts) × (self.new.high ≡ self.old.high) }
    {
        self.stage = stage;
        Grown::Stays
    }

    /// Whether it is a variable that may be written.
    pub fn is_target(&self) -> bool
        ensures { IsTrue result ↔ (HasVariable (machine.target (shape_of self.now))) }
    {
        let reads = self.parts.usage.is_reading();
        match &self.stage {
            Stage::Element(_) => true,
            Stage::Named => reads,
            Stage::Parted => reads,
            Stage::Memory(_) => reads,
            Stage::Indexed(_) => reads,
            Stage::PartIndexed(_) => reads,
            Stage::MemoryIndexed(_, _) => reads,
            Stage::Register => reads && self.parts.access.is_written(),
            Stage::Bits(_) => reads && self.parts.access.is_written(),
            _ => false,
        }
    }

    // Whether it is a name alone.
    fn is_alone(&self) -> bool
        ensures { result ≡ machine.is_plain (shape_of self.now) }
    {
        match &self.stage {
            Stage::Named => self.parts.plain && self.parts.usage.is_reading(),
            _ => false,
        }
    }

    /// The variable that it is, whatever it is read for.
    pub fn variable(&mut self, alloc: Global) -> Option<Target>
        ensures gives { MatchOption result ((variable_in (shape_of self.old) ≡ None) × (shape_of self.new ≡ shape_of self.old))
            (λ v. variable_in (shape_of self.old) ≡ Some (variable_of v)) }
        ensures high { IsTall self.old → MatchOption result (IsTall self.new) (λ v. self.new.high ≡ min 65 (height_in_variable (variable_of v))) }
    {
        let place = self.parts.place;
        let number = self.parts.number;
        let register = self.parts.register;
        match mem::replace(&mut self.stage, Stage::Using) {
            Stage::Named => Some(Target::Named(taken(alloc, &mut self.parts.name), None, place)),
            Stage::Element(index) => Some(Target::Named(
                taken(alloc, &mut self.parts.name),
                Some(index),
                place,
            )),
            Stage::Indexed(index) => Some(Target::Named(
                taken(alloc, &mut self.parts.name),
                Some(index),
                place,
            )),
            Stage::Parted => Some(Target::Part(
                taken(alloc, &mut self.parts.name),
                number,
                None,
                place,
            )),
            Stage::PartIndexed(index) => {
                Some(Target::Part(
                    taken(alloc, &mut self.parts.name),
                    number,
                    Some(index),
                    place,
                ))
            }
            Stage::Memory(address) => Some(Target::Memory(number, address, None, place)),
            Stage::MemoryIndexed(address, index) => {
                Some(Target::Memory(number, address, Some(index), place))
            }
            Stage::Register => Some(Target::Register(register, None, place)),
            Stage::Bits(bits) => Some(Target::Register(register, Some(bits), place)),
            other => {
                self.stage = other;
                None
            }
        }
    }

    /// The operand that it is, where it's whole.
    pub fn value(&mut self, alloc: Global) -> Result<Option<Value>, AllocError>
        ensures gives { IfOk result (Gives (shape_of self.old)) }
        ensures high { IsTall self.old → IfOk result IsHighIn }
    {
        let writes = self.is_target();
        let alone = self.is_alone();
        let usage = self.parts.usage;
        match self.variable(alloc) {
            Some(variable) => {
                let high = self.high;
                if writes {
                    return Ok(Some(Value::Variable {
                        variable,
                        high,
                        alone,
                    }));
                }
                let tree = used(alloc, usage, variable)?;
                let high = over(high);
                Ok(Some(Value::Tree { tree, high }))
            }
            None => self.tree(alloc),
        }
    }

    // The operand that it is, where it's whole and no variable.
    fn tree(&mut self, alloc: Global) -> Result<Option<Value>, AllocError>
        requires { variable_in (shape_of self.old) ≡ None }
        ensures gives { IfOk result (Gives (shape_of self.old)) }
        ensures high { IsTall self.old → IfOk result IsHighIn }
    {
        let place = self.parts.place;
        match mem::replace(&mut self.stage, Stage::Using) {
            Stage::Done(tree) => {
                let high = self.high;
                Ok(Some(Value::Tree { tree, high }))
            }
            Stage::Trapped => {
                self.parts.trap = true;
                let kind = self.call(alloc, None, None, Vec::new(alloc));
                Ok(Some(Value::form(alloc, place, kind, self.high)?))
            }
            Stage::Method(object, index) => {
                let kind = self.call(alloc, Some(object), index, Vec::new(alloc));
                Ok(Some(Value::form(alloc, place, kind, self.high)?))
            }
            Stage::Built => {
                let kind = ExprKind::Built(self.parts.number, Vec::new(alloc));
                Ok(Some(Value::form(alloc, place, kind, self.high)?))
            }
            other => {
                drop(other);
                Ok(None)
            }
        }
    }

    /// A call of its method, of another object and an element of it or of the same object.
    pub fn call(
        &mut self,
        alloc: Global,
        object: Option<Text>,
        index: Option<Box<Expr>>,
        args: Vec<Expr>,
    ) -> ExprKind
        ensures gives { node self.old.parts.place (form_of result) ≡
            applied (calls self.old.parts.trap object (boxed_index index) self.old.parts.name self.old.parts.at self.old.parts.place) (trees_of args.items) }
        ensures high { self.new.high ≡ self.old.high }
    {
        let method = taken(alloc, &mut self.parts.name);
        ExprKind::Call(Call {
            trap: self.parts.trap,
            object,
            index,
            method,
            method_place: self.parts.at,
            args,
        })
    }
}
