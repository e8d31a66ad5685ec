// What a form is with the expression that it waits for and the mark behind that.
ghost use Rattle.std.specs.Prelude.{◌≡◌, ◌<◌, ℕ, min, max, List, length, IfOk, IsTrue};
ghost use Rattle.p8_tree.specs.Expressions.{◌▷◌, ◌▸◌, single, range};
ghost use Rattle.p8_tree.specs.Views.{tree_of, trees_of, item_of, items_of};
ghost use Rattle.p8_grammar.specs.Lexemes.{right_parenthesis, right_bracket, comma, colon, dot_dot};
ghost use Rattle.p8_grammar.specs.Lexemes.{string};
ghost use Rattle.p8_grammar.specs.Machine.{close, on_item, stays};
ghost use Rattle.p8_grammar.specs.Least.{high_in_hole};
ghost use Rattle.p8_grammar.specs.Views.{lexeme_of};
ghost use Rattle.p8_expr.specs.declared.parts.Parts as parts;
ghost use Rattle.p8_expr.specs.declared.form.Stage.TheVariants as stage;
ghost use Rattle.p8_expr.specs.Views.{shape_at, hole_at, closed_by, inner_height, takes_texts, Grows, IsTallWhere, IsFilled};
ghost use Rattle.p8_expr.specs.Lookaheads.{Fits, next_place, next_lexeme};

use crate::form::{Form, Grown, Hole, Stage};
use crate::growing::Growth;
use crate::lookahead::Lookahead;
use crate::value::{quoted, with_characters};
use p8_grammar::{Lexeme, Punctuation};
use p8_tree::{Expr, ExprKind, Item};
use std::alloc::{AllocError, Global};

// A value as an item.
fn alone(value: Box<Expr>) -> Item
    ensures { item_of result ≡ single (tree_of value.value) }
{
    Item {
        low: Box::into_inner(value),
        high: None,
    }
}

// A range as an item.
fn ranged(low: Box<Expr>, high: Box<Expr>) -> Item
    ensures { item_of result ≡ range (tree_of low.value) (tree_of high.value) }
{
    Item {
        low: Box::into_inner(low),
        high: Some(Box::into_inner(high)),
    }
}

/// Items and one more.
pub fn extended(items: Vec<Item>, more: Item) -> Result<Vec<Item>, AllocError>
    ensures { IfOk result (λ xs. items_of xs.items ≡ items_of items.items ▸ item_of more) }
{
    let mut items = items;
    items.push(more)?;
    Ok(items)
}

// Expressions and one more.
fn listed(items: Vec<Expr>, more: Box<Expr>) -> Result<Vec<Expr>, AllocError>
    ensures { IfOk result (λ es. trees_of es.items ≡ trees_of items.items ▷ tree_of more.value) }
{
    let mut items = items;
    items.push(Box::into_inner(more))?;
    Ok(items)
}

impl Form {
    /// With its expression, where the next word ends that: its height is the highest expression's.
    pub fn close(&mut self, alloc: Global, lexeme: Lexeme, hole: Hole, tree: Box<Expr>) -> Growth
        requires { self.old.stage ≡ stage.Using }
        ensures comes { (n t : List ℕ) → IfOk result (λ g. Grows (closed_by (lexeme_of n t lexeme) (hole_at hole self.old.parts) (tree_of tree.value)) self.old g self.new) }
        ensures tall { IsFilled self.old hole (tree_of tree.value) → IfOk result (λ g. IsTallWhere g self.new) }
    {
        match lexeme {
            Lexeme::Mark(Punctuation::RightParenthesis) => self.at_parenthesis(alloc, hole, tree),
            Lexeme::Mark(Punctuation::RightBracket) => self.at_bracket(alloc, hole, tree),
            Lexeme::Mark(Punctuation::Comma) => self.at_comma(alloc, hole, tree),
            Lexeme::Mark(Punctuation::Colon) => Ok(self.at_colon(alloc, hole, tree)),
            Lexeme::Mark(Punctuation::DotDot) => Ok(self.at_dots(hole, tree)),
            _ => {
                drop(hole);
                drop(tree);
                Ok(Grown::Not)
            }
        }
    }

    fn at_parenthesis(&mut self, alloc: Global, hole: Hole, tree: Box<Expr>) -> Growth
        ensures comes { IfOk result (λ g. Grows (close right_parenthesis (hole_at hole self.old.parts) (tree_of tree.value)) self.old g self.new) }
        ensures tall { IsFilled self.old hole (tree_of tree.value) → IfOk result (λ g. IsTallWhere g self.new) }
    {
        let place = self.parts.place;
        let code = self.parts.number;
        match hole {
            Hole::Parenthesis => {
                self.stage = Stage::Done(tree);
                Ok(Grown::Stays)
            }
            Hole::Arguments(object, index, arguments) => {
                let arguments = listed(arguments, tree)?;
                let kind = self.call(alloc, object, index, arguments);
                self.finish(alloc, place, kind)?;
                Ok(Grown::Stays)
            }
            Hole::BuiltArguments(arguments) => {
                let arguments = listed(arguments, tree)?;
                self.finish(alloc, place, ExprKind::Built(code, arguments))?;
                Ok(Grown::Stays)
            }
            Hole::FirstItem => {
                let items = listed(Vec::new(alloc), tree)?;
                self.finish(alloc, place, ExprKind::Strings(items))?;
                Ok(Grown::Stays)
            }
            Hole::NextItem(items) => {
                let items = listed(items, tree)?;
                self.finish(alloc, place, ExprKind::Strings(items))?;
                Ok(Grown::Stays)
            }
            Hole::Constant => {
                let items = listed(Vec::new(alloc), tree)?;
                self.finish(alloc, place, ExprKind::Built(0, items))?;
                Ok(Grown::Stays)
            }
            Hole::Choice(value, items) => {
                let items = extended(items, alone(tree))?;
                self.finish(alloc, place, ExprKind::Look(code, value, items))?;
                Ok(Grown::Stays)
            }
            Hole::ChoiceTo(value, items, low) => {
                let items = extended(items, ranged(low, tree))?;
                self.finish(alloc, place, ExprKind::Look(code, value, items))?;
                Ok(Grown::Stays)
            }
            other => {
                drop(other);
                drop(tree);
                Ok(Grown::Not)
            }
        }
    }

    fn at_bracket(&mut self, alloc: Global, hole: Hole, tree: Box<Expr>) -> Growth
        ensures comes { IfOk result (λ g. Grows (close right_bracket (hole_at hole self.old.parts) (tree_of tree.value)) self.old g self.new) }
        ensures tall { IsFilled self.old hole (tree_of tree.value) → IfOk result (λ g. IsTallWhere g self.new) }
    {
        match hole {
            Hole::NameIndex => {
                if self.parts.plain && self.parts.usage.is_reading() {
                    Ok(self.stays(Stage::Element(tree)))
                } else {
                    Ok(self.stays(Stage::Indexed(tree)))
                }
            }
            Hole::PartIndex => Ok(self.stays(Stage::PartIndexed(tree))),
            Hole::MemoryAddress => Ok(self.stays(Stage::Memory(tree))),
            Hole::MemoryIndex(address) => Ok(self.stays(Stage::MemoryIndexed(address, tree))),
            Hole::FirstBit => {
                let bits = Box::new(alloc, alone(tree))?;
                Ok(self.stays(Stage::Bits(bits)))
            }
            Hole::LastBit(low) => {
                let bits = Box::new(alloc, ranged(low, tree))?;
                Ok(self.stays(Stage::Bits(bits)))
            }
            Hole::TrappedIndex => Ok(self.stays(Stage::TrappedElement(tree))),
            other => {
                drop(other);
                drop(tree);
                Ok(Grown::Not)
            }
        }
    }

    fn at_comma(&mut self, alloc: Global, hole: Hole, tree: Box<Expr>) -> Growth
        requires { self.old.stage ≡ stage.Using }
        ensures comes { IfOk result (λ g. Grows (close comma (hole_at hole self.old.parts) (tree_of tree.value)) self.old g self.new) }
        ensures tall { IsFilled self.old hole (tree_of tree.value) → IfOk result (λ g. IsTallWhere g self.new) }
    {
        match hole {
            Hole::Arguments(object, index, arguments) => {
                let arguments = listed(arguments, tree)?;
                Ok(self.opens(Hole::Arguments(object, index, arguments)))
            }
            Hole::BuiltArguments(arguments) => {
                let arguments = listed(arguments, tree)?;
                Ok(self.opens(Hole::BuiltArguments(arguments)))
            }
            Hole::FirstItem => {
                let items = listed(Vec::new(alloc), tree)?;
                Ok(self.opens(Hole::NextItem(items)))
            }
            Hole::NextItem(items) => {
                let items = listed(items, tree)?;
                Ok(self.opens(Hole::NextItem(items)))
            }
            Hole::Choice(value, items) => {
                let items = extended(items, alone(tree))?;
                Ok(self.opens(Hole::Choice(value, items)))
            }
            Hole::ChoiceTo(value, items, low) => {
                let items = extended(items, ranged(low, tree))?;
                Ok(self.opens(Hole::Choice(value, items)))
            }
            other => {
                drop(other);
                drop(tree);
                Ok(Grown::Not)
            }
        }
    }

    fn at_colon(&mut self, alloc: Global, hole: Hole, tree: Box<Expr>) -> Grown
        requires { self.old.stage ≡ stage.Using }
        ensures comes { Grows (close colon (hole_at hole self.old.parts) (tree_of tree.value)) self.old result self.new }
        ensures tall { IsFilled self.old hole (tree_of tree.value) → IsTallWhere result self.new }
    {
        match hole {
            Hole::LookFor => self.opens(Hole::Choice(tree, Vec::new(alloc))),
            other => {
                drop(other);
                drop(tree);
                Grown::Not
            }
        }
    }

    fn at_dots(&mut self, hole: Hole, tree: Box<Expr>) -> Grown
        requires { self.old.stage ≡ stage.Using }
        ensures comes { Grows (close dot_dot (hole_at hole self.old.parts) (tree_of tree.value)) self.old result self.new }
        ensures tall { IsFilled self.old hole (tree_of tree.value) → IsTallWhere result self.new }
    {
        match hole {
            Hole::FirstBit => self.opens(Hole::LastBit(tree)),
            Hole::Choice(value, items) => self.opens(Hole::ChoiceTo(value, items, tree)),
            other => {
                drop(other);
                drop(tree);
                Grown::Not
            }
        }
    }
}

impl Hole {
    /// With a string of several characters, which is next, in place of its expression.
    pub fn with_text(self, alloc: Global, ahead: &Lookahead) -> Result<Stage, AllocError>
        requires fits { Fits ahead.now }
        requires takes { IsTrue (takes_texts self) }
        ensures stage { (t : List ℕ) (p : parts.Parts) → next_lexeme ahead.now ≡ string t → 1 < length t →
            IfOk result (λ st. on_item (next_place ahead.now) t (hole_at self p) ≡ Some (stays (shape_at st p))) }
        ensures tall { (t : List ℕ) (p : parts.Parts) (high : ℕ) → next_lexeme ahead.now ≡ string t → 1 < length t → high ≡ min 65 (max (high_in_hole (hole_at self p)) 1) →
            IfOk result (λ st. high ≡ min 65 (inner_height st)) }
    {
        let place = ahead.place();
        let text = ahead.here.quoted(alloc)?;
        match self {
            Hole::NextItem(items) => {
                let mut items = items;
                items.push(quoted(place, text))?;
                Ok(Stage::StringsRead(items))
            }
            Hole::Choice(value, items) => {
                let items = with_characters(place, text.as_slice(), items)?;
                Ok(Stage::ChoicesRead(value, items))
            }
            _ => unreachable!(),
        }
    }
}
