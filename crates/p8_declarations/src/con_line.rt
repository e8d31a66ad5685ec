// The lines of CON.
ghost use Rattle.std.specs.Prelude.{◌≡◌, ◌<◌, IfOk, IfSome, map, option_map, length, ◌∷◌, None};
ghost use Rattle.p8_tree.specs.Views.{tree_of, constant_of};
ghost use Rattle.p8_lexer.specs.Pieces.{pieces_of};
ghost use Rattle.p8_declarations.specs.Parts.{hash, equals, left_bracket, ended, with_first};
ghost use Rattle.p8_declarations.specs.Constants.{constant, constants, constants_named, constants_behind, constants_of_row};
ghost use Rattle.p8_declarations.specs.Views.{parts_in, with_constant};

use crate::declaration_pieces::{Behind, DeclarationPieces};
use crate::part::{Part, is_line_end};
use p8_lexer::{Piece, discarding};
use p8_tree::{ConItem, Expr, List, Place, Text};
use p8_words::NoMemory;
use std::alloc::Global;

/// The items of a line of `CON`, or of what stands after `CON` in its line: `name = e`, `#e`, `name` and `name[e]`, with
/// commas between them, up to the end of the line. The end of the line alone has no items.
///
/// None where the pieces are no such line. Want of memory may come at any point. Source: Propeller Manual v1.2, "CON".
pub fn constants(alloc: Global, pieces: Vec<Piece>) -> Result<Option<List<ConItem>>, NoMemory>
    ensures { IfOk result (λ items. option_map (λ xs. map constant_of xs) items ≡ constants_of_row (pieces_of pieces.items)) }
{
    if is_line_end(&pieces) {
        return Ok(Some(List::new(alloc)));
    }
    read(alloc, DeclarationPieces::new(pieces))
}

// One item and those after it.
fn read(alloc: Global, row: DeclarationPieces) -> Result<Option<List<ConItem>>, NoMemory>
    ensures { IfOk result (λ items. option_map (λ xs. map constant_of xs) items ≡ constants (parts_in row)) }
{
    let mut row = row;
    let mut items = List::new(alloc);
    'items: loop {
        match row.constant() {
            Some((item, behind)) => {
                items.push(item)?;
                if behind.is_end() {
                    return Ok(Some(items));
                }
            }
            None => return Ok(None),
        }
    }
}

// An item with this name and with a value or a step.
fn named(name: Text, place: Place, value: Option<Expr>, step: Option<Expr>) -> ConItem
    ensures { constant_of result ≡ constant name place (option_map tree_of value) (option_map tree_of step) }
{
    ConItem {
        place,
        name: Some(name),
        value,
        step,
        sets: false,
    }
}

impl DeclarationPieces {
    // Takes an item and what stands after it.
    fn constant(&mut self) -> Option<(ConItem, Behind)>
        ensures items { constants (parts_in self.old) ≡ with_constant result (constants (parts_in self.new)) }
        ensures shorter { IfSome result (λ x. length (parts_in self.new) < length (parts_in self.old)) }
    {
        match self.next()? {
            Part::Hash(place) => self.setting(place),
            Part::Name(name, place) => self.constant_named(name, place),
            other => discarding(other, None),
        }
    }

    // Takes what stands after `#`.
    #[tactic(auto, using(crate::proofs::Rows::no_value))]
    fn setting(&mut self, place: Place) -> Option<(ConItem, Behind)>
        ensures items { constants (hash place ∷ parts_in self.old) ≡ with_constant result (constants (parts_in self.new)) }
        ensures shorter { IfSome result (λ x. length (parts_in self.new) < length (parts_in self.old)) }
    {
        let value = self.value()?;
        self.before(ConItem {
            place,
            name: None,
            value: Some(value),
            step: None,
            sets: true,
        })
    }

    // Takes what stands after the name of an item.
    fn constant_named(&mut self, name: Text, place: Place) -> Option<(ConItem, Behind)>
        ensures items { constants_named name place (parts_in self.old) ≡ with_constant result (constants (parts_in self.new)) }
        ensures shorter { IfSome result (λ x. length (parts_in self.new) < length (parts_in self.old)) }
    {
        match self.next()? {
            Part::Equals => self.valued(name, place),
            Part::LeftBracket => self.stepped(name, place),
            Part::Comma => Some((named(name, place, None, None), Behind::Comma)),
            Part::LineEnd => self.last(named(name, place, None, None)),
            other => discarding(other, None),
        }
    }

    // Takes what stands after `=`.
    #[tactic(auto, using(crate::proofs::Rows::no_value_named))]
    fn valued(&mut self, name: Text, place: Place) -> Option<(ConItem, Behind)>
        ensures items { constants_named name place (equals ∷ parts_in self.old) ≡ with_constant result (constants (parts_in self.new)) }
        ensures shorter { IfSome result (λ x. length (parts_in self.new) < length (parts_in self.old)) }
    {
        let value = self.value()?;
        self.before(named(name, place, Some(value), None))
    }

    // Takes what stands after `[`.
    #[tactic(auto, using(crate::proofs::Rows::no_step))]
    fn stepped(&mut self, name: Text, place: Place) -> Option<(ConItem, Behind)>
        ensures items { constants_named name place (left_bracket ∷ parts_in self.old) ≡ with_constant result (constants (parts_in self.new)) }
        ensures shorter { IfSome result (λ x. length (parts_in self.new) < length (parts_in self.old)) }
    {
        let step = self.count()?;
        self.before(named(name, place, None, Some(step)))
    }

    // Takes what stands after an item.
    fn before(&mut self, item: ConItem) -> Option<(ConItem, Behind)>
        ensures items { with_first (constant_of item) (constants_behind (parts_in self.old)) ≡ with_constant result (constants (parts_in self.new)) }
        ensures shorter { IfSome result (λ x. length (parts_in self.new) < length (parts_in self.old)) }
    {
        match self.behind() {
            Some(behind) => Some((item, behind)),
            None => discarding(item, None),
        }
    }

    // The last item, where nothing stands after the end of the line.
    fn last(&self, item: ConItem) -> Option<(ConItem, Behind)>
        ensures { with_first (constant_of item) (ended (parts_in self.now)) ≡ with_constant result (constants (parts_in self.now)) }
    {
        match self.end() {
            Some(behind) => Some((item, behind)),
            None => discarding(item, None),
        }
    }
}
