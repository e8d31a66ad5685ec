// The lines of VAR, and the locals of methods.
ghost use Rattle.std.specs.Prelude.{◌≡◌, ◌<◌, IfOk, IfSome, map, option_map, length, ◌∷◌, None, Option, List};
ghost use Rattle.p8_tree.specs.Sources.{Declared};
ghost use Rattle.p8_tree.specs.Views.{tree_of, declared_of};
ghost use Rattle.p8_lexer.specs.Pieces.{pieces_of};
ghost use Rattle.p8_declarations.specs.Parts.{left_bracket, ended, with_first};
ghost use Rattle.p8_declarations.specs.Variables.{variable, variables, variables_named, variables_behind, sized_variables, variables_of_row};
ghost use Rattle.p8_declarations.specs.Views.{parts_in, with_variable};

use crate::declaration_pieces::{Behind, DeclarationPieces};
use crate::part::{Part, is_line_end};
use p8_lexer::{Piece, discarding};
use p8_tree::{Expr, List, Place, Text, VarItem};
use p8_words::NoMemory;
use std::alloc::Global;

/// The variables of a line of `VAR`, or of what stands after `VAR` in its line: `BYTE`, `WORD` or `LONG` and names with
/// counts in brackets or without, with commas between them, up to the end of the line. The end of the line alone has
/// none. Sizes are 1, 2 and 4 bytes.
///
/// None where the pieces are no such line. Want of memory may come at any point. Source: Propeller Manual v1.2, "VAR".
#[tactic(auto, using(crate::proofs::Rows::no_size))]
pub fn variables(alloc: Global, pieces: Vec<Piece>) -> Result<Option<List<VarItem>>, NoMemory>
    ensures { IfOk result (λ items. option_map (λ xs. map declared_of xs) items ≡ variables_of_row (pieces_of pieces.items)) }
{
    if is_line_end(&pieces) {
        return Ok(Some(List::new(alloc)));
    }
    let mut row = DeclarationPieces::new(pieces);
    match row.size() {
        Some(size) => variables_of_size(alloc, row, size),
        None => Ok(None),
    }
}

/// One variable of this size and those after it, up to the end of the line.
pub fn variables_of_size(
    alloc: Global,
    row: DeclarationPieces,
    size: u8,
) -> Result<Option<List<VarItem>>, NoMemory>
    ensures { IfOk result (λ items. option_map (λ xs. map declared_of xs) items ≡ variables size (parts_in row)) }
{
    let mut row = row;
    let mut items = List::new(alloc);
    'items: loop {
        match row.variable(size) {
            Some((item, behind)) => {
                items.push(item)?;
                if behind.is_end() {
                    return Ok(Some(items));
                }
            }
            None => return Ok(None),
        }
    }
}

// A variable of this size and name, with a count or without.
fn named(size: u8, name: Text, place: Place, count: Option<Expr>) -> VarItem
    ensures { declared_of result ≡ variable size name place (option_map tree_of count) }
{
    VarItem {
        place,
        size,
        name,
        count,
    }
}

impl DeclarationPieces {
    // Takes a variable and what stands after it.
    fn variable(&mut self, size: u8) -> Option<(VarItem, Behind)>
        ensures items { variables size (parts_in self.old) ≡ with_variable result (variables size (parts_in self.new)) }
        ensures shorter { IfSome result (λ x. length (parts_in self.new) < length (parts_in self.old)) }
    {
        match self.next()? {
            Part::Name(name, place) => self.variable_named(size, name, place),
            other => discarding(other, None),
        }
    }

    // Takes what stands after the name of a variable.
    fn variable_named(&mut self, size: u8, name: Text, place: Place) -> Option<(VarItem, Behind)>
        ensures items { variables_named size name place (parts_in self.old) ≡ with_variable result (variables size (parts_in self.new)) }
        ensures shorter { IfSome result (λ x. length (parts_in self.new) < length (parts_in self.old)) }
    {
        match self.next()? {
            Part::LeftBracket => self.variable_counted(size, name, place),
            Part::Comma => Some((named(size, name, place, None), Behind::Comma)),
            Part::LineEnd => self.last_variable(named(size, name, place, None)),
            other => discarding(other, None),
        }
    }

    // Takes what stands after the bracket of a variable.
    #[tactic(auto, using(crate::proofs::Rows::no_count))]
    fn variable_counted(&mut self, size: u8, name: Text, place: Place) -> Option<(VarItem, Behind)>
        ensures items { variables_named size name place (left_bracket ∷ parts_in self.old) ≡ with_variable result (variables size (parts_in self.new)) }
        ensures shorter { IfSome result (λ x. length (parts_in self.new) < length (parts_in self.old)) }
    {
        let count = self.count()?;
        self.before_variables(size, named(size, name, place, Some(count)))
    }

    // Takes what stands after a variable.
    fn before_variables(&mut self, size: u8, item: VarItem) -> Option<(VarItem, Behind)>
        ensures items { with_first (declared_of item) (variables_behind size (parts_in self.old)) ≡ with_variable result (variables size (parts_in self.new)) }
        ensures shorter { IfSome result (λ x. length (parts_in self.new) < length (parts_in self.old)) }
    {
        match self.behind() {
            Some(behind) => Some((item, behind)),
            None => discarding(item, None),
        }
    }

    // The last variable, where nothing stands after the end of the line.
    fn last_variable(&self, item: VarItem) -> Option<(VarItem, Behind)>
        ensures { (rest : Option (List Declared)) → with_first (declared_of item) (ended (parts_in self.now)) ≡ with_variable result rest }
    {
        match self.end() {
            Some(behind) => Some((item, behind)),
            None => discarding(item, None),
        }
    }
}
