// The items of all blocks of CON in one row.
ghost use Rattle.std.specs.Prelude.{◌≡◌, ◌<◌, ◌+◌, ◌*◌, ◌^◌, true, length, List, [], ◌∷◌, ◌++◌, OnOk, IfOk, map, option_map};
ghost use Rattle.p8_tree.specs.Views.{block_of, constant_of, source_of, tree_of};
ghost use Rattle.p8_constants.specs.Rows.{rows_from, rows_of, rows_in, row_at, expression_at, node_of, move_of, set_by, moved_by};

use p8_tree::{Block, ConItem, Expr, SourceFile};
use p8_words::NoMemory;
use std::alloc::{AllocError, Global};
use std::marker::Model;

/// How an item moves the counter of its block.
#[derive(Clone, Copy, PartialEq, Eq)]
pub(crate) enum Move {
    /// It sets it to its value.
    Sets,
    /// It leaves it.
    Stays,
    /// It moves it by 1.
    Counts,
    /// It moves it by its step.
    Steps,
}

// How an item moves the counter.
pub(crate) fn move_of(item: &ConItem) -> Move
    ensures { result ≡ move_of (constant_of item.now) }
{
    if item.sets {
        set_by(&item.value)
    } else {
        moved_by(&item.value, &item.step)
    }
}

fn set_by(value: &Option<Expr>) -> Move
    ensures { result ≡ set_by (option_map tree_of value.now) }
{
    match value {
        None => Move::Stays,
        Some(_) => Move::Sets,
    }
}

fn moved_by(value: &Option<Expr>, step: &Option<Expr>) -> Move
    ensures { result ≡ moved_by (option_map tree_of value.now) (option_map tree_of step.now) }
{
    match value {
        Some(_) => Move::Stays,
        None => match step {
            None => Move::Counts,
            Some(_) => Move::Steps,
        },
    }
}

/// An item, and whether it is the first of its block.
#[derive(Clone, Copy)]
struct Entry<'a> {
    item: &'a ConItem,
    first: bool,
}

/// The items of all blocks, in order. Contracts see them as rows.
#[derive(Drop)]
pub(crate) struct Rows<'a> {
    entries: Vec<Entry<'a>>,
}

impl<'a> Model for Rows<'a> {
    ghost use Rattle.std.specs.Prelude.{List, Bool, map};
    ghost use Rattle.std.specs.Coded.{codes};
    ghost use Rattle.p8_tree.specs.declared.sources.ConItem as item;
    ghost use Rattle.p8_tree.specs.contracts.expressions.Expr as expression;

    ghost Value = { List (item.ConItem × Bool) };

    ghost coded = { Prim.hlevel (codes, expression.the_row.coded) };

    ghost view = { λ rows. map (λ e. (e.item.now, e.first)) rows.entries.items };
}

impl<'a> Rows<'a> {
    /// The items of a file.
    pub(crate) fn of_file(alloc: Global, file: &'a SourceFile) -> Result<Rows<'a>, NoMemory>
        ensures { IfOk result (λ rows. rows_from rows ≡ rows_of (source_of file.now)) }
    {
        let mut rows = Rows {
            entries: Vec::new(alloc),
        };
        for block in file.blocks.as_slice() {
            rows.add_block(block)?;
        }
        Ok(rows)
    }

    // Adds the items of a block, if it is one of CON.
    fn add_block(&mut self, block: &'a Block) -> Result<(), AllocError>
        ensures { OnOk result (rows_from self.new ≡ rows_from self.old ++ rows_of (block_of block.now ∷ [])) }
    {
        match block {
            Block::Con(items) => self.add_items(items.as_slice()),
            _ => Ok(()),
        }
    }

    fn add_items(&mut self, items: &'a [ConItem]) -> Result<(), AllocError>
        ensures { OnOk result (rows_from self.new ≡ rows_from self.old ++ rows_in true (map constant_of items.now)) }
    {
        for (index, item) in items.iter().enumerate() {
            self.push(item, index == 0)?;
        }
        Ok(())
    }

    fn push(&mut self, item: &'a ConItem, first: bool) -> Result<(), AllocError>
        ensures { OnOk result (self.new ≡ self.old ++ (item.now, first) ∷ []) }
    {
        self.entries.push(Entry { item, first })?;
        Ok(())
    }

    /// The number of items.
    pub(crate) fn len(&self) -> usize
        ensures { result ≡ length self.now }
    {
        self.entries.len()
    }

    /// An item.
    pub(crate) fn item(&self, k: usize) -> &'a ConItem
        requires { k < length self.now }
        ensures { constant_of result.now ≡ (row_at (rows_from self.now) k).item }
    {
        self.entries[k].item
    }

    /// Whether an item is the first of its block.
    pub(crate) fn is_first(&self, k: usize) -> bool
        requires { k < length self.now }
        ensures { result ≡ (row_at (rows_from self.now) k).first }
    {
        self.entries[k].first
    }

    /// The node that gives the value of an item: its own expression, or else the counter as it comes to it.
    pub(crate) fn node(&self, k: usize) -> usize
        requires within { k < length self.now }
        requires room { 2 * length self.now + length self.now < 2 ^ 64 }
        ensures { result ≡ node_of (rows_from self.now) k }
    {
        match self.item(k).value {
            Some(_) => 2 * k,
            None => 2 * self.len() + k,
        }
    }

    /// The expression of a node.
    pub(crate) fn expression(&self, node: usize) -> &'a Option<Expr>
        requires { node < 2 * length self.now }
        ensures { option_map tree_of result.now ≡ expression_at (rows_from self.now) node }
    {
        let item = self.item(node / 2);
        if node % 2 == 0 {
            &item.value
        } else {
            &item.step
        }
    }
}
