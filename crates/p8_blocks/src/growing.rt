// The blocks of a file, as its lines are read.
ghost use Rattle.std.specs.Prelude.{◌≡◌, ◌≢◌, ◌<◌, ◌≤◌, ◌+◌, ◌∷◌, List, IfOk, IfErr, None, OnOk, length, map};
ghost use Rattle.p8_tree.specs.Views.{block_of, method_of, source_of, statements_of};
ghost use Rattle.p8_tree.specs.Faults.{IfRefused};
ghost use Rattle.p8_lexer.specs.declared.word.Word.TheVariants as word_case;
ghost use Rattle.p8_expr.specs.Cursors.{IsLater};
ghost use Rattle.p8_lines.specs.Tokens.{left, left_behind};
ghost use Rattle.p8_blocks.specs.Reading.{Part, Position, start, at as position, Fails, AreBlocks, IsBlock};
ghost use Rattle.p8_blocks.specs.Files.{with_body};
ghost use Rattle.p8_blocks.specs.Standing.{Continues, IsHeadAt, IsOpen, StandsFor, Starts, word_of_head};

use crate::first::First;
use crate::lines::{Extended, first_constants, read_head};
use crate::words::BlockWord;
use p8_columns::Blocks;
use p8_expr::TokenCursor;
use p8_tree::{
    Block, ConItem, DatLine, Fault, List, Method, ObjItem, Place, SourceFile, Stmt, VarItem,
};
use p8_words::{Fail, NoMemory};
use std::alloc::Global;

/// The block at hand.
#[derive(Drop)]
pub enum Open {
    Constants(List<ConItem>),
    Variables(List<VarItem>),
    Objects(List<ObjItem>),
    Data(List<DatLine>),
    /// A method without its body, and the blocks of its lines.
    Method(Method, Blocks),
}

/// The blocks so far.
#[derive(Drop)]
pub struct Growing {
    /// Those that are done, in order.
    pub done: List<Block>,
    /// The one at hand; none before the first line.
    pub current: Option<Open>,
    /// After the colon of a `CASE`'s item, where its line begins.
    pub begun: Option<Place>,
}

// A method with this body.
fn with_body(method: Method, body: List<Stmt>) -> Method
    ensures { method_of result ≡ with_body (method_of method) (statements_of body) }
{
    Method { body, ..method }
}

impl Open {
    /// The block, once its lines are read.
    fn into_block(self, alloc: Global) -> Result<Block, NoMemory>
        ensures { (p : Part) → IsOpen p self → IfOk result (λ b. IsBlock p (block_of b)) }
    {
        match self {
            Open::Constants(items) => Ok(Block::Con(items)),
            Open::Variables(items) => Ok(Block::Var(items)),
            Open::Objects(items) => Ok(Block::Obj(items)),
            Open::Data(lines) => Ok(Block::Dat(lines)),
            Open::Method(method, blocks) => {
                let body = blocks.finish(alloc)?;
                Ok(Block::Method(with_body(method, body)))
            }
        }
    }
}

impl Growing {
    /// No line is read.
    pub fn new(alloc: Global) -> Growing
        ensures { StandsFor start result }
    {
        Growing {
            done: List::new(alloc),
            current: None,
            begun: None,
        }
    }

    /// Reads the line that begins where the cursor stands, and leaves the cursor behind it; or gives the
    /// line's refusal.
    ///
    /// # Errors
    ///
    /// The line's refusal, or `NoMemory`; the blocks are then of no use.
    pub fn line(&mut self, alloc: Global, here: &mut TokenCursor) -> Result<(), Fail<Fault>>
        requires { here.old.at < length here.old.tokens }
        ensures later { IfOk result (λ _. IsLater here.old here.new) }
        ensures read { (x : Position) → StandsFor x self.old →
            IfOk result (λ _. Continues x (left here.old) self.new (left here.new)) }
        ensures refused { (x : Position) → StandsFor x self.old →
            IfErr result (IfRefused (λ f. Fails x (left here.old) f.number f.place)) }
    {
        let first = First::at(here, self.begun);
        if first.is_line_end() {
            self.begun = None;
            here.advance();
            Ok(())
        } else {
            self.line_from(alloc, here, first)
        }
    }

    // A line that isn't blank.
    fn line_from(
        &mut self,
        alloc: Global,
        here: &mut TokenCursor,
        first: First,
    ) -> Result<(), Fail<Fault>>
        requires within { here.old.at < length here.old.tokens }
        requires starts { Starts (left here.old) (left_behind here.old) self.old.begun first }
        requires not_end { first.word ≢ word_case.LineEnd }
        ensures later { IfOk result (λ _. IsLater here.old here.new) }
        ensures read { (x : Position) → StandsFor x self.old →
            IfOk result (λ _. Continues x (left here.old) self.new (left here.new)) }
        ensures refused { (x : Position) → StandsFor x self.old →
            IfErr result (IfRefused (λ f. Fails x (left here.old) f.number f.place)) }
    {
        match first.head() {
            Some(head) => self.head_line(alloc, here, first, head),
            None => self.inner_line(alloc, here, first),
        }
    }

    // A line that begins a block.
    fn head_line(
        &mut self,
        alloc: Global,
        here: &mut TokenCursor,
        first: First,
        head: BlockWord,
    ) -> Result<(), Fail<Fault>>
        requires within { here.old.at < length here.old.tokens }
        requires starts { Starts (left here.old) (left_behind here.old) self.old.begun first }
        requires head { first.word ≡ word_of_head head }
        requires column { first.place.column ≡ 1 }
        ensures later { IfOk result (λ _. IsLater here.old here.new) }
        ensures read { (x : Position) → StandsFor x self.old →
            IfOk result (λ _. Continues x (left here.old) self.new (left here.new)) }
        ensures refused { (x : Position) → StandsFor x self.old →
            IfErr result (IfRefused (λ f. Fails x (left here.old) f.number f.place)) }
    {
        here.advance();
        let block = read_head(alloc, here, head)?;
        self.begin(alloc, block)?;
        Ok(())
    }

    // Begins a block; the one at hand is done.
    fn begin(&mut self, alloc: Global, block: Open) -> Result<(), NoMemory>
        ensures { (x : Position) (p : Part) → StandsFor x self.old → IsOpen p block → OnOk result (StandsFor (position (p ∷ x.parts) None) self.new) }
    {
        self.begun = None;
        match self.current.replace(block) {
            Some(before) => {
                self.done.push(before.into_block(alloc)?)?;
                Ok(())
            }
            None => Ok(()),
        }
    }

    // A line of the block at hand.
    fn inner_line(
        &mut self,
        alloc: Global,
        here: &mut TokenCursor,
        first: First,
    ) -> Result<(), Fail<Fault>>
        requires within { here.old.at < length here.old.tokens }
        requires starts { Starts (left here.old) (left_behind here.old) self.old.begun first }
        requires not_end { first.word ≢ word_case.LineEnd }
        requires no_head { ¬ IsHeadAt first.word first.place }
        ensures later { IfOk result (λ _. IsLater here.old here.new) }
        ensures read { (x : Position) → StandsFor x self.old →
            IfOk result (λ _. Continues x (left here.old) self.new (left here.new)) }
        ensures refused { (x : Position) → StandsFor x self.old →
            IfErr result (IfRefused (λ f. Fails x (left here.old) f.number f.place)) }
    {
        match self.current.take() {
            None => {
                let line = first_constants(alloc, here)?;
                self.extend(line);
                Ok(())
            }
            Some(block) => {
                let line = block.extended(alloc, here, first)?;
                self.extend(line);
                Ok(())
            }
        }
    }

    // Puts the block at hand back, with one more line.
    fn extend(&mut self, line: Extended)
        ensures { (p : Part) (ps : List Part) → IsOpen p line.block → AreBlocks ps (map block_of self.old.done) →
            StandsFor (position (p ∷ ps) line.begun) self.new }
    {
        self.current = Some(line.block);
        self.begun = line.begun;
    }

    /// The source of the lines read.
    ///
    /// # Errors
    ///
    /// `NoMemory` where there is none.
    pub fn finish(self, alloc: Global) -> Result<SourceFile, NoMemory>
        ensures { (x : Position) → StandsFor x self → IfOk result (λ file. AreBlocks x.parts (source_of file)) }
    {
        let Growing { done, current, .. } = self;
        match current {
            Some(last) => {
                let mut blocks = done;
                blocks.push(last.into_block(alloc)?)?;
                Ok(SourceFile { blocks })
            }
            None => Ok(SourceFile { blocks: done }),
        }
    }
}
