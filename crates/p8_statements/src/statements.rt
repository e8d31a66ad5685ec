// What a line of a method is.
ghost use Rattle.std.specs.Prelude.{◌≡◌, [], ◌<◌, if◌then◌else◌, IfOk, IfSome, OnOk, Some, None, length, option_map, option_and_then};
ghost use Rattle.p8_tree.specs.Expressions.{node, Var, Items, no_items, ◌▸◌};
ghost use Rattle.p8_tree.specs.Statements.{Forever, Count, From};
ghost use Rattle.p8_tree.specs.Views.{tree_of, form_of, variable_of, item_of, items_of, course_of};
ghost use Rattle.p8_columns.specs.Views.{kind_of};
ghost use Rattle.p8_columns.specs.Lines as lines;
ghost use Rattle.p8_lexer.specs.Pieces.{pieces_of};
ghost use Rattle.p8_statements.specs.Rows.{◌▶◌, word_in, phrase, is_empty, ended, ending, value_in};
ghost use Rattle.p8_statements.specs.Statements.{maybe_value, counted, counting, counter, course_by, course_before, course, tests_after};
ghost use Rattle.p8_statements.specs.Statements.{line, is_last_colon, other_line, is_item, statement, kind_of_row};
ghost use Rattle.p8_statements.specs.Views.{rest_of, with_test};

use crate::role::{Role, role_of};
use crate::statement_pieces::{Phrase, StatementPieces};
use p8_columns::{Action, LineKind};
use p8_lexer::{Piece, discarding};
use p8_tree::{Expr, ExprKind, Item, List, Loop, Place, Target, Text};
use p8_words::NoMemory;
use std::alloc::{AllocError, Global};

/// What a line of a method is, by its row of pieces; none where no line has such a row.
///
/// A row ends with the end of its line, an item of a `CASE` and its `OTHER` with the colon. A name
/// alone is a variable's tree: that it is a call is told later. Want of memory is the only error, and
/// may come at any point. Source: Propeller Manual v1.2, "Spin Language Reference".
pub fn line_kind(alloc: Global, pieces: Vec<Piece>) -> Result<Option<LineKind>, NoMemory>
    ensures { IfOk result (λ o. option_map kind_of o ≡ kind_of_row (pieces_of pieces.items)) }
{
    let is_item = is_item(&pieces);
    let mut row = StatementPieces::new(pieces);
    if is_item {
        row.item(alloc)
    } else {
        Ok(row.statement())
    }
}

// Whether a row is that of a CASE's item.
fn is_item(pieces: &[Piece]) -> bool
    ensures { result ≡ is_item (pieces_of pieces.now) }
{
    match pieces {
        [Piece::Tree(_, _), Piece::Word(word, _), ..] => !role_of(*word).is_line_end(),
        _ => false,
    }
}

// The name and the place of a counter, where a tree is one.
fn counter(tree: Expr) -> Option<(Text, Place)>
    ensures { result ≡ counter (tree_of tree) }
{
    counter_of(tree.kind)
}

// The name and the place of a counter, where a form is one.
fn counter_of(kind: ExprKind) -> Option<(Text, Place)>
    ensures { (p : Place) → result ≡ counter (node p (form_of kind)) }
{
    match kind {
        ExprKind::Var(target) => name_alone(target),
        other => discarding(other, None),
    }
}

// The name and the place of a variable that is a name alone.
fn name_alone(target: Target) -> Option<(Text, Place)>
    ensures { (p : Place) → result ≡ counter (node p (Var (variable_of target))) }
{
    match target {
        Target::Named(name, None, place) => Some((name, place)),
        other => discarding(other, None),
    }
}

/// A test of an item, and the word after it.
#[derive(Drop)]
struct Tested {
    item: Item,
    behind: Role,
}

impl StatementPieces {
    // A value, or the end of the line.
    fn maybe_value(&mut self) -> Option<Option<Expr>>
        ensures { option_map (option_map tree_of) result ≡ maybe_value (rest_of self.old) }
    {
        match self.next()? {
            Piece::Word(word, _) => self.no_value(role_of(word)),
            Piece::Tree(tree, _) => self.last_value(tree),
            other => discarding(other, None),
        }
    }

    // No value, where the line ends with this word.
    fn no_value(&self, role: Role) -> Option<Option<Expr>>
        ensures { option_map (option_map tree_of) result ≡ ended None role (rest_of self.now) }
    {
        if self.is_end(role) { Some(None) } else { None }
    }

    // This value, where the line ends here.
    fn last_value(&mut self, value: Expr) -> Option<Option<Expr>>
        ensures { option_map (option_map tree_of) result ≡ ending (Some (tree_of value)) (rest_of self.old) }
    {
        if self.ends() {
            Some(Some(value))
        } else {
            drop(value);
            None
        }
    }

    // A counter's course, by the word after its last value.
    fn counted(
        &mut self,
        name: Text,
        place: Place,
        first: Expr,
        last: Expr,
        role: Role,
    ) -> Option<Loop>
        ensures { option_map course_of result ≡ counted name place (tree_of first) (tree_of last) role (rest_of self.old) }
    {
        if role.is_step() {
            self.stepped(name, place, first, last)
        } else {
            self.unstepped(name, place, first, last, role)
        }
    }

    // A counter's course, from its step on.
    fn stepped(&mut self, name: Text, place: Place, first: Expr, last: Expr) -> Option<Loop>
        ensures { option_map course_of result ≡ option_map (λ c. From name (tree_of first) (tree_of last) (Some c) place) (value_in (rest_of self.old)) }
    {
        match self.value() {
            Some(step) => Some(Loop::From(name, first, last, Some(step), place)),
            None => discarding(first, discarding(last, None)),
        }
    }

    // A counter's course without a step, where the line ends with this word.
    fn unstepped(
        &self,
        name: Text,
        place: Place,
        first: Expr,
        last: Expr,
        role: Role,
    ) -> Option<Loop>
        ensures { option_map course_of result ≡ ended (From name (tree_of first) (tree_of last) None place) role (rest_of self.now) }
    {
        if self.is_end(role) {
            Some(Loop::From(name, first, last, None, place))
        } else {
            drop(first);
            drop(last);
            None
        }
    }

    // A counter's course, from the piece after FROM on.
    fn counting(&mut self, name: Text, place: Place) -> Option<Loop>
        ensures { option_map course_of result ≡ counting name place (rest_of self.old) }
    {
        let Phrase { tree, behind } = self.phrase()?;
        if behind.is_to() {
            self.counting_to(name, place, tree)
        } else {
            drop(tree);
            None
        }
    }

    // A counter's course, from the piece after TO on.
    fn counting_to(&mut self, name: Text, place: Place, first: Expr) -> Option<Loop>
        ensures { option_map course_of result ≡ (phrase (rest_of self.old) ▶ λ b row. counted name place (tree_of first) b.0 b.1 row) }
    {
        match self.phrase() {
            Some(Phrase { tree, behind }) => self.counted(name, place, first, tree, behind),
            None => discarding(first, None),
        }
    }

    // REPEAT and an expression, by the word after it.
    fn course_by(&mut self, tree: Expr, role: Role) -> Option<Loop>
        ensures { option_map course_of result ≡ course_by (tree_of tree) role (rest_of self.old) }
    {
        if role.is_from() {
            self.course_from(tree)
        } else {
            self.counts(tree, role)
        }
    }

    // REPEAT and a counter, from the piece after FROM on.
    fn course_from(&mut self, tree: Expr) -> Option<Loop>
        ensures { option_map course_of result ≡ option_and_then (λ c. counting c.0 c.1 (rest_of self.old)) (counter (tree_of tree)) }
    {
        let (name, place) = counter(tree)?;
        self.counting(name, place)
    }

    // REPEAT and a number of turns, where the line ends with this word.
    fn counts(&self, turns: Expr, role: Role) -> Option<Loop>
        ensures { option_map course_of result ≡ ended (Count (tree_of turns)) role (rest_of self.now) }
    {
        if self.is_end(role) {
            Some(Loop::Count(turns))
        } else {
            drop(turns);
            None
        }
    }

    // REPEAT alone, or with a word after it.
    fn course_before(&mut self, role: Role) -> Option<Loop>
        ensures { option_map course_of result ≡ course_before role (rest_of self.old) }
    {
        match role {
            Role::End(until) => Some(Loop::Before(until, self.value()?)),
            Role::LineEnd => self.forever(),
            _ => None,
        }
    }

    // REPEAT alone, where nothing is left.
    fn forever(&self) -> Option<Loop>
        ensures { option_map course_of result ≡ (if is_empty (rest_of self.now) then Some Forever else None) }
    {
        if self.is_empty() {
            Some(Loop::Forever)
        } else {
            None
        }
    }

    // What stands after REPEAT.
    fn course(&mut self) -> Option<Loop>
        ensures { option_map course_of result ≡ course (rest_of self.old) }
    {
        match self.next()? {
            Piece::Word(word, _) => self.course_before(role_of(word)),
            Piece::Tree(tree, _) => self.course_behind(tree),
            other => discarding(other, None),
        }
    }

    // REPEAT and an expression, from the word after it on.
    fn course_behind(&mut self, tree: Expr) -> Option<Loop>
        ensures { option_map course_of result ≡ (word_in (rest_of self.old) ▶ λ s row. course_by (tree_of tree) s.role row) }
    {
        match self.word() {
            Some(sign) => self.course_by(tree, sign.role),
            None => discarding(tree, None),
        }
    }

    // Whether this word is the colon, with nothing after it.
    fn is_last_colon(&self, role: Role) -> bool
        ensures { result ≡ is_last_colon role (rest_of self.now) }
    {
        role.is_colon() && self.is_empty()
    }

    // The tests of a CASE's item, up to its colon.
    fn tests(&mut self, alloc: Global) -> Result<Option<List<Item>>, NoMemory>
        ensures { IfOk result (λ o. option_map items_of o ≡ tests_after no_items None (rest_of self.old)) }
    {
        let mut tests = no_tests(alloc)?;
        'tests: loop {
            match self.test() {
                Some(Tested { item, behind }) => {
                    push(&mut tests, item)?;
                    if !behind.is_comma() {
                        return Ok(self.last_test(behind, tests));
                    }
                }
                None => return Ok(None),
            }
        }
    }

    // A test, and the word after it.
    fn test(&mut self) -> Option<Tested>
        ensures read { (xs : Items) → tests_after xs None (rest_of self.old) ≡ with_test xs result (rest_of self.new) }
        ensures shorter { IfSome result (λ x. length (rest_of self.new) < length (rest_of self.old)) }
    {
        let Phrase { tree, behind } = self.phrase()?;
        if behind.is_dot_dot() {
            self.range_from(tree)
        } else {
            Some(Tested {
                item: Item {
                    low: tree,
                    high: None,
                },
                behind,
            })
        }
    }

    // A range from this value on, and the word after it.
    fn range_from(&mut self, low: Expr) -> Option<Tested>
        ensures read { (xs : Items) → tests_after xs (Some (tree_of low)) (rest_of self.old) ≡ with_test xs result (rest_of self.new) }
        ensures shorter { IfSome result (λ x. length (rest_of self.new) < length (rest_of self.old)) }
    {
        match self.phrase() {
            Some(last) => Some(Tested {
                item: Item {
                    low,
                    high: Some(last.tree),
                },
                behind: last.behind,
            }),
            None => discarding(low, None),
        }
    }

    // These tests, where the colon stands after them and nothing else.
    fn last_test(&self, role: Role, tests: List<Item>) -> Option<List<Item>>
        ensures { option_map items_of result ≡ (if is_last_colon role (rest_of self.now) then Some (items_of tests) else None) }
    {
        if self.is_last_colon(role) {
            Some(tests)
        } else {
            drop(tests);
            None
        }
    }

    // An item of a CASE.
    fn item(&mut self, alloc: Global) -> Result<Option<LineKind>, NoMemory>
        ensures { IfOk result (λ o. option_map kind_of o ≡ option_map lines.Item (tests_after no_items None (rest_of self.old))) }
    {
        match self.tests(alloc)? {
            Some(tests) => Ok(Some(LineKind::Item(tests))),
            None => Ok(None),
        }
    }

    // The colon after OTHER.
    fn other_line(&mut self) -> Option<LineKind>
        ensures { option_map kind_of result ≡ other_line (rest_of self.old) }
    {
        let sign = self.word()?;
        if self.is_last_colon(sign.role) {
            Some(LineKind::Other)
        } else {
            None
        }
    }

    // This, where the line ends here.
    fn ending(&mut self, kind: LineKind) -> Option<LineKind>
        ensures { option_map kind_of result ≡ ending (kind_of kind) (rest_of self.old) }
    {
        if self.ends() {
            Some(kind)
        } else {
            drop(kind);
            None
        }
    }

    // A line that begins with a word of its own.
    fn line(&mut self, role: Role) -> Option<LineKind>
        ensures { option_map kind_of result ≡ line role (rest_of self.old) }
    {
        match role {
            Role::If(negated) => Some(LineKind::If {
                negated,
                test: self.value()?,
            }),
            Role::ElseIf(negated) => Some(LineKind::ElseIf {
                negated,
                test: self.value()?,
            }),
            Role::Else => self.ending(LineKind::Else),
            Role::Case => Some(LineKind::Case(self.value()?)),
            Role::Other => self.other_line(),
            Role::Repeat => Some(LineKind::Repeat(self.course()?)),
            Role::End(until) => Some(LineKind::End {
                until,
                test: self.value()?,
            }),
            Role::Next => self.ending(LineKind::Plain(Action::Next)),
            Role::Quit => self.ending(LineKind::Plain(Action::Quit)),
            Role::Return => Some(LineKind::Plain(Action::Return(self.maybe_value()?))),
            Role::Abort => Some(LineKind::Plain(Action::Abort(self.maybe_value()?))),
            _ => None,
        }
    }

    // A line that begins with a word of its own, or an action.
    fn statement(&mut self) -> Option<LineKind>
        ensures { option_map kind_of result ≡ statement (rest_of self.old) }
    {
        match self.next()? {
            Piece::Word(word, _) => self.line(role_of(word)),
            Piece::Tree(tree, _) => self.ending(LineKind::Plain(Action::Do(tree))),
            other => discarding(other, None),
        }
    }
}

// No tests, with room for one: most items of a CASE have one, for which a first push takes room for four.
fn no_tests(alloc: Global) -> Result<List<Item>, AllocError>
    ensures { IfOk result (λ tests. tests ≡ []) }
{
    let mut tests = Vec::new(alloc);
    tests.reserve_exact(1)?;
    Ok(List::from_vec(tests))
}

// One more test, the last.
fn push(tests: &mut List<Item>, test: Item) -> Result<(), AllocError>
    ensures { OnOk result (items_of tests.new ≡ items_of tests.old ▸ item_of test) }
{
    tests.push(test)?;
    Ok(())
}
