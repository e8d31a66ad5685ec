// The values of a file's constants, one node after the other.
ghost use Rattle.std.specs.Prelude.{◌≡◌, ℕ, ◌+◌, ◌*◌, ◌<◌, ◌^◌, List, OnOk, length, slice_set, Some, option_map};
ghost use Rattle.p8_tree.specs.Views.{tree_of};
ghost use Rattle.p8_tree.specs.Sources.{Source};
ghost use Rattle.p8_fold.specs.ConstantEntries.{setting_of, at_bytes};
ghost use Rattle.p8_fold.specs.Meanings.{Setting};
ghost use Rattle.p8_fold.specs.Values.{value};
ghost use Rattle.p8_constants.specs.Constants.{scope_of, counted};
ghost use Rattle.p8_constants.specs.Mentions.{mentioned};
ghost use Rattle.p8_constants.specs.Rows.{rows_from, rows_of, meaning_in, moved, counter_value, IsPlan, IsPrepared, Joins, with_first, IsEvaluated};
ghost use Rattle.p8_constants.specs.Rows.{IsSized, IsSameBut, IsEntered, IsNameEntered};

use crate::mentions::names_in;
use crate::plan::Plan;
use crate::rows::{Move, move_of};
use p8_fold::{Consts, Meaning, value_of};
use p8_tree::{Expr, Fault, Text};
use p8_words::NoMemory;
use std::alloc::Global;

/// What is found so far.
#[derive(Drop)]
pub(crate) struct Evaluation {
    /// The value of each node, or 0.
    pub(crate) values: Vec<u32>,
    pub(crate) consts: Consts,
    /// The first fault of the expressions.
    pub(crate) fault: Option<Fault>,
}

impl Evaluation {
    /// Evaluates the node at a place of the order.
    pub(crate) fn evaluate(
        &mut self,
        alloc: Global,
        plan: &Plan,
        place: usize,
    ) -> Result<(), NoMemory>
        requires sized { IsSized (length plan.now.rows)
            (λ n. at_bytes n plan.now.index.names) plan.now.numbers.items plan.now.order.items self.old.values.items }
        requires place { place < length plan.now.order.items }
        ensures size { length self.new.values.items ≡ length self.old.values.items }
        ensures evaluated { (outside : Setting) → (file : Source) → rows_from plan.now.rows ≡ rows_of file →
            IsPlan outside (rows_from plan.now.rows) (λ n. at_bytes n plan.now.index.names) plan.now.numbers.items plan.now.order.items →
            IsEvaluated (scope_of outside file) (rows_from plan.now.rows) plan.now.order.items place self.old.values.items
            (setting_of self.old.consts) self.old.fault → OnOk result
            (IsEvaluated (scope_of outside file) (rows_from plan.now.rows) plan.now.order.items (place + 1) self.new.values.items
            (setting_of self.new.consts) self.new.fault) }
    {
        let node = plan.order[place];
        let expressions = 2 * plan.rows.len();
        if node >= expressions {
            self.count(plan, node - expressions);
            return Ok(());
        }
        match plan.rows.expression(node) {
            None => Ok(()),
            Some(expr) => self.fold(alloc, plan, node, expr),
        }
    }

    // Evaluates an expression, with the meanings that its names have there.
    fn fold(&mut self, alloc: Global, plan: &Plan, node: usize, expr: &Expr) -> Result<(), NoMemory>
        requires sized { IsSized (length plan.now.rows)
            (λ n. at_bytes n plan.now.index.names) plan.now.numbers.items plan.now.order.items self.old.values.items }
        requires node { node < length self.old.values.items }
        ensures size { length self.new.values.items ≡ length self.old.values.items }
        ensures prepared { OnOk result (IsPrepared (λ n. at_bytes n plan.now.index.names) plan.now.numbers.items self.old.values.items node
            (mentioned (tree_of expr.now)) (setting_of self.old.consts) (setting_of self.new.consts)) }
        ensures value { OnOk result (self.new.values.items ≡
            slice_set self.old.values.items node (counted (value (setting_of self.new.consts) (tree_of expr.now)))) }
        ensures small { OnOk result (counted (value (setting_of self.new.consts) (tree_of expr.now)) < 2 ^ 32) }
        ensures fault { OnOk result (Joins (setting_of self.new.consts) (tree_of expr.now) self.old.fault self.new.fault) }
    {
        self.prepare(alloc, plan, node, expr)?;
        match value_of(expr, &self.consts) {
            Ok(value) => self.values[node] = value,
            Err(fault) => {
                self.values[node] = 0;
                self.join(fault);
            }
        }
        Ok(())
    }

    // Takes a further fault.
    fn join(&mut self, fault: Fault)
        ensures values { self.new.values ≡ self.old.values }
        ensures consts { self.new.consts ≡ self.old.consts }
        ensures fault { self.new.fault ≡ Some (with_first self.old.fault fault) }
    {
        self.fault = Some(match self.fault {
            None => fault,
            Some(first) => first.earlier(fault),
        });
    }

    // Says what the names of an expression mean in it.
    fn prepare(
        &mut self,
        alloc: Global,
        plan: &Plan,
        node: usize,
        expr: &Expr,
    ) -> Result<(), NoMemory>
        requires sized { IsSized (length plan.now.rows)
            (λ n. at_bytes n plan.now.index.names) plan.now.numbers.items plan.now.order.items self.old.values.items }
        requires node { node < length self.old.values.items }
        ensures values { self.new.values ≡ self.old.values }
        ensures fault { self.new.fault ≡ self.old.fault }
        ensures prepared { OnOk result (IsPrepared (λ n. at_bytes n plan.now.index.names) plan.now.numbers.items self.old.values.items node
            (mentioned (tree_of expr.now)) (setting_of self.old.consts) (setting_of self.new.consts)) }
    {
        let names = names_in(alloc, expr)?;
        for name in names.as_slice() {
            let meaning = self.meaning(plan, node, name);
            enter(&mut self.consts, name, meaning)?;
        }
        Ok(())
    }

    // What a name means in the expression of a node, if it is a constant.
    fn meaning(&self, plan: &Plan, node: usize, name: &Text) -> Option<Meaning>
        requires sized { IsSized (length plan.now.rows)
            (λ n. at_bytes n plan.now.index.names) plan.now.numbers.items plan.now.order.items self.now.values.items }
        requires node { node < length self.now.values.items }
        ensures { result ≡ option_map (meaning_in plan.now.numbers.items self.now.values.items node) (at_bytes name.now plan.now.index.names) }
    {
        let constant = plan.index.get(name)?;
        if plan.numbers[constant] < plan.numbers[node] {
            Some(Meaning::Value(self.values[constant]))
        } else {
            Some(Meaning::Other)
        }
    }

    // Evaluates the counter as it comes to an item.
    fn count(&mut self, plan: &Plan, k: usize)
        requires sized { IsSized (length plan.now.rows)
            (λ n. at_bytes n plan.now.index.names) plan.now.numbers.items plan.now.order.items self.old.values.items }
        requires item { k < length plan.now.rows }
        ensures value { self.new.values.items ≡ slice_set self.old.values.items (2 * length plan.now.rows + k)
            (counter_value (rows_from plan.now.rows) self.old.values.items k) }
        ensures consts { self.new.consts ≡ self.old.consts }
        ensures fault { self.new.fault ≡ self.old.fault }
    {
        let value = self.counter_value(plan, k);
        self.values[2 * plan.rows.len() + k] = value;
    }

    fn counter_value(&self, plan: &Plan, k: usize) -> u32
        requires sized { IsSized (length plan.now.rows)
            (λ n. at_bytes n plan.now.index.names) plan.now.numbers.items plan.now.order.items self.now.values.items }
        requires item { k < length plan.now.rows }
        ensures { result ≡ counter_value (rows_from plan.now.rows) self.now.values.items k }
    {
        if k == 0 || plan.rows.is_first(k) {
            return 0;
        }
        self.moved(plan.rows.len(), k - 1, move_of(plan.rows.item(k - 1)))
    }

    // The counter after an item.
    fn moved(&self, count: usize, k: usize, movement: Move) -> u32
        requires item { k < count }
        requires size { length self.now.values.items ≡ 2 * count + count }
        ensures { result ≡ moved count self.now.values.items k movement }
    {
        match movement {
            Move::Sets => self.values[2 * k],
            Move::Stays => self.values[2 * count + k],
            Move::Counts => self.values[2 * count + k].wrapping_add(1),
            Move::Steps => self.values[2 * count + k].wrapping_add(self.values[2 * k + 1]),
        }
    }

    /// Says what the constants mean, once all nodes are evaluated.
    pub(crate) fn enter_all(&mut self, plan: &Plan) -> Result<(), NoMemory>
        requires sized { IsSized (length plan.now.rows)
            (λ n. at_bytes n plan.now.index.names) plan.now.numbers.items plan.now.order.items self.old.values.items }
        ensures entered { OnOk result (IsEntered (λ n. at_bytes n plan.now.index.names) (rows_from plan.now.rows) self.old.values.items
            (length plan.now.rows) (setting_of self.old.consts) (setting_of self.new.consts)) }
        ensures fault { self.new.fault ≡ self.old.fault }
    {
        for k in 0..plan.rows.len() {
            self.enter_name(plan, &plan.rows.item(k).name)?;
        }
        Ok(())
    }

    fn enter_name(&mut self, plan: &Plan, name: &Option<Text>) -> Result<(), NoMemory>
        requires sized { IsSized (length plan.now.rows)
            (λ n. at_bytes n plan.now.index.names) plan.now.numbers.items plan.now.order.items self.old.values.items }
        ensures values { self.new.values ≡ self.old.values }
        ensures fault { self.new.fault ≡ self.old.fault }
        ensures entered { OnOk result (IsNameEntered (λ n. at_bytes n plan.now.index.names) name.now self.old.values.items
            (setting_of self.old.consts) (setting_of self.new.consts)) }
    {
        match name {
            None => Ok(()),
            Some(name) => match plan.index.get(name) {
                None => Ok(()),
                Some(node) => enter(
                    &mut self.consts,
                    name,
                    Some(Meaning::Value(self.values[node])),
                ),
            },
        }
    }
}

// Says what a name means, if it is to mean something.
fn enter(consts: &mut Consts, name: &Text, meaning: Option<Meaning>) -> Result<(), NoMemory>
    ensures { OnOk result (IsSameBut name.now meaning (setting_of consts.old) (setting_of consts.new)) }
{
    match meaning {
        None => Ok(()),
        Some(meaning) => consts.set(None, name, meaning),
    }
}
