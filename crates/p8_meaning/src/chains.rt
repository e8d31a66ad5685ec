// The arms of an `IF` that are left, by what is known of their conditions.
ghost use Rattle.std.specs.Prelude.{◌≡◌, IfOk};
ghost use Rattle.p8_tree.specs.Expressions.{no_items, ◌▸◌};
ghost use Rattle.p8_tree.specs.Statements.{no_arms, ◌⊳◌};
ghost use Rattle.p8_tree.specs.Views.{items_of, item_of, arm_of, arms_of, statements_of};
ghost use Rattle.p8_fold.specs.ConstantEntries.{setting_of};
ghost use Rattle.p8_meaning.specs.Constants.{constants_in};
ghost use Rattle.p8_meaning.specs.Folding.{Going, Ended, known, condition, with_arm};
ghost use Rattle.p8_meaning.specs.Copies.{condition_of, chain_of};

use crate::known::constant_value;
use crate::loops::holds;
use p8_fold::Consts;
use p8_tree::{Arm, Item, Stmt};
use std::alloc::{AllocError, Global};

/// What is known of the condition of an arm, or that it has none, since it hasn't one test.
#[derive(Clone, Copy)]
pub(crate) enum Condition {
    Always,
    Never,
    Unknown,
    NoTest,
}

/// The arms of an `IF` that are left so far, and where one is always chosen that isn't among them, its body.
#[derive(Drop)]
pub(crate) struct Chain {
    pub arms: Vec<Arm>,
    pub chosen: Option<Vec<Stmt>>,
}

// A condition by its value, where it has one.
fn known(negated: bool, number: Option<u32>) -> Condition
    ensures { condition_of result ≡ known negated number }
{
    match number {
        None => Condition::Unknown,
        Some(number) => {
            if holds(negated, number) {
                Condition::Always
            } else {
                Condition::Never
            }
        }
    }
}

// The condition that is one item.
fn condition_in(consts: &Consts, negated: bool, item: &Item) -> Condition
    ensures { condition_of result ≡ condition (constants_in (setting_of consts.now)) negated (no_items ▸ item_of item.now) }
{
    match &item.high {
        None => known(negated, constant_value(consts, &item.low)),
        Some(_) => Condition::NoTest,
    }
}

/// The condition of an arm, by its tests.
pub(crate) fn condition_of_arm(consts: &Consts, negated: bool, tests: &[Item]) -> Condition
    ensures { condition_of result ≡ condition (constants_in (setting_of consts.now)) negated (items_of tests.now) }
{
    if tests.len() == 1 {
        condition_in(consts, negated, &tests[0])
    } else {
        Condition::NoTest
    }
}

impl Chain {
    /// No arms.
    pub fn new(alloc: Global) -> Chain
        ensures { chain_of result ≡ Going no_arms }
    {
        Chain {
            arms: Vec::new(alloc),
            chosen: None,
        }
    }

    /// The arms with the next one, by its condition.
    pub fn with_arm(self, condition: Condition, arm: Arm) -> Result<Chain, AllocError>
        ensures { IfOk result (λ left. chain_of left ≡ with_arm (chain_of self) (condition_of condition) (arm_of arm)) }
    {
        let Chain { arms, chosen } = self;
        match chosen {
            None => with_next(arms, condition, arm),
            Some(body) => with_further(arms, body, condition, arm),
        }
    }
}

// Arms and one more.
fn with_last(arms: Vec<Arm>, arm: Arm) -> Result<Chain, AllocError>
    ensures { IfOk result (λ left. chain_of left ≡ Going (arms_of arms.items ⊳ arm_of arm)) }
{
    let mut arms = arms;
    arms.push(arm)?;
    Ok(Chain { arms, chosen: None })
}

// Arms that end with the body of one.
fn ended(arms: Vec<Arm>, arm: Arm) -> Chain
    ensures { chain_of result ≡ with_arm (Going (arms_of arms.items)) (condition_of Condition.Always) (arm_of arm) }
{
    let Arm { body, tests, .. } = arm;
    drop(tests);
    Chain {
        arms,
        chosen: Some(body),
    }
}

// An arm where the chain goes on.
fn with_next(arms: Vec<Arm>, condition: Condition, arm: Arm) -> Result<Chain, AllocError>
    ensures { IfOk result (λ left. chain_of left ≡ with_arm (Going (arms_of arms.items)) (condition_of condition) (arm_of arm)) }
{
    match condition {
        Condition::Always => Ok(ended(arms, arm)),
        Condition::Never => {
            drop(arm);
            Ok(Chain { arms, chosen: None })
        }
        Condition::Unknown => with_last(arms, arm),
        Condition::NoTest => with_last(arms, arm),
    }
}

// An arm where a body is chosen already.
fn with_further(
    arms: Vec<Arm>,
    body: Vec<Stmt>,
    condition: Condition,
    arm: Arm,
) -> Result<Chain, AllocError>
    ensures { IfOk result (λ left. chain_of left ≡ with_arm (Ended (arms_of arms.items) (statements_of body.items)) (condition_of condition) (arm_of arm)) }
{
    match condition {
        Condition::NoTest => {
            drop(body);
            with_last(arms, arm)
        }
        _ => {
            drop(arm);
            Ok(Chain {
                arms,
                chosen: Some(body),
            })
        }
    }
}
