// Folded statements. The calls go as deep as blocks stand in one another.
ghost use Rattle.std.specs.Prelude.{◌≡◌, IfOk, OnOk};
ghost use Rattle.p8_tree.specs.Statements.{statement, ◌▹◌, Do, Case, Return, Abort};
ghost use Rattle.p8_tree.specs.Views.{tree_of, course_of, action_of, arm_of, arms_of, statement_of, statements_of};
ghost use Rattle.p8_tree.specs.Bridges.{other_body};
ghost use Rattle.p8_fold.specs.ConstantEntries.{setting_of};
ghost use Rattle.p8_meaning.specs.Constants.{constants_in};
ghost use Rattle.p8_meaning.specs.Folding.{folded, folded_inside, folded_course, kept, loop, whole_chain, chain, joined, folded_statement};
ghost use Rattle.p8_meaning.specs.Folding.{folded_body, folded_chain, folded_arms};
ghost use Rattle.p8_meaning.specs.Copies.{constants_of, chain_of, folded_arm};

use crate::chains::{Chain, condition_of_arm};
use crate::folder::Folder;
use crate::known::Numbers;
use p8_fold::Consts;
use p8_tree::{Arm, Expr, List, Loop, Place, Stmt, StmtKind};
use p8_words::NoMemory;
use std::alloc::{AllocError, Global};

/// A copy of the statements of a method's body, folded: constant trees become numbers, where that isn't longer, and arms
/// and loops go of which it is known that they are never chosen, or that nothing else is. What is left does just what the
/// whole did.
///
/// The table tells what names mean; of its meanings the values of constants and which names are objects count. Every
/// error is want of memory. The memory is in proportion to the statements, and so is the time, but that a statement is
/// moved once for each `IF` around it of which the body alone is left. Calls go as deep as blocks stand in one another
/// and trees are high. Source: the Propeller Manual v1.2, "CON", "IF" and "REPEAT" of the Spin chapter; which trees
/// change is this project's profile.
pub fn folded_body(alloc: Global, consts: &Consts, body: &[Stmt]) -> Result<List<Stmt>, NoMemory>
    ensures { IfOk result (λ folded. statements_of folded ≡ folded_body (constants_in (setting_of consts.now)) (statements_of body.now)) }
{
    let folder = Folder { alloc, consts };
    let folded = folder.body(body)?;
    Ok(List::from_vec(folded))
}

// Puts a statement after others.
fn push(out: &mut Vec<Stmt>, place: Place, kind: StmtKind) -> Result<(), AllocError>
    ensures { OnOk result (statements_of out.new.items ≡ statements_of out.old.items ▹ statement place (action_of kind)) }
{
    out.push(Stmt { place, kind })?;
    Ok(())
}

// Puts statements after others.
fn append(out: &mut Vec<Stmt>, body: Vec<Stmt>) -> Result<(), AllocError>
    ensures { OnOk result (statements_of out.new.items ≡ joined (statements_of out.old.items) (statements_of body.items)) }
{
    let mut body = body;
    out.append(&mut body)?;
    Ok(())
}

// Puts an `IF` after other statements: the body of its `ELSE`, or nothing, where it has no arms.
fn put_arms(
    out: &mut Vec<Stmt>,
    place: Place,
    arms: Vec<Arm>,
    other: Option<Vec<Stmt>>,
) -> Result<(), AllocError>
    ensures { OnOk result (statements_of out.new.items ≡ joined (statements_of out.old.items) (whole_chain place (arms_of arms.items) (other_body other))) }
{
    if arms.as_slice().is_empty() {
        drop(arms);
        match other {
            None => Ok(()),
            Some(body) => append(out, body),
        }
    } else {
        push(out, place, StmtKind::If(arms, other))
    }
}

// Puts what is left of an `IF` after other statements.
fn put_chain(
    out: &mut Vec<Stmt>,
    place: Place,
    left: Chain,
    other: Option<Vec<Stmt>>,
) -> Result<(), AllocError>
    ensures { OnOk result (statements_of out.new.items ≡ joined (statements_of out.old.items) (chain place (chain_of left) (other_body other))) }
{
    let Chain { arms, chosen } = left;
    match chosen {
        None => put_arms(out, place, arms, other),
        Some(body) => {
            drop(other);
            put_arms(out, place, arms, Some(body))
        }
    }
}

impl Folder<'_> {
    // Puts an expression as a statement after other statements.
    fn put_action(&self, out: &mut Vec<Stmt>, place: Place, expr: &Expr) -> Result<(), AllocError>
        ensures { OnOk result (statements_of out.new.items ≡
            statements_of out.old.items ▹ statement place (Do (folded_inside (constants_of self.now) (tree_of expr.now)))) }
    {
        let copy = self.form(Numbers::Shorter, expr.place, &expr.kind)?;
        push(out, place, StmtKind::Do(copy.into_tree()))
    }

    // Puts a `CASE` after other statements.
    fn put_case(
        &self,
        out: &mut Vec<Stmt>,
        place: Place,
        value: &Expr,
        arms: Vec<Arm>,
        other: Option<Vec<Stmt>>,
    ) -> Result<(), AllocError>
        ensures { OnOk result (statements_of out.new.items ≡
            statements_of out.old.items ▹ statement place (Case (folded (constants_of self.now) (tree_of value.now)) (arms_of arms.items) (other_body other))) }
    {
        let value = Box::into_inner(self.value(value)?);
        push(out, place, StmtKind::Case(value, arms, other))
    }

    // Puts a loop after other statements, or nothing where it makes no pass.
    fn put_loop(
        &self,
        out: &mut Vec<Stmt>,
        place: Place,
        course: &Loop,
        body: Vec<Stmt>,
    ) -> Result<(), AllocError>
        ensures { OnOk result (statements_of out.new.items ≡
            joined (statements_of out.old.items) (loop place (kept (folded_course (constants_of self.now) (course_of course.now)))
            (statements_of body.items))) }
    {
        match self.course(course)? {
            None => {
                drop(body);
                Ok(())
            }
            Some(course) => push(out, place, StmtKind::Repeat(course, body)),
        }
    }

    // Folded statements.
    #[cycle(statements)]
    fn body(&self, statements: &[Stmt]) -> Result<Vec<Stmt>, AllocError>
        ensures { IfOk result (λ v. statements_of v.items ≡ folded_body (constants_of self.now) (statements_of statements.now)) }
    {
        let mut out = Vec::new(self.alloc);
        for statement in statements {
            self.put_statement(statement, &mut out)?;
        }
        Ok(out)
    }

    // Puts what becomes of a statement after other statements.
    #[cycle(statements)]
    fn put_statement(&self, statement: &Stmt, out: &mut Vec<Stmt>) -> Result<(), AllocError>
        ensures { OnOk result (statements_of out.new.items ≡
            joined (statements_of out.old.items) (folded_statement (constants_of self.now) (statement_of statement.now))) }
    {
        let place = statement.place;
        match &statement.kind {
            StmtKind::Do(expr) => self.put_action(out, place, expr),
            StmtKind::If(arms, other) => {
                let left = self.chain(arms)?;
                match other {
                    None => put_chain(out, place, left, None),
                    Some(body) => {
                        let body = self.body(body)?;
                        put_chain(out, place, left, Some(body))
                    }
                }
            }
            StmtKind::Case(value, arms, other) => {
                let arms = self.arms(arms)?;
                match other {
                    None => self.put_case(out, place, value, arms, None),
                    Some(body) => {
                        let body = self.body(body)?;
                        self.put_case(out, place, value, arms, Some(body))
                    }
                }
            }
            StmtKind::Repeat(course, body) => {
                let body = self.body(body)?;
                self.put_loop(out, place, course, body)
            }
            StmtKind::Next => push(out, place, StmtKind::Next),
            StmtKind::Quit => push(out, place, StmtKind::Quit),
            StmtKind::Return(value) => {
                let value = self.value_in(value)?;
                push(out, place, StmtKind::Return(value))
            }
            StmtKind::Abort(value) => {
                let value = self.value_in(value)?;
                push(out, place, StmtKind::Abort(value))
            }
        }
    }

    // What is left of the arms of an `IF`.
    #[cycle(statements)]
    fn chain(&self, arms: &[Arm]) -> Result<Chain, AllocError>
        ensures { IfOk result (λ left. chain_of left ≡ folded_chain (constants_of self.now) (arms_of arms.now)) }
    {
        let mut left = Chain::new(self.alloc);
        for arm in arms {
            let condition = condition_of_arm(self.consts, arm.negated, arm.tests.as_slice());
            let arm = self.arm(arm)?;
            left = left.with_arm(condition, arm)?;
        }
        Ok(left)
    }

    // The folded arms of a `CASE`.
    #[cycle(statements)]
    fn arms(&self, arms: &[Arm]) -> Result<Vec<Arm>, AllocError>
        ensures { IfOk result (λ v. arms_of v.items ≡ folded_arms (constants_of self.now) (arms_of arms.now)) }
    {
        let mut folded = Vec::new(self.alloc);
        for arm in arms {
            folded.push(self.arm(arm)?)?;
        }
        Ok(folded)
    }

    // A folded arm.
    #[cycle(statements)]
    fn arm(&self, arm: &Arm) -> Result<Arm, AllocError>
        ensures { IfOk result (λ x. arm_of x ≡ folded_arm (constants_of self.now) (arm_of arm.now)) }
    {
        let body = self.body(&arm.body)?;
        let tests = self.items(Numbers::Shorter, arm.tests.as_slice())?;
        Ok(Arm {
            tests: List::from_vec(tests),
            negated: arm.negated,
            body,
        })
    }
}
