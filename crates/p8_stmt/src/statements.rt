// The code of statements. The calls go as deep as blocks stand in one another.
ghost use Rattle.std.specs.Prelude.{◌≡◌, OnOk};
ghost use Rattle.p8_tree.specs.Views.{course_of, action_of, arm_of, arms_of, statement_of, statements_of};
ghost use Rattle.p8_gen.specs.Pieces.{Written, up_to_end, jump};
ghost use Rattle.p8_gen.specs.Statements.{inside, code, code_of, body, chain, all_tests, case_bodies};
ghost use Rattle.p8_gen.specs.Writing.{Stands};
ghost use Rattle.p8_stmt.specs.Walking.{names_at, loop_at, leap, arm_piece, branches, choices, bodies, case_piece, case_body, up_to_next, looped, loop_piece};

use crate::context::{Context, LoopPlaces};
use crate::forms::{goes_to_begin, jumps_away, keeps_count, zero_jump};
use p8_bytecode::{ABORT, ABORT_WITH_RETURN, BRANCH, JUMP_FROM_STACK, POP_RETURN, RETURN};
use p8_gen::{Coder, Writer};
use p8_tree::{Arm, Loop, Stmt, StmtKind};
use std::alloc::AllocError;

impl Context<'_> {
    /// Appends the code of statements, one after the other.
    #[cycle(statements)]
    pub fn body(&self, statements: &[Stmt], out: &mut Writer) -> Result<(), AllocError>
        ensures { (w : Written) → Stands out.old w →
            OnOk result (Stands out.new (body (names_at self.now) (loop_at self.now) (statements_of statements.now) w)) }
    {
        for statement in statements {
            self.statement(statement, out)?;
        }
        Ok(())
    }

    // Appends the code of one statement.
    #[cycle(statements)]
    fn statement(&self, statement: &Stmt, out: &mut Writer) -> Result<(), AllocError>
        ensures { (w : Written) → Stands out.old w → OnOk result (Stands out.new (code (names_at self.now) (loop_at self.now) (statement_of statement.now) w)) }
    {
        let coder = Coder {
            statement: statement.place,
            ..self.coder
        };
        let here = Context { coder, ..*self };
        let outer = out.at_statement(statement.place);
        here.action(statement, out)?;
        out.at_statement(outer);
        Ok(())
    }

    // Appends the code of the statement that the context is at.
    #[cycle(statements)]
    fn action(&self, statement: &Stmt, out: &mut Writer) -> Result<(), AllocError>
        ensures { (w : Written) → Stands out.old w →
            OnOk result (Stands out.new (code_of (names_at self.now) (loop_at self.now) (action_of statement.now.kind) w)) }
    {
        match &statement.kind {
            StmtKind::Do(expr) => self.coder.alone(expr, out),
            StmtKind::If(..) => self.chain(statement, out),
            StmtKind::Case(..) => self.case(statement, out),
            StmtKind::Repeat(course, body) => self.repeat(course, body, out),
            StmtKind::Next => self.next(out),
            StmtKind::Quit => self.quit(out),
            StmtKind::Return(value) => self.with_value(value, RETURN, POP_RETURN, out),
            StmtKind::Abort(value) => self.with_value(value, ABORT, ABORT_WITH_RETURN, out),
        }
    }

    // Appends an IF.
    #[cycle(statements)]
    fn chain(&self, statement: &Stmt, out: &mut Writer) -> Result<(), AllocError>
        ensures { (w : Written) → Stands out.old w →
            OnOk result (Stands out.new (up_to_end (branches (names_at self.now) (loop_at self.now) (action_of statement.now.kind)) w)) }
    {
        let mut counter = out.counter();
        self.branches(0, statement, &mut counter)?;
        if out.counts(counter.end, counter.jumps) {
            Ok(())
        } else {
            self.branches(counter.end, statement, out)
        }
    }

    // Appends the arms of an IF, which jump to a place, and the body of its ELSE. Of another statement nothing is known.
    #[cycle(statements)]
    fn branches(&self, end: u32, statement: &Stmt, out: &mut Writer) -> Result<(), AllocError>
        ensures { (w : Written) → Stands out.old w →
            OnOk result (Stands out.new (branches (names_at self.now) (loop_at self.now) (action_of statement.now.kind) end w)) }
    {
        match &statement.kind {
            StmtKind::If(arms, rest) => match rest {
                None => self.arms(false, end, arms, out),
                Some(body) => {
                    self.arms(true, end, arms, out)?;
                    self.body(body, out)
                }
            },
            _ => Err(AllocError),
        }
    }

    // Appends the arms of an IF. Each but the last jumps to a place, and the last one where it is told to.
    #[cycle(statements)]
    fn arms(
        &self,
        last_jumps: bool,
        end: u32,
        arms: &[Arm],
        out: &mut Writer,
    ) -> Result<(), AllocError>
        ensures { (w : Written) → Stands out.old w →
            OnOk result (Stands out.new (chain (names_at self.now) (loop_at self.now)
            (jump (names_at self.now).wide (names_at self.now).statement 0x04 end) (leap (names_at self.now) last_jumps end) (arms_of arms.now) w)) }
    {
        for (index, arm) in arms.iter().enumerate() {
            let jumps = jumps_away(last_jumps, index, arms.len());
            self.arm(jumps, end, arm, out)?;
        }
        Ok(())
    }

    // Appends an arm of an IF, which jumps to a place or not.
    #[cycle(statements)]
    fn arm(&self, jumps: bool, end: u32, arm: &Arm, out: &mut Writer) -> Result<(), AllocError>
        ensures { (w : Written) → Stands out.old w →
            OnOk result (Stands out.new (up_to_end (arm_piece (names_at self.now) (loop_at self.now) (leap (names_at self.now) jumps end)
            (arm_of arm.now)) w)) }
    {
        let mut counter = out.counter();
        self.arm_to(jumps, end, 0, arm, &mut counter)?;
        if out.counts(counter.end, counter.jumps) {
            Ok(())
        } else {
            self.arm_to(jumps, end, counter.end, arm, out)
        }
    }

    // Appends an arm of an IF, whose test jumps to the next one.
    #[cycle(statements)]
    fn arm_to(
        &self,
        jumps: bool,
        end: u32,
        next: u32,
        arm: &Arm,
        out: &mut Writer,
    ) -> Result<(), AllocError>
        ensures { (w : Written) → Stands out.old w →
            OnOk result (Stands out.new (arm_piece (names_at self.now) (loop_at self.now) (leap (names_at self.now) jumps end) (arm_of arm.now) next w)) }
    {
        self.test_of(arm.tests.as_slice(), out)?;
        self.jump(zero_jump(arm.negated), next, out)?;
        self.body(&arm.body, out)?;
        self.leap(jumps, end, out)
    }

    // Appends a CASE: its tests and the body of OTHER, and then the bodies of its arms.
    #[cycle(statements)]
    fn case(&self, statement: &Stmt, out: &mut Writer) -> Result<(), AllocError>
        ensures { (w : Written) → Stands out.old w →
            OnOk result (Stands out.new (case_piece (names_at self.now) (loop_at self.now) (action_of statement.now.kind) w)) }
    {
        let mut counter = out.counter();
        self.choices(0, 0, 0, statement, &mut counter)?;
        let (first, before) = (counter.end, counter.jumps);
        self.bodies(0, statement, &mut counter)?;
        let end = counter.end;
        if out.counts(end, counter.jumps) {
            Ok(())
        } else {
            self.choices(first, before, end, statement, out)?;
            self.bodies(end, statement, out)
        }
    }

    // Appends the value of a CASE, the tests of its arms, whose bodies stand from a place on with so many jumps before it, and the
    // body of OTHER. Of another statement nothing is known.
    #[cycle(statements)]
    fn choices(
        &self,
        first: u32,
        before: u32,
        end: u32,
        statement: &Stmt,
        out: &mut Writer,
    ) -> Result<(), AllocError>
        ensures { (w : Written) → Stands out.old w →
            OnOk result (Stands out.new (choices (names_at self.now) (loop_at self.now) (action_of statement.now.kind) first before end w)) }
    {
        match &statement.kind {
            StmtKind::Case(value, arms, rest) => {
                self.coder.value(value, out)?;
                self.all_tests(first, before, arms, out)?;
                out.byte(JUMP_FROM_STACK)?;
                match rest {
                    None => self.jump(BRANCH, end, out),
                    Some(body) => {
                        self.body(body, out)?;
                        self.jump(BRANCH, end, out)
                    }
                }
            }
            _ => Err(AllocError),
        }
    }

    // Appends the bodies of a CASE, which jump to a place. Of another statement nothing is known.
    #[cycle(statements)]
    fn bodies(&self, end: u32, statement: &Stmt, out: &mut Writer) -> Result<(), AllocError>
        ensures { (w : Written) → Stands out.old w →
            OnOk result (Stands out.new (bodies (names_at self.now) (loop_at self.now) (action_of statement.now.kind) end w)) }
    {
        match &statement.kind {
            StmtKind::Case(_, arms, _) => self.case_bodies(end, arms, out),
            _ => Err(AllocError),
        }
    }

    // Appends the tests of all arms of a CASE, whose bodies stand from a place on with so many jumps before it. How long the tests
    // are doesn't depend on that, so the bodies aren't gone through where the writer only counts.
    #[cycle(statements)]
    fn all_tests(
        &self,
        first: u32,
        before: u32,
        arms: &[Arm],
        out: &mut Writer,
    ) -> Result<(), AllocError>
        ensures { (w : Written) → Stands out.old w →
            OnOk result (Stands out.new (all_tests (names_at self.now) (loop_at self.now) first before (arms_of arms.now) w)) }
    {
        let mut counter = out.counter();
        self.tests_of_arms(arms, &mut counter)?;
        if out.counts(counter.end, counter.jumps) {
            Ok(())
        } else {
            self.placed_tests(first, before, arms, out)
        }
    }

    // Appends the tests of all arms of a CASE, each with the place of its arm's body.
    #[cycle(statements)]
    fn placed_tests(
        &self,
        first: u32,
        before: u32,
        arms: &[Arm],
        out: &mut Writer,
    ) -> Result<(), AllocError>
        ensures { (w : Written) → Stands out.old w →
            OnOk result (Stands out.new (all_tests (names_at self.now) (loop_at self.now) first before (arms_of arms.now) w)) }
    {
        let mut bodies = Writer::counter_from(first, before);
        for arm in arms {
            self.tests(bodies.end, arm.tests.as_slice(), out)?;
            self.case_body(0, arm, &mut bodies)?;
        }
        Ok(())
    }

    // Appends the bodies of a CASE, which jump to a place.
    #[cycle(statements)]
    fn case_bodies(&self, end: u32, arms: &[Arm], out: &mut Writer) -> Result<(), AllocError>
        ensures { (w : Written) → Stands out.old w →
            OnOk result (Stands out.new (case_bodies (names_at self.now) (loop_at self.now) end (arms_of arms.now) w)) }
    {
        for arm in arms {
            self.case_body(end, arm, out)?;
        }
        Ok(())
    }

    // Appends a body of a CASE, which first drops the value that was compared.
    #[cycle(statements)]
    fn case_body(&self, end: u32, arm: &Arm, out: &mut Writer) -> Result<(), AllocError>
        ensures { (w : Written) → Stands out.old w → OnOk result (Stands out.new (case_body (names_at self.now) (loop_at self.now) end (arm_of arm.now) w)) }
    {
        out.byte(JUMP_FROM_STACK)?;
        self.body(&arm.body, out)?;
        self.jump(BRANCH, end, out)
    }

    // Appends a REPEAT.
    #[cycle(statements)]
    fn repeat(&self, course: &Loop, body: &[Stmt], out: &mut Writer) -> Result<(), AllocError>
        ensures { (w : Written) → Stands out.old w →
            OnOk result (Stands out.new (up_to_end (loop_piece (names_at self.now) (course_of course.now) (statements_of body.now)) w)) }
    {
        let mut counter = out.counter();
        self.repeat_to(course, 0, body, &mut counter)?;
        if out.counts(counter.end, counter.jumps) {
            Ok(())
        } else {
            self.repeat_to(course, counter.end, body, out)
        }
    }

    // Appends a REPEAT that ends at a place.
    #[cycle(statements)]
    fn repeat_to(
        &self,
        course: &Loop,
        end: u32,
        body: &[Stmt],
        out: &mut Writer,
    ) -> Result<(), AllocError>
        ensures { (w : Written) → Stands out.old w →
            OnOk result (Stands out.new (loop_piece (names_at self.now) (course_of course.now) (statements_of body.now) end w)) }
    {
        self.head(course, end, out)?;
        let start = out.end;
        self.first_test(course, end, out)?;
        self.looped(course, start, end, body, out)?;
        self.pass_end(course, start, out)
    }

    // Appends the body of a loop that begins at a place.
    #[cycle(statements)]
    fn looped(
        &self,
        course: &Loop,
        start: u32,
        quit: u32,
        body: &[Stmt],
        out: &mut Writer,
    ) -> Result<(), AllocError>
        ensures { (w : Written) → Stands out.old w →
            OnOk result (Stands out.new (looped (names_at self.now) (course_of course.now) (statements_of body.now) start quit w)) }
    {
        if goes_to_begin(course) {
            self.body_inside(start, quit, false, body, out)
        } else {
            self.up_to_next(quit, keeps_count(course), body, out)
        }
    }

    // Appends the body of a loop, after which its NEXT goes.
    #[cycle(statements)]
    fn up_to_next(
        &self,
        quit: u32,
        counted: bool,
        body: &[Stmt],
        out: &mut Writer,
    ) -> Result<(), AllocError>
        ensures { (w : Written) → Stands out.old w → OnOk result (Stands out.new (up_to_next (names_at self.now) quit counted (statements_of body.now) w)) }
    {
        let mut counter = out.counter();
        self.body_inside(0, quit, counted, body, &mut counter)?;
        if out.counts(counter.end, counter.jumps) {
            Ok(())
        } else {
            self.body_inside(counter.end, quit, counted, body, out)
        }
    }

    // Appends the body of a loop whose NEXT and QUIT go to these places.
    #[cycle(statements)]
    fn body_inside(
        &self,
        next: u32,
        quit: u32,
        counted: bool,
        statements: &[Stmt],
        out: &mut Writer,
    ) -> Result<(), AllocError>
        ensures { (w : Written) → Stands out.old w →
            OnOk result (Stands out.new (body (names_at self.now) (inside next quit counted) (statements_of statements.now) w)) }
    {
        let enclosing = Some(LoopPlaces {
            next,
            quit,
            counted,
        });
        let inner = Context { enclosing, ..*self };
        inner.body(statements, out)
    }
}
