// What is begun and waits for an operand or an expression, the last first.
ghost use Rattle.std.specs.Prelude.{◌≡◌, ℕ, ◌+◌, ◌*◌, ◌<◌, None, [], ◌∷◌, OnOk, IfOk, MatchOption, option_copied, List, min, max};
ghost use Rattle.p8_tree.specs.Views.{tree_of, variable_of};
ghost use Rattle.p8_grammar.specs.Machine.{level_bound, level_bound_of, wrap, reduce, left_tree, tree_in};
ghost use Rattle.p8_grammar.specs.Grammar.{rank};
ghost use Rattle.p8_grammar.specs.Heights.{height_in_variable};
ghost use Rattle.p8_grammar.specs.Least.{need, high_in_frame, adds_frame, depth, base, operand_least};
ghost use Rattle.p8_grammar.specs.Views.{setting_of};
ghost use Rattle.p8_expr.specs.Views.{prefix_in, hole_at, frame_of, frames_in, left_of, IsHigh, IsHighLeft, IsMeasured, first_level, Alone, takes_text};
ghost use Rattle.p8_grammar.specs.Lexemes as lexemes;
ghost use Rattle.p8_grammar.specs.Machine as machine;

use crate::form::Hole;
use crate::parts::Parts;
use crate::value::{TOO_HIGH, Value, over};
use p8_grammar::Setting;
use p8_tree::{Expr, ExprKind, Place, Target};
use std::alloc::{AllocError, Global};
use std::marker::Model;

/// An operator before its operand.
#[derive(Clone, Copy)]
pub enum Prefix {
    /// `@@`
    ObjectAddress,
    /// Its rank and its bytecode.
    Unary(u8, u8),
}

impl Prefix {
    /// Its level: it may stand where a lower one may not.
    pub fn level(self) -> u32
        ensures { result ≡ 2 * rank (prefix_in self) + 1 }
    {
        match self {
            Prefix::ObjectAddress => 1,
            Prefix::Unary(rank, _) => 2 * u32::from(rank) + 1,
        }
    }

    // The level that its operand stays below.
    fn level_bound(self) -> u32
        ensures { result ≡ 2 * rank (prefix_in self) + 2 }
    {
        match self {
            Prefix::ObjectAddress => 2,
            Prefix::Unary(rank, _) => 2 * u32::from(rank) + 2,
        }
    }
}

/// What is begun and waits for an operand or an expression.
#[derive(Drop)]
pub enum Frame {
    Prefix {
        operator: Prefix,
        place: Place,
    },
    /// An operator between operands, of a rank that is one more than `lower`. The left operand is a variable where `=` may
    /// come next and assign it.
    Infix {
        lower: u8,
        code: u8,
        place: Place,
        left: Value,
    },
    Assign {
        operator: Option<u8>,
        place: Place,
        variable: Target,
    },
    /// A form with the setting that it stands in.
    Inside {
        outer: Setting,
        hole: Hole,
        parts: Parts,
    },
}

impl Frame {
    // The level that the operand after it stays below.
    fn level_bound(&self) -> u32
        ensures { result ≡ level_bound (frame_of self.now) }
    {
        match self {
            Frame::Prefix { operator, .. } => operator.level_bound(),
            Frame::Infix { lower, .. } => 2 * (u32::from(*lower) + 1),
            Frame::Assign { .. } => 22,
            Frame::Inside { .. } => 23,
        }
    }

    // What it adds to the height of what comes next.
    fn adds(&self) -> u8
        ensures { result ≡ adds_frame (frame_of self.now) }
    {
        match self {
            Frame::Inside {
                hole: Hole::Parenthesis,
                ..
            } => 0,
            _ => 1,
        }
    }

    // Whether a string of several characters may stand in place of the expression in it.
    fn takes_text(&self) -> bool
        ensures { (k : List machine.Frame) → result ≡ takes_text (frame_of self.now ∷ k) }
    {
        match self {
            Frame::Inside { hole, .. } => hole.takes_text(),
            _ => false,
        }
    }

    // The least height of what it may become without an operand.
    fn least_alone(&self) -> Option<u8>
        ensures { IsHighLeft self.now → (k : List machine.Frame) → Alone result (frame_of self.now) k }
    {
        match self {
            Frame::Infix { left, .. } => left.least_assigned(),
            _ => None,
        }
    }

    // AND or OR with the variable before it, which `=` may assign.
    fn into_assigned(self) -> Option<Assigned>
        ensures { IsHighLeft self → MatchOption result ((s : lexemes.Setting) (k : List machine.Frame) → machine.assigned s (frame_of self ∷ k) ≡ None)
            (λ a. (a.high ≡ min 65 (height_in_variable (variable_of a.variable))) ×
            ((r : ℕ) × (frame_of self ≡ machine.infix_frame r a.code a.place (machine.left_variable (variable_of a.variable))))) }
    {
        match self {
            Frame::Infix {
                code,
                place,
                left,
                ..
            } => match left.into_variable() {
                Some((variable, high)) => Some(Assigned {
                    code,
                    place,
                    variable,
                    high,
                }),
                None => None,
            },
            other => {
                drop(other);
                None
            }
        }
    }

    /// The form that waits for an expression, if it is one.
    pub fn into_opened(self) -> Option<Opened>
        ensures { MatchOption result ((s : lexemes.Setting) (h : machine.Hole) → ¬ (frame_of self ≡ machine.inside_frame s h))
            (λ x. frame_of self ≡ machine.inside_frame (setting_of x.outer) (hole_at x.hole x.parts)) }
    {
        match self {
            Frame::Inside { outer, hole, parts } => Some(Opened { outer, hole, parts }),
            other => {
                drop(other);
                None
            }
        }
    }

    // It with its operand.
    fn wrap(self, alloc: Global, tree: Box<Expr>) -> Result<Box<Expr>, AllocError>
        ensures { IfOk result (λ e. tree_of e.value ≡ wrap (frame_of self) (tree_of tree.value)) }
    {
        let (place, kind) = match self {
            Frame::Prefix { operator, place } => match operator {
                Prefix::ObjectAddress => (place, ExprKind::ObjectAddress(tree)),
                Prefix::Unary(_, code) => (place, ExprKind::Unary(code, tree)),
            },
            Frame::Infix {
                code,
                place,
                left,
                ..
            } => {
                let left = left.into_tree(alloc)?;
                (place, ExprKind::Binary(code, left, tree))
            }
            Frame::Assign {
                operator,
                place,
                variable,
            } => (place, ExprKind::Assign(variable, operator, tree)),
            Frame::Inside { hole, parts, .. } => {
                drop(hole);
                drop(parts);
                return Ok(tree);
            }
        };
        Ok(Box::new(alloc, Expr { place, kind })?)
    }
}

/// A form that waits for an expression, and the setting that it stands in.
#[derive(Drop)]
pub struct Opened {
    pub outer: Setting,
    pub hole: Hole,
    pub parts: Parts,
}

/// A variable that is assigned by AND or OR, with the operator's bytecode and place, and with the height of the highest expression in
/// the variable.
#[derive(Drop)]
pub struct Assigned {
    pub code: u8,
    pub place: Place,
    pub variable: Target,
    pub high: u8,
}

/// What frames do to the height h of what comes next: it becomes the greater of `base` and h + `depth`. All are counted up to 65.
#[derive(Clone, Copy)]
struct Bounds {
    base: u8,
    depth: u8,
}

impl Bounds {
    // The least height of an expression with an operand of a height.
    fn least(self, high: u8) -> u8
        ensures { result ≡ max self.base (min (min high 65 + self.depth) 65) }
    {
        let operand = high.min(TOO_HIGH).saturating_add(self.depth);
        self.base.max(operand.min(TOO_HIGH))
    }
}

/// A frame with the height of the highest expression in it, counted up to 65, and what the frames below do.
#[derive(Drop)]
pub struct Level {
    pub frame: Frame,
    pub high: u8,
    below: Bounds,
}

impl Level {
    // What its frame and those below do.
    fn bounds(&self) -> Bounds
        ensures depth { result.depth ≡ min (self.now.below.depth + adds_frame (frame_of self.now.frame)) 65 }
        ensures base { result.base ≡ max self.now.below.base (min (self.now.high + result.depth) 65) }
    {
        let depth = self
            .below
            .depth
            .saturating_add(self.frame.adds())
            .min(TOO_HIGH);
        let highest = self.high.saturating_add(depth).min(TOO_HIGH);
        let base = self.below.base.max(highest);
        Bounds { base, depth }
    }

    // The least height of an expression where an operand comes next.
    fn operand_least(&self) -> u8
        ensures { (k : List machine.Frame) → self.now.high ≡ min 65 (high_in_frame (frame_of self.now.frame)) →
            self.now.below.base ≡ min 65 (base k) → self.now.below.depth ≡ min 65 (depth k) → IsHighLeft self.now.frame →
            result ≡ min 65 (operand_least (frame_of self.now.frame ∷ k)) }
    {
        match self.frame.least_alone() {
            Some(high) => self.below.least(high),
            None => self.bounds().least(1),
        }
    }
}

/// What is begun.
#[derive(Drop)]
pub struct Stack {
    levels: Vec<Level>,
}

impl Model for Stack {
    ghost use Rattle.std.specs.Prelude.{List, reverse};
    ghost use Rattle.std.specs.Coded.{codes};
    ghost use Rattle.p8_expr.specs.declared.stack.Level as level;
    ghost use Rattle.p8_expr.specs.contracts.stack.Level as coded_level;
    ghost use Rattle.p8_expr.specs.Views.{IsMeasured};

    ghost Value = { List level.Level };

    ghost coded = { Prim.hlevel (codes, coded_level.the_row.coded) };

    ghost view = { λ s. reverse s.levels.items };

    ghost invariant = { λ s. IsMeasured (reverse s.levels.items) };
}

impl Stack {
    /// Nothing is begun.
    pub fn new(alloc: Global) -> Self
        ensures { frames_in result ≡ [] }
    {
        Stack {
            levels: Vec::new(alloc),
        }
    }

    // Puts a level on top, whose bounds are right.
    fn push_level(&mut self, level: Level) -> Result<(), AllocError>
        requires { IsMeasured (level ∷ self.old) }
        ensures { OnOk result (self.new ≡ level ∷ self.old) }
    {
        self.levels.push(level)?;
        Ok(())
    }

    // The last level.
    fn last(&self) -> Option<&Level>
        ensures first { option_copied result ≡ first_level self.now }
        ensures measured { IsMeasured self.now }
    {
        self.levels.last()
    }

    fn bounds(&self) -> Bounds
        ensures base { result.base ≡ min 65 (base (frames_in self.now)) }
        ensures depth { result.depth ≡ min 65 (depth (frames_in self.now)) }
        ensures measured { IsMeasured self.now }
    {
        match self.last() {
            Some(level) => level.bounds(),
            None => Bounds { base: 0, depth: 0 },
        }
    }

    /// Begins something more, where the highest expression in it has this height.
    pub fn push(&mut self, frame: Frame, high: u8) -> Result<(), AllocError>
        requires high { high ≡ min 65 (high_in_frame (frame_of frame)) }
        requires left { IsHighLeft frame }
        ensures { OnOk result (frames_in self.new ≡ frame_of frame ∷ frames_in self.old) }
    {
        let below = self.bounds();
        self.push_level(Level { frame, high, below })
    }

    /// Ends what was begun last.
    pub fn pop(&mut self) -> Option<Level>
        ensures { MatchOption result ((self.old ≡ []) × (self.new ≡ [])) (λ l. (self.old ≡ l ∷ self.new) × (l.high ≡ min 65 (high_in_frame (frame_of l.frame))) × IsHighLeft l.frame) }
    {
        self.levels.pop()
    }

    /// Ends what was begun last: tells AND or OR with the variable before it, which `=` may assign.
    pub fn pop_assigned(&mut self) -> Option<Assigned>
        ensures { MatchOption result ((s : lexemes.Setting) → machine.assigned s (frames_in self.old) ≡ None)
            (λ a. (a.high ≡ min 65 (height_in_variable (variable_of a.variable))) × ((r : ℕ) ×
            (frames_in self.old ≡ machine.infix_frame r a.code a.place (machine.left_variable (variable_of a.variable)) ∷ frames_in self.new))) }
    {
        match self.pop() {
            Some(level) => level.frame.into_assigned(),
            None => None,
        }
    }

    /// Whether a string of several characters may stand in place of the expression that comes next.
    pub fn takes_text(&self) -> bool
        ensures { result ≡ takes_text (frames_in self.now) }
    {
        match self.last() {
            Some(level) => level.frame.takes_text(),
            None => false,
        }
    }

    /// The level that what comes next stays below.
    pub fn level_bound(&self) -> u32
        ensures { result ≡ level_bound_of (frames_in self.now) }
    {
        match self.levels.last() {
            Some(level) => level.frame.level_bound(),
            None => 23,
        }
    }

    /// The least height of an expression with an operand of a height.
    pub fn least(&self, high: u8) -> u8
        ensures { (h : ℕ) → high ≡ min 65 h → result ≡ min 65 (need h (frames_in self.now)) }
    {
        self.bounds().least(high)
    }

    /// The least height of an expression where an operand comes next: in place of the right operand of AND or OR `=` may
    /// come.
    pub fn operand_least(&self) -> u8
        ensures { result ≡ min 65 (operand_least (frames_in self.now)) }
    {
        match self.last() {
            Some(level) => level.operand_least(),
            None => 1,
        }
    }

    /// Ends the frames whose operators bind at least as tightly as this level.
    pub fn reduce(&mut self, alloc: Global, level: u32, value: Value) -> Result<Value, AllocError>
        requires level { level < 23 }
        requires high { IsHigh value }
        ensures reduced { IfOk result (λ v. reduce level (tree_in (left_of value)) (frames_in self.old) ≡ (tree_in (left_of v), frames_in self.new)) }
        ensures tree { IfOk result (λ v. left_of v ≡ left_tree (tree_in (left_of v))) }
        ensures high { IfOk result (λ v. IsHigh v) }
    {
        let mut high = value.high();
        let mut tree = value.into_tree(alloc)?;
        'ends: while self.level_bound() <= level {
            match self.pop() {
                Some(ended) => {
                    high = over(high.max(ended.high));
                    tree = ended.frame.wrap(alloc, tree)?;
                }
                None => unreachable!(),
            }
        }
        Ok(Value::Tree { tree, high })
    }
}
