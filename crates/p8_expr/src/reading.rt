// Reading an expression: the operators and the open forms are kept on a stack, and nothing recurses on what is read.
ghost use Rattle.std.specs.Prelude.{◌≡◌, ◌≢◌, ℕ, suc, ◌<◌, ◌≤◌, nat_lt, ◌&&◌, true, false, IsTrue};
ghost use Rattle.std.specs.Prelude.{◌↔◌, ◌⊎◌, IfOk, OnOk, List, ◌∷◌, length, Option, None, Some, min};
ghost use Rattle.p8_tree.specs.Expressions.{node};
ghost use Rattle.p8_tree.specs.Views.{form_of, tree_of, variable_of};
ghost use Rattle.p8_grammar.specs.Lexemes.{is_value, string, assigns, behind, inside};
ghost use Rattle.p8_grammar.specs.Grammar.{prefix_of, infix_of, is_boolean};
ghost use Rattle.p8_grammar.specs.Machine as machine;
ghost use Rattle.p8_grammar.specs.Machine.{Next, State, state, becoming, fresh, grow, assign_frame, infix_frame, inside_frame};
ghost use Rattle.p8_grammar.specs.Machine.{first_item, level_bound_of, tree_in, in_place, entered_all, prefixed, operate, step, accept};
ghost use Rattle.p8_grammar.specs.Heights.{height_in, height_in_variable};
ghost use Rattle.p8_grammar.specs.Least.{least, high_in_frame, high_in_hole};
ghost use Rattle.p8_grammar.specs.Views.{setting_of};
ghost use Rattle.p8_expr.specs.declared.form.Form as form;
ghost use Rattle.p8_expr.specs.declared.form.Stage.TheVariants as stage;
ghost use Rattle.p8_expr.specs.declared.form.Grown.TheVariants as grown_case;
ghost use Rattle.p8_expr.specs.Parsing.{greatest_height};
ghost use Rattle.p8_expr.specs.Views.{shape_of, hole_at, Grows, prefix_in, left_of, target_in, is_alone, frame_of};
ghost use Rattle.p8_expr.specs.Views.{frames_in, takes_text, closed_by, IsHigh, IsTall, IsTallAs, IsUsing, IsFilled};
ghost use Rattle.p8_expr.specs.Lookaheads.{Fits, HasNext, next_place, next_lexeme, next_token};
ghost use Rattle.p8_expr.specs.Reading.{IsEnded, is_inner, state_of, Has, Takes, Turns, EndsHere, ended_in};

use crate::form::{Form, Grown, Hole, Stage};
use crate::lookahead::Lookahead;
use crate::parts::Parts;
use crate::stack::{Frame, Level, Prefix, Stack};
use crate::token_cursor::TokenCursor;
use crate::value::{Value, lone, over, rank_below};
use p8_grammar::{Lexeme, Setting};
use p8_tree::{Expr, ExprKind, Place, Target};
use std::alloc::{AllocError, Global};
use std::mem;

/// How reading ends.
#[derive(Drop)]
pub enum Ended {
    /// What was read is an expression, up to the token of this number.
    Whole(Expr, usize),
    /// What was read begins an expression and is none, and none goes on with the token of this number; the least height of one that
    /// begins so.
    Broken(usize, u8),
    /// Each expression that begins so is too high.
    TooHigh,
}

/// A reader of one expression, with the form that is under way.
#[derive(Drop)]
struct Reader<'a> {
    ahead: Lookahead<'a>,
    stack: Stack,
    form: Form,
}

// How reading ends with a turn, if it does.
type Turn = Result<Option<Ended>, AllocError>;

// Whether a word goes on with what was read.
type Taken = Result<bool, AllocError>;

/// Reads the longest run of tokens that begins an expression, unless each one that begins so is higher than this.
pub fn read(
    alloc: Global,
    here: TokenCursor,
    setting: Setting,
    height: u8,
) -> Result<Ended, AllocError>
    requires within { here.at < length here.tokens }
    requires limit { height ≤ greatest_height }
    ensures { IfOk result (IsEnded (setting_of setting) height here.entry.bytes here.entry.tokens here.entry.at) }
{
    let mut reader = Reader {
        ahead: Lookahead::new(here, setting),
        stack: Stack::new(alloc),
        form: Form::new(alloc),
    };
    'turns: while reader.least() <= height {
        if let Some(ended) = reader.turn(alloc)? {
            return Ok(ended);
        }
    }
    Ok(Ended::TooHigh)
}

impl<'a> Reader<'a> {
    // The least height of an expression that begins so, counted up to 65.
    fn least(&self) -> u8
        requires { IsTall self.now.form }
        ensures { result ≡ min 65 (least (state_of self.now)) }
    {
        if self.form.is_fresh() {
            self.stack.operand_least()
        } else {
            self.stack.least(self.form.least())
        }
    }

    // Reads a word: tells how reading ends before it, if it does.
    fn turn(&mut self, alloc: Global) -> Turn
        requires fits { Fits self.old.ahead }
        requires tall { IsTall self.old.form }
        ensures { IfOk result (λ r. Turns (least (state_of self.old)) (state_of self.old) self.old.ahead r self.new) }
    {
        let least = self.least();
        let at = self.ahead.here.at();
        if self.is_inner() {
            return self.word(alloc);
        }
        if self.take(alloc)? {
            return Ok(None);
        }
        Ok(Some(Ended::Broken(at, least)))
    }

    // Whether more than the first words of a form are read, and no name behind a colon and no string comes.
    fn is_inner(&self) -> bool
        ensures { result ≡ is_inner (shape_of self.now.form) }
    {
        match &self.form.stage {
            Stage::Using => !self.form.parts.usage.is_reading(),
            Stage::Coloned => false,
            Stage::StringOpened => false,
            _ => true,
        }
    }

    // Reads a word where a form begins, or where nothing but a word of the form goes on with it: tells whether it does.
    fn take(&mut self, alloc: Global) -> Taken
        requires fits { Fits self.old.ahead }
        requires tall { IsTall self.old.form }
        requires inner { is_inner (shape_of self.old.form) ≡ false }
        ensures { IfOk result (λ b. Takes (state_of self.old) self.old.ahead b self.new) }
    {
        match &self.form.stage {
            Stage::Coloned => self.label(alloc),
            Stage::StringOpened => self.opened(alloc),
            _ => self.begin(alloc),
        }
    }

    // Behind the word, which has made this of the form.
    fn goes(&mut self, alloc: Global, grown: Grown) -> Result<(), AllocError>
        requires fits { Fits self.old.ahead }
        requires tall { IsTallAs grown self.old.form }
        requires some { grown ≢ grown_case.Not }
        ensures { (st : State) (o : Option Next) (f : form.Form) → Grows o f grown self.old.form →
            step st (next_token self.old.ahead) ≡ entered_all (setting_of self.old.ahead.setting) (frames_in self.old.stack) o →
            self.old.ahead.here.at < length self.old.ahead.here.tokens → OnOk result (Takes st self.old.ahead true self.new) }
    {
        match grown {
            Grown::Stays => {
                self.ahead.advance();
                Ok(())
            }
            Grown::Opens(hole, high) => {
                self.open(alloc, hole, high)?;
                self.ahead.advance();
                Ok(())
            }
            Grown::Not => unreachable!(),
        }
    }

    // An expression comes next in the form, where the highest one in it has this height.
    fn open(&mut self, alloc: Global, hole: Hole, high: u8) -> Result<(), AllocError>
        requires { high ≡ min 65 (high_in_hole (hole_at hole self.old.form.parts)) }
        ensures { OnOk result ((setting_of self.new.ahead.setting ≡ inside (setting_of self.old.ahead.setting)) × (shape_of self.new.form ≡ fresh) ×
            (frames_in self.new.stack ≡ inside_frame (setting_of self.old.ahead.setting) (hole_at hole self.old.form.parts) ∷ frames_in self.old.stack) ×
            (self.new.ahead.here ≡ self.old.ahead.here) × (self.new.ahead.lexeme ≡ self.old.ahead.lexeme) × IsTall self.new.form) }
    {
        let outer = self.ahead.setting;
        let parts = mem::replace(&mut self.form.parts, Parts::new(alloc));
        self.form = Form::new(alloc);
        self.stack.push(Frame::Inside { outer, hole, parts }, high)?;
        self.ahead.stand_in(outer.inside());
        Ok(())
    }

    // Behind the colon of a local label any word of letters is its name.
    fn label(&mut self, alloc: Global) -> Taken
        requires fits { Fits self.old.ahead }
        requires tall { IsTall self.old.form }
        requires stage { self.old.form.stage ≡ stage.Coloned }
        ensures { IfOk result (λ b. Takes (state_of self.old) self.old.ahead b self.new) }
    {
        if !self.ahead.here.is_label() {
            return Ok(false);
        }
        let name = self.ahead.here.label(alloc)?;
        self.form.on_label(name);
        self.ahead.advance();
        Ok(true)
    }

    // Where the first item of `STRING` comes: what is no string begins an expression.
    fn opened(&mut self, alloc: Global) -> Taken
        requires fits { Fits self.old.ahead }
        requires tall { IsTall self.old.form }
        requires stage { self.old.form.stage ≡ stage.StringOpened }
        ensures { IfOk result (λ b. Takes (state_of self.old) self.old.ahead b self.new) }
    {
        match self.ahead.lexeme {
            Lexeme::Str => match self.form.grow(alloc, &self.ahead)? {
                Grown::Not => Ok(false),
                grown => {
                    self.goes(alloc, grown)?;
                    Ok(true)
                }
            },
            _ => {
                self.open(alloc, Hole::FirstItem, 0)?;
                self.operand(alloc)
            }
        }
    }

    // Where an operand comes.
    fn begin(&mut self, alloc: Global) -> Taken
        requires fits { Fits self.old.ahead }
        requires tall { IsTall self.old.form }
        requires fresh { shape_of self.old.form ≡ fresh }
        ensures { IfOk result (λ b. Takes (state_of self.old) self.old.ahead b self.new) }
    {
        match self.ahead.lexeme {
            Lexeme::Str => self.string(alloc),
            _ => self.operand(alloc),
        }
    }

    // A string where an operand comes, which may be an item's text.
    fn string(&mut self, alloc: Global) -> Taken
        requires fits { Fits self.old.ahead }
        requires tall { IsTall self.old.form }
        requires fresh { shape_of self.old.form ≡ fresh }
        ensures { (t : List ℕ) → HasNext self.old.ahead (string t) → IfOk result (λ b. Takes (state_of self.old) self.old.ahead b self.new) }
    {
        if self.ahead.here.quoted_length() <= 1 {
            return self.operand(alloc);
        }
        if self.stack.takes_text() {
            self.text(alloc)
        } else {
            self.operand(alloc)
        }
    }

    // A string of several characters in place of an item.
    fn text(&mut self, alloc: Global) -> Taken
        requires fits { Fits self.old.ahead }
        requires takes { takes_text (frames_in self.old.stack) ≡ true }
        ensures { (t : List ℕ) → shape_of self.old.form ≡ fresh → HasNext self.old.ahead (string t) → 1 < length t →
            IfOk result (λ b. Takes (state_of self.old) self.old.ahead b self.new) }
    {
        match self.stack.pop() {
            Some(level) => {
                let high = level.high.max(1);
                match level.frame.into_opened() {
                    Some(opened) => {
                        let stage = opened.hole.with_text(alloc, &self.ahead)?;
                        let parts = opened.parts;
                        self.form = Form { stage, parts, high };
                        self.ahead.stand_in(opened.outer);
                        self.ahead.advance();
                        Ok(true)
                    }
                    None => unreachable!(),
                }
            }
            None => unreachable!(),
        }
    }

    // A word where an operand comes, and no item's text.
    fn operand(&mut self, alloc: Global) -> Taken
        requires fits { Fits self.old.ahead }
        requires tall { IsTall self.old.form }
        requires fresh { shape_of self.old.form ≡ fresh }
        ensures { in_place (next_lexeme self.old.ahead) fresh (frames_in self.old.stack) (next_place self.old.ahead) ≡ None →
            IfOk result (λ b. Takes (state_of self.old) self.old.ahead b self.new) }
    {
        match self.form.grow(alloc, &self.ahead)? {
            Grown::Not => self.before(alloc),
            grown => {
                self.goes(alloc, grown)?;
                Ok(true)
            }
        }
    }

    // A word that begins no form, where an operand comes: `=` assigns a variable with AND or OR.
    fn before(&mut self, alloc: Global) -> Taken
        requires fits { Fits self.old.ahead }
        requires tall { IsTall self.old.form }
        requires fresh { shape_of self.old.form ≡ fresh }
        ensures { (st : State) → step st (next_token self.old.ahead) ≡
            machine.otherwise (setting_of self.old.ahead.setting) fresh (frames_in self.old.stack) (next_place self.old.ahead) (next_lexeme self.old.ahead) →
            IfOk result (λ b. Takes st self.old.ahead b self.new) }
    {
        if self.ahead.has_equal() {
            return match self.stack.pop_assigned() {
                Some(it) => {
                    self.assign_to(alloc, Some(it.code), it.place, it.variable, it.high)?;
                    Ok(true)
                }
                None => Ok(false),
            };
        }
        match self.ahead.lexeme {
            Lexeme::Prefix(rank, code) => self.prefix(Prefix::Unary(rank, code)),
            Lexeme::Sign(code, _) => self.prefix(Prefix::Unary(1, code)),
            Lexeme::ObjectAddress => self.prefix(Prefix::ObjectAddress),
            _ => Ok(false),
        }
    }

    // An operator before its operand.
    fn prefix(&mut self, operator: Prefix) -> Taken
        requires fits { Fits self.old.ahead }
        requires tall { IsTall self.old.form }
        requires fresh { shape_of self.old.form ≡ fresh }
        ensures { (st : State) → prefix_of (next_lexeme self.old.ahead) ≡ Some (prefix_in operator) → step st (next_token self.old.ahead) ≡
            prefixed (setting_of self.old.ahead.setting) (Some (prefix_in operator)) (next_place self.old.ahead) (frames_in self.old.stack) →
            IfOk result (λ b. Takes st self.old.ahead b self.new) }
    {
        if !self.ahead.setting.is_value() {
            return Ok(false);
        }
        if operator.level() >= self.stack.level_bound() {
            return Ok(false);
        }
        let place = self.ahead.place();
        self.stack.push(Frame::Prefix { operator, place }, 0)?;
        self.ahead.advance();
        Ok(true)
    }

    // An assignment, whose last word is next.
    fn assign_to(
        &mut self,
        alloc: Global,
        operator: Option<u8>,
        place: Place,
        variable: Target,
        high: u8,
    ) -> Result<(), AllocError>
        requires fits { Fits self.old.ahead }
        requires high { high ≡ min 65 (height_in_variable (variable_of variable)) }
        ensures { (st : State) → self.old.ahead.here.at < length self.old.ahead.here.tokens → step st (next_token self.old.ahead) ≡
            Some (state (behind (setting_of self.old.ahead.setting)) fresh (assign_frame operator place (variable_of variable) ∷ frames_in self.old.stack)) →
            OnOk result (Takes st self.old.ahead true self.new) }
    {
        self.stack.push(
            Frame::Assign {
                operator,
                place,
                variable,
            },
            high,
        )?;
        self.form = Form::new(alloc);
        self.ahead.advance();
        let setting = self.ahead.setting.behind();
        self.ahead.stand_in(setting);
        Ok(())
    }

    // A word of the form, or one behind it.
    fn word(&mut self, alloc: Global) -> Turn
        requires fits { Fits self.old.ahead }
        requires tall { IsTall self.old.form }
        requires inner { is_inner (shape_of self.old.form) ≡ true }
        ensures { IfOk result (λ r. Turns (least (state_of self.old)) (state_of self.old) self.old.ahead r self.new) }
    {
        let low = self.least();
        match self.form.grow(alloc, &self.ahead)? {
            Grown::Not => self.beyond(alloc, low),
            grown => {
                self.goes(alloc, grown)?;
                Ok(None)
            }
        }
    }

    // A word that doesn't belong to the form, of which this is the least height.
    fn beyond(&mut self, alloc: Global, low: u8) -> Turn
        requires fits { Fits self.old.ahead }
        requires tall { IsTall self.old.form }
        requires inner { is_inner (shape_of self.old.form) ≡ true }
        requires low { low ≡ min 65 (least (state_of self.old)) }
        requires stuck { grow (setting_of self.old.ahead.setting) (shape_of self.old.form) (next_place self.old.ahead) (next_lexeme self.old.ahead) ≡ None }
        ensures { IfOk result (λ r. Turns (least (state_of self.old)) (state_of self.old) self.old.ahead r self.new) }
    {
        let at = self.ahead.here.at();
        match &self.form.stage {
            Stage::StringRead => {
                if self.character(alloc)? {
                    return Ok(None);
                }
                Ok(Some(Ended::Broken(at, low)))
            }
            _ => match self.form.value(alloc)? {
                Some(value) => self.go_on(alloc, value),
                None => Ok(Some(Ended::Broken(at, low))),
            },
        }
    }

    // Behind a string where the first item of `STRING` comes: with an operator it is a character's code.
    fn character(&mut self, alloc: Global) -> Taken
        requires fits { Fits self.old.ahead }
        requires stage { self.old.form.stage ≡ stage.StringRead }
        requires stuck { grow (setting_of self.old.ahead.setting) (shape_of self.old.form) (next_place self.old.ahead) (next_lexeme self.old.ahead) ≡ None }
        ensures { IfOk result (λ b. Takes (state_of self.old) self.old.ahead b self.new) }
    {
        match lone(&self.form.parts.name) {
            Some(character) => self.numbered(alloc, ExprKind::Number(u32::from(character))),
            None => Ok(false),
        }
    }

    // Behind a number where the first item of `STRING` comes: an operator may.
    fn numbered(&mut self, alloc: Global, number: ExprKind) -> Taken
        requires fits { Fits self.old.ahead }
        requires low { height_in (form_of number) ≡ 0 }
        ensures { (st : State) → step st (next_token self.old.ahead) ≡
            operate (inside (setting_of self.old.ahead.setting)) None (infix_of (next_lexeme self.old.ahead)) (next_place self.old.ahead) (node self.old.form.parts.at (form_of number))
            (inside_frame (setting_of self.old.ahead.setting) (first_item self.old.form.parts.place) ∷ frames_in self.old.stack) →
            IfOk result (λ b. Takes st self.old.ahead b self.new) }
    {
        match self.ahead.lexeme {
            Lexeme::Infix(rank, operator) => match rank_below(rank) {
                Some(lower) => self.first_operand(alloc, number, lower, operator),
                None => {
                    drop(number);
                    Ok(false)
                }
            },
            Lexeme::Sign(_, operator) => self.first_operand(alloc, number, 5, operator),
            _ => {
                drop(number);
                Ok(false)
            }
        }
    }

    // The first item of `STRING` begins with a number and an operator, which is next.
    fn first_operand(&mut self, alloc: Global, number: ExprKind, lower: u8, code: u8) -> Taken
        requires fits { Fits self.old.ahead }
        requires rank { lower < 10 }
        requires low { height_in (form_of number) ≡ 0 }
        ensures { (st : State) → infix_of (next_lexeme self.old.ahead) ≡ Some (suc lower, code) → step st (next_token self.old.ahead) ≡
            operate (inside (setting_of self.old.ahead.setting)) None (Some (suc lower, code)) (next_place self.old.ahead) (node self.old.form.parts.at (form_of number))
            (inside_frame (setting_of self.old.ahead.setting) (first_item self.old.form.parts.place) ∷ frames_in self.old.stack) →
            IfOk result (λ b. Takes st self.old.ahead b self.new) }
    {
        let left = Value::form(alloc, self.form.parts.at, number, 0)?;
        self.open(alloc, Hole::FirstItem, 0)?;
        self.infix(alloc, lower, code, left)?;
        Ok(true)
    }

    // The word after an operand.
    fn go_on(&mut self, alloc: Global, value: Value) -> Turn
        requires fits { Fits self.old.ahead }
        requires high { IsHigh value }
        ensures { (st : State) → Has self.old.ahead (frames_in self.old.stack) value st →
            IfOk result (λ r. Turns (least st) st self.old.ahead r self.new) }
    {
        match self.ahead.lexeme {
            Lexeme::Assigns(operator) => self.assign(alloc, operator, value),
            Lexeme::Infix(rank, code) => match rank_below(rank) {
                Some(lower) => self.operate(alloc, lower, code, value),
                None => self.end(alloc, value),
            },
            Lexeme::Sign(_, code) => self.operate(alloc, 5, code, value),
            _ => self.end(alloc, value),
        }
    }

    // `:=` and the like.
    fn assign(&mut self, alloc: Global, operator: Option<u8>, value: Value) -> Turn
        requires fits { Fits self.old.ahead }
        requires high { IsHigh value }
        ensures { (st : State) → Has self.old.ahead (frames_in self.old.stack) value st → HasNext self.old.ahead (assigns operator) →
            IfOk result (λ r. Turns (least st) st self.old.ahead r self.new) }
    {
        if self.stack.level_bound() <= 21 {
            return self.end(alloc, value);
        }
        match value {
            Value::Variable { variable, high, .. } => {
                let place = self.ahead.place();
                self.assign_to(alloc, operator, place, variable, high)?;
                Ok(None)
            }
            other => self.end(alloc, other),
        }
    }

    // An operator between operands, of a rank that is one more than `lower`: AND and OR behind a variable keep it, since `=` may come.
    fn operate(&mut self, alloc: Global, lower: u8, code: u8, value: Value) -> Turn
        requires fits { Fits self.old.ahead }
        requires high { IsHigh value }
        requires rank { lower < 10 }
        ensures { (st : State) → Has self.old.ahead (frames_in self.old.stack) value st → infix_of (next_lexeme self.old.ahead) ≡ Some (suc lower, code) →
            IfOk result (λ r. Turns (least st) st self.old.ahead r self.new) }
    {
        let may_assign = self.may_assign(lower + 1);
        if !self.ahead.setting.is_value() {
            return self.wait(alloc, may_assign, code, value);
        }
        if may_assign {
            self.infix(alloc, lower, code, value)?;
            return Ok(None);
        }
        let left = self.stack.reduce(alloc, 2 * (u32::from(lower) + 1), value)?;
        self.infix(alloc, lower, code, left)?;
        Ok(None)
    }

    // Whether an operator of this rank is AND or OR, and an assignment may stand here.
    fn may_assign(&self, rank: u8) -> bool
        ensures { result ≡ (is_boolean rank && nat_lt 21 (level_bound_of (frames_in self.now.stack))) }
    {
        9 <= rank && rank <= 10 && 21 < self.stack.level_bound()
    }

    // An operator between operands, which is next, with its left operand.
    fn infix(&mut self, alloc: Global, lower: u8, code: u8, left: Value) -> Result<(), AllocError>
        requires fits { Fits self.old.ahead }
        requires high { IsHigh left }
        ensures { (st : State) → self.old.ahead.here.at < length self.old.ahead.here.tokens → step st (next_token self.old.ahead) ≡
            Some (state (setting_of self.old.ahead.setting) fresh (infix_frame lower code (next_place self.old.ahead) (left_of left) ∷ frames_in self.old.stack)) →
            OnOk result (Takes st self.old.ahead true self.new) }
    {
        let place = self.ahead.place();
        let high = left.high();
        let frame = Frame::Infix {
            lower,
            code,
            place,
            left,
        };
        self.stack.push(frame, high)?;
        self.form = Form::new(alloc);
        self.ahead.advance();
        Ok(())
    }

    // An operator behind what an action begins with: nothing but AND or OR and `=` may come.
    fn wait(&mut self, alloc: Global, may_assign: bool, code: u8, value: Value) -> Turn
        requires fits { Fits self.old.ahead }
        requires high { IsHigh value }
        ensures { (st : State) (r : ℕ) → Has self.old.ahead (frames_in self.old.stack) value st → is_value (setting_of self.old.ahead.setting) ≡ false →
            infix_of (next_lexeme self.old.ahead) ≡ Some (suc r, code) →
            may_assign ≡ (is_boolean (suc r) && nat_lt 21 (level_bound_of (frames_in self.old.stack))) →
            IfOk result (λ r. Turns (least st) st self.old.ahead r self.new) }
    {
        if !may_assign {
            return self.end(alloc, value);
        }
        match value {
            Value::Variable { variable, high, .. } => self.await_equal(alloc, code, variable, high),
            other => self.end(alloc, other),
        }
    }

    // AND or OR behind an action's variable, which is next: `=` must come.
    fn await_equal(&mut self, alloc: Global, code: u8, variable: Target, high: u8) -> Turn
        requires fits { Fits self.old.ahead }
        requires high { high ≡ min 65 (height_in_variable (variable_of variable)) }
        ensures { (st : State) (l : ℕ) → self.old.ahead.here.at < length self.old.ahead.here.tokens → step st (next_token self.old.ahead) ≡
            Some (becoming (setting_of self.old.ahead.setting) code (next_place self.old.ahead) (variable_of variable) (frames_in self.old.stack)) →
            IfOk result (λ r. Turns l st self.old.ahead r self.new) }
    {
        let place = self.ahead.place();
        self.ahead.advance();
        if self.ahead.has_equal() {
            self.assign_to(alloc, Some(code), place, variable, high)?;
            return Ok(None);
        }
        drop(variable);
        let least = self.stack.least(over(high.max(1)));
        Ok(Some(Ended::Broken(self.ahead.here.at(), least)))
    }

    // The end of the innermost expression: a mark may end it.
    fn end(&mut self, alloc: Global, value: Value) -> Turn
        requires fits { Fits self.old.ahead }
        requires high { IsHigh value }
        ensures { (st : State) → Has self.old.ahead (frames_in self.old.stack) value st → EndsHere value (frames_in self.old.stack) self.old.ahead →
            IfOk result (λ r. Turns (least st) st self.old.ahead r self.new) }
    {
        let at = self.ahead.here.at();
        let least = self.stack.least(value.high());
        let is_whole = self.is_whole(&value);
        let value = self.stack.reduce(alloc, 22, value)?;
        match self.stack.pop() {
            Some(level) => self.close(alloc, level, value, least),
            None => {
                if is_whole {
                    let tree = value.into_tree(alloc)?;
                    Ok(Some(Ended::Whole(Box::into_inner(tree), at)))
                } else {
                    drop(value);
                    Ok(Some(Ended::Broken(at, least)))
                }
            }
        }
    }

    // Whether an operand may stand alone here.
    fn is_whole(&self, value: &Value) -> bool
        ensures { IsTrue result ↔ (IsTrue (is_value (setting_of self.now.ahead.setting)) ⊎ ((target_in value.now ≡ None) ⊎ (is_alone value.now ≡ true))) }
    {
        if self.ahead.setting.is_value() {
            true
        } else {
            value.is_action()
        }
    }

    // The end of an expression in the frame that was begun last: the least height of one that breaks off here.
    fn close(&mut self, alloc: Global, level: Level, value: Value, low: u8) -> Turn
        requires fits { Fits self.old.ahead }
        requires high { IsHigh value }
        requires level { level.high ≡ min 65 (high_in_frame (frame_of level.frame)) }
        ensures { (st : State) → accept st ≡ None → low ≡ min 65 (least st) → step st (next_token self.old.ahead) ≡
            ended_in (next_lexeme self.old.ahead) (tree_in (left_of value)) (frame_of level.frame ∷ frames_in self.old.stack) →
            IfOk result (λ r. Turns (least st) st self.old.ahead r self.new) }
    {
        let high = level.high.max(value.high());
        let tree = value.into_tree(alloc)?;
        match level.frame.into_opened() {
            Some(opened) => {
                self.form = Form {
                    stage: Stage::Using,
                    parts: opened.parts,
                    high,
                };
                self.fill(alloc, opened.outer, opened.hole, tree, low)
            }
            None => {
                drop(tree);
                Ok(Some(Ended::Broken(self.ahead.here.at(), low)))
            }
        }
    }

    // The end of the expression that the form waits for, which stands in this setting: the least height of one that breaks off here.
    fn fill(&mut self, alloc: Global, outer: Setting, hole: Hole, tree: Box<Expr>, low: u8) -> Turn
        requires fits { Fits self.old.ahead }
        requires begun { IsUsing self.old.form }
        requires filled { IsFilled self.old.form hole (tree_of tree.value) }
        ensures { (st : State) → accept st ≡ None → low ≡ min 65 (least st) → step st (next_token self.old.ahead) ≡
            entered_all (setting_of outer) (frames_in self.old.stack) (closed_by (next_lexeme self.old.ahead) (hole_at hole self.old.form.parts) (tree_of tree.value)) →
            IfOk result (λ r. Turns (least st) st self.old.ahead r self.new) }
    {
        match self.form.close(alloc, self.ahead.lexeme, hole, tree)? {
            Grown::Not => Ok(Some(Ended::Broken(self.ahead.here.at(), low))),
            grown => {
                self.ahead.stand_in(outer);
                self.goes(alloc, grown)?;
                Ok(None)
            }
        }
    }
}
