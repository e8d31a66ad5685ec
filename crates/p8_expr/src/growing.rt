// What a form is with one more word: a line for each row of the grammar's tables.
ghost use Rattle.std.specs.Prelude.{◌≡◌, ◌≢◌, IfOk, ℕ, List, IsTrue, true, false};
ghost use Rattle.p8_grammar.specs.Lexemes as lexemes;
ghost use Rattle.p8_grammar.specs.Lexemes.{mark as mark_word, left_parenthesis, right_parenthesis, left_bracket, comma, colon, dot, hash, backslash};
ghost use Rattle.p8_grammar.specs.Lexemes.{name as name_word, method_result, string, size as size_word, register as register_word, changes};
ghost use Rattle.p8_grammar.specs.Machine.{grow, fresh, first, altering, named};
ghost use Rattle.p8_grammar.specs.Grammar.{effect_of, unary};
ghost use Rattle.p8_grammar.specs.Views.{setting_of, access_of, mark_of, lexeme_of};
ghost use Rattle.p8_expr.specs.declared.form.Stage.TheVariants as stage;
ghost use Rattle.p8_expr.specs.Lookaheads.{Fits, next_place, next_lexeme};
ghost use Rattle.p8_expr.specs.Views.{shape_of, IsTall, Grows, IsTallAs, use_of, IsUsing, is_rest, is_other};
ghost use Rattle.p8_tree.specs.declared.places.Place.{Place};

use crate::form::{Form, Grown, Hole, Stage};
use crate::lookahead::Lookahead;
use crate::parts::{Use, taken};
use crate::value::quoted;
use p8_grammar::{Access, Lexeme, Punctuation, Setting};
use p8_tree::{ExprKind, Place, Text};
use p8_words::ADD;
use std::alloc::{AllocError, Global};
use std::mem;

/// What becomes of a form with a word, if there is memory.
pub type Growth = Result<Grown, AllocError>;

impl Form {
    /// With the word that is next, where that is no name behind the colon of a local label.
    pub fn grow(&mut self, alloc: Global, ahead: &Lookahead) -> Growth
        requires fits { Fits ahead.now }
        requires apart { self.old.stage ≢ stage.Coloned }
        ensures comes { IfOk result (λ g. Grows (grow (setting_of ahead.now.setting) (shape_of self.old) (next_place ahead.now) (next_lexeme ahead.now)) self.old g self.new) }
        ensures tall { IsTall self.old → IfOk result (λ g. IsTallAs g self.new) }
    {
        let place = ahead.place();
        let setting = ahead.setting;
        match ahead.lexeme {
            Lexeme::Name => {
                let name = ahead.here.name(alloc)?;
                self.on_name(alloc, place, name)
            }
            Lexeme::MethodResult => self.on_result(alloc, place),
            Lexeme::Str => {
                let text = ahead.here.quoted(alloc)?;
                self.on_string(alloc, setting, place, text)
            }
            Lexeme::Mark(mark) => self.on_mark(alloc, setting, place, mark),
            Lexeme::Size(size) => Ok(self.on_size(setting, place, size)),
            Lexeme::Register(address, access) => {
                Ok(self.on_register(setting, place, address, access))
            }
            Lexeme::Changes(before, after) => self.on_change(alloc, place, before, after),
            other => {
                if self.is_fresh() {
                    self.first(alloc, setting, place, other)
                } else {
                    Ok(Grown::Not)
                }
            }
        }
    }

    // With a name.
    fn on_name(&mut self, alloc: Global, place: Place, name: Text) -> Growth
        requires { self.old.stage ≢ stage.Coloned }
        ensures comes { (s : lexemes.Setting) → IfOk result (λ g. Grows (grow s (shape_of self.old) place (name_word name)) self.old g self.new) }
        ensures tall { IsTall self.old → IfOk result (λ g. IsTallAs g self.new) }
    {
        match mem::replace(&mut self.stage, Stage::Using) {
            Stage::Using => {
                self.stage = Stage::Named;
                self.parts.plain = true;
                self.parts.place = place;
                self.parts.name = name;
                Ok(Grown::Stays)
            }
            Stage::Dotted => {
                if !self.parts.plain || !self.parts.usage.is_reading() {
                    self.stage = Stage::Dotted;
                    drop(name);
                    return Ok(Grown::Not);
                }
                self.parts.trap = false;
                self.parts.at = place;
                self.stage = Stage::Method(mem::replace(&mut self.parts.name, name), None);
                Ok(Grown::Stays)
            }
            Stage::Trapping => {
                self.stage = Stage::Trapped;
                self.parts.place = place;
                self.parts.at = place;
                self.parts.name = name;
                Ok(Grown::Stays)
            }
            Stage::ObjectDot(index) => {
                self.parts.at = place;
                self.stage = Stage::Method(mem::replace(&mut self.parts.name, name), index);
                Ok(Grown::Stays)
            }
            Stage::Hashed => {
                let object = taken(alloc, &mut self.parts.name);
                let constant = ExprKind::ObjConst(object, name, place);
                self.finish(alloc, self.parts.place, constant)?;
                Ok(Grown::Stays)
            }
            other => {
                self.stage = other;
                drop(name);
                Ok(Grown::Not)
            }
        }
    }

    /// With the name of a local label, colon and all, behind its colon.
    pub fn on_label(&mut self, name: Text)
        requires { self.old.stage ≡ stage.Coloned }
        ensures shape { shape_of self.new ≡ named false (use_of self.old.parts.usage) self.old.parts.place name }
        ensures tall { IsTall self.old → IsTall self.new }
    {
        self.stage = Stage::Named;
        self.parts.plain = false;
        self.parts.name = name;
    }

    // With `RESULT`.
    fn on_result(&mut self, alloc: Global, place: Place) -> Growth
        ensures comes { (s : lexemes.Setting) → IfOk result (λ g. Grows (grow s (shape_of self.old) place method_result) self.old g self.new) }
        ensures tall { IsTall self.old → IfOk result (λ g. IsTallAs g self.new) }
    {
        match &self.stage {
            Stage::Using => {
                self.parts.name = Text::copy_of(alloc, b"RESULT")?;
                self.stage = Stage::Named;
                self.parts.plain = false;
                self.parts.place = place;
                Ok(Grown::Stays)
            }
            _ => Ok(Grown::Not),
        }
    }

    // With a string: its text, or a character's code.
    fn on_string(&mut self, alloc: Global, setting: Setting, place: Place, text: Text) -> Growth
        ensures comes { IfOk result (λ g. Grows (grow (setting_of setting) (shape_of self.old) place (string text)) self.old g self.new) }
        ensures tall { IsTall self.old → IfOk result (λ g. IsTallAs g self.new) }
    {
        match &self.stage {
            Stage::StringOpened => {
                if text.is_empty() {
                    return Ok(Grown::Not);
                }
                self.stage = Stage::StringRead;
                self.parts.at = place;
                self.parts.name = text;
                Ok(Grown::Stays)
            }
            Stage::Using => self.on_character(alloc, setting, place, text),
            _ => Ok(Grown::Not),
        }
    }

    // With a string of one character, where a value comes.
    fn on_character(&mut self, alloc: Global, setting: Setting, place: Place, text: Text) -> Growth
        requires { IsUsing self.old }
        ensures comes { IfOk result (λ g. Grows (grow (setting_of setting) (shape_of self.old) place (string text)) self.old g self.new) }
        ensures tall { IsTall self.old → IfOk result (λ g. IsTallAs g self.new) }
    {
        if !self.parts.usage.is_reading() || !setting.is_value() {
            return Ok(Grown::Not);
        }
        match text.as_slice() {
            [character] => {
                let code = ExprKind::Number(u32::from(*character));
                self.finish(alloc, place, code)?;
                Ok(Grown::Stays)
            }
            _ => Ok(Grown::Not),
        }
    }

    // With `BYTE`, `WORD` or `LONG`.
    fn on_size(&mut self, setting: Setting, place: Place, size: u8) -> Grown
        ensures comes { Grows (grow (setting_of setting) (shape_of self.old) place (size_word size)) self.old result self.new }
        ensures tall { IsTall self.old → IsTallAs result self.new }
    {
        match &self.stage {
            Stage::Using => {
                if !setting.allows_index() {
                    return Grown::Not;
                }
                self.stage = Stage::Sized;
                self.parts.place = place;
            }
            Stage::Dotted => self.stage = Stage::Parted,
            _ => return Grown::Not,
        }
        self.parts.number = size;
        Grown::Stays
    }

    // With a register.
    fn on_register(&mut self, setting: Setting, place: Place, address: u16, access: Access) -> Grown
        ensures comes { Grows (grow (setting_of setting) (shape_of self.old) place (register_word address (access_of access))) self.old result self.new }
        ensures tall { IsTall self.old → IsTallAs result self.new }
    {
        match &self.stage {
            Stage::Using => {
                if !self.parts.usage.takes_in(access, setting) {
                    return Grown::Not;
                }
                self.stage = Stage::Register;
                self.parts.place = place;
                self.parts.register = address;
                self.parts.access = access;
                Grown::Stays
            }
            _ => Grown::Not,
        }
    }

    // With `++`, `--`, `~` or `~~`: before a variable, or after it.
    fn on_change(&mut self, alloc: Global, place: Place, before: u8, after: u8) -> Growth
        ensures comes { (s : lexemes.Setting) → IfOk result (λ g. Grows (grow s (shape_of self.old) place (changes before after)) self.old g self.new) }
        ensures tall { IsTall self.old → IfOk result (λ g. IsTallAs g self.new) }
    {
        if self.is_fresh() {
            self.parts.usage = Use::Changing(place, before);
            return Ok(Grown::Stays);
        }
        if !self.is_target() {
            return Ok(Grown::Not);
        }
        match self.variable(alloc) {
            Some(variable) => {
                self.finish(alloc, place, ExprKind::Change(variable, after))?;
                Ok(Grown::Stays)
            }
            None => unreachable!(),
        }
    }

    // With a mark.
    fn on_mark(
        &mut self,
        alloc: Global,
        setting: Setting,
        place: Place,
        mark: Punctuation,
    ) -> Growth
        ensures comes { IfOk result (λ g. Grows (grow (setting_of setting) (shape_of self.old) place (mark_word (mark_of mark))) self.old g self.new) }
        ensures tall { IsTall self.old → IfOk result (λ g. IsTallAs g self.new) }
    {
        match mark {
            Punctuation::LeftParenthesis => Ok(self.on_parenthesis(alloc, setting)),
            Punctuation::RightParenthesis => self.on_close(alloc),
            Punctuation::LeftBracket => Ok(self.on_bracket(setting)),
            Punctuation::Comma => self.on_comma(alloc),
            Punctuation::Colon => Ok(self.on_colon(setting, place)),
            Punctuation::Dot => Ok(self.on_dot()),
            Punctuation::Hash => Ok(self.on_hash(setting)),
            Punctuation::Backslash => Ok(self.on_backslash()),
            Punctuation::RightBracket => Ok(Grown::Not),
            Punctuation::DotDot => Ok(Grown::Not),
            Punctuation::Equal => Ok(Grown::Not),
        }
    }

    fn on_parenthesis(&mut self, alloc: Global, setting: Setting) -> Grown
        ensures comes { (p : Place) → Grows (grow (setting_of setting) (shape_of self.old) p (mark_word left_parenthesis)) self.old result self.new }
        ensures tall { IsTall self.old → IsTallAs result self.new }
    {
        match mem::replace(&mut self.stage, Stage::Using) {
            Stage::Using => {
                if self.parts.usage.is_reading() && setting.is_value() {
                    self.opens(Hole::Parenthesis)
                } else {
                    Grown::Not
                }
            }
            Stage::Named => {
                if self.parts.plain && self.parts.usage.is_reading() {
                    self.parts.trap = false;
                    self.parts.at = self.parts.place;
                    self.opens(Hole::Arguments(None, None, Vec::new(alloc)))
                } else {
                    self.stage = Stage::Named;
                    Grown::Not
                }
            }
            Stage::Trapped => {
                self.parts.trap = true;
                self.opens(Hole::Arguments(None, None, Vec::new(alloc)))
            }
            Stage::Method(object, index) => {
                self.opens(Hole::Arguments(Some(object), index, Vec::new(alloc)))
            }
            Stage::Built => self.opens(Hole::BuiltArguments(Vec::new(alloc))),
            Stage::StringWord => {
                self.stage = Stage::StringOpened;
                Grown::Stays
            }
            Stage::ConstantWord => self.opens(Hole::Constant),
            Stage::LookWord => {
                self.high = 1;
                self.opens(Hole::LookFor)
            }
            other => {
                self.stage = other;
                Grown::Not
            }
        }
    }

    fn on_close(&mut self, alloc: Global) -> Growth
        ensures comes { (s : lexemes.Setting) (p : Place) → IfOk result (λ g. Grows (grow s (shape_of self.old) p (mark_word right_parenthesis)) self.old g self.new) }
        ensures tall { IsTall self.old → IfOk result (λ g. IsTallAs g self.new) }
    {
        let place = self.parts.place;
        match mem::replace(&mut self.stage, Stage::Using) {
            Stage::StringRead => {
                let text = taken(alloc, &mut self.parts.name);
                self.finish(alloc, place, ExprKind::Str(text))?;
                Ok(Grown::Stays)
            }
            Stage::StringsRead(items) => {
                self.finish(alloc, place, ExprKind::Strings(items))?;
                Ok(Grown::Stays)
            }
            Stage::ChoicesRead(value, items) => {
                let kind = ExprKind::Look(self.parts.number, value, items);
                self.finish(alloc, place, kind)?;
                Ok(Grown::Stays)
            }
            other => {
                self.stage = other;
                Ok(Grown::Not)
            }
        }
    }

    fn on_bracket(&mut self, setting: Setting) -> Grown
        ensures comes { (p : Place) → Grows (grow (setting_of setting) (shape_of self.old) p (mark_word left_bracket)) self.old result self.new }
        ensures tall { IsTall self.old → IsTallAs result self.new }
    {
        if !setting.allows_index() {
            return Grown::Not;
        }
        match mem::replace(&mut self.stage, Stage::Using) {
            Stage::Named => self.opens(Hole::NameIndex),
            Stage::Parted => self.opens(Hole::PartIndex),
            Stage::Sized => self.opens(Hole::MemoryAddress),
            Stage::Memory(address) => self.opens(Hole::MemoryIndex(address)),
            Stage::Trapped => self.opens(Hole::TrappedIndex),
            Stage::Register => {
                if self.parts.access.has_bits() {
                    self.opens(Hole::FirstBit)
                } else {
                    self.stage = Stage::Register;
                    Grown::Not
                }
            }
            other => {
                self.stage = other;
                Grown::Not
            }
        }
    }

    fn on_comma(&mut self, alloc: Global) -> Growth
        ensures comes { (s : lexemes.Setting) (p : Place) → IfOk result (λ g. Grows (grow s (shape_of self.old) p (mark_word comma)) self.old g self.new) }
        ensures tall { IsTall self.old → IfOk result (λ g. IsTallAs g self.new) }
    {
        match mem::replace(&mut self.stage, Stage::Using) {
            Stage::StringRead => {
                let text = taken(alloc, &mut self.parts.name);
                let mut items = Vec::new(alloc);
                items.push(quoted(self.parts.at, text))?;
                self.high = 1;
                Ok(self.opens(Hole::NextItem(items)))
            }
            Stage::StringsRead(items) => Ok(self.opens(Hole::NextItem(items))),
            Stage::ChoicesRead(value, items) => Ok(self.opens(Hole::Choice(value, items))),
            other => {
                self.stage = other;
                Ok(Grown::Not)
            }
        }
    }

    fn on_colon(&mut self, setting: Setting, place: Place) -> Grown
        ensures comes { Grows (grow (setting_of setting) (shape_of self.old) place (mark_word colon)) self.old result self.new }
        ensures tall { IsTall self.old → IsTallAs result self.new }
    {
        match &self.stage {
            Stage::Using => {
                if !setting.is_dat() {
                    return Grown::Not;
                }
                self.stage = Stage::Coloned;
                self.parts.place = place;
                Grown::Stays
            }
            _ => Grown::Not,
        }
    }

    fn on_dot(&mut self) -> Grown
        ensures comes { (s : lexemes.Setting) (p : Place) → Grows (grow s (shape_of self.old) p (mark_word dot)) self.old result self.new }
        ensures tall { IsTall self.old → IsTallAs result self.new }
    {
        match mem::replace(&mut self.stage, Stage::Using) {
            Stage::Named => self.stage = Stage::Dotted,
            Stage::Element(index) => {
                self.parts.trap = false;
                self.stage = Stage::ObjectDot(Some(index));
            }
            Stage::Trapped => {
                self.parts.trap = true;
                self.stage = Stage::ObjectDot(None);
            }
            Stage::TrappedElement(index) => {
                self.parts.trap = true;
                self.stage = Stage::ObjectDot(Some(index));
            }
            other => {
                self.stage = other;
                return Grown::Not;
            }
        }
        Grown::Stays
    }

    fn on_hash(&mut self, setting: Setting) -> Grown
        ensures comes { (p : Place) → Grows (grow (setting_of setting) (shape_of self.old) p (mark_word hash)) self.old result self.new }
        ensures tall { IsTall self.old → IsTallAs result self.new }
    {
        match &self.stage {
            Stage::Named => {
                if !setting.is_value() || !self.parts.plain || !self.parts.usage.is_reading() {
                    return Grown::Not;
                }
                self.stage = Stage::Hashed;
                Grown::Stays
            }
            _ => Grown::Not,
        }
    }

    fn on_backslash(&mut self) -> Grown
        ensures comes { (s : lexemes.Setting) (p : Place) → Grows (grow s (shape_of self.old) p (mark_word backslash)) self.old result self.new }
        ensures tall { IsTall self.old → IsTallAs result self.new }
    {
        if !self.is_fresh() {
            return Grown::Not;
        }
        self.stage = Stage::Trapping;
        Grown::Stays
    }

    // The first word of an operand or of an action that isn't a variable's.
    fn first(&mut self, alloc: Global, setting: Setting, place: Place, lexeme: Lexeme) -> Growth
        requires { shape_of self.old ≡ fresh }
        ensures comes { (n t : List ℕ) → is_other lexeme ≡ true → IfOk result (λ g. Grows (first (setting_of setting) place (lexeme_of n t lexeme)) self.old g self.new) }
        ensures tall { IsTall self.old → IfOk result (λ g. IsTallAs g self.new) }
    {
        match lexeme {
            Lexeme::Value(code) => {
                let kind = ExprKind::Built(code, Vec::new(alloc));
                self.finish(alloc, place, kind)?;
                Ok(Grown::Stays)
            }
            Lexeme::BuiltIn(code) => {
                self.begin(place, Stage::Built, code);
                Ok(Grown::Stays)
            }
            Lexeme::Here => {
                if !setting.is_dat() {
                    return Ok(Grown::Not);
                }
                self.finish(alloc, place, ExprKind::Here)?;
                Ok(Grown::Stays)
            }
            other => {
                if setting.is_value() {
                    self.first_of_value(alloc, place, other)
                } else {
                    Ok(self.first_of_action(place, other))
                }
            }
        }
    }

    // So of a value.
    fn first_of_value(&mut self, alloc: Global, place: Place, lexeme: Lexeme) -> Growth
        requires { shape_of self.old ≡ fresh }
        ensures comes { (s : lexemes.Setting) (n t : List ℕ) → IsTrue (lexemes.is_value s) → is_rest lexeme ≡ true →
            IfOk result (λ g. Grows (first s place (lexeme_of n t lexeme)) self.old g self.new) }
        ensures tall { IsTall self.old → IfOk result (λ g. IsTallAs g self.new) }
    {
        match lexeme {
            Lexeme::Number(value) => self.finish(alloc, place, ExprKind::Number(value))?,
            Lexeme::Address => self.parts.usage = Use::Addressing(place),
            Lexeme::StringWord => self.begin(place, Stage::StringWord, 0),
            Lexeme::ConstantWord => self.begin(place, Stage::ConstantWord, 0),
            Lexeme::Look(code) => self.begin(place, Stage::LookWord, code),
            _ => return Ok(Grown::Not),
        }
        Ok(Grown::Stays)
    }

    // So of an action: an operator that changes the variable after it, and `+` doesn't.
    fn first_of_action(&mut self, place: Place, lexeme: Lexeme) -> Grown
        requires { shape_of self.old ≡ fresh }
        ensures comes { (s : lexemes.Setting) (n t : List ℕ) → lexemes.is_value s ≡ false → is_rest lexeme ≡ true →
            Grows (first s place (lexeme_of n t lexeme)) self.old result self.new }
        ensures tall { IsTall self.old → IsTallAs result self.new }
    {
        match lexeme {
            Lexeme::Prefix(_, code) => self.alter(place, code),
            Lexeme::Sign(code, _) => self.alter(place, code),
            Lexeme::Command(code) => {
                self.begin(place, Stage::Built, code);
                Grown::Stays
            }
            _ => Grown::Not,
        }
    }

    // With an operator before a variable, which it changes.
    fn alter(&mut self, place: Place, code: u8) -> Grown
        requires { shape_of self.old ≡ fresh }
        ensures comes { (s : lexemes.Setting) → lexemes.is_value s ≡ false → Grows (altering s place (effect_of (unary 1 code))) self.old result self.new }
        ensures tall { IsTall self.old → IsTallAs result self.new }
    {
        if code == ADD {
            return Grown::Not;
        }
        self.parts.usage = Use::Changing(place, code.saturating_sub(0xA0));
        Grown::Stays
    }

    // A word with its bytecode begins it.
    fn begin(&mut self, place: Place, stage: Stage, code: u8)
        ensures { (self.new.stage ≡ stage) × (self.new.parts.place ≡ place) × (self.new.parts.number ≡ code) ×
            (self.new.parts.usage ≡ self.old.parts.usage) × (self.new.high ≡ self.old.high) }
    {
        self.stage = stage;
        self.parts.place = place;
        self.parts.number = code;
    }
}
