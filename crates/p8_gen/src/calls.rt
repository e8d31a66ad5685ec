// The bytecodes of calls and of starts, after their arguments.
ghost use Rattle.std.specs.Prelude.{◌≡◌, OnOk};
ghost use Rattle.p8_tree.specs.Views.{tree_of};
ghost use Rattle.p8_tree.specs.Bridges.{boxed_index};
ghost use Rattle.p8_gen.specs.Pieces.{Written};
ghost use Rattle.p8_gen.specs.Expressions.{mark, own_method, method_number, method_in, callee, built_value, built_without, built_alone, built};
ghost use Rattle.p8_gen.specs.Expressions.{dropped, is_method, calls_own, call_in, starts_method, start_of_method, starts, started, pasm};
ghost use Rattle.p8_gen.specs.Expressions.{counts_from, unary, looks_down};
ghost use Rattle.p8_gen.specs.Scopes.{names_of};
ghost use Rattle.p8_gen.specs.Writing.{Stands};

use crate::coder::Coder;
use crate::writer::{Writer, bare};
use p8_bytecode::{
    CALL, COGINIT, COGINIT_RETURNS, LOCKNEW_RETURNS, LOOKUPRANGE_COMPARE, MARK_INTERPRETED,
    MEMORY_OP, OBJCALL, OBJCALL_INDEXED, Op, PUSH_0, PUSH_1, PUSH_BYTE_LIT, PUSH_MAINMEM_BYTE,
    PUSH_MAINMEM_LONG, QUIT, STRCOMP, STRSIZE,
};
use p8_kinds::NameKind;
use p8_tree::{Expr, ExprKind, Target, Text};
use p8_words::ADD;
use std::alloc::AllocError;

// The number of a method.
fn method_number(kind: Option<NameKind>) -> u8
    ensures { result ≡ method_number kind }
{
    match kind {
        Some(NameKind::Method { number, .. }) => number,
        _ => 0,
    }
}

fn is_method(kind: Option<NameKind>) -> bool
    ensures { result ≡ is_method kind }
{
    matches!(kind, Some(NameKind::Method { .. }))
}

// Whether it is a call of a method of the same object that stops no abort.
fn calls_own(trap: bool, object: &Option<Text>) -> bool
    ensures { result ≡ calls_own trap object.now }
{
    match object {
        None => !trap,
        Some(_) => false,
    }
}

/// Whether a LOOK function looks for a value, and not for what stands at a number.
pub(crate) fn looks_down(code: u8) -> bool
    ensures { result ≡ looks_down code }
{
    code % 2 == 1
}

impl Writer {
    /// Appends the mark of a call.
    pub fn mark(&mut self, used: bool, trap: bool) -> Result<(), AllocError>
        ensures { (w : Written) → Stands self.old w → OnOk result (Stands self.new (mark used trap w)) }
    {
        let unused = if used { 0 } else { 1 };
        self.byte(unused + if trap { 2 } else { 0 })
    }

    /// Appends the call of a method of the same object.
    pub fn own_method(&mut self, kind: Option<NameKind>) -> Result<(), AllocError>
        ensures { (w : Written) → Stands self.old w → OnOk result (Stands self.new (own_method kind w)) }
    {
        match kind {
            Some(NameKind::Method { number, .. }) => self.with_number(CALL, u32::from(number)),
            _ => Ok(()),
        }
    }

    /// Appends what drops a value that isn't used.
    pub fn dropped(&mut self, used: bool) -> Result<(), AllocError>
        ensures { (w : Written) → Stands self.old w → OnOk result (Stands self.new (dropped used w)) }
    {
        if used { Ok(()) } else { self.byte(QUIT) }
    }

    /// Appends a word that gives a value without arguments.
    pub fn built_value(&mut self, code: u8) -> Result<(), AllocError>
        ensures { (w : Written) → Stands self.old w → OnOk result (Stands self.new (built_value code w)) }
    {
        match code {
            MEMORY_OP => self.with_number(MEMORY_OP, 0x89),
            PUSH_MAINMEM_LONG => {
                self.byte(PUSH_0)?;
                self.byte(PUSH_MAINMEM_LONG)
            }
            _ => {
                self.with_number(PUSH_BYTE_LIT, 4)?;
                self.byte(PUSH_MAINMEM_BYTE)
            }
        }
    }

    // Appends a built-in that stands alone.
    fn built_alone(&mut self, code: u8) -> Result<(), AllocError>
        ensures { (w : Written) → Stands self.old w → OnOk result (Stands self.new (built_alone code w)) }
    {
        match code {
            0x29..=0x2B => self.byte(code + 4),
            STRSIZE | STRCOMP => {
                self.byte(code)?;
                self.byte(QUIT)
            }
            _ => self.byte(code),
        }
    }

    /// Appends a built-in, after its arguments.
    pub fn built(&mut self, used: bool, code: u8) -> Result<(), AllocError>
        ensures { (w : Written) → Stands self.old w → OnOk result (Stands self.new (built used code w)) }
    {
        if used {
            self.byte(code)
        } else {
            self.built_alone(code)
        }
    }

    /// Appends a word without arguments.
    pub fn built_without(&mut self, used: bool, code: u8) -> Result<(), AllocError>
        ensures { (w : Written) → Stands self.old w → OnOk result (Stands self.new (built_without used code w)) }
    {
        if code == LOCKNEW_RETURNS {
            self.built(used, code)
        } else {
            self.built_value(code)?;
            self.dropped(used)
        }
    }

    /// Appends the start of PASM, after its address and PAR.
    pub fn pasm(&mut self, used: bool) -> Result<(), AllocError>
        ensures { (w : Written) → Stands self.old w → OnOk result (Stands self.new (pasm used w)) }
    {
        self.byte(if used { COGINIT_RETURNS } else { COGINIT })
    }

    /// Appends an operator after its operand; the sign `+` adds nothing.
    pub fn unary(&mut self, operator: u8) -> Result<(), AllocError>
        ensures { (w : Written) → Stands self.old w → OnOk result (Stands self.new (unary operator w)) }
    {
        match operator {
            ADD => Ok(()),
            _ => self.byte(operator),
        }
    }

    /// Appends the number from which a LOOK function counts.
    pub fn counts_from(&mut self, code: u8) -> Result<(), AllocError>
        ensures { (w : Written) → Stands self.old w → OnOk result (Stands self.new (counts_from code w)) }
    {
        self.byte(if code >= LOOKUPRANGE_COMPARE {
            PUSH_0
        } else {
            PUSH_1
        })
    }

    // Appends the call of a method of an object, which is alone or is told by an index.
    fn call_in(
        &mut self,
        position: u8,
        count: u8,
        index: &Option<Box<Expr>>,
        number: u8,
    ) -> Result<(), AllocError>
        ensures { (w : Written) → Stands self.old w → OnOk result (Stands self.new (call_in position count (boxed_index index.now) number w)) }
    {
        match index {
            None => self.one(Op {
                first: u32::from(position),
                second: u32::from(number),
                ..bare(OBJCALL)
            }),
            Some(_) => self.one(Op {
                first: u32::from(position),
                second: u32::from(count),
                third: u32::from(number),
                ..bare(OBJCALL_INDEXED)
            }),
        }
    }

    // Appends the start of a method.
    fn start_of_method(&mut self, number: u8, count: usize) -> Result<(), AllocError>
        ensures { (w : Written) → Stands self.old w → OnOk result (Stands self.new (start_of_method number count w)) }
    {
        let count = u32::try_from(count).map_err(|_| AllocError)?;
        self.one(Op {
            first: u32::from(number),
            second: count,
            ..bare(MARK_INTERPRETED)
        })
    }
}

impl Coder<'_> {
    /// Appends the bytecode of a call, after its arguments and the index of its object.
    pub fn callee(
        &self,
        object: &Option<Text>,
        index: &Option<Box<Expr>>,
        method: &Text,
        out: &mut Writer,
    ) -> Result<(), AllocError>
        ensures { (w : Written) → Stands out.old w → OnOk result (Stands out.new (callee (names_of self.now) object.now (boxed_index index.now) method.now w)) }
    {
        match object {
            None => out.own_method(self.kind(method)),
            Some(object) => self.method_in(self.kind(object), index, method, out),
        }
    }

    // Appends the call of a method of an object.
    fn method_in(
        &self,
        kind: Option<NameKind>,
        index: &Option<Box<Expr>>,
        method: &Text,
        out: &mut Writer,
    ) -> Result<(), AllocError>
        ensures { (w : Written) → Stands out.old w → OnOk result (Stands out.new (method_in (names_of self.now) kind (boxed_index index.now) method.now w)) }
    {
        match kind {
            Some(
                NameKind::Object {
                    item,
                    position,
                    count,
                },
            ) => {
                let number = method_number(self.tables.publics.own(item, method));
                out.call_in(position, count, index, number)
            }
            _ => Ok(()),
        }
    }

    /// Whether COGNEW or COGINIT of this starts a method.
    pub fn starts_method(&self, started: &Expr) -> bool
        ensures { result ≡ starts_method (names_of self.now) (tree_of started.now) }
    {
        match &started.kind {
            ExprKind::Call(call) => calls_own(call.trap, &call.object),
            ExprKind::Var(Target::Named(name, None, _)) => is_method(self.kind(name)),
            _ => false,
        }
    }

    /// Appends the start of a method or of PASM, after what it is given.
    pub fn started(&self, used: bool, begun: &Expr, out: &mut Writer) -> Result<(), AllocError>
        ensures { (w : Written) → Stands out.old w → OnOk result (Stands out.new (started (names_of self.now) used (tree_of begun.now) w)) }
    {
        if self.starts_method(begun) {
            self.starts(begun, out)?;
            out.dropped(used)
        } else {
            out.pasm(used)
        }
    }

    // Appends the start of a method.
    fn starts(&self, begun: &Expr, out: &mut Writer) -> Result<(), AllocError>
        ensures { (w : Written) → Stands out.old w → OnOk result (Stands out.new (starts (names_of self.now) (tree_of begun.now) w)) }
    {
        match &begun.kind {
            ExprKind::Call(call) => {
                let number = method_number(self.kind(&call.method));
                out.start_of_method(number, call.args.len())
            }
            ExprKind::Var(Target::Named(name, _, _)) => {
                out.start_of_method(method_number(self.kind(name)), 0)
            }
            _ => Ok(()),
        }
    }
}
