// The code of expressions. The calls go as deep as the tree is high.
ghost use Rattle.std.specs.Prelude.{◌≡◌, OnOk, if◌then◌else◌};
ghost use Rattle.p8_tree.specs.Expressions as trees;
ghost use Rattle.p8_tree.specs.Expressions.{no_items, ◌▸◌};
ghost use Rattle.p8_tree.specs.Views.{tree_of, variable_of, call_of, trees_of, items_of, item_of};
ghost use Rattle.p8_tree.specs.Bridges.{boxed_index};
ghost use Rattle.p8_fold.specs.Verdicts.{boxed_bits};
ghost use Rattle.p8_gen.specs.Pieces.{Written, up_to_end};
ghost use Rattle.p8_gen.specs.Variables as variables;
ghost use Rattle.p8_gen.specs.Variables.{leaving, effect_for};
ghost use Rattle.p8_gen.specs.Expressions.{value, value_of_form, operate, in_home, values, index_value, call_of_built, arguments, looks, alone};
ghost use Rattle.p8_gen.specs.Expressions.{size_of, name_alone};
ghost use Rattle.p8_gen.specs.Walking.{call_piece, started_value, looked, IsBuiltForm};
ghost use Rattle.p8_gen.specs.Scopes.{names_of};
ghost use Rattle.p8_gen.specs.Views.{home_in, operation_of};
ghost use Rattle.p8_gen.specs.Writing.{Stands};

use crate::calls::looks_down;
use crate::coder::Coder;
use crate::variables::{Base, Home, Operation, assigned, effect_for, home_at, leaving};
use crate::writer::Writer;
use p8_bytecode::{
    CALL, COGINIT, COGINIT_RETURNS, INDEXED_MEM_OP, INDEXED_RANGE_MEM_OP, LOOK_ABORT,
    LOOKDOWN_COMPARE, LOOKDOWNRANGE_COMPARE, LOOKUP_COMPARE, LOOKUPRANGE_COMPARE, MEMORY_OP,
    PUSH_NEG1, REFERENCE_INDEXED_OBJECTMEM_BYTE,
};
use p8_kinds::NameKind;
use p8_tree::{Call, Expr, ExprKind, Item, Target, Text};
use std::alloc::AllocError;

impl Coder<'_> {
    /// Appends the code that leaves an expression's value.
    #[cycle(expressions)]
    pub fn value(&self, expr: &Expr, out: &mut Writer) -> Result<(), AllocError>
        ensures { (w : Written) → Stands out.old w → OnOk result (Stands out.new (value (names_of self.now) (tree_of expr.now) w)) }
    {
        match &expr.kind {
            ExprKind::Number(number) => out.number(*number),
            ExprKind::Str(_) => out.text(expr.place),
            ExprKind::Strings(_) => out.text(expr.place),
            ExprKind::Here => Ok(()),
            ExprKind::Var(variable) => self.variable(variable, out),
            ExprKind::Call(call) => self.call(true, call, out),
            ExprKind::Unary(operator, operand) => {
                self.value(operand, out)?;
                out.unary(*operator)
            }
            ExprKind::Binary(operator, left, right) => {
                self.value(left, out)?;
                self.value(right, out)?;
                out.byte(*operator)
            }
            ExprKind::Assign(variable, operator, right) => {
                self.value(right, out)?;
                self.operate(variable, assigned(true, *operator), out)
            }
            ExprKind::Change(variable, effect) => {
                self.operate(variable, self.change(true, variable, *effect), out)
            }
            ExprKind::Address(variable) => self.operate(variable, Operation::Reference, out),
            ExprKind::ObjectAddress(offset) => {
                self.value(offset, out)?;
                out.byte(REFERENCE_INDEXED_OBJECTMEM_BYTE)
            }
            ExprKind::ObjConst(..) => out.number(self.constant(expr)),
            ExprKind::Built(code, arguments) => self.call_of_built(true, *code, arguments, out),
            ExprKind::Look(code, sought, items) => {
                self.value(sought, out)?;
                out.counts_from(*code)?;
                self.look(looks_down(*code), items, out)
            }
        }
    }

    // Appends the value of a variable, or of a name alone, whatever it names.
    #[cycle(expressions)]
    fn variable(&self, variable: &Target, out: &mut Writer) -> Result<(), AllocError>
        ensures { (w : Written) → Stands out.old w →
            OnOk result (Stands out.new (value_of_form (names_of self.now) self.now.statement (trees.Var (variable_of variable.now)) w)) }
    {
        match variable {
            Target::Named(name, index, _) => self.named(name, index, out),
            Target::Part(..) => self.operate(variable, Operation::Push, out),
            Target::Memory(..) => self.operate(variable, Operation::Push, out),
            Target::Register(..) => self.operate(variable, Operation::Push, out),
        }
    }

    // Appends the value of a name, with an index or alone.
    #[cycle(expressions)]
    fn named(
        &self,
        name: &Text,
        index: &Option<Box<Expr>>,
        out: &mut Writer,
    ) -> Result<(), AllocError>
        ensures { (w : Written) → Stands out.old w →
            OnOk result (Stands out.new (value_of_form (names_of self.now) self.now.statement
            (trees.Var (trees.Named name.now (boxed_index index.now) self.now.statement)) w)) }
    {
        match index {
            None => self.name_alone(name, out),
            Some(index) => {
                self.value(index, out)?;
                out.one(self.home(name).memory_op(true, Operation::Push))
            }
        }
    }

    // Appends a call, with its arguments from left to right.
    #[cycle(expressions)]
    fn call(&self, used: bool, call: &Call, out: &mut Writer) -> Result<(), AllocError>
        ensures { (w : Written) → Stands out.old w → OnOk result (Stands out.new (call_piece (names_of self.now) used (call_of call.now) w)) }
    {
        out.mark(used, call.trap)?;
        self.values(&call.args, out)?;
        self.index_value(&call.index, out)?;
        self.callee(&call.object, &call.index, &call.method, out)
    }

    /// Appends what names a variable, and what is done with it.
    #[cycle(expressions)]
    pub fn operate(
        &self,
        variable: &Target,
        operation: Operation,
        out: &mut Writer,
    ) -> Result<(), AllocError>
        ensures { (w : Written) → Stands out.old w →
            OnOk result (Stands out.new (operate (names_of self.now) (variable_of variable.now) (operation_of operation) w)) }
    {
        match variable {
            Target::Named(name, index, _) => self.in_home(self.home(name), index, operation, out),
            Target::Part(name, size, index, _) => {
                self.in_home(self.home(name).sized(*size), index, operation, out)
            }
            Target::Memory(size, address, index, _) => {
                self.value(address, out)?;
                self.in_home(home_at(Base::Pushed, 0, *size), index, operation, out)
            }
            Target::Register(address, bits, _) => self.in_register(*address, bits, operation, out),
        }
    }

    // Appends the index of a variable, where it has one, and what is done with it.
    #[cycle(expressions)]
    fn in_home(
        &self,
        home: Home,
        index: &Option<Box<Expr>>,
        operation: Operation,
        out: &mut Writer,
    ) -> Result<(), AllocError>
        ensures { (w : Written) → Stands out.old w →
            OnOk result (Stands out.new (in_home (names_of self.now) (home_in home) (boxed_index index.now) (operation_of operation) w)) }
    {
        match index {
            None => out.one(home.plain_op(operation)),
            Some(index) => {
                self.value(index, out)?;
                out.one(home.memory_op(true, operation))
            }
        }
    }

    // Appends the bits of a register, where it has some, and what is done with it.
    #[cycle(expressions)]
    fn in_register(
        &self,
        address: u16,
        bits: &Option<Box<Item>>,
        operation: Operation,
        out: &mut Writer,
    ) -> Result<(), AllocError>
        ensures { (w : Written) → Stands out.old w →
            OnOk result (Stands out.new (operate (names_of self.now) (trees.Register address (boxed_bits bits.now) self.now.statement)
            (operation_of operation) w)) }
    {
        match bits {
            None => out.register(MEMORY_OP, address, operation),
            Some(item) => {
                self.value(&item.low, out)?;
                match &item.high {
                    None => out.register(INDEXED_MEM_OP, address, operation),
                    Some(high) => {
                        self.value(high, out)?;
                        out.register(INDEXED_RANGE_MEM_OP, address, operation)
                    }
                }
            }
        }
    }

    // Appends arguments, from left to right.
    #[cycle(expressions)]
    fn values(&self, arguments: &[Expr], out: &mut Writer) -> Result<(), AllocError>
        ensures { (w : Written) → Stands out.old w → OnOk result (Stands out.new (values (names_of self.now) (trees_of arguments.now) w)) }
    {
        for argument in arguments {
            self.value(argument, out)?;
        }
        Ok(())
    }

    // Appends the index of an object, where it has one.
    #[cycle(expressions)]
    fn index_value(&self, index: &Option<Box<Expr>>, out: &mut Writer) -> Result<(), AllocError>
        ensures { (w : Written) → Stands out.old w → OnOk result (Stands out.new (index_value (names_of self.now) (boxed_index index.now) w)) }
    {
        match index {
            None => Ok(()),
            Some(index) => self.value(index, out),
        }
    }

    // Appends a built-in with its arguments.
    #[cycle(expressions)]
    fn call_of_built(
        &self,
        used: bool,
        code: u8,
        arguments: &[Expr],
        out: &mut Writer,
    ) -> Result<(), AllocError>
        ensures { (w : Written) → Stands out.old w → OnOk result (Stands out.new (call_of_built (names_of self.now) used code (trees_of arguments.now) w)) }
    {
        match form_of_built(code, arguments.len()) {
            BuiltForm::Word => out.built_without(used, code),
            BuiltForm::Constant => out.number(self.constant(&arguments[0])),
            BuiltForm::NewCog => {
                out.byte(PUSH_NEG1)?;
                self.started_value(&arguments[0], out)?;
                self.value(&arguments[1], out)?;
                self.started(used, &arguments[0], out)
            }
            BuiltForm::ToldCog => {
                self.value(&arguments[0], out)?;
                self.started_value(&arguments[1], out)?;
                self.value(&arguments[2], out)?;
                self.started(used, &arguments[1], out)
            }
            BuiltForm::Plain => {
                self.values(arguments, out)?;
                out.built(used, code)
            }
        }
    }

    // Appends what stands before the start of a method, its arguments, or of PASM, its address.
    #[cycle(expressions)]
    fn started_value(&self, begun: &Expr, out: &mut Writer) -> Result<(), AllocError>
        ensures { (w : Written) → Stands out.old w → OnOk result (Stands out.new (started_value (names_of self.now) (tree_of begun.now) w)) }
    {
        if self.starts_method(begun) {
            self.arguments(begun, out)
        } else {
            self.value(begun, out)
        }
    }

    // Appends the arguments of a method that is started.
    #[cycle(expressions)]
    fn arguments(&self, begun: &Expr, out: &mut Writer) -> Result<(), AllocError>
        ensures { (w : Written) → Stands out.old w → OnOk result (Stands out.new (arguments (names_of self.now) (tree_of begun.now) w)) }
    {
        match &begun.kind {
            ExprKind::Call(call) => self.values(&call.args, out),
            _ => Ok(()),
        }
    }

    // Appends the items of a LOOK function and its end, to which they jump.
    #[cycle(expressions)]
    fn look(&self, down: bool, items: &[Item], out: &mut Writer) -> Result<(), AllocError>
        ensures { (w : Written) → Stands out.old w → OnOk result (Stands out.new (up_to_end (looked (names_of self.now) down (items_of items.now)) w)) }
    {
        let mut counter = out.counter();
        self.looked(down, 0, items, &mut counter)?;
        if out.counts(counter.end, counter.jumps) {
            Ok(())
        } else {
            self.looked(down, counter.end, items, out)
        }
    }

    // Appends the items of a LOOK function, which jump to a place, and its end.
    #[cycle(expressions)]
    fn looked(
        &self,
        down: bool,
        end: u32,
        items: &[Item],
        out: &mut Writer,
    ) -> Result<(), AllocError>
        ensures { (w : Written) → Stands out.old w → OnOk result (Stands out.new (looked (names_of self.now) down (items_of items.now) end w)) }
    {
        for item in items {
            self.item(down, end, item, out)?;
        }
        out.byte(LOOK_ABORT)
    }

    // Appends one item of a LOOK function, with its jump to the end.
    #[cycle(expressions)]
    fn item(&self, down: bool, end: u32, item: &Item, out: &mut Writer) -> Result<(), AllocError>
        ensures { (w : Written) → Stands out.old w → OnOk result (Stands out.new (looks (names_of self.now) down end (no_items ▸ item_of item.now) w)) }
    {
        self.value(&item.low, out)?;
        match &item.high {
            None => out.jump(
                self.widths,
                self.statement,
                if down {
                    LOOKDOWN_COMPARE
                } else {
                    LOOKUP_COMPARE
                },
                end,
            ),
            Some(high) => {
                self.value(high, out)?;
                out.jump(
                    self.widths,
                    self.statement,
                    if down {
                        LOOKDOWNRANGE_COMPARE
                    } else {
                        LOOKUPRANGE_COMPARE
                    },
                    end,
                )
            }
        }
    }

    /// Appends the code of an expression that stands alone as a statement, which leaves nothing.
    pub fn alone(&self, expr: &Expr, out: &mut Writer) -> Result<(), AllocError>
        ensures { (w : Written) → Stands out.old w → OnOk result (Stands out.new (alone (names_of self.now) (tree_of expr.now) w)) }
    {
        match &expr.kind {
            ExprKind::Var(Target::Named(name, _, _)) => {
                out.mark(false, false)?;
                out.own_method(self.kind(name))
            }
            ExprKind::Call(call) => self.call(false, call, out),
            ExprKind::Assign(variable, operator, value) => {
                self.value(value, out)?;
                self.operate(variable, assigned(false, *operator), out)
            }
            ExprKind::Change(variable, effect) => {
                self.operate(variable, self.change(false, variable, *effect), out)
            }
            ExprKind::Built(code, arguments) => self.call_of_built(false, *code, arguments, out),
            _ => Ok(()),
        }
    }

    // What a change does with its variable.
    fn change(&self, used: bool, variable: &Target, effect: u8) -> Operation
        ensures { operation_of result ≡ variables.Using (leaving used (effect_for (size_of (names_of self.now) (variable_of variable.now)) effect)) }
    {
        Operation::Using(leaving(used, effect_for(self.size(variable), effect)))
    }

    // The size of a variable, 0 for a register.
    fn size(&self, variable: &Target) -> u8
        ensures { result ≡ size_of (names_of self.now) (variable_of variable.now) }
    {
        match variable {
            Target::Named(name, _, _) => self.home(name).size,
            Target::Part(_, size, _, _) => *size,
            Target::Memory(size, _, _, _) => *size,
            Target::Register(..) => 0,
        }
    }

    // Appends a name alone: a constant is a number, a method is called, a variable's value is pushed.
    fn name_alone(&self, name: &Text, out: &mut Writer) -> Result<(), AllocError>
        ensures { (w : Written) → Stands out.old w →
            OnOk result (Stands out.new (name_alone (names_of self.now) name.now ((names_of self.now).kind name.now) w)) }
    {
        let kind = self.kind(name);
        match kind {
            Some(NameKind::Const(value)) => out.number(value),
            Some(NameKind::Method { number, .. }) => {
                out.mark(true, false)?;
                out.with_number(CALL, u32::from(number))
            }
            _ => out.one(self.home_of_kind(name, kind).plain_op(Operation::Push)),
        }
    }
}

/// How a built-in is written.
#[derive(Clone, Copy)]
pub enum BuiltForm {
    /// A word without arguments.
    Word,
    /// `CONSTANT`.
    Constant,
    /// `COGNEW`.
    NewCog,
    /// `COGINIT`.
    ToldCog,
    /// Arguments, and then the bytecode.
    Plain,
}

/// How a built-in with this bytecode and so many arguments is written.
pub fn form_of_built(code: u8, count: usize) -> BuiltForm
    ensures { IsBuiltForm result code count }
{
    match count {
        0 => BuiltForm::Word,
        1 if code == 0 => BuiltForm::Constant,
        2 if code == COGINIT => BuiltForm::NewCog,
        3 if code == COGINIT_RETURNS => BuiltForm::ToldCog,
        _ => BuiltForm::Plain,
    }
}
