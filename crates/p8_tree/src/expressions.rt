// Expressions.
use crate::places::Place;
use crate::sequences::Text;

/// An expression with the place by which refusals name it.
///
/// The place is that of the operator of a unary, a binary or an assigning form, that of the
/// object's or else the method's name of a call, and that of the first token of every other form.
/// Parentheses leave nothing in a tree.
#[cycle(expr)]
#[derive(Drop)]
pub struct Expr {
    pub place: Place,
    pub kind: ExprKind,
}

/// The forms of an expression.
///
/// An operator, a built-in and a change are numbered by the bytecode that carries them out.
#[cycle(expr)]
#[derive(Drop)]
pub enum ExprKind {
    /// A number, or a string of one character in the place of a number.
    Number(u32),
    /// `STRING("..")`, or a string of several characters among the items of DAT.
    Str(Text),
    /// `STRING(items)` with any other list of items than a string alone. A `Str` among them stands for its characters, any
    /// other item for one.
    Strings(Vec<Expr>),
    /// `$`, the address of the place itself, in DAT.
    Here,
    /// A variable that is read; a name alone is one, whatever it names.
    Var(Target),
    /// A call with parentheses, with a mark `\` or of an object.
    Call(Call),
    /// An operator from E0 to FF, or EC for the sign `+`, before its operand.
    Unary(u8, Box<Expr>),
    /// An operator from E0 to FF between its operands, the left one first.
    Binary(u8, Box<Expr>, Box<Expr>),
    /// `:=`, or a binary operator from E0 to FF with `=`, which writes the variable.
    Assign(Target, Option<u8>, Box<Expr>),
    /// A change of a variable, by its effect byte: 20 for `++` before it, 28 for `++` after it, 30
    /// and 38 likewise for `--`, 10 and 14 for `~` and `~~` before it, 18 and 1C for those after
    /// it, and 40 + k for the unary operator E0 + k that stands alone with a variable.
    Change(Target, u8),
    /// `@` and a variable: its address.
    Address(Target),
    /// `@@` and an offset in the object.
    ObjectAddress(Box<Expr>),
    /// The constant of an object: the object's name, the constant's name and the place of the
    /// latter.
    ObjConst(Text, Text, Place),
    /// A built-in with its arguments: its bytecode, 00 for `CONSTANT`, 3F for `COGID`, C0 for
    /// `CLKFREQ`, 80 for `CLKMODE`, 28 for `COGINIT` and 2C for `COGNEW`.
    Built(u8, Vec<Expr>),
    /// `LOOKUP` 10, `LOOKDOWN` 11, `LOOKUPZ` 12 or `LOOKDOWNZ` 13: what is looked for, and the
    /// items.
    Look(u8, Box<Expr>, Vec<Item>),
}

/// A variable. Each form ends with the place of its first token.
///
/// Sizes are 1, 2 and 4 bytes.
#[cycle(expr)]
#[derive(Drop)]
pub enum Target {
    /// A name, `RESULT` among them, with an index or without.
    Named(Text, Option<Box<Expr>>, Place),
    /// A part of a named variable: `name.BYTE[e]`, its size and its index.
    Part(Text, u8, Option<Box<Expr>>, Place),
    /// Main memory: `BYTE[a][i]`, its size, address and index.
    Memory(u8, Box<Expr>, Option<Box<Expr>>, Place),
    /// A register, by its address from 1F0 to 1FF, whole or some of its bits.
    Register(u16, Option<Box<Item>>, Place),
}

/// A call of a method.
#[cycle(expr)]
#[derive(Drop)]
pub struct Call {
    /// Whether `\` stands before it: the call stops an abort.
    pub trap: bool,
    /// The object whose method it is, where it isn't one of the same object.
    pub object: Option<Text>,
    /// Which of an array of objects.
    pub index: Option<Box<Expr>>,
    /// The method's name.
    pub method: Text,
    /// The place of the method's name.
    pub method_place: Place,
    /// The arguments.
    pub args: Vec<Expr>,
}

/// A value or a range of values, as a `LOOK` function, a `CASE` and the bits of a register have it.
#[cycle(expr)]
#[derive(Drop)]
pub struct Item {
    pub low: Expr,
    pub high: Option<Expr>,
}
