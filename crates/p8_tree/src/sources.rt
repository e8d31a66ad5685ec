// The blocks of a source.
use crate::expressions::Expr;
use crate::places::Place;
use crate::sequences::{List, Text};
use crate::statements::Stmt;

/// A whole source: its blocks in order.
#[derive(Drop)]
pub struct SourceFile {
    pub blocks: List<Block>,
}

/// A block. `PUB` and `PRI` begin a `Method`.
#[derive(Drop)]
pub enum Block {
    Con(List<ConItem>),
    Var(List<VarItem>),
    Obj(List<ObjItem>),
    Method(Method),
    Dat(List<DatLine>),
}

/// An item of `CON`: `name = e`, `#e`, `name` or `name[e]`.
#[derive(Drop)]
pub struct ConItem {
    /// The first token.
    pub place: Place,
    pub name: Option<Text>,
    /// The value after `=` or `#`.
    pub value: Option<Expr>,
    /// What the counter grows by, in brackets.
    pub step: Option<Expr>,
    /// Whether the item is `#e`, which sets the counter.
    pub sets: bool,
}

/// A variable of `VAR`, or a local of a method.
#[derive(Drop)]
pub struct VarItem {
    /// The name.
    pub place: Place,
    /// 1, 2 or 4 bytes.
    pub size: u8,
    pub name: Text,
    /// How many there are, in brackets.
    pub count: Option<Expr>,
}

/// An item of `OBJ`.
#[derive(Drop)]
pub struct ObjItem {
    /// The name.
    pub place: Place,
    pub name: Text,
    /// How many instances there are, in brackets.
    pub count: Option<Expr>,
    /// The file's name as it stands in the string, with `.spin` where it has no dot.
    pub file: Text,
    /// The string.
    pub file_place: Place,
}

/// A method.
#[derive(Drop)]
pub struct Method {
    /// The name.
    pub place: Place,
    /// Whether it is a `PUB`.
    pub public: bool,
    pub name: Text,
    pub params: List<Text>,
    /// The places of the parameters, in their order.
    pub param_places: List<Place>,
    pub result: Option<Text>,
    /// The place of the result's name, where it has one.
    pub result_place: Option<Place>,
    pub locals: List<VarItem>,
    pub body: List<Stmt>,
}

/// A line of `DAT`.
#[derive(Drop)]
pub struct DatLine {
    /// The first token: the label's, where there is one.
    pub place: Place,
    pub label: Option<Text>,
    /// The size word, `ORG`, `RES`, `FIT` or the instruction's word; the label of a label alone.
    pub word_place: Place,
    pub body: DatBody,
}

/// What a line of `DAT` has after its label.
#[derive(Drop)]
pub enum DatBody {
    Nothing,
    /// The size in bytes, 1, 2 or 4, and the items.
    Data(u8, List<DatItem>),
    Org(Option<Expr>),
    Res(Option<Expr>),
    Fit(Option<Expr>),
    Instr(InstrLine),
}

/// An item of a line of data.
#[derive(Drop)]
pub struct DatItem {
    /// The size in bytes where the item has a size word of its own.
    pub size: Option<u8>,
    pub value: Expr,
    /// How many times it stands there, in brackets.
    pub count: Option<Expr>,
}

/// An instruction. A place of an operand is that of its first token, after `#` where it has one;
/// where there is no operand, it is that of the instruction's word.
#[derive(Drop)]
pub struct InstrLine {
    /// The four bits of the condition.
    pub cond: u8,
    /// The instruction's word.
    pub word: Text,
    pub dest: Option<Expr>,
    pub dest_place: Place,
    /// Whether `#` stands before the source.
    pub immediate: bool,
    pub source: Option<Expr>,
    pub source_place: Place,
    /// The effects that are written, from bit 0: `WZ`, `WC`, `WR`, `NR`.
    pub effects: u8,
}
