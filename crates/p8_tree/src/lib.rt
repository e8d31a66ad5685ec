//! The trees of a source, what every part of the compiler after the lexer speaks of, and why a source is refused: faults, and
//! which of several is told.
#![tactic(auto)]

mod expressions;
mod faults;
mod laws;
mod places;
mod projects;
mod refusal;
mod sequences;
mod sources;
mod statements;

pub use expressions::{Call, Expr, ExprKind, Item, Target};
pub use faults::{Fault, first_of_two};
pub use laws::{FaultSet, earlier_is_first, first_of_file_is_first, one_first};
pub use places::Place;
pub use projects::{Project, ProjectFile};
pub use refusal::{Refusal, refusal_name};
pub use sequences::{List, Text};
pub use sources::{
    Block, ConItem, DatBody, DatItem, DatLine, InstrLine, Method, ObjItem, SourceFile, VarItem,
};
pub use statements::{Arm, Loop, Stmt, StmtKind};
