//! Cutting a Spin source into tokens, and the pieces of a line: what stands in it one after the other, words, names, strings
//! and whole expressions; and how a source spells the names of its tree.
#![tactic(auto)]

mod characters;
mod comment;
mod cut;
mod lexer;
mod line_piece;
mod lookup;
mod meaning;
mod number;
mod piece;
mod run;
mod source_places;
mod spelling;
mod table;
mod token;
mod word;

pub use characters::Characters;
pub use lexer::{lex, one_answer};
pub use line_piece::{Piece, discarding};
pub use lookup::{named, one_word, reserved_words, word_of};
pub use meaning::{Meaning, Sought};
pub use p8_tree::Place;
pub use source_places::{START, behind};
pub use spelling::Spellings;
pub use token::{Token, TokenKind, Tokens};
pub use word::Word;
