//! Expressions: from the tokens of a source to trees.
#![tactic(auto)]

mod closing;
mod form;
mod growing;
mod laws;
mod lookahead;
mod parsing;
mod parts;
mod reading;
mod refusals;
mod stack;
mod token_cursor;
mod value;
mod words;

pub use laws::{lexemes_are_proper, read_is_proper, tokens_are_lexemes};
pub use parsing::{GREATEST_HEIGHT, one_answer, parse_expr, parse_expr_in, read_expr};
pub use refusals::refusal_of;
pub use token_cursor::TokenCursor;
