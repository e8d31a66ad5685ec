//! What is printed is read back. The functions of this crate do nothing: their contracts are its laws.
//!
//! A printer writes words, and what it wrote is read as it was: lines of words as tokens, the words of an expression as the
//! same expression, and those of each line of a source as the same line, but for places. So the text of each tree that a file
//! has, as [`print_tree`](p8_print::print_tree) writes it, is read as the same tree.
//!
//! A tree of a source is proper where its numbers, names, operators, operands, heights and depths are such as a source has. This
//! is enough: what is printed of any proper tree is read as the same tree. So a proper tree may be made in any way, and need
//! not have been read.
//!
//! A listing prints each long of `DAT` as an instruction. Laws say of each of the 2^32 longs that this text, as a line of `DAT`, is
//! read as a line of its own, and that this line is assembled to the long. One call does all of it, from the long to its bytes.
#![tactic(auto)]

mod assembled;
mod assembly;
mod declarations;
mod expression_words;
mod laws;
mod long_laws;
mod methods;
mod proper_laws;
mod reading;

pub use assembled::assembled_text;
pub use assembly::data_read_back;
pub use declarations::{
    constants_read_back, heads_read_back, objects_read_back, variables_read_back,
};
pub use expression_words::{expression_reads_back, word_is_lexeme};
pub use laws::{printed_reads_back, trees_are_of_files};
pub use long_laws::{line_is_assembled, names_are_good, text_is_read};
pub use methods::lines_read_back;
pub use proper_laws::{expressions_are_spelled, places_are_not_printed, proper_reads_back};
pub use reading::{plain_columns, reads_back};
