//! Lines of a text and what stands in them: comments, blanks, words, names and numbers; and tables
//! of words and of names. The languages that are written so are read above this crate.
#![tactic(auto)]

mod bytes;
mod limits;
mod line;
mod name;
mod names;
mod number;
mod table;
mod words;

pub use bytes::{are_plain, has_byte, is_blank, is_digit, is_letter, is_plain};
pub use limits::TEXT_LIMIT;
pub use line::{before_comment, cut_at, cut_at_blank, next_line, without_outer_blanks};
pub use name::is_name;
pub use names::NameTable;
pub use number::{are_hex_digits, hex_digit, number_of_digits};
pub use table::look_up;
pub use words::next_word;

#[cfg(test)]
mod tests;
