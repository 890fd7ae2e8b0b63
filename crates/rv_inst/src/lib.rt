//! The instruction words of RV32I: decoding and encoding, proved to be inverse to one another. What
//! a word means is the table of `specs/Words.antt`, one row for each instruction, and the code
//! tests bits.
#![tactic(auto)]

mod codes;
mod decoding;
mod encoding;
mod fields;
mod laws;
mod layout;
mod validity;

pub use decoding::decode;
pub use encoding::encode;
pub use laws::{instructions_are_valid, table_decides, table_is_unambiguous, words_are_unique};
pub use validity::is_valid;

#[cfg(test)]
mod tests;
