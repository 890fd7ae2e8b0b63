//! A two-pass assembler for RV32I. Every text that is refused has one fault, with its line and
//! kind.
#![tactic(auto)]

mod assembly;
mod fault;
mod first_pass;
mod forms;
mod label;
mod layout;
mod line;
mod literal;
mod mnemonic;
mod name;
mod operand;
mod register;
mod second_pass;
mod statement;
mod symbols;
mod table;

pub use assembly::assemble;
pub use fault::{AsmFault, AsmKind};

#[cfg(test)]
mod tests;
