//! The words of the program's command line, read with `clap`.
#![tactic(auto)]

mod line;
#[cfg(test)]
mod tests;

pub use line::{CommandLine, CommandLineError, read_line};
