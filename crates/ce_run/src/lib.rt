//! Runs a script: from the bytes of a source to the bytes of a report.
#![tactic(auto)]

mod asking;
mod command;
mod commands;
mod program;
mod run_end;
mod serial;
mod user_state;

pub use command::run_command;
pub use program::{serial_call, top};
pub use run_end::{RunEnd, RunFault, write_fault};

#[cfg(test)]
mod tests;
