//! A user's host: the commands that a user gives, what they are answered, and the host's blocks.
#![tactic(auto)]

mod answer;
mod command;
mod host;
#[cfg(test)]
mod tests;

pub use answer::Answer;
pub use command::Command;
pub use host::Host;
