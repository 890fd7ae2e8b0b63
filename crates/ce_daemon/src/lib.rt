//! The daemon of a machine: it grants subcubes of free nodes to users, hands their boxes out, and
//! takes them back.
#![tactic(auto)]

mod boxes;
mod daemon;
mod grant;
mod homed;
mod nodes;

pub use boxes::node_numbers;
pub use daemon::Daemon;
pub use grant::{Grant, Grants, PeekResult};
pub use homed::Homed;

#[cfg(test)]
mod tests;
