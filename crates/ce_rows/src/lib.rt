//! Worked rows of the machine, driven by hand: each call is shown to fit behind those before it.
#![tactic(auto)]

mod request;
mod worked;

pub use request::ask;
pub use worked::WorkedRow;

#[cfg(test)]
mod tests;
