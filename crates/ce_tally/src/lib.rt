//! An object that a book keeps in tests and benchmarks: it adds numbers, and answers each time what
//! the sum was before.
#![tactic(auto)]

mod row;
mod tally;
#[cfg(test)]
mod tests;

pub use row::{TallyMeeting, calls_and_meets, close_both};
pub use tally::{Add, Addition, Tally};
