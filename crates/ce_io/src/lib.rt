//! Sources that bytes come from and sinks that they go to: in memory with a list of the calls that
//! fail, and over the readers and writers of `std`. Each counts its faults, so that a contract can
//! say that a failure is answered only where one came.
#![tactic(auto)]

mod calls;
mod failure;
mod memory_sink;
mod memory_source;
mod sink;
mod source;
mod standard;
#[cfg(test)]
mod tests;
mod whole;

pub use failure::Failure;
pub use memory_sink::MemSink;
pub use memory_source::MemSource;
pub use sink::Sink;
pub use source::Source;
pub use standard::{StdSink, StdSource};
pub use whole::{PIECE, ReadError, read_to_end, write_all};
