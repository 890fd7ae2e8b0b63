//! The mail of a cube: parcels on their way, what a node says and hears, and the queue of what
//! waits for a node.
#![tactic(auto)]

mod batch;
mod mailbox;
mod parcel;
mod talk;

pub use batch::Batch;
pub use mailbox::Mailbox;
pub use parcel::{Item, Parcel};
pub use talk::{Hearing, Say, kill_hearing, spawn_hearing};

#[cfg(test)]
mod tests;
