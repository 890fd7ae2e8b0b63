//! Worked rows of a node: a box that is driven by hand, with what waits for it, and what it said
//! and heard.
#![tactic(auto)]

mod desk;
mod fault;
mod lone_node;
mod transcript;

pub use fault::RowFault;
pub use lone_node::LoneNode;

#[cfg(test)]
mod tests;
