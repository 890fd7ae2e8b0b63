//! The kernel of a node, in a box: its processes, their blocks and its store, what it says and what
//! it hears.
#![tactic(auto)]

mod awaited_call;
mod blocks;
mod hearing;
mod kernel;
mod laws;
mod lives;
mod messages;
mod node;
mod node_box;
mod pid;
mod saying;
mod scrubbing;
mod turn;

pub use awaited_call::AwaitedCall;
pub use laws::scrubbed_is_clean_law;
pub use node_box::{NodeBox, node_boxes};

#[cfg(test)]
mod tests;
