//! Message blocks, and the stores that keep those which nobody uses.
#![tactic(auto)]

mod block;
mod order;
mod store;

pub use block::Block;
pub use store::Store;

#[cfg(test)]
mod tests;
