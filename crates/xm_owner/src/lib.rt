//! The blocks that the processes of a node hold in their windows.
#![tactic(auto)]

mod held_blocks;
mod key;
mod keys;
mod room;

pub use held_blocks::HeldBlocks;

#[cfg(test)]
mod tests;
