//! Sets of nodes and the subcubes of a machine: which nodes a subcube has and by what numbers, and
//! the first subcube that is free.
#![tactic(auto)]

mod bits;
mod subcube;

pub use bits::{deposit, extract};
pub use subcube::{first_free, node_of, nodes_of, relative_number};

#[cfg(test)]
mod tests;
