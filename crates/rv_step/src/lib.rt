//! One step of RV32I over any memory, and the private memory of a process.
#![tactic(auto)]

mod compute;
mod event;
mod execute;
mod laws;
mod memory;
mod private_memory;
mod registers;
mod stepping;

pub use event::Event;
pub use laws::step_changes_four_bytes;
pub use memory::Memory;
pub use private_memory::PrivateMemory;
pub use registers::Registers;
pub use stepping::step;
