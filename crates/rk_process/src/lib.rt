//! A process: its registers, its private memory and its windows, and its run from one kernel call
//! to the next.
#![tactic(auto)]

mod law;
mod memory;
mod pause;
mod process;

pub use law::windows_stay_gone_law;
pub use pause::Pause;
pub use process::Process;

#[cfg(test)]
mod tests;
