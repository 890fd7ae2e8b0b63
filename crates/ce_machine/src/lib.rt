//! The machine that users share: it answers their calls, and stores its history.
#![tactic(auto)]

mod acts;
mod blank;
mod call;
mod desk;
mod desks;
mod give;
mod heads;
mod host_desk;
mod machine;
mod mail;
mod order;
mod says;

pub use call::{Call, Reply};
pub use machine::Machine;
