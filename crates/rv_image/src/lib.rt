//! Images, from which processes are started, and RKI1, the format in which they are kept.
#![tactic(auto)]

mod fault;
mod image;
mod laws;

pub use fault::ImageFault;
pub use image::{Image, read, write};
pub use laws::{rki1_is_unambiguous, written_and_read};

#[cfg(test)]
mod tests;
