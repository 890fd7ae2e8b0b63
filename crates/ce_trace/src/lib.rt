//! What a machine's history is for one cube, and the texts about a record: the report of a script's
//! run and the summary of a load's.
//!
//! All are written in one pass over the history, whatever the number of cubes. What makes the
//! report's pass one is a link that each entry has to the next entry of its user: a cube's section
//! follows the links from its grant to its drain, so it meets its own user's entries alone. Users
//! hold one cube at a time, so each entry is met once.
#![tactic(auto)]

mod commands;
mod digits;
mod entries;
mod grants;
mod inward;
mod links;
mod names;
mod places;
mod replies;
mod report;
mod sections;
mod stops;
mod summary;
mod views;
mod words;

pub use report::write_report;
pub use summary::write_summary;
pub use views::view;

#[cfg(test)]
mod tests;
