//! What a run leaves: each user's commands with their replies, and the machine's history.
use crate::name::Name;
use ce_host::{Answer, Command};
use ce_model::Entry;
use sqlite_items::Items;

/// A user, and the user's commands with their replies, in order.
#[derive(Debug, Drop)]
pub struct UserRecord {
    /// The user's name.
    pub name: Name,
    /// Each command, and what it was answered.
    pub done: Items<(Command, Answer)>,
}

/// What a run leaves.
#[derive(Debug, Drop)]
pub struct Record {
    /// The users, by number.
    pub users: Items<UserRecord>,
    /// Every entry of the machine, in order, with the machine's own numbers.
    pub history: Items<Entry>,
}
