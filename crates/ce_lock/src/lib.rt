//! A ticket lock that keeps one history: the book.
#![tactic(auto)]

mod board;
mod book;
mod closing;
mod kept;
mod limits;
mod opening;
mod plays;
mod seat;
mod steps;
mod turn;
mod view;
mod who;

pub use book::Book;
pub use kept::Kept;
pub use limits::HISTORY_LIMIT;
pub use seat::Seat;
pub use who::Who;
