//! What a seat knows. No value of these types is made: they are what the rule of the book speaks
//! of.
use std::collections::LinkedList;

/// Where a seat is in the queue.
pub struct QueuePlace {
    /// It has drawn a ticket.
    pub has_ticket: bool,
    /// It has seen that its turn has come.
    pub is_turn: bool,
    /// It has the object out of the slot.
    pub has_object: bool,
    /// Its ticket, which counts on beyond 2^64.
    pub ticket: u64,
}

/// Whom a seat acts for, and what it may do.
pub struct Right {
    /// It was joined into another one.
    pub is_spent: bool,
    /// It may draw tickets.
    pub may_draw: bool,
    /// Its family.
    pub family: u32,
    /// Its actor.
    pub actor: u32,
    /// How many heads were made so far, where it is the last of them, and else 0.
    pub heads: u32,
    /// Of a head: the actors of its family whose seats are out.
    pub absent_actors: LinkedList<u32>,
}

/// A head that was joined away when the book was closed.
pub struct JoinedHead<E> {
    /// The head's family.
    pub family: u32,
    /// The head's entries.
    pub mine: LinkedList<E>,
    /// What the head had seen.
    pub seen: LinkedList<E>,
}

/// What a seat has seen of the history.
pub struct Page<O, E> {
    /// The object that the book was made of, if the seat isn't spent.
    pub opening: Option<O>,
    /// The history as far as it was seen.
    pub seen: LinkedList<E>,
    /// The entries of its actor from before the seat was made.
    pub earlier: LinkedList<E>,
    /// Its own entries.
    pub mine: LinkedList<E>,
    /// What the seats had seen that were joined into it since its last look.
    pub older_histories: LinkedList<LinkedList<E>>,
    /// The heads that were joined into it.
    pub joined_heads: LinkedList<JoinedHead<E>>,
}

/// What a seat knows.
pub struct View<O, E> {
    pub place: QueuePlace,
    pub right: Right,
    pub page: Page<O, E>,
}
