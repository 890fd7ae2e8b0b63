//! The kinds of atomic access, one function each.
ghost use Rattle.std.specs.Prelude.{◌≡◌, ◌≢◌, ℕ, ◌+◌, ◌<◌, [], ◌∷◌, ◌++◌, length, Some, IsTrue, IsFalse};
ghost use Rattle.std.specs.List.{Contains};
ghost use Rattle.atomic_table.specs.Table.{Joins};
ghost use Rattle.ce_model.specs.declared.topology.TheConstants.{HOST};
ghost use Rattle.ce_lock.specs.declared.limits.TheConstants.{HISTORY_LIMIT};
ghost use Rattle.ce_lock.specs.Meanings.{meanings};
ghost use Rattle.ce_lock.specs.OneOrder.{IsBookInOrder, who_of};
ghost use Rattle.ce_lock.specs.Telling.{idle_place, place_waiting, served_place, place_holding, HasDrawn, HasLookedAtTicket, HasTakenObject, HasCommitted, HasGivenObject, HasLeftTurn, IsSettled, no_actor, view_copy, view_after_making, next_head, view_with_out, actor_view, view_after_meeting, view_after_joining, view_after_closing};
ghost use Rattle.ce_lock.specs.Sitting.{AreIdle};
ghost use Rattle.ce_lock.specs.Chairs.{IsSameChair};

use crate::board::{Chair, ChairAtBoard};
use crate::kept::Kept;
use crate::plays::{
    Closing, Commit, Copying, Draw, Give, Leave, Look, Meeting, Named, NextHead, Sending, Settle,
    Take, TakingBack,
};
use crate::view::View;
use atomic_table::Join;

/// The word of the next ticket.
const TICKET: usize = 0;

/// The word of the ticket that is served.
pub const SERVING: usize = 1;

/// The word of the number of entries.
const COUNT: usize = 2;

impl<'a, O: Kept> ChairAtBoard<'a, O> {
    /// Draws a ticket.
    pub fn draw(&mut self) -> u64
        requires idle { self.old.chair.now.me.0.place ≡ idle_place }
        requires may_draw { IsTrue self.old.chair.now.me.0.right.may_draw }
        ensures same { IsSameChair self.old self.new }
        ensures drew { HasDrawn self.old.chair.now.me result self.new.chair.now.me }
    {
        self.board
            .table
            .shared
            .fetch_add::<Draw>(self.chair, TICKET, 1)
    }

    /// Looks which ticket is served.
    pub fn look(&mut self) -> u64
        requires waits { (t : ℕ) × (self.old.chair.now.me.0.place ≡ place_waiting t) }
        ensures same { IsSameChair self.old self.new }
        ensures looked { HasLookedAtTicket self.old.chair.now.me result self.new.chair.now.me }
    {
        self.board.table.shared.load::<Look>(self.chair, SERVING)
    }

    /// Takes the object out of the slot.
    pub fn take(&mut self)
        requires turn { (t : ℕ) × (self.old.chair.now.me.0.place ≡ served_place t) }
        ensures same { IsSameChair self.old self.new }
        ensures took { HasTakenObject (meanings O.fixed O.history O.lawful O.whose O.alone_entry)
            self.old.chair.now.me self.new.chair.now.me }
    {
        self.board.table.shared.load::<Take>(self.chair, COUNT);
    }

    /// Counts the entry that the object has gained.
    pub fn commit(&mut self)
        requires holds { (t : ℕ) × (self.old.chair.now.me.0.place ≡ place_holding t) }
        requires entry { (y : O) × (o : O) × (e : O.Entry)
            × (self.old.chair.now.me.1 ≡ (0, y) ∷ [])
            × (self.old.chair.now.me.0.page.opening ≡ Some o)
            × (O.history y ≡ self.old.chair.now.me.0.page.seen ++ e ∷ [])
            × O.lawful (O.fixed o) (self.old.chair.now.me.0.page.seen ++ e ∷ [])
            × (length (self.old.chair.now.me.0.page.seen ++ e ∷ []) < HISTORY_LIMIT)
            × (O.whose e ≡ who_of self.old.chair.now.me.0.right)
            × (IsTrue (O.alone_entry e)
            → (self.old.chair.now.me.0.right.actor ≡ HOST)
            × (self.old.chair.now.me.0.right.absent_actors ≡ [])) }
        ensures same { IsSameChair self.old self.new }
        ensures committed { HasCommitted (meanings O.fixed O.history O.lawful O.whose O.alone_entry)
            self.old.chair.now.me self.new.chair.now.me }
    {
        self.board
            .table
            .shared
            .fetch_add::<Commit>(self.chair, COUNT, 1);
    }

    /// Puts the object back into the slot.
    pub fn give(&mut self)
        requires holds { (t : ℕ) × (self.old.chair.now.me.0.place ≡ place_holding t) }
        requires object { (y : O) × (o : O) × (self.old.chair.now.me.1 ≡ (0, y) ∷ [])
            × (self.old.chair.now.me.0.page.opening ≡ Some o)
            × (O.fixed y ≡ O.fixed o) × (O.history y ≡ self.old.chair.now.me.0.page.seen) }
        ensures same { IsSameChair self.old self.new }
        ensures gave { HasGivenObject self.old.chair.now.me self.new.chair.now.me }
    {
        self.board.table.shared.load::<Give>(self.chair, COUNT);
    }

    /// Leaves the turn to the next ticket.
    pub fn leave(&mut self)
        requires turn { (t : ℕ) × (self.old.chair.now.me.0.place ≡ served_place t) }
        ensures same { IsSameChair self.old self.new }
        ensures left { HasLeftTurn self.old.chair.now.me self.new.chair.now.me }
    {
        self.board
            .table
            .shared
            .fetch_add::<Leave>(self.chair, SERVING, 1);
    }

    /// Learns, after a seat was joined into its own, that what both had seen is a part of what it
    /// has seen.
    pub fn settle(&mut self)
        requires idle { self.old.chair.now.me.0.place ≡ idle_place }
        requires live { IsFalse self.old.chair.now.me.0.right.is_spent }
        ensures same { IsSameChair self.old self.new }
        ensures settled { IsSettled (meanings O.fixed O.history O.lawful O.whose O.alone_entry)
            self.old.chair.now.me self.new.chair.now.me }
    {
        self.board.table.shared.load::<Settle>(self.chair, COUNT);
    }

    /// A seat that knows what this one has seen, and may do nothing.
    pub fn copy_seat(&mut self) -> Chair<O>
        requires live { IsFalse self.old.chair.now.me.0.right.is_spent }
        ensures same { IsSameChair self.old self.new
            × (self.new.chair.now.me ≡ self.old.chair.now.me) }
        ensures made { (result.table_id ≡ self.old.chair.now.table_id)
            × (result.me ≡ (view_copy self.old.chair.now.me.0, [])) }
    {
        self.board.table.shared.split_seat::<Copying>(self.chair)
    }

    /// The seat of the next family's head.
    pub fn next_seat(&mut self) -> Chair<O>
        requires live { IsFalse self.old.chair.now.me.0.right.is_spent }
        requires made { 0 < self.old.chair.now.me.0.right.heads }
        requires room { self.old.chair.now.me.0.right.heads
            < self.old.board.now.table.shared.key.families }
        ensures same { IsSameChair self.old self.new
            × (self.new.chair.now.me
            ≡ (view_after_making self.old.chair.now.me.0, self.old.chair.now.me.1)) }
        ensures made { (result.table_id ≡ self.old.chair.now.table_id)
            × (result.me ≡ (next_head self.old.chair.now.me.0, [])) }
    {
        self.board.table.shared.split_seat::<NextHead>(self.chair)
    }

    /// The seat of an actor that a head sends out.
    pub fn worker_seat<N: Named>(&mut self, actor: u32) -> Chair<O>
        requires name { N.actor ≡ actor }
        requires may_draw { IsTrue self.old.chair.now.me.0.right.may_draw }
        requires host { self.old.chair.now.me.0.right.actor ≡ HOST }
        requires free { (actor ≢ HOST)
            × ¬ Contains self.old.chair.now.me.0.right.absent_actors actor }
        ensures same { IsSameChair self.old self.new
            × (self.new.chair.now.me
            ≡ (view_with_out actor self.old.chair.now.me.0, self.old.chair.now.me.1)) }
        ensures made { (result.table_id ≡ self.old.chair.now.table_id)
            × (result.me ≡ (actor_view O.whose actor self.old.chair.now.me.0, [])) }
    {
        let _ = actor;
        self.board.table.shared.split_seat::<Sending<N>>(self.chair)
    }

    /// Joins a copy into a seat.
    pub fn meet_copy(&mut self, other: Chair<O>)
        requires idle { AreIdle self.old.chair.now other }
        requires live { IsFalse self.old.chair.now.me.0.right.is_spent }
        requires copied { other.me.0.right ≡ no_actor }
        ensures same { IsSameChair self.old self.new }
        ensures met { self.new.chair.now.me
            ≡ (view_after_meeting self.old.chair.now.me.0 other.me.0, self.old.chair.now.me.1) }
    {
        self.join::<Meeting>(other);
    }

    /// Joins the seat of an actor into its head's.
    pub fn take_back(&mut self, other: Chair<O>)
        requires idle { AreIdle self.old.chair.now other }
        requires draw { IsTrue self.old.chair.now.me.0.right.may_draw
            × IsTrue other.me.0.right.may_draw }
        requires head { self.old.chair.now.me.0.right.actor ≡ HOST }
        requires family { other.me.0.right.family ≡ self.old.chair.now.me.0.right.family }
        requires out { Contains self.old.chair.now.me.0.right.absent_actors other.me.0.right.actor }
        ensures same { IsSameChair self.old self.new }
        ensures taken { self.new.chair.now.me
            ≡ (view_after_joining self.old.chair.now.me.0 other.me.0, self.old.chair.now.me.1) }
    {
        self.join::<TakingBack>(other);
    }

    /// Joins the seat of a head with nobody out into the copy that closes the book.
    pub fn close_head(&mut self, other: Chair<O>)
        requires idle { AreIdle self.old.chair.now other }
        requires copied { self.old.chair.now.me.0.right ≡ no_actor }
        requires head { IsTrue other.me.0.right.may_draw × (other.me.0.right.actor ≡ HOST) }
        requires alone { other.me.0.right.absent_actors ≡ [] }
        requires fresh { other.me.0.page.earlier ≡ [] }
        ensures same { IsSameChair self.old self.new }
        ensures closed { self.new.chair.now.me
            ≡ (view_after_closing self.old.chair.now.me.0 other.me.0, self.old.chair.now.me.1) }
    {
        self.join::<Closing>(other);
    }

    /// Joins a raw seat into this one, where the rule of the book allows it.
    fn join<J: Join<View<O, O::Entry>>>(&mut self, other: Chair<O>)
        requires idle { AreIdle self.old.chair.now other }
        requires allowed { Joins
            (IsBookInOrder (meanings O.fixed O.history O.lawful O.whose O.alone_entry)
            self.old.board.now.table.shared.key.opening.value
            self.old.board.now.table.shared.key.families)
            self.old.chair.now.id self.old.chair.now.me.0 other.id other.me.0
            (J.both self.old.chair.now.me.0 other.me.0) J.spent }
        ensures same { IsSameChair self.old self.new }
        ensures joined { self.new.chair.now.me
            ≡ (J.both self.old.chair.now.me.0 other.me.0, self.old.chair.now.me.1) }
    {
        self.board.table.shared.join_seat::<J>(self.chair, other);
    }
}
