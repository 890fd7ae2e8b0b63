//! How a book ends.
ghost use Rattle.std.specs.Prelude.{◌≡◌, ℕ, ◌<◌, [], ◌∷◌, map, IsFalse};
ghost use Rattle.std.specs.List.{AllByRecursion, Contains};
ghost use Rattle.ce_model.specs.declared.topology.TheConstants.{HOST};
ghost use Rattle.ce_lock.specs.declared.who.Who.{Who};
ghost use Rattle.ce_lock.specs.Meanings.{meanings};
ghost use Rattle.ce_lock.specs.Telling.{idle_place, no_actor, joined_head_of, IsClosingObject};
ghost use Rattle.ce_lock.specs.Sitting.{IsHeadIn, IsWholeSeat, IsSoundSeat, who};

use crate::board::{Board, Chair, ChairAtBoard};
use crate::book::Book;
use crate::kept::Kept;
use crate::seat::Seat;

impl<O: Kept> Book<O> {
    /// Ends the book, for all heads of which nobody is out, and gives the object back.
    pub fn close(self, heads: Vec<Seat<O>>) -> O
        requires each { AllByRecursion
            (IsHeadIn (meanings O.fixed O.history O.lawful O.whose O.alone_entry) self)
            heads.items }
        requires all { (f : ℕ) → f < self.families
            → Contains (map (λ s. (who s).family) heads.items) f }
        ensures fixed { O.fixed result ≡ O.fixed self.opening }
        ensures lawful { O.lawful (O.fixed self.opening) (O.history result) }
        ensures heads { AllByRecursion
            (IsWholeSeat (meanings O.fixed O.history O.lawful O.whose O.alone_entry)
            (O.history result))
            heads.items }
    {
        let closer = self.join_heads(heads);
        let Book { board } = self;
        take_object(board, closer)
    }

    /// Joins all heads into a copy of the last one.
    fn join_heads(&self, mut heads: Vec<Seat<O>>) -> Chair<O>
        requires each { AllByRecursion
            (IsHeadIn (meanings O.fixed O.history O.lawful O.whose O.alone_entry) self.now)
            heads.items }
        requires all { (f : ℕ) → f < self.now.families
            → Contains (map (λ s. (who s).family) heads.items) f }
        ensures chair { result.table_id ≡ self.now.table }
        ensures live { IsFalse result.me.0.right.is_spent }
        ensures joined_heads { result.me.0.page.joined_heads
            ≡ map (λ s. joined_head_of s.1) heads.items }
    {
        // It reads the book, so that its invariant is at hand.
        let _ = &self.board;
        let Some(mut last) = heads.pop() else {
            unreachable!()
        };
        let mut closer = self.copy_of(&mut last);
        self.join_last(&mut closer, last.into_chair());
        while let Some(head) = heads.pop() {
            self.join_last(&mut closer, head.into_chair());
        }
        closer
    }

    /// Joins a head with nobody out into the copy.
    fn join_last(&self, closer: &mut Chair<O>, head: Chair<O>)
        requires chairs { (closer.old.table_id ≡ self.now.table)
            × (head.table_id ≡ self.now.table) }
        requires copied { (closer.old.me.0.place ≡ idle_place)
            × (closer.old.me.0.right ≡ no_actor) }
        requires sound { (actor : Who)
            × IsSoundSeat (meanings O.fixed O.history O.lawful O.whose O.alone_entry) actor
            head.me }
        requires head { (head.me.0.right.actor ≡ HOST) × (head.me.0.right.absent_actors ≡ []) }
        ensures chair { (closer.new.table_id ≡ closer.old.table_id)
            × (closer.new.id ≡ closer.old.id) }
        ensures copied { (closer.new.me.0.place ≡ idle_place) × (closer.new.me.0.right ≡ no_actor) }
        ensures joined_heads { closer.new.me.0.page.joined_heads
            ≡ joined_head_of head.me.0 ∷ closer.old.me.0.page.joined_heads }
    {
        let mut pair = ChairAtBoard {
            board: &self.board,
            chair: closer,
        };
        pair.close_head(head);
        pair.settle();
    }
}

/// The object of a table to which no seat comes any more.
fn take_object<O: Kept>(board: Board<O>, closer: Chair<O>) -> O
    requires chair { closer.table_id ≡ board.table.shared.table_id }
    requires live { IsFalse closer.me.0.right.is_spent }
    requires all { (f : ℕ) → f < board.table.shared.key.families
        → Contains (map (λ l. l.family) closer.me.0.page.joined_heads) f }
    ensures { IsClosingObject (meanings O.fixed O.history O.lawful O.whose O.alone_entry)
        board.table.shared.key.opening.value closer.me.0.page.joined_heads result }
{
    let mut closed_table = board.table.close_with(closer);
    let object = closed_table.take(0);
    closed_table.free();
    object
}
