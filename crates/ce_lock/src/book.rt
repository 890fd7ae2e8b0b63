//! The book: an object behind a ticket lock, whose history each caller sees a part of.
ghost use Rattle.std.specs.Prelude.{◌≡◌, ◌≢◌, ◌⊎◌, ◌+◌, ◌<◌, List, [], ◌∷◌, ◌++◌, IfOk, IfErr, IsTrue};
ghost use Rattle.std.specs.List.{Contains};
ghost use Rattle.ce_model.specs.declared.topology.TheConstants.{HOST};
ghost use Rattle.ce_model.specs.Lists.{IsFront};
ghost use Rattle.ce_lock.specs.declared.who.Who.{Who};
ghost use Rattle.ce_lock.specs.Entries.{ids_without, entries_of};
ghost use Rattle.ce_lock.specs.Meanings.{meanings};
ghost use Rattle.ce_lock.specs.Telling.{view_copy};
ghost use Rattle.ce_lock.specs.Sitting.{IsSeatOf, IsSameSeat, IsKnown, IsSeatBehind, who, seen_history, earlier, mine, out};

use crate::board::{Board, Chair, ChairAtBoard};
use crate::kept::Kept;
use crate::plays::Named;
use crate::seat::Seat;
use crate::turn::ActorCall;
use crate::who::Who;
use ce_model::NoMemory;
use std::alloc::Global;
use std::marker::{Brand, Model};
use std::sync::Wait;

/// An object that many threads call, one at a time, in the order of their tickets. Contracts see
/// which book it is, the object that it was made of, and the number of families.
#[derive(Drop)]
pub struct Book<O: Kept> {
    pub(crate) board: Board<O>,
}

impl<O: Kept> Model for Book<O> {
    ghost use Rattle.std.specs.Prelude.{◌<◌};
    ghost use Rattle.ce_lock.specs.Sitting.{BookFacts};

    ghost Value = { BookFacts O };

    ghost view = { λ b. record {
      table = b.board.table.shared.table_id;
      opening = b.board.table.shared.key.opening.value;
      families = b.board.table.shared.key.families;
    } };

    ghost invariant = { λ b. 0 < b.board.table.shared.key.families };
}

impl<O: Kept> Book<O> {
    /// Gives `actor` a seat of its own in the head's family, which has seen what the head has.
    pub fn split(&self, head: &mut Seat<O>, actor: u32) -> Seat<O>
        requires of_book { IsSeatOf self.now head.old }
        requires head { (who head.old).actor ≡ HOST }
        requires actor { (actor ≢ HOST) × ¬ Contains (out head.old) actor }
        ensures worker { IsSeatOf self.now result }
        ensures actor { who result ≡ record { family = (who head.old).family; actor = actor } }
        ensures seen { seen_history result ≡ seen_history head.old }
        ensures fresh { mine result ≡ [] }
        ensures earlier { earlier result ≡ entries_of O.whose (who result) (seen_history head.old) }
        ensures nobody_out { out result ≡ [] }
        ensures known { IsKnown (meanings O.fixed O.history O.lawful O.whose O.alone_entry)
            self.now.opening result }
        ensures same_head { IsSameSeat head.old head.new }
        ensures out { out head.new ≡ actor ∷ out head.old }
        ensures rest { (seen_history head.new ≡ seen_history head.old)
            × (mine head.new ≡ mine head.old) }
    {
        let family = head.who.family;
        let mut pair = ChairAtBoard {
            board: &self.board,
            chair: &mut head.chair,
        };
        let chair = pair.worker_seat::<Brand>(actor);
        Seat {
            who: Who { family, actor },
            chair,
        }
    }

    /// Makes the call, after all calls that were served before. It may wait for its turn. With no
    /// memory for it, no entry is made and the call comes back.
    pub fn call<R: Wait>(
        &self,
        rt: &R,
        alloc: Global,
        seat: &mut Seat<O>,
        call: O::Call,
    ) -> Result<O::Reply, (O::Call, NoMemory)>
        requires of_book { IsSeatOf self.now seat.old }
        requires fits { O.fits (O.fixed self.now.opening) (seen_history seat.old) (who seat.old)
            call }
        requires alone { IsTrue (O.alone call)
            → ((who seat.old).actor ≡ HOST) × (out seat.old ≡ []) }
        ensures same { IsSameSeat seat.old seat.new }
        ensures out { out seat.new ≡ out seat.old }
        ensures answered { IfOk result (λ reply. (past : List O.Entry) × (entry : O.Entry)
            × IsSeatBehind (meanings O.fixed O.history O.lawful O.whose O.alone_entry) seat.old
            past
            × (seen_history seat.new ≡ past ++ entry ∷ [])
            × (mine seat.new ≡ mine seat.old ++ entry ∷ [])
            × O.stands (O.fixed self.now.opening) past entry (who seat.old) call reply) }
        ensures refused { IfErr result (λ refusal. (refusal.0 ≡ call)
            × IsFront (seen_history seat.old) (seen_history seat.new)
            × (mine seat.new ≡ mine seat.old)) }
        ensures known { IsKnown (meanings O.fixed O.history O.lawful O.whose O.alone_entry)
            self.now.opening seat.new }
    {
        let who = seat.who;
        let mut pair = ChairAtBoard {
            board: &self.board,
            chair: &mut seat.chair,
        };
        pair.take_turn(rt, ActorCall { alloc, who, call })
    }

    /// Makes both seats see what either saw.
    pub fn meet(&self, a: &mut Seat<O>, b: &mut Seat<O>)
        requires of_book { IsSeatOf self.now a.old × IsSeatOf self.now b.old }
        ensures same_a { IsSameSeat a.old a.new }
        ensures same_b { IsSameSeat b.old b.new }
        ensures same_seen { seen_history a.new ≡ seen_history b.new }
        ensures longer { (seen_history a.new ≡ seen_history a.old)
            ⊎ (seen_history a.new ≡ seen_history b.old) }
        ensures begins_a { IsFront (seen_history a.old) (seen_history a.new) }
        ensures begins_b { IsFront (seen_history b.old) (seen_history a.new) }
        ensures rest_a { (mine a.new ≡ mine a.old) × (out a.new ≡ out a.old) }
        ensures rest_b { (mine b.new ≡ mine b.old) × (out b.new ≡ out b.old) }
        ensures known_a { IsKnown (meanings O.fixed O.history O.lawful O.whose O.alone_entry)
            self.now.opening a.new }
        ensures known_b { IsKnown (meanings O.fixed O.history O.lawful O.whose O.alone_entry)
            self.now.opening b.new }
    {
        self.show(a, b);
        self.show(b, a);
    }

    /// What is known of each seat of the book.
    pub fn knows(&self, seat: &Seat<O>)
        requires of_book { IsSeatOf self.now seat.now }
        ensures known { IsKnown (meanings O.fixed O.history O.lawful O.whose O.alone_entry)
            self.now.opening seat.now }
    {
        // It reads the seat, so that its invariant is at hand.
        let _ = &seat.who;
    }

    /// Makes the second seat see what the first has seen.
    fn show(&self, teacher: &mut Seat<O>, learner: &mut Seat<O>)
        requires of_book { IsSeatOf self.now teacher.old × IsSeatOf self.now learner.old }
        ensures teacher { teacher.new ≡ teacher.old }
        ensures same { IsSameSeat learner.old learner.new }
        ensures longer { (seen_history learner.new ≡ seen_history learner.old)
            ⊎ (seen_history learner.new ≡ seen_history teacher.old) }
        ensures begins_to { IsFront (seen_history learner.old) (seen_history learner.new) }
        ensures begins_from { IsFront (seen_history teacher.old) (seen_history learner.new) }
        ensures rest { (mine learner.new ≡ mine learner.old) × (out learner.new ≡ out learner.old) }
        ensures known { IsKnown (meanings O.fixed O.history O.lawful O.whose O.alone_entry)
            self.now.opening learner.new }
        ensures known_from { IsKnown (meanings O.fixed O.history O.lawful O.whose O.alone_entry)
            self.now.opening teacher.new }
    {
        let copy = self.copy_of(teacher);
        let mut pair = ChairAtBoard {
            board: &self.board,
            chair: &mut learner.chair,
        };
        pair.meet_copy(copy);
        pair.settle();
    }

    /// A raw seat that knows what this one has seen, and may do nothing.
    pub(crate) fn copy_of(&self, seat: &mut Seat<O>) -> Chair<O>
        requires of_book { IsSeatOf self.now seat.old }
        ensures seat { seat.new ≡ seat.old }
        ensures table { result.table_id ≡ self.now.table }
        ensures copied { result.me ≡ (view_copy seat.old.1, []) }
        ensures known { IsKnown (meanings O.fixed O.history O.lawful O.whose O.alone_entry)
            self.now.opening seat.new }
    {
        let mut pair = ChairAtBoard {
            board: &self.board,
            chair: &mut seat.chair,
        };
        pair.copy_seat()
    }

    /// Takes an actor's seat back into its head's, which sees what the actor saw.
    pub fn join(&self, head: &mut Seat<O>, worker: Seat<O>)
        requires of_book { IsSeatOf self.now head.old × IsSeatOf self.now worker }
        requires head { (who head.old).actor ≡ HOST }
        requires family { (who worker).family ≡ (who head.old).family }
        requires out { Contains (out head.old) (who worker).actor }
        ensures same { IsSameSeat head.old head.new }
        ensures out { out head.new ≡ ids_without (who worker).actor (out head.old) }
        ensures longer { (seen_history head.new ≡ seen_history head.old)
            ⊎ (seen_history head.new ≡ seen_history worker) }
        ensures begins_head { IsFront (seen_history head.old) (seen_history head.new) }
        ensures begins_worker { IsFront (seen_history worker) (seen_history head.new) }
        ensures mine { mine head.new ≡ mine head.old }
        ensures known { IsKnown (meanings O.fixed O.history O.lawful O.whose O.alone_entry)
            self.now.opening head.new }
    {
        let mut pair = ChairAtBoard {
            board: &self.board,
            chair: &mut head.chair,
        };
        pair.take_back(worker.into_chair());
        pair.settle();
    }
}
