//! One turn at the object: a ticket, the wait for it, the call, and the way out.
ghost use Rattle.std.specs.Prelude.{◌≡◌, ℕ, ◌%◌, ◌^◌, ◌<◌, [], ◌∷◌, IsTrue};
ghost use Rattle.ce_lock.specs.Meanings.{meanings};
ghost use Rattle.ce_lock.specs.Telling.{idle_place, place_waiting, served_place, view_at};
ghost use Rattle.ce_lock.specs.Sitting.{IsReadySeat, IsAnswer, IsSeatTurn};
ghost use Rattle.ce_lock.specs.Chairs.{IsSameChair};

use crate::board::ChairAtBoard;
use crate::kept::Kept;
use crate::steps::SERVING;
use crate::who::Who;
use ce_model::NoMemory;
use std::alloc::Global;
use std::sync::Wait;

/// The slot of the object.
const OBJECT: usize = 0;

/// A call of an actor, and where the object takes the memory for its entry.
pub struct ActorCall<O: Kept> {
    pub alloc: Global,
    pub who: Who,
    pub call: O::Call,
}

impl<'a, O: Kept> ChairAtBoard<'a, O> {
    /// Waits until the ticket is served. It parks between two looks. A caller that is woken before
    /// its turn wakes another one before it parks again, which may be the one that was meant.
    fn wait_for_turn<R: Wait>(&mut self, rt: &R, ticket: u64)
        requires waits { (t : ℕ) × (self.old.chair.now.me.0.place ≡ place_waiting t)
            × (t % 2 ^ 64 ≡ ticket) }
        ensures same { IsSameChair self.old self.new }
        ensures called { (t : ℕ) × (self.old.chair.now.me.0.place ≡ place_waiting t)
            × (self.new.chair.now.me
            ≡ (view_at self.old.chair.now.me.0 (served_place t), self.old.chair.now.me.1)) }
    {
        let board = self.board;
        let mut is_woken = false;
        for _ in rt.forever() {
            let served_ticket = self.look();
            if served_ticket == ticket {
                return;
            }
            if is_woken {
                board.table.shared.wake_one(SERVING);
            }
            board
                .table
                .shared
                .park(rt, SERVING, (served_ticket & 0xFFFF_FFFF) as u32);
            is_woken = true;
        }
        unreachable!()
    }

    /// Lets the object that the seat has out answer the call.
    fn answer(&mut self, request: ActorCall<O>) -> Result<O::Reply, (O::Call, NoMemory)>
        requires holds { (y : O) × (self.old.chair.now.me.1 ≡ (0, y) ∷ [])
            × O.fits (O.fixed y) (O.history y) request.who request.call }
        ensures same { IsSameChair self.old self.new }
        ensures answered { (y : O) × (z : O) × (self.old.chair.now.me.1 ≡ (0, y) ∷ [])
            × (self.new.chair.now.me ≡ (self.old.chair.now.me.0, (0, z) ∷ []))
            × IsAnswer (meanings O.fixed O.history O.lawful O.whose O.alone_entry)
            O.stands y z request.who request.call result }
    {
        let ActorCall { alloc, who, call } = request;
        self.chair
            .slot_mut(&self.board.table.shared, OBJECT)
            .act(alloc, who, call)
    }

    /// Makes the call, while it is the seat's turn.
    fn work(&mut self, request: ActorCall<O>) -> Result<O::Reply, (O::Call, NoMemory)>
        requires turn { (t : ℕ) × (self.old.chair.now.me.0.place ≡ served_place t) }
        requires ready { IsReadySeat (meanings O.fixed O.history O.lawful O.whose O.alone_entry)
            O.fits O.alone request.who request.call self.old.chair.now.me }
        ensures same { IsSameChair self.old self.new }
        ensures turn { IsSeatTurn (meanings O.fixed O.history O.lawful O.whose O.alone_entry)
            O.stands self.old.chair.now.me self.new.chair.now.me request.call result }
    {
        self.take();
        match self.answer(request) {
            Ok(reply) => {
                self.commit();
                self.give();
                Ok(reply)
            }
            Err(refusal) => {
                self.give();
                Err(refusal)
            }
        }
    }

    /// A whole turn: draws a ticket, waits for it, makes the call, and wakes one who waits.
    pub fn take_turn<R: Wait>(
        &mut self,
        rt: &R,
        request: ActorCall<O>,
    ) -> Result<O::Reply, (O::Call, NoMemory)>
        requires idle { self.old.chair.now.me.0.place ≡ idle_place }
        requires may_draw { IsTrue self.old.chair.now.me.0.right.may_draw }
        requires ready { IsReadySeat (meanings O.fixed O.history O.lawful O.whose O.alone_entry)
            O.fits O.alone request.who request.call self.old.chair.now.me }
        ensures same { IsSameChair self.old self.new }
        ensures turn { IsSeatTurn (meanings O.fixed O.history O.lawful O.whose O.alone_entry)
            O.stands self.old.chair.now.me self.new.chair.now.me request.call result }
    {
        let ticket = self.draw();
        self.wait_for_turn(rt, ticket);
        let outcome = self.work(request);
        self.leave();
        self.board.table.shared.wake_one(SERVING);
        outcome
    }
}
