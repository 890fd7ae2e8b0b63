//! A seat at a book.
ghost use Rattle.std.specs.Prelude.{◌≡◌, ℕ, []};
ghost use Rattle.ce_lock.specs.declared.who.Who.{Who};
ghost use Rattle.ce_lock.specs.Meanings.{meanings};
ghost use Rattle.ce_lock.specs.Sitting.{IsSoundSeat};
ghost use Rattle.ce_lock.specs.Telling.{fresh_head};

use crate::board::Chair;
use crate::kept::Kept;
use crate::who::Who;
use ce_model::HOST;
use std::marker::Model;

/// A right to call, and what its holder has seen of the history. Contracts see it as its table and
/// its view; `who`, `seen_history`, `mine`, `earlier` and `out` of `specs/Sitting.antt` read these.
pub struct Seat<O: Kept> {
    pub(crate) who: Who,
    pub(crate) chair: Chair<O>,
}

impl<O: Kept> Model for Seat<O> {
    ghost use Rattle.ce_lock.specs.Meanings.{meanings};
    ghost use Rattle.ce_lock.specs.Sitting.{SeatFacts, IsSoundSeat};

    ghost Value = { SeatFacts O O.Entry };

    ghost view = { λ s. (s.chair.table_id, s.chair.me.0) };

    ghost invariant = { λ s. IsSoundSeat (meanings O.fixed O.history O.lawful O.whose O.alone_entry)
        s.who s.chair.me };
}

impl<O: Kept> Seat<O> {
    /// The seat of a head that has seen nothing yet.
    pub(crate) fn of_head(family: u32, chair: Chair<O>) -> Seat<O>
        requires { (o : O) × (heads : ℕ) × (chair.me ≡ (fresh_head o family heads, [])) }
        ensures { result ≡ (chair.table_id, chair.me.0) }
    {
        Seat {
            who: Who {
                family,
                actor: HOST,
            },
            chair,
        }
    }

    /// The raw seat.
    pub(crate) fn into_chair(self) -> Chair<O>
        ensures chair { (result.table_id, result.me.0) ≡ self }
        ensures sound { (actor : Who)
            × IsSoundSeat (meanings O.fixed O.history O.lawful O.whose O.alone_entry) actor
            result.me }
    {
        let Seat { who: _, chair } = self;
        chair
    }
}

impl<O: Kept> Drop for Seat<O> {
    fn drop(self) {
        let Seat { who: _, chair } = self;
        drop(chair);
    }
}
