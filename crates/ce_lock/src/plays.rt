//! What each kind of access tells, and how views are cut in two and joined.
ghost use Rattle.std.specs.Prelude.{ℕ};
ghost use Rattle.ce_lock.specs.Meanings.{meanings};
ghost use Rattle.ce_lock.specs.Telling.{HasDrawn, HasLookedAtTicket, HasTakenObject, HasCommitted, HasGivenObject, HasLeftTurn, IsSettled, view_copy, view_after_making, next_head, view_with_out, actor_view, view_after_meeting, view_after_joining, view_after_closing, spent_view};

use crate::kept::Kept;
use crate::view::View;
use atomic_table::{Join, Play, Split};
use std::marker::{Brand, PhantomData};

/// The caller draws a ticket.
pub struct Draw;

/// The caller looks which ticket is served.
pub struct Look;

/// The caller takes the object out.
pub struct Take;

/// The caller's entry is counted.
pub struct Commit;

/// The caller puts the object back.
pub struct Give;

/// The caller leaves its turn.
pub struct Leave;

/// The caller looks how long the history is, after a seat was joined into its own.
pub struct Settle;

impl<O: Kept> Play<O, View<O, O::Entry>> for Draw {
    ghost then = { λ _ me word next_me. HasDrawn me word next_me };
}

impl<O: Kept> Play<O, View<O, O::Entry>> for Look {
    ghost then = { λ _ me word next_me. HasLookedAtTicket me word next_me };
}

impl<O: Kept> Play<O, View<O, O::Entry>> for Take {
    ghost then = { λ _ me _ next_me. HasTakenObject
        (meanings O.fixed O.history O.lawful O.whose O.alone_entry)
        me next_me };
}

impl<O: Kept> Play<O, View<O, O::Entry>> for Commit {
    ghost then = { λ _ me _ next_me. HasCommitted (meanings O.fixed O.history O.lawful O.whose
        O.alone_entry)
        me next_me };
}

impl<O: Kept> Play<O, View<O, O::Entry>> for Give {
    ghost then = { λ _ me _ next_me. HasGivenObject me next_me };
}

impl<O: Kept> Play<O, View<O, O::Entry>> for Leave {
    ghost then = { λ _ me _ next_me. HasLeftTurn me next_me };
}

impl<O: Kept> Play<O, View<O, O::Entry>> for Settle {
    ghost then = { λ _ me _ next_me. IsSettled (meanings O.fixed O.history O.lawful O.whose
        O.alone_entry)
        me next_me };
}

/// A copy of what a seat has seen comes.
pub struct Copying;

/// The head of the next family comes.
pub struct NextHead;

/// A head's actor comes.
pub struct Sending<N> {
    actor: PhantomData<N>,
}

/// The actor that a head sends out. A proof picks it.
pub trait Named {
    ghost actor: { ℕ };
}

impl Named for Brand {
    ghost actor = { 0 };
}

impl<O: Kept> Split<View<O, O::Entry>> for Copying {
    ghost left = { λ v. v };

    ghost right = { λ v. view_copy v };
}

impl<O: Kept> Split<View<O, O::Entry>> for NextHead {
    ghost left = { λ v. view_after_making v };

    ghost right = { λ v. next_head v };
}

impl<O: Kept, N: Named> Split<View<O, O::Entry>> for Sending<N> {
    ghost left = { λ v. view_with_out N.actor v };

    ghost right = { λ v. actor_view O.whose N.actor v };
}

/// A copy goes into a seat.
pub struct Meeting;

/// An actor's seat goes into its head's.
pub struct TakingBack;

/// A head goes into the copy that closes the book.
pub struct Closing;

impl<O: Kept> Join<View<O, O::Entry>> for Meeting {
    ghost both = { λ v w. view_after_meeting v w };

    ghost spent = { spent_view };
}

impl<O: Kept> Join<View<O, O::Entry>> for TakingBack {
    ghost both = { λ v w. view_after_joining v w };

    ghost spent = { spent_view };
}

impl<O: Kept> Join<View<O, O::Entry>> for Closing {
    ghost both = { λ v w. view_after_closing v w };

    ghost spent = { spent_view };
}
