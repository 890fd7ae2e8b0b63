//! The table that the seats of a book share. Word 0 is the next ticket, word 1 the ticket that is
//! served, word 2 the number of entries, all modulo 2^64. The one slot holds the object.
ghost use Rattle.std.specs.Prelude.{◌≡◌};
ghost use Rattle.ce_lock.specs.Sitting.{IsSized};

use crate::kept::Kept;
use crate::view::View;
use atomic_table::{Seat, Table, TableRule};
use std::alloc::Global;
use std::marker::PhantomData;
use std::snapshot::Snapshot;

/// What a book is told once.
pub struct BookKey<O> {
    /// The object that it is made of.
    pub opening: Snapshot<O>,
    /// How many families there are.
    pub families: u32,
}

impl<O> Drop for BookKey<O> {
    fn drop(self) {
        let BookKey {
            opening,
            families: _,
        } = self;
        drop(opening);
    }
}

/// The rule of the table: calls have one order.
pub struct InOneOrder<O> {
    object: PhantomData<O>,
}

impl<O: Kept> TableRule<O, View<O, O::Entry>, BookKey<O>> for InOneOrder<O> {
    ghost use Rattle.ce_lock.specs.Meanings.{meanings};
    ghost use Rattle.ce_lock.specs.OneOrder.{IsBookInOrder};
    ghost use Rattle.ce_lock.specs.Telling.{first_view};

    ghost holds = { λ book_key. IsBookInOrder
        (meanings O.fixed O.history O.lawful O.whose O.alone_entry)
        book_key.opening.value book_key.families };

    ghost first = { λ book_key. first_view book_key.opening.value };
}

/// The table of a book.
#[derive(Drop)]
pub struct Board<O: Kept> {
    pub table: Table<O, View<O, O::Entry>, BookKey<O>, InOneOrder<O>, Global>,
    ghost sized: { IsSized table.shared.table_id },
}

pub type Chair<O> = Seat<O, View<O, <O as Kept>::Entry>>;

/// A raw seat and the board that it is at.
#[derive(Drop)]
pub struct ChairAtBoard<'a, O: Kept> {
    pub board: &'a Board<O>,
    pub chair: &'a mut Chair<O>,
    ghost at_table: { chair.now.table_id ≡ board.now.table.shared.table_id },
}
