//! How a book begins.
ghost use Rattle.std.specs.Prelude.{◌≡◌, ℕ, ◌-◌, ◌<◌, ◌≤◌, [], ◌∷◌, length, IfOk, IfErr, slice_index_or, vec_capacity};
ghost use Rattle.ce_lock.specs.Telling.{first_view};
ghost use Rattle.ce_lock.specs.Sitting.{IsNewHead};

use crate::board::{Board, BookKey, Chair, ChairAtBoard};
use crate::book::Book;
use crate::kept::Kept;
use crate::seat::Seat;
use atomic_table::{Refused, Table};
use ce_model::NoMemory;
use std::alloc::Global;
use std::snapshot::Snapshot;

impl<O: Kept> Book<O> {
    /// A book of the object, and a head's seat for each family, in order. With no memory for them
    /// the object comes back.
    pub fn new(
        alloc: Global,
        object: O,
        families: u32,
    ) -> Result<(Book<O>, Vec<Seat<O>>), (O, NoMemory)>
        requires families { 1 ≤ families }
        requires empty { O.history object ≡ [] }
        ensures book { IfOk result (λ pair. (pair.0.opening ≡ object)
            × (pair.0.families ≡ families)) }
        ensures count { IfOk result (λ pair. length pair.1.items ≡ families) }
        ensures heads { IfOk result (λ pair. (k : ℕ) (d : _) → k < families
            → IsNewHead pair.0 k (slice_index_or pair.1.items k d)) }
        ensures refused { IfErr result (λ refusal. refusal.0 ≡ object) }
    {
        let Ok(heads) = Vec::with_capacity(alloc, families as usize) else {
            return Err((object, NoMemory));
        };
        let (book, first) = Book::lay(alloc, object, families)?;
        let heads = book.seat_heads(first, heads, families);
        Ok((book, heads))
    }

    /// The book, and the raw seat of its first head.
    fn lay(alloc: Global, object: O, families: u32) -> Result<(Book<O>, Chair<O>), (O, NoMemory)>
        requires families { 1 ≤ families }
        requires empty { O.history object ≡ [] }
        ensures book { IfOk result (λ pair. (pair.0.opening ≡ object)
            × (pair.0.families ≡ families)) }
        ensures first { IfOk result (λ pair. (pair.1.table_id ≡ pair.0.table)
            × (pair.1.me ≡ (first_view object, []))) }
        ensures refused { IfErr result (λ refusal. refusal.0 ≡ object) }
    {
        let book_key = BookKey {
            opening: Snapshot::of(&object),
            families,
        };
        let Ok(mut slots) = Vec::with_capacity(alloc, 1) else {
            return Err((object, NoMemory));
        };
        slots.push_reserved(object);
        match Table::new(alloc, &[0, 0, 0], slots, &book_key) {
            Ok((table, first)) => {
                let board = Board { table };
                Ok((Book { board }, first))
            }
            Err(Refused { slots }) => Err((only_one(slots), NoMemory)),
        }
    }

    /// The seats of all heads, each of which makes the next.
    fn seat_heads(&self, first: Chair<O>, mut heads: Vec<Seat<O>>, families: u32) -> Vec<Seat<O>>
        requires families { (1 ≤ families) × (families ≡ self.now.families) }
        requires first { (first.table_id ≡ self.now.table)
            × (first.me ≡ (first_view self.now.opening, [])) }
        requires room { (heads.items ≡ []) × (families ≤ vec_capacity heads) }
        ensures count { length result.items ≡ families }
        ensures heads { (k : ℕ) (d : _) → k < families
            → IsNewHead self.now k (slice_index_or result.items k d) }
    {
        let mut maker = first;
        for family in 0..families - 1 {
            let mut pair = ChairAtBoard {
                board: &self.board,
                chair: &mut maker,
            };
            let next = pair.next_seat();
            heads.push_reserved(Seat::of_head(family, maker));
            maker = next;
        }
        heads.push_reserved(Seat::of_head(families - 1, maker));
        heads
    }
}

/// The one object of the list.
fn only_one<O>(mut slots: Vec<O>) -> O
    requires { length slots.items ≡ 1 }
    ensures { slots.items ≡ result ∷ [] }
{
    let Some(object) = slots.pop() else {
        unreachable!()
    };
    slots.destroy_empty();
    object
}
