//! Calls of two heads and a worker, as a caller makes them.
ghost use Rattle.std.specs.Prelude.{◌≡◌, IfSome};
ghost use Rattle.ce_model.specs.declared.topology.TheConstants.{HOST};
ghost use Rattle.ce_model.specs.Lists.{IsFront};
ghost use Rattle.ce_lock.specs.Sitting.{IsNewHead, seen_history};
ghost use Rattle.ce_tally.specs.Sums.{IsTallied};
ghost use Rattle.ce_tally.specs.Rows.{HasAdded, HasAddition, IsOnly, additions_of};

use crate::tally::{Add, Tally};
use ce_lock::{Book, Seat};
use std::alloc::Global;
use std::sync::Wait;

/// A book of two families whose heads have met, and what the calls before were answered.
#[derive(Drop)]
pub struct TallyMeeting {
    pub book: Book<Tally>,
    /// The head of family 0.
    pub first_head: Seat<Tally>,
    /// The head of family 1.
    pub second_head: Seat<Tally>,
    /// What the first head, the second and the worker were answered.
    pub replies: [u64; 3],
}

/// The first head adds 5 and the second 7, and they meet. Then the first head sends actor 3 out,
/// which adds 1 and comes back, and the heads meet again. `None` where there is no memory.
pub fn calls_and_meets<R: Wait>(rt: &R, alloc: Global) -> Option<TallyMeeting>
    ensures families { IfSome result (λ r. r.book.families ≡ 2) }
    ensures first_head { IfSome result (λ r. HasAdded r.book 0 5 r.first_head) }
    ensures second_head { IfSome result (λ r. HasAdded r.book 1 7 r.second_head) }
    ensures same_seen { IfSome result
        (λ r. seen_history r.first_head ≡ seen_history r.second_head) }
    ensures only_five { IfSome result
        (λ r. IsOnly 5 (additions_of 0 HOST (seen_history r.first_head))) }
    ensures only_seven { IfSome result
        (λ r. IsOnly 7 (additions_of 1 HOST (seen_history r.second_head))) }
    ensures worker { IfSome result (λ r. HasAddition 0 3 1 (seen_history r.first_head)) }
{
    let TallyMeeting {
        book,
        mut first_head,
        mut second_head,
        replies,
    } = both_call(rt, alloc)?;
    let [five, seven, _] = replies;
    book.meet(&mut first_head, &mut second_head);
    let one = worker_calls(rt, alloc, &book, &mut first_head)?;
    book.meet(&mut first_head, &mut second_head);
    Some(TallyMeeting {
        book,
        first_head,
        second_head,
        replies: [five, seven, one],
    })
}

/// A book of two families, whose heads add 5 and 7.
fn both_call<R: Wait>(rt: &R, alloc: Global) -> Option<TallyMeeting>
    ensures families { IfSome result (λ r. r.book.families ≡ 2) }
    ensures first_head { IfSome result (λ r. HasAdded r.book 0 5 r.first_head) }
    ensures second_head { IfSome result (λ r. HasAdded r.book 1 7 r.second_head) }
{
    let (book, mut first_head, mut second_head) = two_heads(alloc)?;
    let Ok(five) = book.call(rt, alloc, &mut first_head, Add(5)) else {
        return None;
    };
    let Ok(seven) = book.call(rt, alloc, &mut second_head, Add(7)) else {
        return None;
    };
    Some(TallyMeeting {
        book,
        first_head,
        second_head,
        replies: [five, seven, 0],
    })
}

/// A fresh book of two families, and its heads. `None` where there is no memory.
pub fn two_heads(alloc: Global) -> Option<(Book<Tally>, Seat<Tally>, Seat<Tally>)>
    ensures families { IfSome result (λ r. r.0.families ≡ 2) }
    ensures first_head { IfSome result (λ r. IsNewHead r.0 0 r.1) }
    ensures second_head { IfSome result (λ r. IsNewHead r.0 1 r.2) }
{
    let Ok((book, mut heads)) = Book::new(alloc, Tally::new(alloc), 2) else {
        return None;
    };
    let second_head = heads.pop()?;
    let first_head = heads.pop()?;
    Some((book, first_head, second_head))
}

/// The head sends actor 3 out, which adds 1 and comes back.
fn worker_calls<R: Wait>(
    rt: &R,
    alloc: Global,
    book: &Book<Tally>,
    head: &mut Seat<Tally>,
) -> Option<u64>
    requires { HasAdded book.now 0 5 head.old }
    ensures head { IfSome result (λ _. HasAdded book.now 0 5 head.new) }
    ensures worker { IfSome result (λ _. HasAddition 0 3 1 (seen_history head.new)) }
{
    let mut worker = book.split(head, 3);
    let Ok(reply) = book.call(rt, alloc, &mut worker, Add(1)) else {
        return None;
    };
    book.join(head, worker);
    Some(reply)
}

/// Ends the book of two heads. `None` where there is no memory.
pub fn close_both(alloc: Global, meeting: TallyMeeting) -> Option<Tally>
    requires families { meeting.book.families ≡ 2 }
    requires first_head { HasAdded meeting.book 0 5 meeting.first_head }
    requires second_head { HasAdded meeting.book 1 7 meeting.second_head }
    ensures lawful { IfSome result (λ t. IsTallied 0 t) }
    ensures begins { IfSome result (λ t. IsFront (seen_history meeting.first_head) t
        × IsFront (seen_history meeting.second_head) t) }
{
    let Ok(mut heads) = Vec::with_capacity(alloc, 2) else {
        return None;
    };
    let TallyMeeting {
        book,
        first_head,
        second_head,
        replies: _,
    } = meeting;
    heads.push_reserved(first_head);
    heads.push_reserved(second_head);
    Some(book.close(heads))
}
