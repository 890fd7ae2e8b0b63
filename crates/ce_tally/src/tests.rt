//! The book, called from one thread and from many.
ghost use Rattle.std.specs.Prelude.{◌≡◌, ◌+◌, ◌<◌, ◌≤◌, All, IfSome};
ghost use Rattle.ce_lock.specs.Sitting.{IsSeatOf, seen_history};
ghost use Rattle.ce_tally.specs.Sums.{IsTallied};

use crate::row::{calls_and_meets, close_both, two_heads};
use crate::tally::{Add, Tally};
use ce_lock::{Book, Seat, Who};
use ce_model::HOST;
use std::alloc::Global;
use std::sync::Wait;
use std::test::Fail;
use std::thread;
use std::thread::{Threads, join};

// The calls of two heads and a worker, each answered by the sum before.
#[test]
fn book(rt: HostRuntime) -> Result<(), Fail> {
    let meeting = calls_and_meets(&rt, rt.alloc()).ok_or("no memory")?;
    let replies = meeting.replies;
    assert_eq!(rt; replies, [0, 5, 12]);
    let tally = close_both(rt.alloc(), meeting).ok_or("no memory")?;
    assert_eq!(rt; tally.sum(), 13);
    let additions = tally.additions();
    assert_eq!(rt; additions.len(), 3);
    assert_eq!(rt;
        [
            additions[0].number,
            additions[1].number,
            additions[2].number
        ],
        [5, 7, 1]
    );
    assert_eq!(rt;
        additions[0].who,
        Who {
            family: 0,
            actor: HOST
        }
    );
    assert_eq!(rt;
        additions[2].who,
        Who {
            family: 0,
            actor: 3
        }
    );
    Ok(())
}

// What a seat has seen is a tally.
fn seen_is_a_tally(book: &Book<Tally>, seat: &Seat<Tally>)
    requires { IsSeatOf book.now seat.now }
    ensures { IsTallied 0 (seen_history seat.now) }
{
    book.knows(seat);
}

#[test]
fn heads_have_seen_tallies(rt: HostRuntime) -> Result<(), Fail> {
    let meeting = calls_and_meets(&rt, rt.alloc()).ok_or("no memory")?;
    seen_is_a_tally(&meeting.book, &meeting.first_head);
    seen_is_a_tally(&meeting.book, &meeting.second_head);
    Ok(())
}

// Adds the number as often as said: what the last call was answered.
fn calls<R: Wait>(
    rt: &R,
    alloc: Global,
    book: &Book<Tally>,
    mut seat: Seat<Tally>,
    number: u64,
    count: u32,
) -> Option<u64>
    requires { IsSeatOf book.now seat }
{
    let mut last = None;
    for _ in 0..count {
        last = Some(book.call(rt, alloc, &mut seat, Add(number)).ok()?);
    }
    last
}

// Two heads call at once: the answers of the two.
fn both_at_once<R: Threads + Wait + Sync>(rt: &R, alloc: Global) -> Option<(u64, u64)> {
    let (book, first_head, second_head) = two_heads(alloc)?;
    let (five, seven) = join(
        rt,
        || calls(rt, alloc, &book, first_head, 5, 1),
        || calls(rt, alloc, &book, second_head, 7, 1),
    );
    Some((five?, seven?))
}

// Whichever comes first gets 0, and the other what it added: never are both answered 0.
#[test]
fn two_heads_at_once(rt: HostRuntime) -> Result<(), Fail> {
    for _ in 0..200 {
        let both = both_at_once(&rt, rt.alloc()).ok_or("no memory")?;
        assert!(rt; both == (0, 5) || both == (7, 0), "both got {both:?}");
    }
    Ok(())
}

// Eight heads add 1 in threads of their own, a thousand times each. What a ninth is answered then
// is the sum.
fn eight_threads<R: Threads + Wait + Sync>(rt: &R, alloc: Global) -> Option<u64> {
    let Ok((book, mut heads)) = Book::new(alloc, Tally::new(alloc), 9) else {
        return None;
    };
    let ninth = heads.pop()?;
    let answers = thread::map_vec(rt, heads, &|seat| calls(rt, alloc, &book, seat, 1, 1000)).ok()?;
    for part in answers {
        part?;
    }
    calls(rt, alloc, &book, ninth, 0, 1)
}

#[test]
fn eight_threads_of_a_thousand_calls(rt: HostRuntime) -> Result<(), Fail> {
    let sum = eight_threads(&rt, rt.alloc()).ok_or("no memory")?;
    assert_eq!(rt; sum, 8000);
    Ok(())
}
