ghost use Rattle.std.specs.Prelude.{◌≡◌, IfOk};

use crate::{Batch, Item, Mailbox, Parcel};
use ce_model::{BlockId, HOST, NoMemory, Place};
use std::alloc::Global;
use std::test::Fail;
use xm_block::Block;

const FROM: Place = Place { node: HOST, pid: 0 };

// A parcel with this number for a process of node 0.
fn parcel(alloc: Global, pid: u32, number: u64) -> Result<Parcel, NoMemory>
    ensures { IfOk result (λ made. made.to.pid ≡ pid) }
{
    let block = Block::new(alloc, BlockId { home: 0, index: 0 })?;
    let to = Place { node: 0, pid };
    Ok(Parcel {
        from: FROM,
        to,
        number,
        block,
    })
}

// The number of the parcel that was taken out.
fn number_of(item: Option<Item>) -> Option<u64> {
    match item {
        Some(Item::Mail(parcel)) => Some(parcel.number),
        _ => None,
    }
}

#[test]
#[tactic(auto, using(ce_model::specs::Limits::process_count_lem))]
fn mail_waits_in_order(rt: HostRuntime) -> Result<(), Fail> {
    let alloc = rt.alloc();
    let mut mailbox = Mailbox::new(alloc, 2096)?;
    mailbox.post(Item::Mail(parcel(alloc, 3, 7)?));
    mailbox.post(Item::Mail(parcel(alloc, 0, 8)?));
    mailbox.post(Item::Mail(parcel(alloc, 0, 9)?));
    assert_eq!(rt; mailbox.count(), 3);
    assert!(rt; !mailbox.has_eligible(2, 4));
    assert!(rt; mailbox.take_next(2, 4).is_none());
    assert!(rt; mailbox.has_eligible(1, 0));
    assert!(rt; mailbox.has_eligible(0, 8));
    assert_eq!(rt; number_of(mailbox.take_next(1, 0)), Some(8));
    assert_eq!(rt; number_of(mailbox.take_next(9, 0)), Some(7));
    assert_eq!(rt; number_of(mailbox.take_first()), Some(9));
    assert!(rt; mailbox.take_first().is_none());
    Ok(())
}

#[test]
#[tactic(auto, using(ce_model::specs::Limits::process_count_lem))]
fn starts_and_kills_do_not_wait(rt: HostRuntime) -> Result<(), Fail> {
    let alloc = rt.alloc();
    let mut mailbox = Mailbox::new(alloc, 3)?;
    mailbox.post(Item::Mail(parcel(alloc, 0, 0)?));
    mailbox.post(Item::Start { pid: 1, image: 5 });
    mailbox.post(Item::Kill { pid: 0 });
    assert!(rt;
        matches!(
            mailbox.take_next(0, 0),
            Some(Item::Start { pid: 1, image: 5 })
        )
    );
    assert!(rt; matches!(mailbox.take_next(0, 0), Some(Item::Kill { pid: 0 })));
    assert_eq!(rt; mailbox.count(), 1);
    Ok(())
}

#[test]
#[tactic(auto, using(ce_model::specs::Limits::greatest_targets_lem, ce_model::specs::Limits::block_room_lem))]
fn blocks_of_a_batch_are_copies(rt: HostRuntime) -> Result<(), Fail> {
    let alloc = rt.alloc();
    let mut batch = Batch::new(alloc)?;
    let mut first = Block::new(alloc, BlockId { home: 0, index: 4 })?;
    first.fill(b"hello");
    let second = Block::new(alloc, BlockId { home: 1, index: 2 })?;
    batch.add_first(Place { node: 2, pid: 0 }, first);
    batch.add(Place { node: 3, pid: 1 }, second);
    assert_eq!(rt; batch.count(), 2);
    assert_eq!(rt; batch.bytes(), b"hello".as_slice());
    let (to, _) = batch.take_first().ok_or("a place is missing")?;
    assert_eq!(rt; to, Place { node: 2, pid: 0 });
    let (to, copy) = batch.take_first().ok_or("a place is missing")?;
    assert_eq!(rt; to, Place { node: 3, pid: 1 });
    assert_eq!(rt; copy.id(), BlockId { home: 1, index: 2 });
    assert_eq!(rt; copy.bytes(), b"hello".as_slice());
    assert!(rt; batch.take_first().is_none());
    Ok(())
}
