ghost use Rattle.std.specs.Prelude.{◌≡◌, IfOk};

use super::*;
use ce_model::{BlockId, GREATEST_BLOCKS, HOME_BLOCKS};
use rv_model::AccessSize;
use std::alloc::Global;
use std::process::Abort;
use std::test::Fail;

fn block(alloc: Global, home: u32, index: u32) -> Result<Block, Fail>
    ensures { IfOk result (λ block. block.id ≡ record { home = home; index = index }) }
{
    Ok(Block::new(alloc, BlockId { home, index })?)
}

#[test]
#[tactic(auto, unfolding(ce_model::specs::Limits::block_room))]
fn block_of_bytes(rt: HostRuntime) -> Result<(), Fail> {
    let mut block = block(rt.alloc(), 256, 31)?;
    assert_eq!(rt;
        block.id(),
        BlockId {
            home: 256,
            index: 31
        }
    );
    assert_eq!(rt; block.length(), 0);
    block.fill(&[1, 2, 3, 4, 5]);
    assert_eq!(rt; block.bytes(), [1, 2, 3, 4, 5].as_slice());
    assert_eq!(rt; block.length(), 5);
    Ok(())
}

// The numbers of the RISC-V unprivileged specification are little-endian.
#[test]
#[tactic(auto, unfolding(ce_model::specs::Limits::block_room))]
fn numbers_in_a_block(rt: HostRuntime) -> Result<(), Fail> {
    let mut block = block(rt.alloc(), 0, 0)?;
    block.reset(8);
    block.store(4, AccessSize::word(), 0x0403_0201);
    block.store(1, AccessSize::byte(), 0x1FF);
    assert_eq!(rt; block.bytes(), [0, 0xFF, 0, 0, 1, 2, 3, 4].as_slice());
    assert_eq!(rt; block.load(6, AccessSize::half()), 0x0403);
    assert_eq!(rt; block.load(0, AccessSize::word()), 0xFF00);
    Ok(())
}

#[test]
#[tactic(auto, unfolding(ce_model::specs::Limits::block_room))]
fn reset_and_copy(rt: HostRuntime) -> Result<(), Fail> {
    let mut first = block(rt.alloc(), 0, 0)?;
    let mut second = block(rt.alloc(), 0, 1)?;
    first.fill(&[7, 8]);
    second.copy_from(&first);
    assert_eq!(rt; second.bytes(), [7, 8].as_slice());
    assert_eq!(rt; second.id(), BlockId { home: 0, index: 1 });
    first.reset(4096);
    assert_eq!(rt; first.length(), 4096);
    assert!(rt; first.bytes().iter().all(|byte| *byte == 0));
    first.reset(1);
    assert_eq!(rt; first.bytes(), [0].as_slice());
    Ok(())
}

fn check_least(rt: &impl Abort, store: &mut Store, home: u32, index: u32) {
    match store.take_least() {
        Some(block) => assert_eq!(rt; block.id(), BlockId { home, index }),
        None => panic!(rt; "the store is empty"),
    }
}

// Names are ordered by home, then by index.
#[test]
fn least_block_first(rt: HostRuntime) -> Result<(), Fail> {
    let mut store = Store::new(rt.alloc(), 3)?;
    store.give(block(rt.alloc(), 1, 0)?);
    store.give(block(rt.alloc(), 0, 31)?);
    store.give(block(rt.alloc(), 0, 2)?);
    assert_eq!(rt; store.count(), 3);
    check_least(&rt, &mut store, 0, 2);
    check_least(&rt, &mut store, 0, 31);
    check_least(&rt, &mut store, 1, 0);
    assert!(rt; store.take_least().is_none());
    Ok(())
}

#[test]
#[tactic(auto, using(ce_model::specs::Limits::home_blocks_lem))]
fn openings(rt: HostRuntime) -> Result<(), Fail> {
    let store = Store::new(rt.alloc(), GREATEST_BLOCKS)?;
    assert_eq!(rt; store.count(), 0);
    let mut of_home = Store::of_home(rt.alloc(), 7, HOME_BLOCKS)?;
    assert_eq!(rt; of_home.count(), 32);
    check_least(&rt, &mut of_home, 7, 0);
    check_least(&rt, &mut of_home, 7, 1);
    assert_eq!(rt; block(rt.alloc(), 63, 31)?.length(), 0);
    Ok(())
}
