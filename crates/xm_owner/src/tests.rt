ghost use Rattle.std.specs.Prelude.{◌≡◌, IfOk};

use super::*;
use ce_model::BlockId;
use std::alloc::Global;
use std::test::Fail;
use xm_block::{Block, Store};

fn block(alloc: Global, index: u32) -> Result<Block, Fail>
    ensures { IfOk result (λ block. block.id ≡ record { home = 0; index = index }) }
{
    Ok(Block::new(alloc, BlockId { home: 0, index })?)
}

#[test]
fn openings(rt: HostRuntime) -> Result<(), Fail> {
    let held_blocks = HeldBlocks::new(rt.alloc(), 2080)?;
    assert_eq!(rt; held_blocks.count(), 0);
    assert!(rt; held_blocks.get(0, 0).is_none());
    Ok(())
}

#[test]
#[tactic(auto, unfolding(ce_model::specs::Limits::block_room))]
fn mapped_and_unmapped(rt: HostRuntime) -> Result<(), Fail> {
    let mut held_blocks = HeldBlocks::new(rt.alloc(), 2)?;
    held_blocks.map(3, 7, block(rt.alloc(), 5)?);
    assert_eq!(rt; held_blocks.count(), 1);
    assert!(rt; held_blocks.get(3, 6).is_none());
    assert!(rt; held_blocks.get(2, 7).is_none());
    match held_blocks.get_mut(3, 7) {
        Some(block) => block.fill(&[1, 2]),
        None => panic!(rt; "nothing is held"),
    }
    match held_blocks.get(3, 7) {
        Some(block) => assert_eq!(rt; block.bytes(), [1, 2].as_slice()),
        None => panic!(rt; "nothing is held"),
    }
    match held_blocks.unmap(3, 7) {
        Some(block) => assert_eq!(rt; block.id(), BlockId { home: 0, index: 5 }),
        None => panic!(rt; "nothing is held"),
    }
    assert_eq!(rt; held_blocks.count(), 0);
    assert!(rt; held_blocks.unmap(3, 7).is_none());
    Ok(())
}

#[test]
fn drained_by_process(rt: HostRuntime) -> Result<(), Fail> {
    let mut held_blocks = HeldBlocks::new(rt.alloc(), 2)?;
    let mut store = Store::new(rt.alloc(), 1)?;
    held_blocks.map(1, 0, block(rt.alloc(), 9)?);
    held_blocks.map(2, 0, block(rt.alloc(), 4)?);
    held_blocks.drain(1, &mut store);
    assert_eq!(rt; held_blocks.count(), 1);
    assert!(rt; held_blocks.get(1, 0).is_none());
    assert!(rt; held_blocks.get(2, 0).is_some());
    match store.take_least() {
        Some(block) => assert_eq!(rt; block.id(), BlockId { home: 0, index: 9 }),
        None => panic!(rt; "the store is empty"),
    }
    Ok(())
}
