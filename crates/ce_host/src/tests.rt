ghost use Rattle.std.specs.Prelude.{◌≡◌, ◌≤◌, length, [], Some, IfSome};
ghost use Rattle.ce_model.specs.Limits.{block_room};

use super::*;
use ce_model::{BlockId, Bytes, HOME_BLOCKS, HOST, HOST_HOME, NoMemory, Place};
use rk_mail::Parcel;
use std::alloc::Global;
use std::test::Fail;
use xm_block::Block;

const TARGET: Place = Place { node: 2, pid: 1 };

// Sends a message and gets the batch back. It answers the block that the message went out in, or
// None where there was none.
fn sent_block(host: &mut Host, bytes: &[u8]) -> Option<Block>
    requires short { length bytes.now ≤ block_room }
    requires here { host.old.spare_batch ≡ Some [] }
    ensures here { host.new.spare_batch ≡ Some [] }
{
    let mut batch = host.batch(TARGET, bytes)?;
    let (_, block) = batch.take_first()?;
    host.regain(batch);
    Some(block)
}

fn message_in(answer: Answer) -> Option<(Place, Bytes)> {
    match answer {
        Answer::Message(from, bytes) => Some((from, bytes)),
        _ => None,
    }
}

#[test]
#[tactic(auto, using(ce_model::specs::Limits::block_room_lem))]
fn a_message_keeps_its_sender_and_bytes(rt: HostRuntime) -> Result<(), Fail> {
    let alloc = rt.alloc();
    let from = Place { node: 3, pid: 1 };
    let bytes = Bytes::from_vec(vec![in alloc; 0xAA_u8, 0xBB]?);
    let Some((sender, message_bytes)) = message_in(Answer::Message(from, bytes)) else {
        assert!(rt; false, "another answer");
        return Ok(());
    };
    assert_eq!(rt; sender, from);
    assert_eq!(rt; message_bytes.as_slice(), [0xAA, 0xBB].as_slice());
    Ok(())
}

#[test]
fn a_command_is_printed_with_its_operands(rt: HostRuntime) -> Result<(), Fail> {
    let alloc = rt.alloc();
    let command = Command::Spawn(2, Place { node: 1, pid: 0 });
    let printed = format!(in alloc; "{command:?}")?;
    assert_eq!(rt; printed.as_str(), "Spawn(2, Place { node: 1, pid: 0 })");
    Ok(())
}

#[test]
#[tactic(auto, using(ce_model::specs::Limits::greatest_users_lem, ce_model::specs::Limits::block_room_lem))]
fn a_host_sends_its_own_blocks_in_order(rt: HostRuntime) -> Result<(), Fail> {
    let mut host = Host::new(rt.alloc(), 7)?;
    let home = HOST_HOME + 7;
    for index in 0..HOME_BLOCKS {
        let block = sent_block(&mut host, b"hi").ok_or("no block")?;
        assert_eq!(rt; block.id(), BlockId { home, index });
        assert_eq!(rt; block.bytes(), b"hi".as_slice());
    }
    assert!(rt; sent_block(&mut host, b"hi").is_none());
    assert_eq!(rt; host.store.count(), 0);
    Ok(())
}

// A block of a node that a message brought is the host's least one then.
#[test]
#[tactic(auto, using(ce_model::specs::Limits::greatest_users_lem, ce_model::specs::Limits::block_room_lem, ce_model::specs::Limits::home_blocks_lem, ce_model::specs::Limits::greatest_blocks_lem))]
fn a_received_block_is_sent_next(rt: HostRuntime) -> Result<(), Fail> {
    let alloc = rt.alloc();
    let mut host = Host::new(alloc, 0)?;
    let mut block = Block::new(alloc, BlockId { home: 3, index: 9 })?;
    block.fill(b"abc");
    let bytes = host.accept(alloc, parcel(block)).map_err(|(_, want)| want)?;
    assert_eq!(rt; bytes.as_slice(), b"abc".as_slice());
    assert_eq!(rt; host.store.count(), HOME_BLOCKS + 1);
    let next = sent_block(&mut host, &[]).ok_or("no block")?;
    assert_eq!(rt; next.id(), BlockId { home: 3, index: 9 });
    assert_eq!(rt; next.bytes().len(), 0);
    let next = sent_block(&mut host, b"d").ok_or("no block")?;
    assert_eq!(rt;
        next.id(),
        BlockId {
            home: HOST_HOME,
            index: 0
        }
    );
    Ok(())
}

// A parcel for a host with this block.
fn parcel(block: Block) -> Parcel
    ensures { result.block ≡ block }
{
    Parcel {
        from: TARGET,
        to: Place { node: HOST, pid: 0 },
        number: 0,
        block,
    }
}
