ghost use Rattle.std.specs.Prelude.{◌≡◌, IfOk, IfSome, [], None};
ghost use Rattle.ce_model.specs.declared.process.Status.TheVariants.{Unborn};
ghost use Rattle.ce_model.specs.Node.{take_call, process_at};
ghost use Rattle.rk_node.specs.Answering.{IsAwaitingAnswer};
ghost use Rattle.rk_node.specs.Boxes.{fresh_node_at};

use super::*;
use ce_model::{BlockId, GREATEST_BLOCKS, HOST, Place, Status, Stop};
use rk_mail::{Batch, Hearing, Say};
use rv_image::Image;
use rv_model::PRIVATE_START;
use std::alloc::Global;
use std::test::Fail;
use xm_block::{Block, Store};

// Sends a block with the word 7 to the host, and reads the block that it gave away. The words are
// those of the RISC-V unprivileged specification, by hand.
const GONE: [u32; 11] = [
    0x0080_0513, // li a0, 8
    0x0010_0893, // li a7, 1
    0x0000_0073, // ecall
    0x0005_0413, // mv s0, a0
    0x0070_0293, // li t0, 7
    0x0054_2023, // sw t0, 0(s0)
    0xFFF0_0593, // li a1, -1
    0x0000_0613, // li a2, 0
    0x0040_0893, // li a7, 4
    0x0000_0073, // ecall
    0x0004_2303, // lw t1, 0(s0)
];

fn gone_image(alloc: Global) -> Result<Image, Fail> {
    let mut bytes = Vec::new(alloc);
    for word in GONE {
        bytes.extend_from_slice(&word.to_le_bytes())?;
    }
    Ok(Image::of_parts(PRIVATE_START, bytes, 0)?)
}

// A box of home 0, as the node of a cube of one node with one image, that has asked for its first
// work.
fn asking_box(alloc: Global) -> Result<NodeBox, Fail>
    ensures said { IfOk result (λ node_box. IsAwaitingAnswer node_box (take_call 0 0 None)) }
    ensures node { IfOk result (λ node_box. node_box.node ≡ fresh_node_at 0 0 0 1) }
    ensures unborn { IfOk result (λ node_box. (process_at node_box.node 0).status ≡ Unborn) }
    ensures images { IfOk result (λ node_box. node_box.node.images ≡ 1) }
{
    let mut node_box = NodeBox::new(alloc, 0, GREATEST_BLOCKS)?;
    node_box.enter(0, 0, 1);
    let Say::Take {
        asking: 0,
        dead: 0,
        poller: None,
    } = node_box.says()
    else {
        return Err("no first take")?;
    };
    Ok(node_box)
}

// What goes to the host alone: the block's name, and the first of its bytes. The batch is emptied.
fn sent_to_host(batch: &mut Batch) -> Option<(BlockId, [u8; 8])>
    ensures { IfSome result (λ _. batch.new ≡ []) }
{
    let (to, block) = batch.take_first()?;
    if to != (Place { node: HOST, pid: 0 }) || batch.count() > 0 {
        return None;
    }
    Some((block.id(), block.bytes().first_chunk().copied()?))
}

#[test]
fn a_box_says_and_hears(rt: HostRuntime) -> Result<(), Fail> {
    let alloc = rt.alloc();
    let images = [gone_image(alloc)?];
    let mut node = asking_box(alloc)?;
    node.hears(&images, Hearing::Start { pid: 0, image: 0 });
    let Say::Send { pid: 0, mut batch } = node.says() else {
        return Err("no message")?;
    };
    let (id, bytes) = sent_to_host(&mut batch).ok_or("no message to the host alone")?;
    assert_eq!(rt; id, BlockId { home: 0, index: 0 });
    assert_eq!(rt; bytes, [7, 0, 0, 0, 0, 0, 0, 0]);
    node.hears(&images, Hearing::Posted(batch));
    let Say::Take {
        asking: 0,
        dead: 1,
        poller: None,
    } = node.says()
    else {
        return Err("no last take")?;
    };
    assert_eq!(rt; node.status(0), Status::Stopped(Stop::Gone(0x8000_0000)));
    Ok(())
}

#[test]
fn a_block_is_put_home(rt: HostRuntime) -> Result<(), Fail> {
    let alloc = rt.alloc();
    let mut node = NodeBox::new(alloc, 3, GREATEST_BLOCKS)?;
    let mut all = Store::new(alloc, GREATEST_BLOCKS)?;
    node.scrub(&mut all);
    assert_eq!(rt; all.count(), 32);
    node.put_home(Block::new(alloc, BlockId { home: 3, index: 5 })?);
    let mut one = Store::new(alloc, GREATEST_BLOCKS)?;
    node.scrub(&mut one);
    assert_eq!(rt; one.count(), 1);
    Ok(())
}
