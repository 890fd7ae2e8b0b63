//! The box of a node.
ghost use Rattle.std.specs.Prelude.{◌≡◌, ◌+◌, ◌^◌, ◌<◌, ◌≤◌, length, Contains, IfOk, [], None};
ghost use Rattle.ce_model.specs.Limits.{process_count, greatest_dim, greatest_images, greatest_blocks};
ghost use Rattle.ce_model.specs.Blocks.{with_id, with_ids};
ghost use Rattle.ce_model.specs.Node.{process_at, blocks_of};
ghost use Rattle.ce_model.specs.Kernel.{with_store};
ghost use Rattle.ce_model.specs.Saying.{says};
ghost use Rattle.ce_model.specs.Hearing.{node_after_hearing};
ghost use Rattle.xm_block.specs.Stores.{ids_of};
ghost use Rattle.rk_mail.specs.Talk.{call_of_say, hearing_model};
ghost use Rattle.rk_node.specs.Boxes.{IsCleanBox, IsIdleBox, HasRoomForBlock, fresh_node_at, home_of, scrubbed_node};
ghost use Rattle.rk_node.specs.Answering.{IsAwaitingAnswer, IsAbleToHear};
ghost use Rattle.rk_node.specs.Withdrawal.{HasTakenOut};
ghost use Rattle.rk_node.specs.Hearings.{AreNewToStore};
ghost use Rattle.ce_daemon.specs.Boxes.{AreBoxes};

use crate::awaited_call::{AwaitedCall, awaited_call_after};
use crate::node::Node;
use crate::pid::Pid;
use ce_daemon::Homed;
use ce_model::{GREATEST_BLOCKS, NoMemory, Status};
use rk_mail::{Hearing, Say};
use rv_image::Image;
use std::alloc::Global;
use std::marker::Model;
use xm_block::{Block, Store};

/// A node in a box, whose processes take turns. Contracts see the node of the model that it stands
/// for, with the names of its blocks, for how many blocks it has room, and which of its calls is
/// out.
#[derive(Drop)]
pub struct NodeBox {
    node: Node,
    awaited_call: AwaitedCall,
}

impl Model for NodeBox {
    ghost use Rattle.rk_node.specs.Boxes.{Box};
    ghost use Rattle.rk_node.specs.Standing.{node_model};
    ghost use Rattle.rk_node.specs.Whole.{IsWholeBox};

    ghost Value = { Box };

    ghost view = { λ inside. record {
      node = node_model inside.node;
      room = inside.node.room;
      awaited_call = inside.awaited_call;
    } };

    ghost invariant = { λ inside. IsWholeBox inside.node inside.awaited_call };
}

impl NodeBox {
    /// A clean box of this home, with room for so many blocks, `GREATEST_BLOCKS` at least, all that
    /// the greatest cube has: its own blocks are in its store. `NoMemory` may come at any time, and
    /// from no other call.
    pub fn new(alloc: Global, home: u32, room: u32) -> Result<NodeBox, NoMemory>
        requires { greatest_blocks ≤ room }
        ensures clean { IfOk result (λ node_box. IsCleanBox node_box) }
        ensures home { IfOk result (λ node_box. node_box.node.home ≡ home) }
        ensures room { IfOk result (λ node_box. node_box.room ≡ room) }
    {
        Ok(NodeBox {
            node: Node::new(alloc, home, room)?,
            awaited_call: AwaitedCall::Nothing,
        })
    }

    /// Makes a clean box the node of this number in a cube of this dimension, `GREATEST_DIMENSION`
    /// at most, with so many images, `GREATEST_IMAGES` at most.
    pub fn enter(&mut self, number: u32, dim: u32, images: u32)
        requires clean { IsCleanBox self.old }
        requires dim { dim ≤ greatest_dim }
        requires number { number < 2 ^ dim }
        requires images { images ≤ greatest_images }
        ensures { self.new
            ≡ record self.old { node = fresh_node_at self.old.node.home number dim images } }
    {
        self.node.number = number;
        self.node.dim = dim;
        self.node.images = images;
    }

    /// Runs the current turn, with its calls that the node answers, up to the next call that leaves
    /// the node. Without a turn, and where it ends, that is a Take. No call but a Take is out. The
    /// node keeps its blocks, but for those that a message takes out.
    pub fn says(&mut self) -> Say
        requires idle { IsIdleBox self.old }
        ensures call { call_of_say result ≡ (says self.old.node).call }
        ensures node { self.new.node ≡ (says self.old.node).node }
        ensures room { self.new.room ≡ self.old.room }
        ensures said { IsAwaitingAnswer self.new (call_of_say result) }
        ensures blocks { HasTakenOut self.old.node self.new.node (call_of_say result) }
    {
        let say = self.node.says();
        self.awaited_call = awaited_call_after(&say);
        say
    }

    /// Hears the answer to the call that it said. The list has as many images as `enter` was told.
    pub fn hears(&mut self, images: &[Image], hearing: Hearing)
        requires images { length images.now ≡ self.old.node.images }
        requires heard { IsAbleToHear images.now self.old hearing }
        ensures node { self.new.node
            ≡ node_after_hearing images.now self.old.node (hearing_model hearing) }
        ensures room { self.new.room ≡ self.old.room }
        ensures out { IsIdleBox self.new }
    {
        self.node.hears(images, hearing);
        self.awaited_call = AwaitedCall::Nothing;
    }

    /// What a process does at this moment; its id is below `PROCESS_COUNT`.
    pub fn status(&self, pid: u32) -> Status
        requires pid { pid < process_count }
        ensures { result ≡ (process_at self.now.node pid).status }
    {
        self.node.status(Pid { number: pid })
    }

    /// Moves every block to another store, and makes every process one that wasn't started yet. The
    /// store has room for them, and their names and those in it all differ. No call but a Take is
    /// out.
    pub fn scrub(&mut self, out: &mut Store)
        requires idle { IsIdleBox self.old }
        requires room { length (blocks_of self.old.node) ≤ out.old.spare }
        requires apart { AreNewToStore (blocks_of self.old.node) out.old }
        ensures after { self.new ≡ record self.old { node = scrubbed_node self.old.node } }
        ensures moved { ids_of out.new.blocks
            ≡ with_ids (blocks_of self.old.node) (ids_of out.old.blocks) }
        ensures spare { out.new.spare + length (blocks_of self.old.node) ≡ out.old.spare }
    {
        self.node.scrub(out);
    }

    /// Puts a block of this home into the store. No block of its name is in the box, which has room
    /// for it.
    pub fn put_home(&mut self, block: Block)
        requires home { block.id.home ≡ self.old.node.home }
        requires apart { ¬ (Contains (blocks_of self.old.node) block.id) }
        requires room { HasRoomForBlock self.old }
        ensures { self.new ≡ record self.old {
          node = with_store (with_id block.id self.old.node.store) self.old.node;
        } }
    {
        self.node.give(block);
    }
}

impl Homed for NodeBox {
    ghost use Rattle.rk_node.specs.Boxes.{IsCleanBox, home_of};

    ghost home = { home_of };

    ghost clean = { IsCleanBox };

    fn home(&self) -> u32 {
        self.node.home
    }
}

/// The clean boxes of the nodes of a machine of this dimension, `GREATEST_DIMENSION` at most, by
/// number. `NoMemory` may come at any time.
#[tactic(auto, using(ce_model::specs::Limits::greatest_dim_lem, ce_model::specs::Limits::greatest_blocks_lem, ce_model::specs::Limits::home_blocks_lem))]
pub fn node_boxes(alloc: Global, dim: u32) -> Result<Vec<NodeBox>, NoMemory>
    requires { dim ≤ greatest_dim }
    ensures { IfOk result (λ boxes.
        AreBoxes home_of IsCleanBox (2 ^ dim) (λ node. node) boxes.items) }
{
    let mut boxes = Vec::new(alloc);
    for node in 0..1_u32 << dim {
        boxes.push(NodeBox::new(alloc, node, GREATEST_BLOCKS)?)?;
    }
    Ok(boxes)
}
