//! Where the blocks of a cube begin and where they go back.
ghost use Rattle.std.specs.Prelude.{◌≡◌, ◌≤◌, ◌<◌, ◌+◌, ◌^◌, ℕ, List, [], length, map, drop, slice_index_or, All};
ghost use Rattle.ce_model.specs.declared.entry.Entry.{Entry};
ghost use Rattle.ce_model.specs.Limits.{greatest_dim, greatest_images, home_blocks};
ghost use Rattle.ce_model.specs.Machine.{MachineParts, IsMachine};
ghost use Rattle.ce_model.specs.Blocks.{blocks_of_home, with_ids};
ghost use Rattle.ce_model.specs.Renaming.{CubeGrant};
ghost use Rattle.ce_model.specs.Views.{view};
ghost use Rattle.ce_model.specs.Rising.{IsRising};
ghost use Rattle.xm_block.specs.Stores.{ids_of, is_block_before};
ghost use Rattle.ce_daemon.specs.Boxes.{AreGrantBoxes};
ghost use Rattle.rk_node.specs.Boxes.{Box, IsCleanBox, IsIdleBox, home_of};
ghost use Rattle.rk_node.specs.Hearings.{AreNewToStore};
ghost use Rattle.ce_cube.specs.Boxes.{IsHeldAs};
ghost use Rattle.ce_cube.specs.Crews.{AreAllHome, HasAllBlocks, IsCrewInStep, IsHostAtHome, serial_facts};
ghost use Rattle.ce_daemon.specs.Peeks.{cube_grant};
ghost use Rattle.ce_cube.specs.Homecoming.{HasPrefix, IsEmptiedBox, emptied_box, entered_box, names_at_home, names_in_boxes, refilled_box};

use crate::SerialCrew;
use ce_daemon::Grant;
use ce_host::Host;
use ce_model::HOME_BLOCKS;
use rk_node::NodeBox;
use xm_block::{Block, Store};

impl SerialCrew {
    /// The crew of a cube that was just granted: its clean boxes become those of its nodes, for so
    /// many images, `GREATEST_IMAGES` at most. The cube's dimension is `GREATEST_DIMENSION` at most,
    /// and the host of its user has its own blocks alone.
    pub fn new(grant: Grant, mut boxes: Vec<NodeBox>, host: Host, images: u32) -> SerialCrew
        requires boxes { AreGrantBoxes home_of IsCleanBox grant boxes.items }
        requires host { IsHostAtHome grant.user host }
        requires dim { grant.dim ≤ greatest_dim }
        requires images { images ≤ greatest_images }
        ensures grant { result.grant ≡ grant }
        ensures in_step { (parts : MachineParts) (history : List Entry) → IsMachine parts
            → length parts.images ≡ images
            → IsHeldAs history grant.number (cube_grant grant) → view history grant.number ≡ []
            → IsCrewInStep parts history (serial_facts result) }
    {
        enter_all(boxes.as_mut_slice(), grant.dim, images);
        SerialCrew {
            grant,
            boxes,
            host,
            entries: 0,
        }
    }
}

/// Makes each clean box the node of its place in a cube of this dimension, for so many images.
fn enter_all(boxes: &mut [NodeBox], dim: u32, images: u32)
    requires clean { All IsCleanBox boxes.old }
    requires all { length boxes.old ≡ 2 ^ dim }
    requires dim { dim ≤ greatest_dim }
    requires images { images ≤ greatest_images }
    ensures { (r : ℕ) (other : Box) → r < length boxes.old
        → slice_index_or boxes.new r other
        ≡ entered_box dim images r (slice_index_or boxes.old r other) }
{
    for (number, node_box) in boxes.iter_mut().enumerate() {
        node_box.enter(number as u32, dim, images);
    }
}

/// Moves every block of a cube that is given back to its home: those in the boxes, those in the
/// host's store, and those that were drained. Together these are the cube's blocks, each once. No
/// call but a Take is out of a box. Each box and the host's store have room for all blocks of the
/// greatest cube, and the host has its spare batch, empty. The boxes are clean then, and the host
/// has its own blocks, with its room and its batch as before. Nothing can fail.
pub fn rehome(boxes: &mut [NodeBox], host: &mut Host, drained_blocks: Vec<Block>)
    requires all { (grant : CubeGrant)
        × HasAllBlocks grant boxes.old host.old drained_blocks.items }
    ensures home { (grant : CubeGrant) → HasAllBlocks grant boxes.old host.old drained_blocks.items
        → AreAllHome grant boxes.new host.new }
{
    scrub_all(boxes, &mut host.store);
    give_all(drained_blocks, &mut host.store);
    send_all_home(boxes, &mut host.store);
}

/// Moves every block of the boxes to the store, which has room for them; all these names differ.
fn scrub_all(boxes: &mut [NodeBox], store: &mut Store)
    requires idle { All IsIdleBox boxes.old }
    requires room { length (names_in_boxes boxes.old) ≤ store.old.spare }
    requires apart { AreNewToStore (names_in_boxes boxes.old) store.old }
    ensures boxes { boxes.new ≡ map emptied_box boxes.old }
    ensures moved { ids_of store.new.blocks
        ≡ with_ids (names_in_boxes boxes.old) (ids_of store.old.blocks) }
    ensures spare { store.new.spare + length (names_in_boxes boxes.old) ≡ store.old.spare }
{
    for node_box in boxes.iter_mut() {
        node_box.scrub(store);
    }
}

/// Gives these blocks to the store, which has room for them; all these names differ. The store is
/// in order then.
fn give_all(blocks: Vec<Block>, store: &mut Store)
    requires room { length blocks.items ≤ store.old.spare }
    requires apart { AreNewToStore (ids_of blocks.items) store.old }
    ensures moved { ids_of store.new.blocks
        ≡ with_ids (ids_of blocks.items) (ids_of store.old.blocks) }
    ensures spare { store.new.spare + length blocks.items ≡ store.old.spare }
    ensures rising { IsRising is_block_before store.new.blocks }
{
    for block in blocks {
        store.give(block);
    }
    // A store is in order, which `count` tells.
    let _count = store.count();
}

/// Gives each of these empty boxes the blocks of its home, which are the store's least, box by box.
fn send_all_home(boxes: &mut [NodeBox], store: &mut Store)
    requires emptied { All IsEmptiedBox boxes.old }
    requires least { HasPrefix (names_at_home boxes.old) (ids_of store.old.blocks) }
    ensures boxes { boxes.new ≡ map refilled_box boxes.old }
    ensures rest { ids_of store.new.blocks
        ≡ drop (length (names_at_home boxes.old)) (ids_of store.old.blocks) }
    ensures spare { store.new.spare ≡ store.old.spare + length (names_at_home boxes.old) }
{
    for node_box in boxes.iter_mut() {
        send_home(node_box, store);
    }
}

/// Gives an empty box the blocks of its home, which are the store's least.
fn send_home(node_box: &mut NodeBox, store: &mut Store)
    requires emptied { IsEmptiedBox node_box.old }
    requires least { HasPrefix (blocks_of_home node_box.old.node.home) (ids_of store.old.blocks) }
    ensures after { node_box.new ≡ refilled_box node_box.old }
    ensures rest { ids_of store.new.blocks ≡ drop home_blocks (ids_of store.old.blocks) }
    ensures spare { store.new.spare ≡ store.old.spare + home_blocks }
{
    for _ in 0..HOME_BLOCKS {
        let Some(block) = store.take_least() else {
            unreachable!()
        };
        node_box.put_home(block);
    }
}
