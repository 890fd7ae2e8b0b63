ghost use Rattle.std.specs.Prelude.{◌≡◌, ◌≢◌, ℕ, ◌≤◌, ◌+◌, ◌-◌, [], length, Some, None, IfOk, IsSome, IfSome, IfNone, slice_get, slice_range, vec_capacity};
ghost use Rattle.std.specs.List.{remove_range};
ghost use Rattle.xm_block.specs.Stores.{AreBlocksApart, with_blocks};
ghost use Rattle.std.specs.Option.{option_copied, option_copied_mut};
ghost use Rattle.std.specs.Borrow.{sem};
ghost use Rattle.ce_model.specs.Rising.{IsRising};
ghost use Rattle.xm_owner.specs.Holdings.{is_mapping_before, block_held_at, with_mapping, mappings_without, process_blocks, without_process, HasChangedOnly};
ghost use Rattle.xm_owner.specs.Loans.{LendsBlock};

use crate::key::Key;
use crate::keys::Keys;
use crate::room::insert_reserved;
use ce_model::NoMemory;
use std::alloc::Global;
use std::marker::Model;
use xm_block::{Block, Store};

/// The blocks that the processes of a node hold, each in a window of a process, with room for a
/// number of them. Contracts see a finite map, by process and window.
#[derive(Drop)]
pub struct HeldBlocks {
    keys: Keys,
    blocks: Vec<Block>,
    room: usize,
}

impl Model for HeldBlocks {
    ghost use Rattle.std.specs.Prelude.{◌-◌, length};
    ghost use Rattle.xm_owner.specs.Holdings.{MappingTable};

    ghost Value = { MappingTable };

    ghost use Rattle.xm_owner.specs.Tables.{mappings_of};
    ghost use Rattle.xm_owner.specs.HeldTables.{IsHeldTable};

    ghost view = { λ table. record {
      mappings = mappings_of table.keys.list.items table.blocks.items;
      spare = table.room - length table.keys.list.items;
    } };

    ghost invariant = { IsHeldTable };
}

impl HeldBlocks {
    /// An empty map with room for so many blocks. `NoMemory` may come at any time.
    pub fn new(alloc: Global, room: u32) -> Result<HeldBlocks, NoMemory>
        ensures { IfOk result (λ table. table ≡ record { mappings = []; spare = room }) }
    {
        let room = room as usize;
        Ok(HeldBlocks {
            keys: Keys::new(alloc, room)?,
            blocks: Vec::with_capacity(alloc, room)?,
            room,
        })
    }

    /// How many blocks are held.
    pub fn count(&self) -> u32
        ensures count { result ≡ length self.now.mappings }
        ensures rising { IsRising is_mapping_before self.now.mappings }
    {
        self.keys.list.len() as u32
    }

    /// Maps a block into a window of a process, which holds none; there is room for it.
    pub fn map(&mut self, pid: u32, window: u32, block: Block)
        requires room { 1 ≤ self.old.spare }
        requires vacant { block_held_at self.old.mappings pid window ≡ None }
        ensures after { self.new ≡ record {
          mappings = with_mapping (record { pid = pid; window = window; block = block })
              self.old.mappings;
          spare = self.old.spare - 1;
        } }
        ensures change { HasChangedOnly self.old.mappings self.new.mappings pid window
            (Some block) }
    {
        let place = self.keys.insert(Key { pid, window });
        insert_reserved(&mut self.blocks, place, block);
    }

    /// Takes the block out of a window; None where it holds none.
    pub fn unmap(&mut self, pid: u32, window: u32) -> Option<Block>
        ensures block { result ≡ block_held_at self.old.mappings pid window }
        ensures after { self.new.mappings ≡ mappings_without pid window self.old.mappings }
        ensures change { HasChangedOnly self.old.mappings self.new.mappings pid window None }
        ensures room { IfSome result (λ _. self.new.spare ≡ self.old.spare + 1) }
        ensures unchanged { IfNone result (self.new ≡ self.old) }
    {
        let place = self.keys.index_of(Key { pid, window });
        if place >= self.keys.list.len() {
            return None;
        }
        self.keys.remove(place);
        Some(self.blocks.remove(place))
    }

    /// Takes all blocks of a process out, and gives them to the store. The store has room for them,
    /// and all their names and those of its blocks differ.
    pub fn drain(&mut self, pid: u32, store: &mut Store)
        requires room { length (process_blocks pid self.old.mappings) ≤ store.old.spare }
        requires apart { AreBlocksApart (process_blocks pid self.old.mappings) store.old.blocks }
        ensures left { self.new ≡ record {
          mappings = without_process pid self.old.mappings;
          spare = self.old.spare + length (process_blocks pid self.old.mappings);
        } }
        ensures moved { store.new ≡ record {
          blocks = with_blocks (process_blocks pid self.old.mappings) store.old.blocks;
          spare = store.old.spare - length (process_blocks pid self.old.mappings);
        } }
        ensures gone { (window : ℕ) → block_held_at self.new.mappings pid window ≡ None }
        ensures others { (other window : ℕ) → other ≢ pid
            → block_held_at self.new.mappings other window
            ≡ block_held_at self.old.mappings other window }
    {
        let (first, last) = self.keys.remove_process(pid);
        give_all(&mut self.blocks, first, last, store);
    }

    /// The block in a window; None where it holds none.
    pub fn get(&self, pid: u32, window: u32) -> Option<&Block>
        ensures { option_copied result ≡ block_held_at self.now.mappings pid window }
    {
        let place = self.keys.index_of(Key { pid, window });
        block_at(self.blocks.as_slice(), place)
    }

    /// The block in a window, to be changed in place; None where it holds none.
    pub fn get_mut(&mut self, pid: u32, window: u32) -> Option<&mut Block>
        ensures* writes_back { sem 𝓛 (LendsBlock self.entry pid window result) }
        ensures block { option_copied_mut result ≡ block_held_at self.old.mappings pid window }
    {
        let place = self.keys.index_of(Key { pid, window });
        self.blocks.get_mut(place)
    }
}

/// Gives the blocks from place `first` up to `last` to the store, in this order.
fn give_all(blocks: &mut Vec<Block>, first: usize, last: usize, store: &mut Store)
    requires order { first ≤ last }
    requires within { last ≤ length blocks.old.items }
    requires room { last - first ≤ store.old.spare }
    requires apart { AreBlocksApart (slice_range blocks.old.items first last) store.old.blocks }
    ensures left { blocks.new.items ≡ remove_range blocks.old.items first last }
    ensures capacity { vec_capacity blocks.new ≡ vec_capacity blocks.old }
    ensures moved { store.new ≡ record {
      blocks = with_blocks (slice_range blocks.old.items first last) store.old.blocks;
      spare = store.old.spare - (last - first);
    } }
{
    for block in blocks.drain(first..last) {
        store.give(block);
    }
}

/// The block at this place, if there is one.
fn block_at(blocks: &[Block], place: usize) -> Option<&Block>
    ensures { option_copied result ≡ slice_get blocks.now place }
{
    blocks.get(place)
}
