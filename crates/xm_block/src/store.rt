ghost use Rattle.std.specs.Prelude.{◌≡◌, ◌≤◌, ◌+◌, ◌-◌, ◌↔◌, [], ◌∷◌, length, All, Contains, IsTrue, IsNone, IfSome, IfNone, IfOk};
ghost use Rattle.ce_model.specs.Limits.{home_blocks};
ghost use Rattle.ce_model.specs.Blocks.{blocks_of_home, with_id};
ghost use Rattle.ce_model.specs.Rising.{IsRising};
ghost use Rattle.xm_block.specs.Stores.{ids_of, is_block_before, with_block};

use crate::Block;
use crate::order::place_of;
use ce_model::{BlockId, HOME_BLOCKS, NoMemory};
use std::alloc::Global;
use std::collections::VecDeque;
use std::marker::Model;

/// A store of blocks that nobody uses, with room for a number of them. Contracts see its blocks by
/// rising name, and how many more it has room for.
#[derive(Drop)]
pub struct Store {
    blocks: VecDeque<Block>,
    room: usize,
}

impl Model for Store {
    ghost use Rattle.std.specs.Prelude.{◌-◌, length};
    ghost use Rattle.xm_block.specs.Stores.{BlockStore};

    ghost Value = { BlockStore };

    ghost use Rattle.xm_block.specs.Tables.{IsStoreTable};

    ghost view = { λ store. record {
      blocks = store.blocks.items;
      spare = store.room - length store.blocks.items;
    } };

    ghost invariant = { IsStoreTable };
}

impl Store {
    /// An empty store with room for so many blocks. `NoMemory` may come at any time.
    pub fn new(alloc: Global, room: u32) -> Result<Store, NoMemory>
        ensures { IfOk result (λ store. store ≡ record { blocks = []; spare = room }) }
    {
        let room = room as usize;
        Ok(Store {
            blocks: VecDeque::with_capacity(alloc, room)?,
            room,
        })
    }

    /// A store with all blocks of a home, each of length 0, and room for so many blocks,
    /// `HOME_BLOCKS` at least. `NoMemory` may come at any time.
    #[tactic(auto, using(ce_model::specs::Limits::home_blocks_lem))]
    pub fn of_home(alloc: Global, home: u32, room: u32) -> Result<Store, NoMemory>
        requires { home_blocks ≤ room }
        ensures blocks { IfOk result (λ store. ids_of store.blocks ≡ blocks_of_home home) }
        ensures room { IfOk result (λ store. store.spare + home_blocks ≡ room) }
    {
        let mut store = Store::new(alloc, room)?;
        for index in 0..HOME_BLOCKS {
            store.give(Block::new(alloc, BlockId { home, index })?);
        }
        Ok(store)
    }

    /// How many blocks are in the store.
    pub fn count(&self) -> u32
        ensures count { result ≡ length self.now.blocks }
        ensures rising { IsRising is_block_before self.now.blocks }
    {
        self.blocks.len() as u32
    }

    /// Takes the block of least name out; None where the store is empty.
    pub fn take_least(&mut self) -> Option<Block>
        ensures empty { IsNone result ↔ (self.old.blocks ≡ []) }
        ensures taken { IfSome result (λ block. self.old.blocks ≡ block ∷ self.new.blocks) }
        ensures least { IfSome result
            (λ block. All (λ other. IsTrue (is_block_before block other)) self.new.blocks) }
        ensures room { IfSome result (λ _. self.new.spare ≡ self.old.spare + 1) }
        ensures unchanged { IfNone result (self.new ≡ self.old) }
    {
        self.blocks.pop_front()
    }

    /// Puts a block in; the store has room for it, and no block of its name.
    pub fn give(&mut self, block: Block)
        requires room { 1 ≤ self.old.spare }
        requires apart { ¬ (Contains (ids_of self.old.blocks) block.id) }
        ensures after { self.new
            ≡ record { blocks = with_block block self.old.blocks; spare = self.old.spare - 1 } }
        ensures ids { ids_of self.new.blocks ≡ with_id block.id (ids_of self.old.blocks) }
    {
        let place = place_of(&self.blocks, &block);
        match self.blocks.insert(place, block) {
            Ok(()) => {}
            Err(_) => unreachable!(),
        }
    }
}
