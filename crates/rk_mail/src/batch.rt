ghost use Rattle.std.specs.Prelude.{◌≡◌, ◌<◌, ◌≤◌, ◌++◌, [], ◌∷◌, length, option_to_list, ◌↔◌, IsNone, IfOk};
ghost use Rattle.ce_model.specs.Limits.{block_room, greatest_targets};
ghost use Rattle.rk_mail.specs.Targets.{bytes_of, HasEqualBytes, with_bytes};

use ce_model::{GREATEST_TARGETS, NoMemory, Place};
use std::alloc::Global;
use std::collections::VecDeque;
use std::marker::Model;
use xm_block::Block;

/// A message to 1 to `GREATEST_TARGETS` places: for each place the block that carries it there, all
/// of equal bytes; or no place yet. Contracts see it as the list of places, each with its block.
#[derive(Drop)]
pub struct Batch {
    targets: VecDeque<(Place, Block)>,
}

impl Model for Batch {
    ghost use Rattle.std.specs.Prelude.{List, ◌≤◌, length};
    ghost use Rattle.std.specs.VecDeque.{deque_capacity};
    ghost use Rattle.ce_model.specs.declared.topology.Place.{Place};
    ghost use Rattle.ce_model.specs.Blocks as model;
    ghost use Rattle.ce_model.specs.Limits.{greatest_targets};
    ghost use Rattle.rk_mail.specs.Targets.{HasEqualBytes};

    ghost Value = { List (Place × model.Block) };

    ghost view = { λ batch. batch.targets.items };

    ghost invariant = { λ batch. HasEqualBytes batch.targets.items
        × (length batch.targets.items ≤ greatest_targets)
        × (greatest_targets ≤ deque_capacity batch.targets) };
}

impl Batch {
    /// A batch without a place. `NoMemory` may come at any time.
    #[tactic(auto, using(ce_model::specs::Limits::greatest_targets_lem))]
    pub fn new(alloc: Global) -> Result<Batch, NoMemory>
        ensures { IfOk result (λ batch. batch ≡ []) }
    {
        let targets = VecDeque::with_capacity(alloc, GREATEST_TARGETS as usize)?;
        Ok(Batch { targets })
    }

    /// How many places it has, `GREATEST_TARGETS` at most.
    #[tactic(auto, using(ce_model::specs::Limits::greatest_targets_lem))]
    pub fn count(&self) -> u32
        ensures value { result ≡ length self.now }
        ensures within { result ≤ greatest_targets }
    {
        self.targets.len() as u32
    }

    /// The bytes of each of its blocks, `BLOCK_ROOM` at most. It has a place.
    pub fn bytes(&self) -> &[u8]
        requires { 0 < length self.now }
        ensures value { result.now ≡ bytes_of self.now }
        ensures each { HasEqualBytes self.now }
        ensures within { length result.now ≤ block_room }
    {
        let (_, block) = &self.targets[0];
        block.bytes()
    }

    /// Adds the first place, with the block that carries the message. It has no place yet.
    #[tactic(auto, using(ce_model::specs::Limits::greatest_targets_lem))]
    pub fn add_first(&mut self, to: Place, block: Block)
        requires { self.old ≡ [] }
        ensures { self.new ≡ (to, block) ∷ [] }
    {
        self.targets.push_back_reserved((to, block));
    }

    /// Adds a place, with a block that becomes a copy of the first. It has a place, and fewer than
    /// `GREATEST_TARGETS`.
    pub fn add(&mut self, to: Place, mut block: Block)
        requires some { 1 ≤ length self.old }
        requires room { length self.old < greatest_targets }
        ensures { self.new ≡ self.old ++ (to, with_bytes (bytes_of self.old) block) ∷ [] }
    {
        let (_, first) = &self.targets[0];
        block.copy_from(first);
        self.targets.push_back_reserved((to, block));
    }

    /// Takes out the first place with its block; None exactly where it has none.
    pub fn take_first(&mut self) -> Option<(Place, Block)>
        ensures empty { IsNone result ↔ (self.old ≡ []) }
        ensures taken { self.old ≡ option_to_list result ++ self.new }
    {
        self.targets.pop_front()
    }
}
