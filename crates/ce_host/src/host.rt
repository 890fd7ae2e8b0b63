ghost use Rattle.std.specs.Prelude.{◌≡◌, ◌<◌, ◌≤◌, ◌+◌, ◌-◌, length, drop, slice_get, Some, None, IsNone, ◌↔◌, [], ◌∷◌, IfOk, IfSome, IfNone, IfErr, OnOk, OnErr, option_map};
ghost use Rattle.std.specs.List.{Contains};
ghost use Rattle.ce_model.specs.Limits.{greatest_users, home_blocks, host_home, block_room, greatest_blocks};
ghost use Rattle.ce_model.specs.Blocks.{blocks_of_home, with_id};
ghost use Rattle.xm_block.specs.Stores.{ids_of, with_block};
ghost use Rattle.rk_mail.specs.Targets.{targets_of};
ghost use Rattle.ce_host.specs.Hosts.{message_for_place, without_targets};

use ce_model::{Bytes, GREATEST_BLOCKS, HOST_HOME, NoMemory, Place};
use rk_mail::{Batch, Parcel};
use std::alloc::Global;
use xm_block::Store;

/// The host of a user: the blocks that it can send, and an empty batch to send one with.
#[derive(Drop)]
pub struct Host {
    /// Its blocks. It has room for all of a cube.
    pub store: Store,
    /// The batch, which is away while a message is on its way.
    pub spare_batch: Option<Batch>,
}

impl Host {
    /// The host of a user, whose number is below `GREATEST_USERS`, with all its own blocks.
    /// `NoMemory` may come at any time.
    #[tactic(auto, using(ce_model::specs::Limits::greatest_users_lem, ce_model::specs::Limits::host_home_lem, ce_model::specs::Limits::home_blocks_lem, ce_model::specs::Limits::greatest_blocks_lem))]
    pub fn new(alloc: Global, user: u32) -> Result<Host, NoMemory>
        requires { user < greatest_users }
        ensures blocks { IfOk result (λ host. ids_of host.store.blocks
            ≡ blocks_of_home (host_home + user)) }
        ensures room { IfOk result (λ host. host.store.spare + home_blocks ≡ greatest_blocks) }
        ensures spare { IfOk result (λ host. host.spare_batch ≡ Some []) }
    {
        let store = Store::of_home(alloc, HOST_HOME + user, GREATEST_BLOCKS)?;
        let spare_batch = Some(Batch::new(alloc)?);
        Ok(Host { store, spare_batch })
    }

    /// A message of these bytes, `BLOCK_ROOM` at most, to the place, in the host's least block;
    /// None where it has no block. The spare batch is here and empty.
    pub fn batch(&mut self, to: Place, bytes: &[u8]) -> Option<Batch>
        requires short { length bytes.now ≤ block_room }
        requires here { self.old.spare_batch ≡ Some [] }
        ensures empty { IsNone result ↔ (self.old.store.blocks ≡ []) }
        ensures message { result ≡ message_for_place to bytes.now self.old.store.blocks }
        ensures least { option_map targets_of result
            ≡ option_map (λ id. (to, id) ∷ []) (slice_get (ids_of self.old.store.blocks) 0) }
        ensures taken { IfSome result (λ batch. ids_of self.new.store.blocks
            ≡ without_targets (targets_of batch) (ids_of self.old.store.blocks)) }
        ensures rest { self.new.store.blocks ≡ drop 1 self.old.store.blocks }
        ensures room { IfSome result (λ _. self.new.store.spare ≡ self.old.store.spare + 1) }
        ensures away { IfSome result (λ _. self.new.spare_batch ≡ None) }
        ensures unchanged { IfNone result (self.new ≡ self.old) }
    {
        let mut block = self.store.take_least()?;
        let Some(mut batch) = self.spare_batch.take() else {
            unreachable!()
        };
        block.fill(bytes);
        batch.add_first(to, block);
        Some(batch)
    }

    /// Takes the batch back, which is empty again.
    pub fn regain(&mut self, batch: Batch)
        requires { batch ≡ [] }
        ensures { self.new ≡ record self.old { spare_batch = Some [] } }
    {
        self.spare_batch = Some(batch);
    }

    /// The bytes of a parcel that came. Its block goes to the store, which has room for it and none
    /// of its name. With `NoMemory`, which may come at any time, the parcel comes back.
    pub fn accept(&mut self, alloc: Global, parcel: Parcel) -> Result<Bytes, (Parcel, NoMemory)>
        requires room { 1 ≤ self.old.store.spare }
        requires apart { ¬ (Contains (ids_of self.old.store.blocks) parcel.block.id) }
        ensures bytes { IfOk result (λ bytes. bytes ≡ parcel.block.bytes) }
        ensures stored { OnOk result (self.new ≡ record self.old {
          store
              = record {
                blocks = with_block parcel.block self.old.store.blocks;
                spare = self.old.store.spare - 1;
              };
        }) }
        ensures ids { OnOk result (ids_of self.new.store.blocks
            ≡ with_id parcel.block.id (ids_of self.old.store.blocks)) }
        ensures back { IfErr result (λ answer. answer.0 ≡ parcel) }
        ensures unchanged { OnErr result (self.new ≡ self.old) }
    {
        let Ok(items) = parcel.block.bytes().to_vec(alloc) else {
            return Err((parcel, NoMemory));
        };
        self.store.give(parcel.block);
        Ok(Bytes::from_vec(items))
    }
}
