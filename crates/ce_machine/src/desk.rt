ghost use Rattle.std.specs.List.{list_any};
ghost use Rattle.std.specs.Prelude.{◌≡◌, ℕ, ◌+◌, ◌<◌, ◌≤◌, Bool, false, not, List, [], ◌∷◌, ◌++◌, length, find, map, Some, None, IfSome, IfNone, option_map, vec_capacity};
ghost use Rattle.ce_model.specs.Limits.{process_count, node_room};
ghost use Rattle.ce_model.specs.Lists.{without_first};
ghost use Rattle.ce_model.specs.Parcels.{mail, is_eligible, item_parcels};
ghost use Rattle.ce_model.specs.Trace.{NodeRecord, blank_record};
ghost use Rattle.ce_model.specs.Answers.{is_among, kill_result, is_quiet_node};
ghost use Rattle.rk_mail.specs.Items.{item_of, parcel_of};
ghost use Rattle.ce_machine.specs.Orders.{HasOrderRoom, with_order};

use crate::blank::Blank;
use crate::mail::take_blocks;
use crate::order::Order;
use ce_model::{KillResult, NODE_ROOM, NoMemory, PROCESS_COUNT};
use rk_mail::{Item, Mailbox, Parcel};
use std::alloc::Global;
use std::marker::Model;
use xm_block::Block;

/// What the machine keeps for a node: what waits there, the ids that were spawned and those whose
/// kill was accepted, whether its last entry is a Take answered Idle or it has none, and the sets
/// of its last Take. It has room for all that can wait. Contracts see the model's record.
#[derive(Drop)]
pub(crate) struct Desk {
    mailbox: Mailbox,
    spawned_ids: Vec<u32>,
    killed_ids: Vec<u32>,
    is_idle: bool,
    asking: u32,
    dead: u32,
}

impl Model for Desk {
    ghost use Rattle.std.specs.Prelude.{◌≡◌, ◌+◌, ◌≤◌, length, vec_capacity};
    ghost use Rattle.ce_model.specs.Limits.{process_count, node_room};
    ghost use Rattle.ce_model.specs.Trace.{NodeRecord};

    ghost Value = { NodeRecord };

    ghost view = { λ desk. record {
      waiting_items = desk.mailbox.items;
      spawned_ids = desk.spawned_ids.items;
      killed_ids = desk.killed_ids.items;
      mark = record {
        is_idle = desk.is_idle;
        asking = desk.asking;
        dead = desk.dead;
      };
    } };

    ghost invariant = { λ desk. (length desk.mailbox.items + desk.mailbox.spare ≡ node_room)
        × (process_count ≤ vec_capacity desk.spawned_ids)
        × (process_count ≤ vec_capacity desk.killed_ids) };
}

impl Blank for Desk {
    ghost blank = { blank_record };

    #[tactic(auto, using(ce_model::specs::Limits::node_room_lem, ce_model::specs::Limits::process_count_lem))]
    fn new(alloc: Global) -> Result<Desk, NoMemory> {
        let mailbox = Mailbox::new(alloc, NODE_ROOM)?;
        let spawned_ids = Vec::with_capacity(alloc, PROCESS_COUNT as usize)?;
        let killed_ids = Vec::with_capacity(alloc, PROCESS_COUNT as usize)?;
        Ok(Desk {
            mailbox,
            spawned_ids,
            killed_ids,
            is_idle: true,
            asking: 0,
            dead: 0,
        })
    }
}

impl Desk {
    /// How many items wait.
    pub(crate) fn count(&self) -> u32
        ensures value { result ≡ length self.now.waiting_items }
        ensures within { result ≤ node_room }
    {
        self.mailbox.count()
    }

    /// A message waits from now on.
    pub(crate) fn post(&mut self, parcel: Parcel)
        requires room { length self.old.waiting_items < node_room }
        requires process { parcel.to.pid < process_count }
        ensures { self.new ≡ record self.old {
          waiting_items = self.old.waiting_items ++ mail (parcel_of parcel) ∷ [];
        } }
    {
        self.mailbox.post(Item::Mail(parcel));
    }

    /// Has a process start, unless its id was used before; whether it wasn't.
    pub(crate) fn start(&mut self, pid: u32, image: u32) -> bool
        requires process { pid < process_count }
        requires room { HasOrderRoom (Order.Spawn image) pid self.old }
        ensures fresh { result ≡ not (is_among pid self.old.spawned_ids) }
        ensures desk { self.new ≡ with_order (Order.Spawn image) pid self.old }
    {
        let fresh = !contains(&self.spawned_ids, pid);
        if fresh {
            self.mailbox.post(Item::Start { pid, image });
            self.spawned_ids.push_reserved(pid);
        }
        fresh
    }

    /// Has a process end, if it was started and its end wasn't asked for before; which it is.
    pub(crate) fn kill(&mut self, pid: u32) -> KillResult
        requires process { pid < process_count }
        requires room { HasOrderRoom Order.Kill pid self.old }
        ensures found { result ≡ kill_result self.old pid }
        ensures desk { self.new ≡ with_order Order.Kill pid self.old }
    {
        let found = self.kill_found(pid);
        if let KillResult::Killed = found {
            self.mailbox.post(Item::Kill { pid });
            self.killed_ids.push_reserved(pid);
        }
        found
    }

    // What a kill of the id finds.
    fn kill_found(&self, pid: u32) -> KillResult
        ensures { result ≡ kill_result self.now pid }
    {
        if !contains(&self.spawned_ids, pid) {
            KillResult::Unused
        } else if contains(&self.killed_ids, pid) {
            KillResult::Already
        } else {
            KillResult::Killed
        }
    }

    /// Takes out the first item that the node can be given.
    pub(crate) fn take_next(&mut self, asking: u32, dead: u32) -> Option<Item>
        ensures first { option_map item_of result
            ≡ find (is_eligible asking dead) self.old.waiting_items }
        ensures rest { self.new
            ≡ record self.old {
              waiting_items = without_first (is_eligible asking dead) self.old.waiting_items;
            } }
    {
        self.mailbox.take_next(asking, dead)
    }

    /// Whether an item waits that the node can be given.
    pub(crate) fn has_eligible(&self, asking: u32, dead: u32) -> bool
        ensures { result ≡ list_any (is_eligible asking dead) self.now.waiting_items }
    {
        self.mailbox.has_eligible(asking, dead)
    }

    /// The node has asked for work with these sets; whether it was answered that there is nothing
    /// to do.
    pub(crate) fn mark_take(&mut self, asking: u32, dead: u32, is_idle: bool)
        ensures { self.new ≡ record self.old {
          mark = record { is_idle = is_idle; asking = asking; dead = dead };
        } }
    {
        self.is_idle = is_idle;
        self.asking = asking;
        self.dead = dead;
    }

    /// The node has made another entry.
    pub(crate) fn mark_busy(&mut self)
        ensures { self.new ≡ record self.old { mark = record self.old.mark { is_idle = false } } }
    {
        self.is_idle = false;
    }

    /// Whether the node is quiet.
    pub(crate) fn is_quiet(&self) -> bool
        ensures { result ≡ is_quiet_node self.now }
    {
        self.is_idle && !self.mailbox.has_eligible(self.asking, self.dead)
    }

    /// Takes all that waits out, and puts the blocks of the messages behind those that were taken
    /// before.
    pub(crate) fn drain(&mut self, blocks: &mut Vec<Block>)
        requires { length blocks.old.items + length self.old.waiting_items
            ≤ vec_capacity blocks.old }
        ensures desk { self.new ≡ record self.old { waiting_items = [] } }
        ensures blocks { blocks.new.items ≡ blocks.old.items
            ++ map (λ parcel. parcel.block) (item_parcels self.old.waiting_items) }
        ensures capacity { vec_capacity blocks.new ≡ vec_capacity blocks.old }
    {
        take_blocks(&mut self.mailbox, blocks);
    }

    /// Makes it the desk of a node of which nothing is known. Nothing waits.
    pub(crate) fn clear(&mut self)
        requires { self.old.waiting_items ≡ [] }
        ensures { self.new ≡ blank_record }
    {
        self.spawned_ids.clear();
        self.killed_ids.clear();
        self.is_idle = true;
        self.asking = 0;
        self.dead = 0;
    }
}

// Whether the id is among these.
fn contains(pids: &Vec<u32>, pid: u32) -> bool
    ensures { result ≡ is_among pid pids.now.items }
{
    pids.iter().any(|other| *other == pid)
}
