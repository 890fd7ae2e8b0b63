ghost use Rattle.std.specs.Prelude.{◌≡◌, ◌+◌, ◌-◌, ◌<◌, ◌≤◌, ◌++◌, [], ◌∷◌, length, find, map, position, option_map, option_to_list, ◌↔◌, IsNone, IfOk, IfSome, IfNone};
ghost use Rattle.std.specs.List.{list_any};
ghost use Rattle.ce_model.specs.Limits.{process_count};
ghost use Rattle.ce_model.specs.Lists.{without_first};
ghost use Rattle.ce_model.specs.Parcels.{is_eligible, item_id};
ghost use Rattle.rk_mail.specs.Items.{item_of};

use crate::Item;
use crate::parcel::is_eligible;
use ce_model::NoMemory;
use std::alloc::Global;
use std::collections::VecDeque;
use std::marker::Model;

/// What waits for a node, in order of arrival, with room for a number of items. Contracts see the
/// items, and for how many more there is room.
#[derive(Drop)]
pub struct Mailbox {
    items: VecDeque<Item>,
    room: usize,
}

impl Model for Mailbox {
    ghost use Rattle.rk_mail.specs.Queue.{Queue};

    ghost Value = { Queue };

    ghost use Rattle.std.specs.Prelude.{◌-◌, ◌≤◌, ◌<◌, ◌^◌, length, map};
    ghost use Rattle.std.specs.VecDeque.{deque_capacity};
    ghost use Rattle.rk_mail.specs.Items.{item_of};

    ghost view = { λ mailbox. record {
      items = map item_of mailbox.items.items;
      spare = mailbox.room - length mailbox.items.items;
    } };

    ghost invariant = { λ mailbox. (length mailbox.items.items ≤ mailbox.room)
        × (mailbox.room ≤ deque_capacity mailbox.items) × (mailbox.room < 2 ^ 32) };
}

impl Mailbox {
    /// An empty mailbox with room for so many items. `NoMemory` may come at any time.
    pub fn new(alloc: Global, room: u32) -> Result<Mailbox, NoMemory>
        ensures { IfOk result (λ mailbox. mailbox ≡ record { items = []; spare = room }) }
    {
        let room = room as usize;
        let items = VecDeque::with_capacity(alloc, room)?;
        Ok(Mailbox { items, room })
    }

    /// How many items wait.
    pub fn count(&self) -> u32
        ensures { result ≡ length self.now.items }
    {
        self.items.len() as u32
    }

    /// Adds an item as the last one. There is room for it, and its process id, for mail that of its
    /// receiver, is one that a node has.
    pub fn post(&mut self, item: Item)
        requires room { 1 ≤ self.old.spare }
        requires process { item_id (item_of item) < process_count }
        ensures items { self.new.items ≡ self.old.items ++ item_of item ∷ [] }
        ensures spare { self.new.spare + 1 ≡ self.old.spare }
    {
        self.items.push_back_reserved(item);
    }

    /// Whether an item can be given to a node of which the processes in `asking` wait for a message
    /// and those in `dead` have stopped, one bit each.
    pub fn has_eligible(&self, asking: u32, dead: u32) -> bool
        ensures { result ≡ list_any (is_eligible asking dead) self.now.items }
    {
        has_eligible(&self.items, asking, dead)
    }

    /// Takes out the first item that can be given to such a node; None exactly where there is none.
    /// The others stay in their order.
    pub fn take_next(&mut self, asking: u32, dead: u32) -> Option<Item>
        ensures first { option_map item_of result ≡ find (is_eligible asking dead) self.old.items }
        ensures rest { self.new.items ≡ without_first (is_eligible asking dead) self.old.items }
        ensures spare { IfSome result (λ _. self.new.spare ≡ self.old.spare + 1) }
        ensures unchanged { IfNone result (self.new ≡ self.old) }
    {
        let place = first_eligible(&self.items, asking, dead)?;
        self.items.remove(place)
    }

    /// Takes out the first item; None exactly where none waits.
    pub fn take_first(&mut self) -> Option<Item>
        ensures empty { IsNone result ↔ (self.old.items ≡ []) }
        ensures first { self.old.items ≡ map item_of (option_to_list result) ++ self.new.items }
        ensures spare { IfSome result (λ _. self.new.spare ≡ self.old.spare + 1) }
        ensures unchanged { IfNone result (self.new ≡ self.old) }
    {
        self.items.pop_front()
    }
}

fn has_eligible(items: &VecDeque<Item>, asking: u32, dead: u32) -> bool
    ensures { result ≡ list_any (λ item. is_eligible asking dead (item_of item)) items.now.items }
{
    items.iter().any(|item| is_eligible(item, asking, dead))
}

// The place of the first item that can be given.
fn first_eligible(items: &VecDeque<Item>, asking: u32, dead: u32) -> Option<usize>
    ensures { result ≡ position (λ item. is_eligible asking dead (item_of item)) items.now.items }
{
    items
        .iter()
        .position(|item| is_eligible(item, asking, dead))
}
