ghost use Rattle.std.specs.Prelude.{◌≡◌, ◌<◌, ◌≤◌, [], true, false, nat_lt, List, length, vec_capacity, IfOk};
ghost use Rattle.std.specs.List.{AllWithin, position_or_len, insert, remove, remove_range};
ghost use Rattle.ce_model.specs.Rising.{IsRising};
ghost use Rattle.ce_model.specs.Blocks.{Block};
ghost use Rattle.xm_owner.specs.Ranges.{IsDrainedRange};
ghost use Rattle.xm_owner.specs.Tables.{is_key_before, is_same_key};

use crate::key::{Key, is_key_before};
use crate::room::insert_reserved;
use ce_model::NoMemory;
use std::alloc::Global;

/// Keys in order, each once.
#[derive(Drop)]
pub(crate) struct Keys {
    pub list: Vec<Key>,
    ghost rising: { IsRising is_key_before list.items },
}

impl Keys {
    /// No key, and memory for so many.
    pub fn new(alloc: Global, room: usize) -> Result<Keys, NoMemory>
        ensures none { IfOk result (λ keys. keys.list.items ≡ []) }
        ensures capacity { IfOk result (λ keys. room ≤ vec_capacity keys.list) }
    {
        Ok(Keys {
            list: Vec::with_capacity(alloc, room)?,
        })
    }

    /// The place of `key`: how many keys come before it.
    fn place_of(&self, key: Key) -> usize
        ensures within { result ≤ length self.now.list.items }
        ensures passed { AllWithin
            (λ other. is_key_before other key ≡ true) self.now.list.items 0 result }
        ensures ahead { AllWithin (λ other. is_key_before other key ≡ false)
            self.now.list.items result (length self.now.list.items) }
    {
        self.list
            .partition_point(|other| is_key_before(*other, key))
    }

    /// The place where `key` stands, or the number of keys where it isn't there.
    pub fn index_of(&self, key: Key) -> usize
        ensures { result ≡ position_or_len (is_same_key key) self.now.list.items }
    {
        let place = self.place_of(key);
        if place < self.list.len() && self.list[place] == key {
            place
        } else {
            self.list.len()
        }
    }

    /// How many keys are of processes below `limit`.
    fn count_below(&self, limit: u64) -> usize
        ensures within { result ≤ length self.now.list.items }
        ensures passed { AllWithin
            (λ other. nat_lt other.pid limit ≡ true) self.now.list.items 0 result }
        ensures ahead { AllWithin (λ other. nat_lt other.pid limit ≡ false)
            self.now.list.items result (length self.now.list.items) }
    {
        self.list
            .partition_point(|other| u64::from(other.pid) < limit)
    }

    /// The places from which and up to which the keys of a process stand.
    fn range_of(&self, pid: u32) -> (usize, usize)
        ensures order { result.0 ≤ result.1 }
        ensures within { result.1 ≤ length self.now.list.items }
        ensures rising { IsRising is_key_before
            (remove_range self.now.list.items result.0 result.1) }
        ensures drained { (blocks : List Block) → length blocks ≡ length self.now.list.items
            → IsDrainedRange pid self.now.list.items blocks result.0 result.1 }
    {
        let first = self.count_below(pid as u64);
        let last = self.count_below(pid as u64 + 1);
        (first, last)
    }

    /// Puts a key in that isn't there yet, and answers its place. There is memory for it.
    pub fn insert(&mut self, key: Key) -> usize
        requires room { length self.old.list.items < vec_capacity self.old.list }
        requires absent { AllWithin (λ other. is_same_key key other ≡ false)
            self.old.list.items 0 (length self.old.list.items) }
        ensures within { result ≤ length self.old.list.items }
        ensures passed { AllWithin
            (λ other. is_key_before other key ≡ true) self.old.list.items 0 result }
        ensures ahead { AllWithin (λ other. is_key_before other key ≡ false)
            self.old.list.items result (length self.old.list.items) }
        ensures after { self.new.list.items ≡ insert self.old.list.items result key }
        ensures capacity { vec_capacity self.new.list ≡ vec_capacity self.old.list }
    {
        let place = self.place_of(key);
        insert_reserved(&mut self.list, place, key);
        place
    }

    /// Takes the key at a place out.
    pub fn remove(&mut self, place: usize)
        requires { place < length self.old.list.items }
        ensures after { self.new.list.items ≡ remove self.old.list.items place }
        ensures capacity { vec_capacity self.new.list ≡ vec_capacity self.old.list }
    {
        self.list.remove(place);
    }

    /// Takes the keys of a process out, and answers the places from which and up to which they
    /// stood.
    pub fn remove_process(&mut self, pid: u32) -> (usize, usize)
        ensures order { result.0 ≤ result.1 }
        ensures within { result.1 ≤ length self.old.list.items }
        ensures drained { (blocks : List Block) → length blocks ≡ length self.old.list.items
            → IsDrainedRange pid self.old.list.items blocks result.0 result.1 }
        ensures after { self.new.list.items
            ≡ remove_range self.old.list.items result.0 result.1 }
        ensures capacity { vec_capacity self.new.list ≡ vec_capacity self.old.list }
    {
        let (first, last) = self.range_of(pid);
        remove_between(&mut self.list, first, last);
        (first, last)
    }
}

/// Takes the keys from place `first` up to `last` out.
fn remove_between(keys: &mut Vec<Key>, first: usize, last: usize)
    requires order { first ≤ last }
    requires within { last ≤ length keys.old.items }
    ensures left { keys.new.items ≡ remove_range keys.old.items first last }
    ensures capacity { vec_capacity keys.new ≡ vec_capacity keys.old }
{
    drop(keys.drain(first..last));
}
