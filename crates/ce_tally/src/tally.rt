//! The object.
ghost use Rattle.std.specs.Prelude.{◌≡◌, ℕ, ◌+◌, ◌%◌, ◌^◌, ◌<◌, Bool, false, List, [], ◌∷◌, ◌++◌, length, IfOk, IfErr};
ghost use Rattle.ce_lock.specs.declared.who.Who.{Who};
ghost use Rattle.ce_tally.specs.Sums.{sum_from, IsTallied, IsSumBefore, IsTallied-front};

use ce_lock::{Kept, Who};
use ce_model::NoMemory;
use std::alloc::Global;
use std::marker::Model;

/// A number to add.
#[derive(Clone, Copy, Debug, PartialEq, Eq)]
pub struct Add(pub u64);

/// A number that was added.
#[derive(Clone, Copy, Debug, PartialEq, Eq)]
pub struct Addition {
    /// Who added it.
    pub who: Who,
    /// The number.
    pub number: u64,
    /// The sum before, modulo 2^64.
    pub sum_before: u64,
}

/// A sum modulo 2^64, and all that was added to it. Contracts see it as the list of what was added.
#[derive(Drop)]
pub struct Tally {
    sum: u64,
    additions: Vec<Addition>,
}

impl Model for Tally {
    ghost use Rattle.std.specs.Prelude.{◌≡◌, List};
    ghost use Rattle.ce_tally.specs.declared.tally.Addition.{Addition};
    ghost use Rattle.ce_tally.specs.Sums.{sum_from};

    ghost Value = { List Addition };

    ghost view = { λ t. t.additions.items };

    ghost invariant = { λ t. t.sum ≡ sum_from 0 t.additions.items };
}

impl Tally {
    /// A sum of nothing. It takes no memory yet.
    pub fn new(alloc: Global) -> Tally
        ensures { result ≡ [] }
    {
        Tally {
            sum: 0,
            additions: Vec::new(alloc),
        }
    }

    /// The sum of all that was added, modulo 2^64.
    pub fn sum(&self) -> u64
        ensures { result ≡ sum_from 0 self.now }
    {
        self.sum
    }

    /// What was added, the oldest first.
    pub fn additions(&self) -> &[Addition]
        ensures { result.now ≡ self.now }
    {
        self.additions.as_slice()
    }
}

impl Kept for Tally {
    type Call = Add;

    type Reply = u64;

    type Entry = Addition;

    ghost Fixed = { Unit {0} };

    ghost fixed = { λ _. tt };

    ghost history = { λ t. t };

    ghost whose = { λ e. e.who };

    ghost alone = { λ _. false };

    ghost alone_entry = { λ _. false };

    ghost lawful = { λ _ h. IsTallied 0 h };

    ghost fits = { λ _ _ _ _. Unit {0} };

    ghost stands = { λ _ before entry who call reply. IsSumBefore before entry who call reply };

    fn act(&mut self, _alloc: Global, who: Who, call: Add) -> Result<u64, (Add, NoMemory)> {
        let sum_before = self.sum;
        let number = call.0;
        let entry = Addition {
            who,
            number,
            sum_before,
        };
        let Ok(()) = self.additions.push(entry) else {
            return Err((call, NoMemory));
        };
        self.sum = sum_before.wrapping_add(number);
        Ok(sum_before)
    }

    ghost empty_is_lawful = { λ _. tt };

    ghost prefix_is_lawful = { λ _ front rest h. IsTallied-front 0 front rest h };

    ghost stands_for = { λ _ before entry who call reply s. (s.actor, λ _. false) };

    ghost still_fits = { λ _ before entry who call l f h. tt };
}
