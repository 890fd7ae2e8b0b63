//! The machine that users share.
ghost use Rattle.std.specs.Prelude.{◌≡◌, ℕ, ◌+◌, ◌^◌, ◌<◌, ◌≤◌, List, [], ◌∷◌, ◌++◌, length, vec_len, vec_capacity, IfOk, OnErr, OnOk, IsSome, Some};
ghost use Rattle.ce_model.specs.Machine.{IsMachine, IsLawful};
ghost use Rattle.ce_daemon.specs.Boxes.{AreBoxes};
ghost use Rattle.ce_daemon.specs.Holding.{grant_held_by};
ghost use Rattle.ce_model.specs.Limits.{greatest_history};

use crate::blank::blank_desks;
use crate::desk::Desk;
use crate::host_desk::HostDesk;
use ce_daemon::{Daemon, Grant, Homed};
use ce_lock::Who;
use ce_model::{Entry, GREATEST_HISTORY, NoMemory, What};
use rv_image::Image;
use std::alloc::Global;
use std::marker::Model;

/// The physical machine that users share: its nodes are granted to them as cubes, and it answers
/// what their hosts and their nodes ask. It stores the history of all that was asked and answered.
/// Contracts see its dimension, how many users it has, its images, and the history.
#[derive(Drop)]
pub struct Machine<N: Homed> {
    pub(crate) daemon: Daemon<N>,
    pub(crate) users: u32,
    pub(crate) images: Vec<Image>,
    pub(crate) desks: Vec<Desk>,
    pub(crate) hosts: Vec<HostDesk>,
    pub(crate) history: Vec<Entry>,
}

impl<N: Homed> Model for Machine<N> {
    ghost use Rattle.ce_machine.specs.Meanings.{MachineFacts};

    ghost Value = { MachineFacts };

    ghost use Rattle.ce_machine.specs.Tables.{IsSoundMachine};

    ghost view = { λ machine. record {
      parts = record {
        dim = machine.daemon.dim;
        users = machine.users;
        images = machine.images.items;
      };
      history = machine.history.items;
    } };

    ghost invariant = { λ machine. IsSoundMachine
        (record { dim = machine.daemon.dim; users = machine.users; images = machine.images.items })
        machine.history.items machine.daemon machine.desks.items machine.hosts.items };
}

impl<N: Homed> Machine<N> {
    /// The machine of dimension `dim`, `GREATEST_DIMENSION` at most, for one to `GREATEST_USERS`
    /// users, with these images, `GREATEST_IMAGES` at most, and the clean box of each node, box i
    /// of home i. Nothing was asked of it yet. It takes the room of every queue. `NoMemory` may
    /// come at any time.
    pub fn new(
        alloc: Global,
        dim: u32,
        users: u32,
        images: Vec<Image>,
        boxes: Vec<N>,
    ) -> Result<Machine<N>, NoMemory>
        requires machine { IsMachine (record { dim = dim; users = users; images = images.items }) }
        requires boxes { AreBoxes N.home N.clean (2 ^ dim) (λ node. node) boxes.items }
        ensures { IfOk result (λ machine. machine ≡ record {
          parts = record { dim = dim; users = users; images = images.items };
          history = [];
        }) }
    {
        let daemon = Daemon::new(alloc, dim, boxes)?;
        let desks = blank_desks(alloc, 1 << dim)?;
        let hosts = blank_desks(alloc, users)?;
        let history = Vec::new(alloc);
        Ok(Machine {
            daemon,
            users,
            images,
            desks,
            hosts,
            history,
        })
    }

    /// All that was asked and answered so far, the oldest first.
    pub fn history(&self) -> &[Entry]
        ensures entries { result.now ≡ self.now.history }
        ensures machine { IsMachine self.now.parts }
        ensures lawful { IsLawful self.now.parts self.now.history }
    {
        self.history.as_slice()
    }

    /// All that was asked and answered, the oldest first, when the machine is no longer needed.
    pub fn into_history(self) -> Vec<Entry>
        ensures entries { result.items ≡ self.history }
        ensures lawful { IsLawful self.parts result.items }
    {
        self.history
    }
}

// Takes the memory of one entry more, unless the history is as long as it can be.
#[tactic(auto, using(ce_model::specs::Limits::greatest_history_lem))]
pub(crate) fn make_room(history: &mut Vec<Entry>) -> Result<(), NoMemory>
    ensures same { history.new.items ≡ history.old.items }
    ensures room { OnOk result (vec_len history.new < vec_capacity history.new) }
    ensures few { OnOk result (length history.old.items < greatest_history) }
{
    if history.len() as u64 >= GREATEST_HISTORY {
        return Err(NoMemory);
    }
    history.reserve(1)?;
    Ok(())
}

// Adds the entry that an actor makes. There is room.
pub(crate) fn add_entry(history: &mut Vec<Entry>, who: Who, what: What)
    requires { vec_len history.old < vec_capacity history.old }
    ensures { history.new.items ≡ history.old.items
        ++ record { user = who.family; actor = who.actor; what = what } ∷ [] }
{
    history.push_reserved(Entry {
        user: who.family,
        actor: who.actor,
        what,
    });
}

// The grant that a user holds.
pub(crate) fn grant_of<N: Homed>(daemon: &Daemon<N>, user: u32) -> Grant
    requires { IsSome (grant_held_by daemon.now user) }
    ensures { grant_held_by daemon.now user ≡ Some result }
{
    match daemon.grant_of(user) {
        Some(grant) => grant,
        None => unreachable!(),
    }
}
