ghost use Rattle.std.specs.Prelude.{◌≡◌};
ghost use Rattle.rk_mail.specs.Talk.{spawn_hearing, kill_hearing};

use crate::{Batch, Parcel};
use ce_model::{KillResult, Place};

/// What a node asks the machine for.
#[derive(Drop)]
pub enum Say {
    /// The node is given something to do.
    Take {
        /// The process ids that wait for a message, one bit each.
        asking: u32,
        /// The process ids that have stopped, one bit each.
        dead: u32,
        /// The process that has polled for a message longest, if any.
        poller: Option<u32>,
    },
    /// A message is sent.
    Send {
        /// The sender's process id.
        pid: u32,
        /// The places and their blocks.
        batch: Batch,
    },
    /// A process is to be started.
    Spawn {
        /// The process id that asks for it.
        pid: u32,
        /// The number of the image.
        image: u32,
        /// Where.
        to: Place,
    },
    /// A process is to be stopped.
    Kill {
        /// The process id that asks for it.
        pid: u32,
        /// Where it runs.
        to: Place,
    },
    /// A word goes into the trace.
    Note {
        /// The process id that notes it.
        pid: u32,
        /// The word.
        word: u32,
    },
}

/// What a node hears in answer.
#[derive(Drop)]
pub enum Hearing {
    /// To a Take: a process starts.
    Start {
        /// Its process id.
        pid: u32,
        /// The number of its image.
        image: u32,
    },
    /// To a Take: a message came.
    Mail(Parcel),
    /// To a Take: a process is stopped.
    Kill {
        /// Its process id.
        pid: u32,
    },
    /// To a Take: no message came for a process that polls.
    Poll {
        /// Its process id.
        pid: u32,
    },
    /// To a Take: there is nothing to do.
    Idle,
    /// To a Take: the dispatches that were allowed are used up.
    Spent,
    /// To a Send: the message is on its way; the emptied batch comes back.
    Posted(Batch),
    /// To a Spawn: the process will start.
    Spawned,
    /// To a Spawn: the process id was used before.
    Used,
    /// To a Kill: the process will be stopped.
    Killed,
    /// To a Kill: the process id was never used.
    Unused,
    /// To a Kill: a kill was asked for before.
    Already,
    /// To a Note: the word is in the trace.
    Noted,
}

/// What a process hears of its spawn, by whether the process id was never used before.
pub fn spawn_hearing(fresh: bool) -> Hearing
    ensures { result ≡ spawn_hearing fresh }
{
    if fresh {
        Hearing::Spawned
    } else {
        Hearing::Used
    }
}

/// What a process hears of its kill, by what the machine found.
pub fn kill_hearing(found: KillResult) -> Hearing
    ensures { result ≡ kill_hearing found }
{
    match found {
        KillResult::Killed => Hearing::Killed,
        KillResult::Unused => Hearing::Unused,
        KillResult::Already => Hearing::Already,
    }
}
