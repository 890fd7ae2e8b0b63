use crate::{Bytes, Place, Subcube, Targets};

/// An entry of the machine's history: who made it, what it was, and what was answered. In the
/// machine's history actors, places and homes of blocks are physical numbers; in the trace of one
/// cube they are relative ones.
#[derive(Debug, Drop)]
pub struct Entry {
    /// The user whose entry it is, below `GREATEST_USERS`.
    pub user: u32,
    /// The node, or `HOST` for the user's host.
    pub actor: u32,
    /// The call and its answer.
    pub what: What,
}

/// A call and its answer.
#[derive(Debug, Drop)]
pub enum What {
    /// The host asked for a cube of dimension `dim`, and got `sub`, or nothing where none was free.
    Getcube {
        dim: u32,
        sub: Option<Subcube>,
    },
    /// The host asked which cubes are held.
    Peek,
    /// The host took all messages that waited in its cube.
    Drain,
    /// The host gave its cube back.
    Freecube,
    /// The host allowed `count` dispatches, `GREATEST_COUNT` at most; the count begins anew.
    Arm {
        count: u32,
    },
    /// The host looked whether its cube is at rest.
    Look {
        found: LookResult,
    },
    /// The host took its next message, which has this number, or found none.
    HostTake {
        number: Option<u64>,
    },
    /// Process `pid` sent `bytes`. The first target's message has the number `first`, each further
    /// one the next number.
    Send {
        pid: u32,
        first: u64,
        to: Targets,
        bytes: Bytes,
    },
    /// Process `pid` had image `image` started as the process `to`; not `fresh` where that id was
    /// spawned before, and then nothing is started.
    Spawn {
        pid: u32,
        image: u32,
        to: Place,
        fresh: bool,
    },
    /// Process `pid` asked to end the process `to`.
    Kill {
        pid: u32,
        to: Place,
        found: KillResult,
    },
    /// Process `pid` left the word `word` in the trace.
    Note {
        pid: u32,
        word: u32,
    },
    /// The node asked for work. `asking` and `dead` have one bit for each process that waits for a
    /// message and that has stopped; `poller` is the one that asked longest ago whether a message
    /// is there.
    Take {
        asking: u32,
        dead: u32,
        poller: Option<u32>,
        given: TakeResult,
    },
}

/// What a look at a cube finds.
#[derive(Clone, Copy, Debug, PartialEq, Eq)]
pub enum LookResult {
    /// Each node was found idle by its last entry, or has none, and nothing that waits can be given
    /// to it.
    Quiet,
    /// It isn't quiet, and the allowed dispatches are used up.
    Spent,
    /// It isn't quiet, and dispatches are allowed still.
    Busy,
}

/// What a kill finds.
#[derive(Clone, Copy, Debug, PartialEq, Eq)]
pub enum KillResult {
    /// The kill is on its way.
    Killed,
    /// No process was ever spawned there.
    Unused,
    /// A kill was accepted before.
    Already,
}

/// What a node is given to do.
#[derive(Clone, Copy, Debug, PartialEq, Eq)]
pub enum TakeResult {
    /// Start process `pid` from image `image`.
    Start { pid: u32, image: u32 },
    /// The message of this number is for process `pid`.
    Mail { pid: u32, number: u64 },
    /// End process `pid`.
    Kill { pid: u32 },
    /// Process `pid` is told that no message is there.
    Poll { pid: u32 },
    /// There is nothing to do.
    Idle,
    /// There is something to do, and the allowed dispatches are used up.
    Spent,
}
