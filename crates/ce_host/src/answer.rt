use ce_daemon::PeekResult;
use ce_model::{Bytes, Place, Status, Subcube};

/// What a command was answered.
#[derive(Debug, Drop)]
pub enum Answer {
    /// The user holds no cube.
    NoCube,
    /// The user holds a cube already.
    Held,
    /// No cube of this dimension is free; or no message is there, and no node has work.
    None,
    /// The user holds this cube from now on.
    Granted(Subcube),
    /// How many nodes are free, and which cubes are held.
    Peeked(PeekResult),
    /// The cube was given back.
    Freed,
    /// It is done.
    Ok,
    /// The cube has no such place.
    NoPlace,
    /// The process was started before.
    Used,
    /// No process was ever started there.
    Unused,
    /// The process's end was accepted before.
    Already,
    /// The host has no message block to send.
    NoStore,
    /// No node has work.
    Quiet,
    /// A node has work, and the allowed dispatches are used up.
    Spent,
    /// A message: who sent it, and its bytes, `BLOCK_ROOM` at most.
    Message(Place, Bytes),
    /// What the process does.
    State(Status),
    /// How many entries the cube's trace has.
    Entries(u64),
}
