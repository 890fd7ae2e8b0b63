//! What is asked of a machine, and what it answers.
use ce_daemon::{Grant, Homed, PeekResult};
use rk_mail::{Hearing, Parcel, Say};
use xm_block::Block;

/// What an actor of a user asks of the machine. Places are the cube's, blocks have the machine's
/// names.
#[derive(Drop)]
pub enum Call<N: Homed> {
    /// A host asks for a cube.
    Getcube {
        /// Its dimension, at most `GREATEST_DIMENSION`.
        dim: u32,
    },
    /// A host asks which cubes are held.
    Peek,
    /// A host takes all messages that wait in its cube, to give it back.
    Drain,
    /// A host gives its drained cube back.
    Freecube {
        /// The clean boxes of its nodes, in relative order.
        boxes: Vec<N>,
    },
    /// A host allows so many dispatches; the count begins anew.
    Arm {
        /// `GREATEST_COUNT` at most.
        count: u32,
    },
    /// A host looks whether its cube is quiet.
    Look,
    /// A host takes its next message.
    HostTake,
    /// A node says something, or a host sends, spawns or kills.
    Say(Say),
}

/// What it is answered.
#[derive(Drop)]
pub enum Reply<N: Homed> {
    /// To a Getcube: the cube, with the clean boxes of its nodes in relative order.
    Granted {
        /// The grant.
        grant: Grant,
        /// The boxes.
        boxes: Vec<N>,
    },
    /// To a Getcube: no subcube of this dimension is free.
    NoneFree,
    /// To a Peek.
    Peeked(PeekResult),
    /// To a Drain: the blocks of all messages that waited, at the nodes in relative order and then
    /// for the host.
    Drained(Vec<Block>),
    /// To a Freecube.
    Freed,
    /// To an Arm.
    Armed,
    /// To a Look: the cube is quiet.
    Quiet,
    /// To a Look: it isn't quiet, and the allowed dispatches are used up.
    Spent,
    /// To a Look: it isn't quiet, and dispatches are allowed still.
    Busy,
    /// To a HostTake: the first message that waited for the host.
    Mail(Parcel),
    /// To a HostTake: none waited.
    NoMail,
    /// To what a node or a host said.
    Heard(Hearing),
}
