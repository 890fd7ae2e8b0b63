use ce_model::{Bytes, Place};

/// A command of a user. Places and counts are as the user wrote them: a place need not be one of
/// the user's cube.
#[derive(Debug, Drop)]
pub enum Command {
    /// Asks for a cube of this dimension, `GREATEST_DIMENSION` at most.
    Getcube(u32),
    /// Asks which cubes are held.
    Peek,
    /// Gives the cube back.
    Freecube,
    /// Starts the image of this number, counted from 0 in the script's order, as the process of
    /// this place.
    Spawn(u32, Place),
    /// Ends the process of this place.
    Kill(Place),
    /// Sends these bytes, `BLOCK_ROOM` at most, to the process of this place.
    Send(Place, Bytes),
    /// Allows this many dispatches, `GREATEST_COUNT` at most, and runs until no node has work or
    /// none is left.
    Run(u32),
    /// Takes the next message for the host, and allows this many dispatches, `GREATEST_COUNT` at
    /// most, to wait for it.
    Recv(u32),
    /// Asks what the process of this place does.
    Dump(Place),
    /// Asks how many entries the cube's trace has.
    Trace,
}
