ghost use Rattle.std.specs.Prelude.{◌≤◌};
ghost use Rattle.ce_model.specs.Limits.{turn_instructions, turn_calls};

use crate::pid::Pid;
use rk_mail::Say;

/// The turn of a process: its id, how many instructions it may still run, and how many counted
/// calls it has made.
#[derive(Clone, Copy, Debug, PartialEq, Eq)]
pub(crate) struct Turn {
    pub pid: Pid,
    pub instructions_left: u32,
    pub calls: u32,
    ghost instructions: { instructions_left ≤ turn_instructions },
    ghost counted: { calls ≤ turn_calls },
}

/// A kernel call that names a block.
#[derive(Clone, Copy, Debug, PartialEq, Eq)]
pub(crate) enum BlockCall {
    /// xfree.
    Free,
    /// xlength.
    Length,
    /// xsend.
    Send,
    /// xmsend.
    SendToSeveral,
}

/// What a kernel call comes to.
#[derive(Drop)]
pub(crate) enum CallEnd {
    /// The turn goes on.
    Continuation,
    /// The node says this.
    Departure(Say),
    /// The turn is over.
    TurnConclusion,
}
