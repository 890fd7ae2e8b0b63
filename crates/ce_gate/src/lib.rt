//! Where the workers of a machine can be held back: a gate that each of them passes before each of
//! its Takes.
#![tactic(auto)]

/// Something that a worker calls before each of its Takes. A test holds workers back there, to try
/// a schedule. It may return late, and it changes no answer.
pub trait Gate: Sync {
    /// Called by the worker of this user and this relative node before its next Take. `turn` is the
    /// number of Takes that the worker made so far in this cube.
    fn pass(&self, user: u32, actor: u32, turn: u64);
}

/// The gate of ordinary use: it holds nobody back.
#[derive(Clone, Copy, Debug, PartialEq, Eq)]
pub struct OpenGate;

impl Gate for OpenGate {
    fn pass(&self, _user: u32, _actor: u32, _turn: u64) {}
}
