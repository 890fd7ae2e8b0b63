use rv_model::Stop;

/// Where a process paused that ran.
#[derive(Clone, Copy, Debug, PartialEq, Eq)]
pub enum Pause {
    /// At a call of the kernel: the pc is past the ECALL.
    Call,
    /// The process stops, for this cause.
    Stopped(Stop),
}
