use rv_model::Stop;

/// What a process does at this moment.
#[derive(Clone, Copy, Debug, PartialEq, Eq)]
pub enum Status {
    /// It wasn't started yet.
    Unborn,
    /// It is in its turn.
    Running,
    /// It waits for a message, in `xrecvb`.
    Asking,
    /// It asked whether a message is there, in `xrecv`.
    Polling,
    /// It ended, and why. It never runs again.
    Stopped(Stop),
}
