use rv_model::Stop;

/// What a step came to.
#[derive(Clone, Copy, Debug, PartialEq, Eq)]
pub enum Event {
    /// The instruction is done.
    Advance,
    /// The instruction was ECALL, and it is done: the kernel is called, and the pc is past it.
    Call,
    /// The process stops. No register, no byte of memory and not the pc has changed.
    Stopped(Stop),
}
