/// Why a process ended. Addresses and instruction words are 32-bit values as the process saw them.
#[derive(Clone, Copy, Debug, PartialEq, Eq)]
pub enum Stop {
    /// It called `exit` with this code.
    Exited(u32),
    /// A kill reached it.
    Killed,
    /// At this pc stood this word, which is no instruction.
    Illegal(u32, u32),
    /// Instructions can't be fetched at this pc.
    Fetch(u32),
    /// The jump or taken branch at this pc goes to an address that isn't a multiple of 4.
    Target(u32),
    /// It accessed this address, which isn't a multiple of the access's size.
    Misaligned(u32),
    /// It accessed this address, where it has no memory.
    Unmapped(u32),
    /// It accessed this address in a block that it gave away.
    Gone(u32),
    /// It accessed this address, past the end of the block there.
    PastEnd(u32),
    /// It named this address where a kernel call wants the start of a block.
    NotABlock(u32),
    /// It came to the EBREAK at this pc.
    Break(u32),
    /// It made a kernel call of this number, which doesn't exist.
    NoCall(u32),
    /// Its turn was longer than a turn may be.
    TurnSpent,
    /// A message came for it, and it has used all its windows.
    WindowsSpent,
}
