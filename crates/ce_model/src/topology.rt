/// The node number that stands for a cube's host. The host is process 0 there.
pub const HOST: u32 = 0xFFFF_FFFF;

/// Where a process is: a node and a process id. In a cube nodes are relative numbers below 2^d, or
/// `HOST`; in the machine's history they are physical numbers. Process ids are below
/// `PROCESS_COUNT`.
#[derive(Clone, Copy, Debug, PartialEq, Eq)]
pub struct Place {
    /// The node, or `HOST`.
    pub node: u32,
    /// The process id.
    pub pid: u32,
}

/// The name of a message block: where it lies when nobody uses it, and its number there.
#[derive(Clone, Copy, Debug, PartialEq, Eq)]
pub struct BlockId {
    /// A node's number, or for the host of user u `HOST_HOME` + u (`HOST_HOME` in the trace of one
    /// cube).
    pub home: u32,
    /// Below `HOME_BLOCKS`.
    pub index: u32,
}

/// The nodes `base + deposit(r, mask)` of a machine, for r from 0 to 2^d - 1, where `mask` has d
/// one bits and no bit in common with `base`.
#[derive(Clone, Copy, Debug, PartialEq, Eq)]
pub struct Subcube {
    /// The directions in which the subcube extends, one bit each; below 2^`GREATEST_DIMENSION`.
    pub mask: u32,
    /// The number of its relative node 0; below 2^`GREATEST_DIMENSION`.
    pub base: u32,
}

/// A set of physical nodes: node n is in it where bit n is set.
#[derive(Clone, Copy, Debug, PartialEq, Eq)]
pub struct NodeSet(pub u64);
