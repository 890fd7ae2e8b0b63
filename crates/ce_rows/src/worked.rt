/// A worked row of the machine: calls that its actors make one after another.
#[derive(Clone, Copy, Debug, PartialEq, Eq)]
pub enum WorkedRow {
    /// The first cube of a machine of four nodes, and what another host sees of it.
    FirstCube,
    /// The whole of the greatest machine is granted.
    GreatestCube,
    /// A message waits in a node when its cube is given back, and the next owner of the node finds
    /// nothing.
    NextOwner,
    /// Each reply that a machine gives whose nodes run no process.
    Replies,
    /// What a process hears, and its host.
    Hearings,
    /// Messages for three nodes and the host wait when the cube is drained.
    WaitingMail,
}
