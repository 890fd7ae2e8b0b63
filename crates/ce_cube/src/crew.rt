//! The crew that runs a cube on one thread.
use ce_daemon::Grant;
use ce_host::Host;
use rk_node::NodeBox;

/// The crew of a cube on one thread: the boxes of its nodes, by relative number, and the host of
/// its user.
#[derive(Drop)]
pub struct SerialCrew {
    /// The cube.
    pub grant: Grant,
    /// The boxes of its nodes, in relative order.
    pub boxes: Vec<NodeBox>,
    /// The host.
    pub host: Host,
    /// How many entries the cube's trace has.
    pub entries: u64,
}
