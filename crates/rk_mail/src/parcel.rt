ghost use Rattle.std.specs.Prelude.{◌≡◌};
ghost use Rattle.ce_model.specs.Parcels.{is_member, is_eligible};
ghost use Rattle.rk_mail.specs.Items.{item_of};

use ce_model::Place;
use xm_block::Block;

/// A block on its way from one place to another.
#[derive(Drop)]
pub struct Parcel {
    /// Where it was sent.
    pub from: Place,
    /// Where it goes.
    pub to: Place,
    /// Its number among all that were sent in its cube, from 0 on.
    pub number: u64,
    /// The block.
    pub block: Block,
}

/// What waits for a node.
#[derive(Drop)]
pub enum Item {
    /// A process is to start.
    Start {
        /// Its process id.
        pid: u32,
        /// The number of its image.
        image: u32,
    },
    /// A message came.
    Mail(Parcel),
    /// A process is to be stopped.
    Kill {
        /// Its process id.
        pid: u32,
    },
}

// Whether the item can be given to a node of which the processes in `asking` wait for a message and
// those in `dead` have stopped.
pub(crate) fn is_eligible(item: &Item, asking: u32, dead: u32) -> bool
    ensures { result ≡ is_eligible asking dead (item_of item.now) }
{
    match item {
        Item::Mail(parcel) => is_member(parcel.to.pid, asking) || is_member(parcel.to.pid, dead),
        Item::Start { .. } | Item::Kill { .. } => true,
    }
}

// Whether the process id is in the set.
fn is_member(pid: u32, ids: u32) -> bool
    ensures { result ≡ is_member pid ids }
{
    pid < u32::BITS && ids >> pid & 1 == 1
}
