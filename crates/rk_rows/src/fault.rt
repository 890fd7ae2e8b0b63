use ce_model::NoMemory;
use std::alloc::{AllocError, AllocFailed};
use thiserror::Error;

/// Why a command of a node that is driven by hand was not made. No further command is made then.
#[derive(Clone, Copy, Debug, PartialEq, Eq, Error)]
pub enum RowFault {
    /// There are more than `GREATEST_IMAGES` images.
    #[error("too many images")]
    Images,
    /// A process id is `PROCESS_COUNT` or more, or a place is neither the node's nor the host's.
    #[error("no place")]
    Place,
    /// No more items can wait.
    #[error("no room")]
    Full,
    /// What waited can't be given: the process was started before, or wasn't yet, or its image
    /// isn't there.
    #[error("unfit")]
    Unfit,
    /// An earlier command failed.
    #[error("stuck")]
    Stuck,
    /// The node would go on.
    #[error("endless")]
    Endless,
    /// Memory ran out.
    #[error("{0}")]
    Memory(NoMemory),
}

impl From<NoMemory> for RowFault {
    fn from(fault: NoMemory) -> RowFault {
        RowFault::Memory(fault)
    }
}

impl From<AllocError> for RowFault {
    fn from(_: AllocError) -> RowFault {
        RowFault::Memory(NoMemory)
    }
}

impl<T: Drop> From<AllocFailed<T>> for RowFault {
    fn from(_: AllocFailed<T>) -> RowFault {
        RowFault::Memory(NoMemory)
    }
}
