//! The plain types that the whole machine speaks of: places, blocks, nodes, states of a process,
//! and the entries of a machine's history, with those of `rv_model`. It knows no rule; the rules
//! are definitions in `specs/`.
#![tactic(auto)]

pub mod calls;
mod entry;
mod limits;
mod lists;
mod process;
mod topology;

pub use entry::{Entry, KillResult, LookResult, TakeResult, What};
pub use limits::{
    BLOCK_ROOM, GREATEST_BLOCKS, GREATEST_COUNT, GREATEST_DIMENSION, GREATEST_HISTORY,
    GREATEST_IMAGES, GREATEST_NODES, GREATEST_TARGETS, GREATEST_USERS, HOME_BLOCKS, HOST_HOME,
    MAIL_ROOM, NODE_ROOM, PROCESS_COUNT, SCRIPT_LIMIT, TURN_CALLS, TURN_INSTRUCTIONS, WINDOW_BASE,
    WINDOW_COUNT, WINDOW_SIZE,
};
pub use lists::{Bytes, Targets};
pub use process::Status;
pub use rv_model::{BranchOp, ImmOp, Inst, LoadOp, NoMemory, RegOp, Stop, StoreOp};
pub use topology::{BlockId, HOST, NodeSet, Place, Subcube};
