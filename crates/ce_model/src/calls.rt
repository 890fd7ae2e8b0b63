//! The calls of the kernel by their numbers, and what they answer (docs/SCRIPT.md, "Kernel calls
//! and turns").

/// The argument that is a call's number: it is in a7, where a0 has argument 0.
pub const NUMBER_ARGUMENT: u32 = 7;

/// A block of so many bytes is mapped.
pub const XMALLOC: u32 = 1;

/// A block is given back.
pub const XFREE: u32 = 2;

/// How many bytes a block has.
pub const XLENGTH: u32 = 3;

/// A block is sent to a place.
pub const XSEND: u32 = 4;

/// A block is sent to several places.
pub const XMSEND: u32 = 5;

/// The next message, or none.
pub const XRECV: u32 = 6;

/// The next message, waited for.
pub const XRECVB: u32 = 7;

/// A process is started.
pub const SPAWN: u32 = 8;

/// A process is ended.
pub const CKILL: u32 = 9;

/// The number of the node.
pub const MYNODE: u32 = 10;

/// The id of the process.
pub const MYPID: u32 = 11;

/// How many nodes the cube has.
pub const NNODES: u32 = 12;

/// The process ends.
pub const EXIT: u32 = 13;

/// A word goes into the trace.
pub const NOTE: u32 = 14;

/// The answer of a call that did what it was made for and gives nothing.
pub const DONE: u32 = 0;

/// The answer of `xmalloc` where it maps nothing, and of `xrecv` where nothing came: no block is at
/// this address.
pub const NO_ADDRESS: u32 = 0;

/// The answer of a call that names no place of the cube.
pub const NO_PLACE: u32 = 1;

/// The answer of `xmsend` where the store has fewer blocks than it needs copies.
pub const TOO_FEW_BLOCKS: u32 = 2;

/// The answer of `xmsend` to more than `GREATEST_TARGETS` places.
pub const TOO_MANY_PLACES: u32 = 3;

/// The answer of `spawn` where the id was used before.
pub const USED_ID: u32 = 2;

/// The answer of `spawn` where no image has that number.
pub const NO_IMAGE: u32 = 3;

/// The answer of `ckill` where the id was not used.
pub const UNUSED_ID: u32 = 2;

/// The answer of `ckill` where a kill was accepted before.
pub const KILLED_BEFORE: u32 = 3;
