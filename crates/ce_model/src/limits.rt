//! The machine's limits, each named once. Definitions cite them through `specs/Limits.antt`.

/// The greatest dimension of a machine or a cube.
pub const GREATEST_DIMENSION: u32 = 6;

/// How many nodes a machine or a cube has at most.
pub const GREATEST_NODES: u32 = 1 << GREATEST_DIMENSION;

/// How many process ids a node has.
pub const PROCESS_COUNT: u32 = 8;

/// How many message blocks are homed at each node and at each user's host.
pub const HOME_BLOCKS: u32 = 32;

/// How many message blocks the greatest cube has: those that its nodes are home to, and those of
/// its host.
pub const GREATEST_BLOCKS: u32 = (GREATEST_NODES + 1) * HOME_BLOCKS;

/// How many bytes a message block can hold.
pub const BLOCK_ROOM: u32 = 4_096;

/// How many windows a process can use in its life.
pub const WINDOW_COUNT: u32 = 32_768;

/// The address of a process's first window.
pub const WINDOW_BASE: u32 = 0x8000_0000;

/// How far the addresses of two windows that follow one another are apart.
pub const WINDOW_SIZE: u32 = 0x1_0000;

/// How many places one call can send to.
pub const GREATEST_TARGETS: u32 = 64;

/// How many instructions a turn may run, calls of the kernel included.
pub const TURN_INSTRUCTIONS: u32 = 4_000_000;

/// How many calls that send, spawn, kill or note a turn may make.
pub const TURN_CALLS: u32 = 4_096;

/// How many dispatches a host can allow at once.
pub const GREATEST_COUNT: u32 = 1_000_000;

/// How many users a machine can have.
pub const GREATEST_USERS: u32 = 8;

/// How many images a machine can have.
pub const GREATEST_IMAGES: u32 = 64;

/// How many messages can wait in a cube: as many as the greatest cube has blocks, those of its host
/// included.
pub const MAIL_ROOM: u32 = GREATEST_BLOCKS;

/// How many items can wait at a node: all messages, and a start and a kill of each process.
pub const NODE_ROOM: u32 = MAIL_ROOM + 2 * PROCESS_COUNT;

/// How many entries a machine's history can have.
pub const GREATEST_HISTORY: u64 = 1 << 57;

/// How many bytes a script can have.
pub const SCRIPT_LIMIT: usize = 1_048_576;

/// The home of the blocks of a cube's host, as the cube knows it. In the machine it is this and the
/// user's number together.
pub const HOST_HOME: u32 = 256;

// A node's home is never a host's, windows end with the addresses, and a block fits its window.
const _: () = prove!(GREATEST_NODES <= HOST_HOME);

const _: () = prove!(
    WINDOW_BASE as u64 + WINDOW_COUNT as u64 * WINDOW_SIZE as u64 == 0x1_0000_0000
);

const _: () = prove!(BLOCK_ROOM <= WINDOW_SIZE);
