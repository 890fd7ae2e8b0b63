//! The plain types of the instruction set that all crates speak of: instructions, why a process
//! stops, the sizes of a process's memory, and the one answer where memory runs out. It knows no
//! rule; the rules are definitions in `specs/`.
#![tactic(auto)]

mod access_size;
mod inst;
mod limits;
mod little_endian;
mod memory;
pub mod opcodes;
mod register;
mod stop;

pub use access_size::AccessSize;
pub use inst::{BranchOp, ImmOp, Inst, LoadOp, RegOp, StoreOp};
pub use limits::{
    A0, BRANCH_REACH, GREATEST_IMMEDIATE, GREATEST_SHIFT, GREATEST_UPPER, IMAGE_ROOM, JUMP_REACH,
    LEAST_IMMEDIATE, PRIVATE_END, PRIVATE_SIZE, PRIVATE_START, REGISTER_COUNT, SP, UPPER_UNIT,
    WORD_SIZE,
};
pub use little_endian::{number_at, put_number, word_at};
pub use memory::NoMemory;
pub use register::Register;
pub use stop::Stop;
