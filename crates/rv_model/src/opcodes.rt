//! The opcodes of RV32I by the names that the standard gives them (RISC-V unprivileged
//! specification, "RV32/64G Instruction Set Listings").

pub const LUI: u32 = 0b011_0111;

pub const AUIPC: u32 = 0b001_0111;

pub const JAL: u32 = 0b110_1111;

pub const JALR: u32 = 0b110_0111;

pub const BRANCH: u32 = 0b110_0011;

pub const LOAD: u32 = 0b000_0011;

pub const STORE: u32 = 0b010_0011;

pub const OP_IMM: u32 = 0b001_0011;

pub const OP: u32 = 0b011_0011;

pub const MISC_MEM: u32 = 0b000_1111;

pub const SYSTEM: u32 = 0b111_0011;

/// The word of ECALL, the only one that is it.
pub const ECALL_WORD: u32 = 0x0000_0073;

/// The word of EBREAK, the only one that is it.
pub const EBREAK_WORD: u32 = 0x0010_0073;

/// The word of FENCE with no operands written: all accesses before it come before all behind it.
pub const FENCE_WORD: u32 = 0x0FF0_000F;
