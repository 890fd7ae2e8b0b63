/// The first address of private memory, at which each image begins.
pub const PRIVATE_START: u32 = 0x0001_0000;

/// How many bytes the private memory of a process has.
pub const PRIVATE_SIZE: u32 = 131_072;

/// The first address behind private memory. The stack pointer of a process starts with it.
pub const PRIVATE_END: u32 = 0x0003_0000;

/// How many bytes an image may take up: private memory without its last 8,192 bytes, which are left
/// to the stack.
pub const IMAGE_ROOM: u32 = 122_880;

const _: () = prove!(PRIVATE_START + PRIVATE_SIZE == PRIVATE_END);

const _: () = prove!(IMAGE_ROOM + 8_192 == PRIVATE_SIZE);

/// How many bytes a word has, and so an instruction.
pub const WORD_SIZE: u32 = 4;

/// What the U format counts in: its number stands in bits 31..12 of a word.
pub const UPPER_UNIT: u32 = 1 << 12;

/// How many registers there are.
pub const REGISTER_COUNT: usize = 32;

/// The register of the stack pointer (RISC-V ABIs Specification, "Integer Register Convention").
pub const SP: u8 = 2;

/// The register of a call's first argument and of its answer; those of further arguments follow
/// (RISC-V ABIs Specification, "Integer Register Convention").
pub const A0: u8 = 10;

/// A jump goes less than so many bytes forward, and at most so many backward.
pub const JUMP_REACH: u32 = 1 << 20;

/// The same of a branch.
pub const BRANCH_REACH: u32 = 1 << 12;

/// The least number that the I and S formats hold.
pub const LEAST_IMMEDIATE: i32 = -(1 << 11);

/// The greatest number that the I and S formats hold.
pub const GREATEST_IMMEDIATE: i32 = (1 << 11) - 1;

/// The greatest number of bits that a word is shifted by.
pub const GREATEST_SHIFT: i32 = 31;

/// The greatest number that the U format holds in bits 31..12.
pub const GREATEST_UPPER: i32 = (1 << 20) - 1;
