//! The codes that tell which instruction a word is (RISC-V unprivileged specification, "Base
//! Instruction Formats").
ghost use Rattle.std.specs.Prelude.{◌<◌, ◌^◌};

/// An opcode: bits 6..0 of a word.
#[derive(Clone, Copy)]
pub struct Opcode {
    pub bits: u32,
    ghost within: { bits < 2 ^ 7 },
}

/// A minor opcode: bits 14..12 of a word.
#[derive(Clone, Copy)]
pub struct Funct3 {
    pub bits: u32,
    ghost within: { bits < 2 ^ 3 },
}

/// A second minor opcode: bits 31..25 of a word.
#[derive(Clone, Copy)]
pub struct Funct7 {
    pub bits: u32,
    ghost within: { bits < 2 ^ 7 },
}
