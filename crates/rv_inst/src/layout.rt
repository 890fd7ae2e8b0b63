//! Words from their fields (RISC-V unprivileged specification, "Base Instruction Formats" and
//! "Immediate Encoding Variants").
ghost use Rattle.std.specs.Prelude.{◌≡◌};
ghost use Rattle.rv_model.specs.Words.{opcode_of, funct3_of, funct7_of, rd_of, rs1_of, rs2_of, i_immediate, s_immediate, b_immediate, u_immediate, j_immediate};
ghost use Rattle.rv_inst.specs.Valid.{IsUpper, IsTwelveBits, IsBranchOffset, IsJumpOffset};

use crate::codes::{Funct3, Funct7, Opcode};
use crate::fields::bits;
use rv_model::Register;

/// The word of the R format with these fields.
pub fn r_word(
    opcode: Opcode,
    funct3: Funct3,
    funct7: Funct7,
    rd: Register,
    rs1: Register,
    rs2: Register,
) -> u32
    ensures opcode { opcode_of result ≡ opcode.bits }
    ensures minor { funct3_of result ≡ funct3.bits }
    ensures second { funct7_of result ≡ funct7.bits }
    ensures target { rd_of result ≡ rd.number }
    ensures first { rs1_of result ≡ rs1.number }
    ensures other { rs2_of result ≡ rs2.number }
{
    (funct7.bits << 25)
        + (u32::from(rs2.number) << 20)
        + (u32::from(rs1.number) << 15)
        + (funct3.bits << 12)
        + (u32::from(rd.number) << 7)
        + opcode.bits
}

/// The word of the I format with these fields.
pub fn i_word(opcode: Opcode, funct3: Funct3, rd: Register, rs1: Register, imm: i32) -> u32
    requires { IsTwelveBits imm }
    ensures opcode { opcode_of result ≡ opcode.bits }
    ensures minor { funct3_of result ≡ funct3.bits }
    ensures target { rd_of result ≡ rd.number }
    ensures source { rs1_of result ≡ rs1.number }
    ensures imm { i_immediate result ≡ imm }
{
    (bits(imm.cast_unsigned(), 0, 12) << 20)
        + (u32::from(rs1.number) << 15)
        + (funct3.bits << 12)
        + (u32::from(rd.number) << 7)
        + opcode.bits
}

/// The word of the S format with these fields.
pub fn s_word(opcode: Opcode, funct3: Funct3, rs1: Register, rs2: Register, imm: i32) -> u32
    requires { IsTwelveBits imm }
    ensures opcode { opcode_of result ≡ opcode.bits }
    ensures minor { funct3_of result ≡ funct3.bits }
    ensures first { rs1_of result ≡ rs1.number }
    ensures other { rs2_of result ≡ rs2.number }
    ensures imm { s_immediate result ≡ imm }
{
    let imm = imm.cast_unsigned();
    (bits(imm, 5, 7) << 25)
        + (u32::from(rs2.number) << 20)
        + (u32::from(rs1.number) << 15)
        + (funct3.bits << 12)
        + (bits(imm, 0, 5) << 7)
        + opcode.bits
}

/// The word of the B format with these fields.
pub fn b_word(opcode: Opcode, funct3: Funct3, rs1: Register, rs2: Register, offset: i32) -> u32
    requires { IsBranchOffset offset }
    ensures opcode { opcode_of result ≡ opcode.bits }
    ensures minor { funct3_of result ≡ funct3.bits }
    ensures first { rs1_of result ≡ rs1.number }
    ensures other { rs2_of result ≡ rs2.number }
    ensures offset { b_immediate result ≡ offset }
{
    let offset = offset.cast_unsigned();
    (bits(offset, 12, 1) << 31)
        + (bits(offset, 5, 6) << 25)
        + (u32::from(rs2.number) << 20)
        + (u32::from(rs1.number) << 15)
        + (funct3.bits << 12)
        + (bits(offset, 1, 4) << 8)
        + (bits(offset, 11, 1) << 7)
        + opcode.bits
}

/// The word of the U format with these fields.
pub fn u_word(opcode: Opcode, rd: Register, imm: u32) -> u32
    requires { IsUpper imm }
    ensures opcode { opcode_of result ≡ opcode.bits }
    ensures target { rd_of result ≡ rd.number }
    ensures imm { u_immediate result ≡ imm }
{
    imm + (u32::from(rd.number) << 7) + opcode.bits
}

/// The word of the J format with these fields.
pub fn j_word(opcode: Opcode, rd: Register, offset: i32) -> u32
    requires { IsJumpOffset offset }
    ensures opcode { opcode_of result ≡ opcode.bits }
    ensures target { rd_of result ≡ rd.number }
    ensures offset { j_immediate result ≡ offset }
{
    let offset = offset.cast_unsigned();
    (bits(offset, 20, 1) << 31)
        + (bits(offset, 1, 10) << 21)
        + (bits(offset, 11, 1) << 20)
        + (bits(offset, 12, 8) << 12)
        + (u32::from(rd.number) << 7)
        + opcode.bits
}
