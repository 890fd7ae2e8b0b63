//! Which instructions a word can hold.
ghost use Rattle.std.specs.Prelude.{◌≡◌, ◌<◌, ◌≤◌, ◌↔◌, IsTrue};
ghost use Rattle.rv_inst.specs.Valid.{IsRegister, IsUpper, IsTwelveBits, IsOffsetWithin, IsBranchOffset, IsJumpOffset, IsImmediateOf, IsValid};

use crate::fields::{funct3, opcode};
use rv_model::opcodes::MISC_MEM;
use rv_model::{
    BRANCH_REACH, GREATEST_IMMEDIATE, GREATEST_SHIFT, ImmOp, Inst, JUMP_REACH, LEAST_IMMEDIATE,
    REGISTER_COUNT, UPPER_UNIT,
};

/// Whether a word can hold the instruction: registers are below `REGISTER_COUNT`, the immediates of
/// `Lui` and `Auipc` are multiples of `UPPER_UNIT`, the offset of a jump is even and from
/// -`JUMP_REACH` to less than `JUMP_REACH`, that of a branch the same with `BRANCH_REACH`, any other
/// immediate is from `LEAST_IMMEDIATE` to `GREATEST_IMMEDIATE`, but from 0 to `GREATEST_SHIFT` in a
/// shift, and a fence has the opcode and the minor opcode of one (RISC-V unprivileged specification,
/// "Immediate Encoding Variants").
pub fn is_valid(inst: &Inst) -> bool
    ensures { IsTrue result ↔ IsValid inst.now }
{
    match *inst {
        Inst::Lui { rd, imm } | Inst::Auipc { rd, imm } => is_register(rd) && is_upper(imm),
        Inst::Jal { rd, offset } => is_register(rd) && is_jump_offset(offset),
        Inst::Branch {
            rs1,
            rs2,
            offset,
            ..
        } => { is_register(rs1) && is_register(rs2) && is_branch_offset(offset) }
        Inst::Jalr { rd, rs1, imm } => {
            is_register(rd) && is_register(rs1) && is_twelve_bits(imm)
        }
        Inst::Load { rd, rs1, imm, .. } => {
            is_register(rd) && is_register(rs1) && is_twelve_bits(imm)
        }
        Inst::Store { rs1, rs2, imm, .. } => {
            is_register(rs1) && is_register(rs2) && is_twelve_bits(imm)
        }
        Inst::OpImm { op, rd, rs1, imm } => {
            is_register(rd) && is_register(rs1) && is_immediate_of(op, imm)
        }
        Inst::Op { rd, rs1, rs2, .. } => is_register(rd) && is_register(rs1) && is_register(rs2),
        Inst::Fence { word } => opcode(word) == MISC_MEM && funct3(word) == 0b000,
        Inst::Ecall | Inst::Ebreak => true,
    }
}

/// Whether this is one of the registers.
fn is_register(register: u8) -> bool
    ensures { IsTrue result ↔ IsRegister register }
{
    usize::from(register) < REGISTER_COUNT
}

/// Whether the U format can hold the immediate.
fn is_upper(imm: u32) -> bool
    ensures { IsTrue result ↔ IsUpper imm }
{
    imm % UPPER_UNIT == 0
}

/// Whether the I and S formats can hold the immediate.
fn is_twelve_bits(imm: i32) -> bool
    ensures { IsTrue result ↔ IsTwelveBits imm }
{
    (LEAST_IMMEDIATE..=GREATEST_IMMEDIATE).contains(&imm)
}

/// Whether an offset is even, and from -reach to reach - 1.
fn is_offset_within(reach: u32, offset: i32) -> bool
    requires { reach ≤ JUMP_REACH }
    ensures { IsTrue result ↔ IsOffsetWithin reach offset }
{
    let reach = reach as i32;
    (-reach..reach).contains(&offset) && offset % 2 == 0
}

/// Whether the B format can hold the offset.
fn is_branch_offset(offset: i32) -> bool
    ensures { IsTrue result ↔ IsBranchOffset offset }
{
    is_offset_within(BRANCH_REACH, offset)
}

/// Whether the J format can hold the offset.
fn is_jump_offset(offset: i32) -> bool
    ensures { IsTrue result ↔ IsJumpOffset offset }
{
    is_offset_within(JUMP_REACH, offset)
}

/// Whether the operation can have the immediate: a shift amount where it shifts.
fn is_immediate_of(op: ImmOp, imm: i32) -> bool
    ensures { IsTrue result ↔ IsImmediateOf op imm }
{
    match op {
        ImmOp::Slli | ImmOp::Srli | ImmOp::Srai => (0..=GREATEST_SHIFT).contains(&imm),
        ImmOp::Addi | ImmOp::Slti | ImmOp::Sltiu | ImmOp::Xori | ImmOp::Ori | ImmOp::Andi =>
            is_twelve_bits(imm),
    }
}
