//! Words to instructions.
ghost use Rattle.std.specs.Prelude.{◌≡◌, ◌⊎◌, pos, option_map, IfSome};
ghost use Rattle.rv_model.specs.Words.{opcode_of, funct3_of, rd_of, rs1_of, rs2_of, i_immediate, s_immediate, b_immediate, instruction_of};
ghost use Rattle.rv_inst.specs.Valid.{IsValid};
ghost use Rattle.rv_model.specs.declared.inst.Inst.TheVariants.{Branch, Load, Store, OpImm, Op};

use crate::fields::{
    b_immediate, funct3, funct7, i_immediate, j_immediate, opcode, rd, rs1, rs2, s_immediate,
    u_immediate,
};
use rv_model::opcodes::{
    AUIPC, BRANCH, EBREAK_WORD, ECALL_WORD, JAL, JALR, LOAD, LUI, MISC_MEM, OP, OP_IMM, STORE,
    SYSTEM,
};
use rv_model::{BranchOp, ImmOp, Inst, LoadOp, RegOp, StoreOp};

/// The instruction that a word is, by the standard's table of RV32I (RISC-V unprivileged
/// specification, "RV32I Base Integer Instruction Set" and "RV32/64G Instruction Set Listings").
/// `None` comes exactly for a word that matches no row of the table, as each word of another
/// extension. What is decoded is valid. A fence is one whatever its other fields are, and ECALL and
/// EBREAK are one word each.
#[tactic(auto, unfolding(rv_model::specs::Words::instruction_of, rv_model::specs::Words::table))]
pub fn decode(word: u32) -> Option<Inst>
    ensures listed { result ≡ instruction_of word }
    ensures valid { IfSome result IsValid }
{
    match opcode(word) {
        LUI => Some(Inst::Lui {
            rd: rd(word),
            imm: u_immediate(word),
        }),
        AUIPC => Some(Inst::Auipc {
            rd: rd(word),
            imm: u_immediate(word),
        }),
        JAL => Some(Inst::Jal {
            rd: rd(word),
            offset: j_immediate(word),
        }),
        JALR => jalr(word),
        BRANCH => branch(word),
        LOAD => load(word),
        STORE => store(word),
        OP_IMM => op_imm(word),
        OP => op(word),
        MISC_MEM => fence(word),
        SYSTEM => system(word),
        _ => None,
    }
}

/// The instruction of a word of opcode `JALR`.
#[tactic(auto, unfolding(rv_model::specs::Words::instruction_of, rv_model::specs::Words::table))]
fn jalr(word: u32) -> Option<Inst>
    requires { opcode_of word ≡ JALR }
    ensures listed { result ≡ instruction_of word }
    ensures valid { IfSome result IsValid }
{
    match funct3(word) {
        0b000 => Some(Inst::Jalr {
            rd: rd(word),
            rs1: rs1(word),
            imm: i_immediate(word),
        }),
        _ => None,
    }
}

/// The instruction of a word of opcode `BRANCH`.
fn branch(word: u32) -> Option<Inst>
    requires { opcode_of word ≡ BRANCH }
    ensures listed { result ≡ instruction_of word }
    ensures valid { IfSome result IsValid }
{
    let (rs1, rs2, offset) = (rs1(word), rs2(word), b_immediate(word));
    let op = branch_op(word)?;
    Some(Inst::Branch {
        op,
        rs1,
        rs2,
        offset,
    })
}

/// The condition of a branch.
#[tactic(auto, unfolding(rv_model::specs::Words::instruction_of, rv_model::specs::Words::table))]
fn branch_op(word: u32) -> Option<BranchOp>
    requires { opcode_of word ≡ BRANCH }
    ensures { instruction_of word
        ≡ option_map (λ o. Branch o (rs1_of word) (rs2_of word) (b_immediate word)) result }
{
    match funct3(word) {
        0b000 => Some(BranchOp::Beq),
        0b001 => Some(BranchOp::Bne),
        0b100 => Some(BranchOp::Blt),
        0b101 => Some(BranchOp::Bge),
        0b110 => Some(BranchOp::Bltu),
        0b111 => Some(BranchOp::Bgeu),
        _ => None,
    }
}

/// The instruction of a word of opcode `LOAD`.
fn load(word: u32) -> Option<Inst>
    requires { opcode_of word ≡ LOAD }
    ensures listed { result ≡ instruction_of word }
    ensures valid { IfSome result IsValid }
{
    let (rd, rs1, imm) = (rd(word), rs1(word), i_immediate(word));
    let op = load_op(word)?;
    Some(Inst::Load { op, rd, rs1, imm })
}

/// What a load reads, and how it is extended.
#[tactic(auto, unfolding(rv_model::specs::Words::instruction_of, rv_model::specs::Words::table))]
fn load_op(word: u32) -> Option<LoadOp>
    requires { opcode_of word ≡ LOAD }
    ensures { instruction_of word
        ≡ option_map (λ o. Load o (rd_of word) (rs1_of word) (i_immediate word)) result }
{
    match funct3(word) {
        0b000 => Some(LoadOp::Lb),
        0b001 => Some(LoadOp::Lh),
        0b010 => Some(LoadOp::Lw),
        0b100 => Some(LoadOp::Lbu),
        0b101 => Some(LoadOp::Lhu),
        _ => None,
    }
}

/// The instruction of a word of opcode `STORE`.
fn store(word: u32) -> Option<Inst>
    requires { opcode_of word ≡ STORE }
    ensures listed { result ≡ instruction_of word }
    ensures valid { IfSome result IsValid }
{
    let (rs1, rs2, imm) = (rs1(word), rs2(word), s_immediate(word));
    let op = store_op(word)?;
    Some(Inst::Store { op, rs1, rs2, imm })
}

/// How much a store writes.
#[tactic(auto, unfolding(rv_model::specs::Words::instruction_of, rv_model::specs::Words::table))]
fn store_op(word: u32) -> Option<StoreOp>
    requires { opcode_of word ≡ STORE }
    ensures { instruction_of word
        ≡ option_map (λ o. Store o (rs1_of word) (rs2_of word) (s_immediate word)) result }
{
    match funct3(word) {
        0b000 => Some(StoreOp::Sb),
        0b001 => Some(StoreOp::Sh),
        0b010 => Some(StoreOp::Sw),
        _ => None,
    }
}

/// The instruction of a word of opcode `OP_IMM`. A shift is the minor opcodes 001 and 101.
#[tactic(auto, unfolding(rv_model::specs::Words::instruction_of, rv_model::specs::Words::table))]
fn op_imm(word: u32) -> Option<Inst>
    requires { opcode_of word ≡ OP_IMM }
    ensures listed { result ≡ instruction_of word }
    ensures valid { IfSome result IsValid }
{
    let (rd, rs1, imm) = (rd(word), rs1(word), i_immediate(word));
    let op = match funct3(word) {
        0b000 => ImmOp::Addi,
        0b010 => ImmOp::Slti,
        0b011 => ImmOp::Sltiu,
        0b100 => ImmOp::Xori,
        0b110 => ImmOp::Ori,
        0b111 => ImmOp::Andi,
        _ => return shift_imm(word),
    };
    Some(Inst::OpImm { op, rd, rs1, imm })
}

/// The instruction of a word of opcode `OP_IMM` that shifts by the number in the field of `rs2`.
fn shift_imm(word: u32) -> Option<Inst>
    requires opcode { opcode_of word ≡ OP_IMM }
    requires minor { (funct3_of word ≡ 0b001) ⊎ (funct3_of word ≡ 0b101) }
    ensures listed { result ≡ instruction_of word }
    ensures valid { IfSome result IsValid }
{
    Some(Inst::OpImm {
        op: shift_op(word)?,
        rd: rd(word),
        rs1: rs1(word),
        imm: i32::from(rs2(word)),
    })
}

/// The direction of a shift, and what is shifted in.
#[tactic(auto, unfolding(rv_model::specs::Words::instruction_of, rv_model::specs::Words::table))]
fn shift_op(word: u32) -> Option<ImmOp>
    requires opcode { opcode_of word ≡ OP_IMM }
    requires minor { (funct3_of word ≡ 0b001) ⊎ (funct3_of word ≡ 0b101) }
    ensures { instruction_of word
        ≡ option_map (λ o. OpImm o (rd_of word) (rs1_of word) (pos (rs2_of word))) result }
{
    match (funct3(word), funct7(word)) {
        (0b001, 0b000_0000) => Some(ImmOp::Slli),
        (0b101, 0b000_0000) => Some(ImmOp::Srli),
        (0b101, 0b010_0000) => Some(ImmOp::Srai),
        _ => None,
    }
}

/// The instruction of a word of opcode `OP`.
fn op(word: u32) -> Option<Inst>
    requires { opcode_of word ≡ OP }
    ensures listed { result ≡ instruction_of word }
    ensures valid { IfSome result IsValid }
{
    let (rd, rs1, rs2) = (rd(word), rs1(word), rs2(word));
    let op = reg_op(word)?;
    Some(Inst::Op { op, rd, rs1, rs2 })
}

/// The operation on two registers.
#[tactic(auto, unfolding(rv_model::specs::Words::instruction_of, rv_model::specs::Words::table))]
fn reg_op(word: u32) -> Option<RegOp>
    requires { opcode_of word ≡ OP }
    ensures { instruction_of word
        ≡ option_map (λ o. Op o (rd_of word) (rs1_of word) (rs2_of word)) result }
{
    match (funct7(word), funct3(word)) {
        (0b000_0000, 0b000) => Some(RegOp::Add),
        (0b000_0000, 0b001) => Some(RegOp::Sll),
        (0b000_0000, 0b010) => Some(RegOp::Slt),
        (0b000_0000, 0b011) => Some(RegOp::Sltu),
        (0b000_0000, 0b100) => Some(RegOp::Xor),
        (0b000_0000, 0b101) => Some(RegOp::Srl),
        (0b000_0000, 0b110) => Some(RegOp::Or),
        (0b000_0000, 0b111) => Some(RegOp::And),
        (0b010_0000, 0b000) => Some(RegOp::Sub),
        (0b010_0000, 0b101) => Some(RegOp::Sra),
        _ => None,
    }
}

/// The instruction of a word of opcode `MISC_MEM`.
#[tactic(auto, unfolding(rv_model::specs::Words::instruction_of, rv_model::specs::Words::table))]
fn fence(word: u32) -> Option<Inst>
    requires { opcode_of word ≡ MISC_MEM }
    ensures listed { result ≡ instruction_of word }
    ensures valid { IfSome result IsValid }
{
    match funct3(word) {
        0b000 => Some(Inst::Fence { word }),
        _ => None,
    }
}

/// The instruction of a word of opcode `SYSTEM`. Two words alone have one.
#[tactic(auto, unfolding(rv_model::specs::Words::instruction_of, rv_model::specs::Words::table))]
fn system(word: u32) -> Option<Inst>
    requires { opcode_of word ≡ SYSTEM }
    ensures listed { result ≡ instruction_of word }
    ensures valid { IfSome result IsValid }
{
    match word {
        ECALL_WORD => Some(Inst::Ecall),
        EBREAK_WORD => Some(Inst::Ebreak),
        _ => None,
    }
}
