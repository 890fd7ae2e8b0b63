//! Instructions to words.
ghost use Rattle.std.specs.Prelude.{◌≡◌, ◌<◌, ◌^◌, ℕ, pos};
ghost use Rattle.rv_model.specs.Words.{opcode_of, funct3_of, funct7_of, rd_of, rs1_of, rs2_of, i_immediate, s_immediate, b_immediate, instruction_of};
ghost use Rattle.rv_inst.specs.Valid.{IsTwelveBits, IsShiftAmount, IsImmediateOf, IsValid};
ghost use Rattle.rv_model.specs.declared.inst.Inst.TheVariants.{Jalr, Branch, Load, Store, OpImm, Op};

use crate::codes::{Funct3, Funct7, Opcode};
use crate::layout::{b_word, i_word, j_word, r_word, s_word, u_word};
use rv_model::opcodes::{
    AUIPC, BRANCH, EBREAK_WORD, ECALL_WORD, JAL, JALR, LOAD, LUI, OP, OP_IMM, STORE,
};
use rv_model::{BranchOp, ImmOp, Inst, LoadOp, RegOp, Register, StoreOp};

/// The word of a valid instruction: the only one that is decoded to the instruction (RISC-V
/// unprivileged specification, "Base Instruction Formats" and "RV32/64G Instruction Set Listings").
#[tactic(auto, using(crate::proofs::Joined::only))]
pub fn encode(inst: &Inst) -> u32
    requires { IsValid inst.now }
    ensures decoded { instruction_of result ≡ Some inst.now }
    ensures only { (word : ℕ) → word < 2 ^ 32 → instruction_of word ≡ Some inst.now
        → word ≡ result }
{
    word_of(*inst)
}

/// The word that has the fields of a valid instruction.
#[tactic(auto, using(crate::proofs::Decoded::forms))]
fn word_of(inst: Inst) -> u32
    requires { IsValid inst }
    ensures { instruction_of result ≡ Some inst }
{
    match inst {
        Inst::Lui { rd, imm } => u_word(Opcode { bits: LUI }, Register { number: rd }, imm),
        Inst::Auipc { rd, imm } => u_word(Opcode { bits: AUIPC }, Register { number: rd }, imm),
        Inst::Jal { rd, offset } => j_word(Opcode { bits: JAL }, Register { number: rd }, offset),
        Inst::Jalr { rd, rs1, imm } => jalr(Register { number: rd }, Register { number: rs1 }, imm),
        Inst::Branch {
            op,
            rs1,
            rs2,
            offset,
        } => {
            let (rs1, rs2) = (Register { number: rs1 }, Register { number: rs2 });
            b_word(Opcode { bits: BRANCH }, branch_funct3(op), rs1, rs2, offset)
        }
        Inst::Load { op, rd, rs1, imm } => {
            let (rd, rs1) = (Register { number: rd }, Register { number: rs1 });
            i_word(Opcode { bits: LOAD }, load_funct3(op), rd, rs1, imm)
        }
        Inst::Store { op, rs1, rs2, imm } => {
            let (rs1, rs2) = (Register { number: rs1 }, Register { number: rs2 });
            s_word(Opcode { bits: STORE }, store_funct3(op), rs1, rs2, imm)
        }
        Inst::OpImm { op, rd, rs1, imm } => {
            op_imm(op, Register { number: rd }, Register { number: rs1 }, imm)
        }
        Inst::Op { op, rd, rs1, rs2 } => {
            let (rs1, rs2) = (Register { number: rs1 }, Register { number: rs2 });
            op_registers(op, Register { number: rd }, rs1, rs2)
        }
        Inst::Fence { word } => word,
        Inst::Ecall => ECALL_WORD,
        Inst::Ebreak => EBREAK_WORD,
    }
}

/// The word of a jump to a register's value.
#[tactic(auto, using(crate::proofs::Decoded::forms))]
fn jalr(rd: Register, rs1: Register, imm: i32) -> u32
    requires { IsTwelveBits imm }
    ensures { instruction_of result ≡ Some (Jalr rd.number rs1.number imm) }
{
    i_word(Opcode { bits: JALR }, Funct3 { bits: 0b000 }, rd, rs1, imm)
}

/// The minor opcode of a branch.
#[tactic(auto, unfolding(rv_model::specs::Words::instruction_of, rv_model::specs::Words::table))]
fn branch_funct3(op: BranchOp) -> Funct3
    ensures { (word : ℕ) → opcode_of word ≡ BRANCH → funct3_of word ≡ result.bits
        → instruction_of word ≡ Some (Branch op (rs1_of word) (rs2_of word) (b_immediate word)) }
{
    match op {
        BranchOp::Beq => Funct3 { bits: 0b000 },
        BranchOp::Bne => Funct3 { bits: 0b001 },
        BranchOp::Blt => Funct3 { bits: 0b100 },
        BranchOp::Bge => Funct3 { bits: 0b101 },
        BranchOp::Bltu => Funct3 { bits: 0b110 },
        BranchOp::Bgeu => Funct3 { bits: 0b111 },
    }
}

/// The minor opcode of a load.
#[tactic(auto, unfolding(rv_model::specs::Words::instruction_of, rv_model::specs::Words::table))]
fn load_funct3(op: LoadOp) -> Funct3
    ensures { (word : ℕ) → opcode_of word ≡ LOAD → funct3_of word ≡ result.bits
        → instruction_of word ≡ Some (Load op (rd_of word) (rs1_of word) (i_immediate word)) }
{
    match op {
        LoadOp::Lb => Funct3 { bits: 0b000 },
        LoadOp::Lh => Funct3 { bits: 0b001 },
        LoadOp::Lw => Funct3 { bits: 0b010 },
        LoadOp::Lbu => Funct3 { bits: 0b100 },
        LoadOp::Lhu => Funct3 { bits: 0b101 },
    }
}

/// The minor opcode of a store.
#[tactic(auto, unfolding(rv_model::specs::Words::instruction_of, rv_model::specs::Words::table))]
fn store_funct3(op: StoreOp) -> Funct3
    ensures { (word : ℕ) → opcode_of word ≡ STORE → funct3_of word ≡ result.bits
        → instruction_of word ≡ Some (Store op (rs1_of word) (rs2_of word) (s_immediate word)) }
{
    match op {
        StoreOp::Sb => Funct3 { bits: 0b000 },
        StoreOp::Sh => Funct3 { bits: 0b001 },
        StoreOp::Sw => Funct3 { bits: 0b010 },
    }
}

/// The word of an operation on a register and an immediate.
#[tactic(auto, unfolding(rv_model::specs::Words::instruction_of, rv_model::specs::Words::table))]
fn op_imm(op: ImmOp, rd: Register, rs1: Register, imm: i32) -> u32
    requires { IsImmediateOf op imm }
    ensures { instruction_of result ≡ Some (OpImm op rd.number rs1.number imm) }
{
    let opcode = Opcode { bits: OP_IMM };
    let logical_code = Funct7 { bits: 0b000_0000 };
    let arithmetic_code = Funct7 { bits: 0b010_0000 };
    match op {
        ImmOp::Addi => i_word(opcode, Funct3 { bits: 0b000 }, rd, rs1, imm),
        ImmOp::Slti => i_word(opcode, Funct3 { bits: 0b010 }, rd, rs1, imm),
        ImmOp::Sltiu => i_word(opcode, Funct3 { bits: 0b011 }, rd, rs1, imm),
        ImmOp::Xori => i_word(opcode, Funct3 { bits: 0b100 }, rd, rs1, imm),
        ImmOp::Ori => i_word(opcode, Funct3 { bits: 0b110 }, rd, rs1, imm),
        ImmOp::Andi => i_word(opcode, Funct3 { bits: 0b111 }, rd, rs1, imm),
        ImmOp::Slli => shift_word(Funct3 { bits: 0b001 }, logical_code, rd, rs1, imm),
        ImmOp::Srli => shift_word(Funct3 { bits: 0b101 }, logical_code, rd, rs1, imm),
        ImmOp::Srai => shift_word(Funct3 { bits: 0b101 }, arithmetic_code, rd, rs1, imm),
    }
}

/// The word of a shift by an immediate.
fn shift_word(funct3: Funct3, funct7: Funct7, rd: Register, rs1: Register, amount: i32) -> u32
    requires { IsShiftAmount amount }
    ensures opcode { opcode_of result ≡ OP_IMM }
    ensures minor { funct3_of result ≡ funct3.bits }
    ensures second { funct7_of result ≡ funct7.bits }
    ensures target { rd_of result ≡ rd.number }
    ensures source { rs1_of result ≡ rs1.number }
    ensures amount { pos (rs2_of result) ≡ amount }
{
    // The amount stands in the field of `rs2`.
    let rs2 = Register {
        number: amount as u8,
    };
    r_word(Opcode { bits: OP_IMM }, funct3, funct7, rd, rs1, rs2)
}

/// The word of an operation on two registers.
fn op_registers(op: RegOp, rd: Register, rs1: Register, rs2: Register) -> u32
    ensures { instruction_of result ≡ Some (Op op rd.number rs1.number rs2.number) }
{
    let (funct3, funct7) = op_functs(op);
    r_word(Opcode { bits: OP }, funct3, funct7, rd, rs1, rs2)
}

/// The two minor opcodes of an operation on two registers.
#[tactic(auto, unfolding(rv_model::specs::Words::instruction_of, rv_model::specs::Words::table))]
fn op_functs(op: RegOp) -> (Funct3, Funct7)
    ensures { (word : ℕ) → opcode_of word ≡ OP → funct3_of word ≡ result.0.bits
        → funct7_of word ≡ result.1.bits
        → instruction_of word ≡ Some (Op op (rd_of word) (rs1_of word) (rs2_of word)) }
{
    match op {
        RegOp::Add => (Funct3 { bits: 0b000 }, Funct7 { bits: 0b000_0000 }),
        RegOp::Sll => (Funct3 { bits: 0b001 }, Funct7 { bits: 0b000_0000 }),
        RegOp::Slt => (Funct3 { bits: 0b010 }, Funct7 { bits: 0b000_0000 }),
        RegOp::Sltu => (Funct3 { bits: 0b011 }, Funct7 { bits: 0b000_0000 }),
        RegOp::Xor => (Funct3 { bits: 0b100 }, Funct7 { bits: 0b000_0000 }),
        RegOp::Srl => (Funct3 { bits: 0b101 }, Funct7 { bits: 0b000_0000 }),
        RegOp::Or => (Funct3 { bits: 0b110 }, Funct7 { bits: 0b000_0000 }),
        RegOp::And => (Funct3 { bits: 0b111 }, Funct7 { bits: 0b000_0000 }),
        RegOp::Sub => (Funct3 { bits: 0b000 }, Funct7 { bits: 0b010_0000 }),
        RegOp::Sra => (Funct3 { bits: 0b101 }, Funct7 { bits: 0b010_0000 }),
    }
}
