/// An instruction of RV32I, with its operands (RISC-V unprivileged specification, "RV32I Base
/// Integer Instruction Set"). Registers are 0 to 31. Immediates are the values that the processor
/// adds or compares, so signed where the standard extends the sign; the ranges of each are those
/// that the formats can encode.
#[derive(Clone, Copy, Debug, PartialEq, Eq)]
pub enum Inst {
    /// `imm` is a multiple of `UPPER_UNIT`.
    Lui {
        rd: u8,
        imm: u32,
    },
    /// `imm` is a multiple of `UPPER_UNIT`.
    Auipc {
        rd: u8,
        imm: u32,
    },
    /// `offset` is even, from -`JUMP_REACH` to `JUMP_REACH` - 2.
    Jal {
        rd: u8,
        offset: i32,
    },
    /// `imm` is from `LEAST_IMMEDIATE` to `GREATEST_IMMEDIATE`.
    Jalr {
        rd: u8,
        rs1: u8,
        imm: i32,
    },
    /// `offset` is even, from -`BRANCH_REACH` to `BRANCH_REACH` - 2.
    Branch {
        op: BranchOp,
        rs1: u8,
        rs2: u8,
        offset: i32,
    },
    /// `imm` is from `LEAST_IMMEDIATE` to `GREATEST_IMMEDIATE`.
    Load {
        op: LoadOp,
        rd: u8,
        rs1: u8,
        imm: i32,
    },
    /// `imm` is from `LEAST_IMMEDIATE` to `GREATEST_IMMEDIATE`.
    Store {
        op: StoreOp,
        rs1: u8,
        rs2: u8,
        imm: i32,
    },
    /// `imm` is from `LEAST_IMMEDIATE` to `GREATEST_IMMEDIATE`, and for the three shifts from 0 to
    /// `GREATEST_SHIFT`.
    OpImm {
        op: ImmOp,
        rd: u8,
        rs1: u8,
        imm: i32,
    },
    /// Two registers to one.
    Op {
        op: RegOp,
        rd: u8,
        rs1: u8,
        rs2: u8,
    },
    /// A memory fence, as its whole word. It does nothing here, whatever its fields ask for.
    Fence {
        word: u32,
    },
    /// A call of the kernel.
    Ecall,
    /// A call of a debugger.
    Ebreak,
}

/// The conditional branches.
#[derive(Clone, Copy, Debug, PartialEq, Eq)]
pub enum BranchOp {
    Beq,
    Bne,
    Blt,
    Bge,
    Bltu,
    Bgeu,
}

/// The loads.
#[derive(Clone, Copy, Debug, PartialEq, Eq)]
pub enum LoadOp {
    Lb,
    Lh,
    Lw,
    Lbu,
    Lhu,
}

/// The stores.
#[derive(Clone, Copy, Debug, PartialEq, Eq)]
pub enum StoreOp {
    Sb,
    Sh,
    Sw,
}

/// The operations on a register and an immediate.
#[derive(Clone, Copy, Debug, PartialEq, Eq)]
pub enum ImmOp {
    Addi,
    Slti,
    Sltiu,
    Xori,
    Ori,
    Andi,
    Slli,
    Srli,
    Srai,
}

/// The operations on two registers.
#[derive(Clone, Copy, Debug, PartialEq, Eq)]
pub enum RegOp {
    Add,
    Sll,
    Slt,
    Sltu,
    Xor,
    Srl,
    Or,
    And,
    Sub,
    Sra,
}
