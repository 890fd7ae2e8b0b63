use crate::{decode, encode, is_valid};
use rv_model::{BranchOp, ImmOp, Inst, LoadOp, RegOp, StoreOp};

// The operands in the order of the fields of `Inst`.
macro_rules! jal {
    ($rd:expr, $offset:expr) => {
        Inst::Jal {
            rd: $rd,
            offset: $offset,
        }
    };
}

macro_rules! jalr {
    ($rd:expr, $rs1:expr, $imm:expr) => {
        Inst::Jalr {
            rd: $rd,
            rs1: $rs1,
            imm: $imm,
        }
    };
}

macro_rules! branch {
    ($op:ident, $rs1:expr, $rs2:expr, $offset:expr) => {
        Inst::Branch {
            op: BranchOp::$op,
            rs1: $rs1,
            rs2: $rs2,
            offset: $offset,
        }
    };
}

macro_rules! load {
    ($op:ident, $rd:expr, $rs1:expr, $imm:expr) => {
        Inst::Load {
            op: LoadOp::$op,
            rd: $rd,
            rs1: $rs1,
            imm: $imm,
        }
    };
}

macro_rules! store {
    ($op:ident, $rs1:expr, $rs2:expr, $imm:expr) => {
        Inst::Store {
            op: StoreOp::$op,
            rs1: $rs1,
            rs2: $rs2,
            imm: $imm,
        }
    };
}

macro_rules! op_imm {
    ($op:ident, $rd:expr, $rs1:expr, $imm:expr) => {
        Inst::OpImm {
            op: ImmOp::$op,
            rd: $rd,
            rs1: $rs1,
            imm: $imm,
        }
    };
}

macro_rules! op {
    ($op:ident, $rd:expr, $rs1:expr, $rs2:expr) => {
        Inst::Op {
            op: RegOp::$op,
            rd: $rd,
            rs1: $rs1,
            rs2: $rs2,
        }
    };
}

/// Each instruction of RV32I, with the ends of its immediate: the words follow from the standard's
/// pictures of the formats and its listings of opcodes.
const ROWS: [(u32, Inst); 53] = [
    (0x0000_0037, Inst::Lui { rd: 0, imm: 0 }),
    (
        0xFFFF_F0B7,
        Inst::Lui {
            rd: 1,
            imm: 0xFFFF_F000,
        },
    ),
    (
        0x8000_0F97,
        Inst::Auipc {
            rd: 31,
            imm: 0x8000_0000,
        },
    ),
    (0x0000_0017, Inst::Auipc { rd: 0, imm: 0 }),
    (0x8000_006F, jal!(0, -1_048_576)),
    (0x7FFF_F0EF, jal!(1, 1_048_574)),
    (0xFFFF_F06F, jal!(0, -2)),
    (0x0010_006F, jal!(0, 2048)),
    (0x0000_106F, jal!(0, 4096)),
    (0x0000_8067, jalr!(0, 1, 0)),
    (0x8002_80E7, jalr!(1, 5, -2048)),
    (0x7FF2_80E7, jalr!(1, 5, 2047)),
    (0x8000_0063, branch!(Beq, 0, 0, -4096)),
    (0x7E20_9FE3, branch!(Bne, 1, 2, 4094)),
    (0xFFEF_CFE3, branch!(Blt, 31, 30, -2)),
    (0x0062_D0E3, branch!(Bge, 5, 6, 2048)),
    (0x0220_E063, branch!(Bltu, 1, 2, 32)),
    (0x0020_F163, branch!(Bgeu, 1, 2, 2)),
    (0x7FFF_8F83, load!(Lb, 31, 31, 2047)),
    (0x8001_1083, load!(Lh, 1, 2, -2048)),
    (0xFFF1_2503, load!(Lw, 10, 2, -1)),
    (0x0003_4283, load!(Lbu, 5, 6, 0)),
    (0x0013_5283, load!(Lhu, 5, 6, 1)),
    (0x7FFF_8FA3, store!(Sb, 31, 31, 2047)),
    (0x8011_1023, store!(Sh, 2, 1, -2048)),
    (0xFE11_2FA3, store!(Sw, 2, 1, -1)),
    (0x02A0_0513, op_imm!(Addi, 10, 0, 42)),
    (0x8000_8093, op_imm!(Addi, 1, 1, -2048)),
    (0x7FF1_2093, op_imm!(Slti, 1, 2, 2047)),
    (0xFFF1_3093, op_imm!(Sltiu, 1, 2, -1)),
    (0xFFF1_4093, op_imm!(Xori, 1, 2, -1)),
    (0x0011_6093, op_imm!(Ori, 1, 2, 1)),
    (0x0FF1_7093, op_imm!(Andi, 1, 2, 255)),
    (0x0001_1093, op_imm!(Slli, 1, 2, 0)),
    (0x01F1_1093, op_imm!(Slli, 1, 2, 31)),
    (0x01F1_5093, op_imm!(Srli, 1, 2, 31)),
    (0x41F5_5513, op_imm!(Srai, 10, 10, 31)),
    (0x4001_5093, op_imm!(Srai, 1, 2, 0)),
    (0x0031_00B3, op!(Add, 1, 2, 3)),
    (0x4031_00B3, op!(Sub, 1, 2, 3)),
    (0x0031_10B3, op!(Sll, 1, 2, 3)),
    (0x0031_20B3, op!(Slt, 1, 2, 3)),
    (0x0031_30B3, op!(Sltu, 1, 2, 3)),
    (0x0031_40B3, op!(Xor, 1, 2, 3)),
    (0x0031_50B3, op!(Srl, 1, 2, 3)),
    (0x4031_50B3, op!(Sra, 1, 2, 3)),
    (0x0031_60B3, op!(Or, 1, 2, 3)),
    (0x01FF_FFB3, op!(And, 31, 31, 31)),
    (0x0FF0_000F, Inst::Fence { word: 0x0FF0_000F }),
    (0x8330_000F, Inst::Fence { word: 0x8330_000F }),
    (0xFFFF_8F8F, Inst::Fence { word: 0xFFFF_8F8F }),
    (0x0000_0073, Inst::Ecall),
    (0x0010_0073, Inst::Ebreak),
];

/// Words that are none of RV32I.
const NONE: [u32; 17] = [
    0x4000_7033,
    0x0000_100F,
    0x0205_1513,
    0x0000_0000,
    0xFFFF_FFFF,
    0x0000_0001,
    0x0000_9067,
    0x0000_2063,
    0x0000_3003,
    0x0000_3023,
    0x0200_0033,
    0x4000_1033,
    0x4000_1013,
    0x0000_00F3,
    0x0020_0073,
    0x3020_0073,
    0x0010_1073,
];

/// Instructions that no word can hold, each just past the end of a range.
const INVALID: [Inst; 16] = [
    Inst::Lui { rd: 32, imm: 0 },
    Inst::Auipc {
        rd: 0,
        imm: 0x7FFF_FFFF,
    },
    jal!(0, 1_048_576),
    jal!(0, -1_048_578),
    jal!(0, 3),
    jalr!(0, 32, 0),
    branch!(Beq, 0, 0, 4096),
    branch!(Beq, 0, 0, -4098),
    branch!(Beq, 0, 0, -1),
    load!(Lw, 0, 0, 2048),
    store!(Sw, 0, 0, -2049),
    op_imm!(Addi, 0, 0, 2048),
    op_imm!(Srai, 0, 0, 32),
    op_imm!(Slli, 0, 0, -1),
    op!(Add, 0, 0, 32),
    Inst::Fence { word: 0x0000_100F },
];

#[test]
fn words_of_none(rt: HostRuntime) {
    for word in &NONE {
        assert_eq!(rt; decode(*word), None, "at {word}");
    }
}

#[test]
fn words_of_instructions(rt: HostRuntime) {
    for (word, inst) in &ROWS {
        assert_eq!(rt; decode(*word), Some(*inst), "at {word}");
        assert!(rt; is_valid(inst), "at {word}");
        assert_eq!(rt; encode(inst), *word, "at {word}");
    }
}

#[test]
fn instructions_without_a_word(rt: HostRuntime) {
    for inst in &INVALID {
        assert!(rt; !is_valid(inst), "at {inst:?}");
    }
}
