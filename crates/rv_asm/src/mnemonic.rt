//! Mnemonics and directives.

ghost use Rattle.std.specs.Prelude.{◌≡◌, IfSome};
ghost use Rattle.rv_asm.specs.Sound.{IsSoundMnemonic};
ghost use Rattle.rv_asm.specs.Words.{mnemonic_of};

use ce_text::look_up;
use rv_model::opcodes::FENCE_WORD;
use rv_model::{BranchOp, ImmOp, Inst, LoadOp, RegOp, StoreOp};

/// What a mnemonic or a directive asks for. `.equ`, which lays nothing, is not among them.
#[derive(Clone, Copy, Debug)]
pub enum Mnemonic {
    /// `lui rd, n`
    Lui,
    /// `auipc rd, n`
    Auipc,
    /// `jal rd, label`
    Jal,
    /// `jalr rd, n(rs1)`
    Jalr,
    /// `beq rs1, rs2, label` and the other branches
    Branch(BranchOp),
    /// `lw rd, n(rs1)` and the other loads
    Load(LoadOp),
    /// `sw rs2, n(rs1)` and the other stores
    Store(StoreOp),
    /// `addi rd, rs1, n` and the other operations on a register and a number
    OpImm(ImmOp),
    /// `add rd, rs1, rs2` and the other operations on two registers
    Op(RegOp),
    /// One instruction that takes no operands
    Plain(Inst),
    /// `li rd, n`
    Li,
    /// `la rd, label`
    La,
    /// `mv rd, rs`
    Mv,
    /// `j label` and `call label`: a jump that leaves the return address in this register
    Jump { rd: u8 },
    /// `.word a, b, ..`
    Word,
    /// `.byte a, b, ..`
    Byte,
    /// `.zero n`
    Zero,
}

const MNEMONICS: [(&str, Mnemonic); 50] = [
    ("lui", Mnemonic::Lui),
    ("auipc", Mnemonic::Auipc),
    ("jal", Mnemonic::Jal),
    ("jalr", Mnemonic::Jalr),
    ("beq", Mnemonic::Branch(BranchOp::Beq)),
    ("bne", Mnemonic::Branch(BranchOp::Bne)),
    ("blt", Mnemonic::Branch(BranchOp::Blt)),
    ("bge", Mnemonic::Branch(BranchOp::Bge)),
    ("bltu", Mnemonic::Branch(BranchOp::Bltu)),
    ("bgeu", Mnemonic::Branch(BranchOp::Bgeu)),
    ("lb", Mnemonic::Load(LoadOp::Lb)),
    ("lh", Mnemonic::Load(LoadOp::Lh)),
    ("lw", Mnemonic::Load(LoadOp::Lw)),
    ("lbu", Mnemonic::Load(LoadOp::Lbu)),
    ("lhu", Mnemonic::Load(LoadOp::Lhu)),
    ("sb", Mnemonic::Store(StoreOp::Sb)),
    ("sh", Mnemonic::Store(StoreOp::Sh)),
    ("sw", Mnemonic::Store(StoreOp::Sw)),
    ("addi", Mnemonic::OpImm(ImmOp::Addi)),
    ("slti", Mnemonic::OpImm(ImmOp::Slti)),
    ("sltiu", Mnemonic::OpImm(ImmOp::Sltiu)),
    ("xori", Mnemonic::OpImm(ImmOp::Xori)),
    ("ori", Mnemonic::OpImm(ImmOp::Ori)),
    ("andi", Mnemonic::OpImm(ImmOp::Andi)),
    ("slli", Mnemonic::OpImm(ImmOp::Slli)),
    ("srli", Mnemonic::OpImm(ImmOp::Srli)),
    ("srai", Mnemonic::OpImm(ImmOp::Srai)),
    ("add", Mnemonic::Op(RegOp::Add)),
    ("sll", Mnemonic::Op(RegOp::Sll)),
    ("slt", Mnemonic::Op(RegOp::Slt)),
    ("sltu", Mnemonic::Op(RegOp::Sltu)),
    ("xor", Mnemonic::Op(RegOp::Xor)),
    ("srl", Mnemonic::Op(RegOp::Srl)),
    ("or", Mnemonic::Op(RegOp::Or)),
    ("and", Mnemonic::Op(RegOp::And)),
    ("sub", Mnemonic::Op(RegOp::Sub)),
    ("sra", Mnemonic::Op(RegOp::Sra)),
    ("fence", Mnemonic::Plain(Inst::Fence { word: FENCE_WORD })),
    ("ecall", Mnemonic::Plain(Inst::Ecall)),
    ("ebreak", Mnemonic::Plain(Inst::Ebreak)),
    (
        "ret",
        Mnemonic::Plain(Inst::Jalr {
            rd: 0,
            rs1: 1,
            imm: 0,
        }),
    ),
    (
        "nop",
        Mnemonic::Plain(Inst::OpImm {
            op: ImmOp::Addi,
            rd: 0,
            rs1: 0,
            imm: 0,
        }),
    ),
    ("li", Mnemonic::Li),
    ("la", Mnemonic::La),
    ("mv", Mnemonic::Mv),
    ("j", Mnemonic::Jump { rd: 0 }),
    ("call", Mnemonic::Jump { rd: 1 }),
    (".word", Mnemonic::Word),
    (".byte", Mnemonic::Byte),
    (".zero", Mnemonic::Zero),
];

/// The mnemonic or directive with this text.
#[tactic(auto, unfolding(crate::specs::Words::mnemonic_of, crate::specs::Words::mnemonic_table))]
pub fn mnemonic_of(text: &[u8]) -> Option<Mnemonic>
    ensures value { result ≡ mnemonic_of text.now }
    ensures sound { IfSome result IsSoundMnemonic }
{
    look_up(&MNEMONICS, text)
}
