//! What instructions compute from the values of registers.
ghost use Rattle.std.specs.Prelude.{◌≡◌, ◌^◌, ◌<◌};
ghost use Rattle.rv_model.specs.Exec.{is_taken, immediate_result, register_result, loaded_number, load_size};
ghost use Rattle.rv_model.specs.Word.{signed_right_shift};

use rv_model::{BranchOp, ImmOp, LoadOp, RegOp};

/// Whether a branch is taken, from the values of rs1 and rs2.
pub(crate) fn is_taken(op: BranchOp, a: u32, b: u32) -> bool
    ensures { result ≡ is_taken op a b }
{
    match op {
        BranchOp::Beq => a == b,
        BranchOp::Bne => a != b,
        BranchOp::Blt => a.cast_signed() < b.cast_signed(),
        BranchOp::Bge => a.cast_signed() >= b.cast_signed(),
        BranchOp::Bltu => a < b,
        BranchOp::Bgeu => a >= b,
    }
}

/// The result of an operation on a register and an immediate.
pub(crate) fn immediate_result(op: ImmOp, a: u32, imm: u32) -> u32
    ensures { result ≡ immediate_result op a imm }
{
    match op {
        ImmOp::Addi => a.wrapping_add(imm),
        ImmOp::Slti => u32::from(a.cast_signed() < imm.cast_signed()),
        ImmOp::Sltiu => u32::from(a < imm),
        ImmOp::Xori => a ^ imm,
        ImmOp::Ori => a | imm,
        ImmOp::Andi => a & imm,
        ImmOp::Slli => a.wrapping_shl(imm),
        ImmOp::Srli => a.wrapping_shr(imm),
        ImmOp::Srai => signed_right_shift(a, imm),
    }
}

/// The result of an operation on two registers.
pub(crate) fn register_result(op: RegOp, a: u32, b: u32) -> u32
    ensures { result ≡ register_result op a b }
{
    match op {
        RegOp::Add => a.wrapping_add(b),
        RegOp::Sll => a.wrapping_shl(b),
        RegOp::Slt => u32::from(a.cast_signed() < b.cast_signed()),
        RegOp::Sltu => u32::from(a < b),
        RegOp::Xor => a ^ b,
        RegOp::Srl => a.wrapping_shr(b),
        RegOp::Or => a | b,
        RegOp::And => a & b,
        RegOp::Sub => a.wrapping_sub(b),
        RegOp::Sra => signed_right_shift(a, b),
    }
}

fn signed_right_shift(a: u32, amount: u32) -> u32
    ensures { result ≡ signed_right_shift a amount }
{
    (a.cast_signed() >> (amount % 32)).cast_unsigned()
}

/// What a load writes to rd, of the number that stood in memory.
pub(crate) fn loaded_number(op: LoadOp, n: u32) -> u32
    requires { n < 256 ^ load_size op }
    ensures { result ≡ loaded_number op n }
{
    match op {
        LoadOp::Lb => i32::from((n as u8).cast_signed()).cast_unsigned(),
        LoadOp::Lh => i32::from((n as u16).cast_signed()).cast_unsigned(),
        LoadOp::Lw | LoadOp::Lbu | LoadOp::Lhu => n,
    }
}
