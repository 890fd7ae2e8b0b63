//! The forms that the operands of statements have.

ghost use Rattle.std.specs.Prelude.{◌≡◌, IfOk};
ghost use Rattle.rv_inst.specs.Valid.{IsRegister, IsTwelveBits, IsUpper, IsImmediateOf};
ghost use Rattle.ce_text.specs.Names.{meanings_of};
ghost use Rattle.rv_asm.specs.Operand.{wrapped_word, byte_of};
ghost use Rattle.rv_asm.specs.Statements.{register_upper, register_memory, immediate, registers_immediate, three_registers, register_label, registers_label};

use crate::fault::Judgment;
use crate::label::Label;
use crate::operand::{
    memory, name_piece, number, number_in_range, pair, register, three_pieces, twelve_bits,
    two_pieces,
};
use crate::symbols::Symbols;
use rv_model::{GREATEST_SHIFT, GREATEST_UPPER, ImmOp, UPPER_UNIT};

/// A number from -2^31 to 2^32 - 1, modulo 2^32.
pub fn word_of(number: i64) -> u32
    ensures { result ≡ wrapped_word number }
{
    number.rem_euclid(1 << 32) as u32
}

/// A number modulo 2^8.
pub fn byte_of(number: i64) -> u8
    ensures { result ≡ byte_of number }
{
    number.rem_euclid(1 << 8) as u8
}

/// `rd, n` with n from 0 to `GREATEST_UPPER`, which is bits 31..12.
#[tactic(auto, unfolding(crate::specs::Statements::register_upper))]
pub fn register_upper(symbols: &Symbols, operands: &[u8]) -> Judgment<(u8, u32)>
    ensures value { result ≡ register_upper (meanings_of symbols.now) operands.now }
    ensures small { IfOk result (λ it. IsRegister it.0 × IsUpper it.1) }
{
    let (rd, upper) = two_pieces(operands)?;
    let (rd, upper) = pair(
        register(rd),
        number_in_range(0, i64::from(GREATEST_UPPER), number(symbols, upper)),
    )?;
    Ok((rd, upper as u32 * UPPER_UNIT))
}

/// `rd, n(rs1)`, as rd, n and rs1.
#[tactic(auto, unfolding(crate::specs::Statements::register_memory))]
pub fn register_memory(symbols: &Symbols, operands: &[u8]) -> Judgment<(u8, i32, u8)>
    ensures value { result ≡ register_memory (meanings_of symbols.now) operands.now }
    ensures small { IfOk result (λ it. IsRegister it.0 × IsTwelveBits it.1 × IsRegister it.2) }
{
    let (rd, place) = two_pieces(operands)?;
    let (rd, (n, rs1)) = pair(register(rd), memory(symbols, place))?;
    Ok((rd, n as i32, rs1))
}

/// The number of an operation on a register and a number: a shift amount, or a number of twelve
/// bits.
#[tactic(auto, unfolding(crate::specs::Statements::immediate, crate::specs::Operand::twelve_bits))]
fn immediate(symbols: &Symbols, op: ImmOp, piece: &[u8]) -> Judgment<i64>
    ensures value { result ≡ immediate (meanings_of symbols.now) op piece.now }
    ensures fits { IfOk result (IsImmediateOf op) }
    ensures small { IfOk result IsTwelveBits }
{
    match op {
        ImmOp::Slli | ImmOp::Srli | ImmOp::Srai => {
            number_in_range(0, i64::from(GREATEST_SHIFT), number(symbols, piece))
        }
        _ => twelve_bits(symbols, piece),
    }
}

/// `rd, rs1, n` of an operation on a register and a number.
#[tactic(auto, unfolding(crate::specs::Statements::registers_immediate))]
pub fn registers_immediate(symbols: &Symbols, op: ImmOp, operands: &[u8]) -> Judgment<(u8, u8, i32)>
    ensures value { result ≡ registers_immediate (meanings_of symbols.now) op operands.now }
    ensures small { IfOk result (λ it. IsRegister it.0 × IsRegister it.1 × IsImmediateOf op it.2) }
{
    let (rd, rs1, n) = three_pieces(operands)?;
    let ((rd, rs1), n) = pair(pair(register(rd), register(rs1)), immediate(symbols, op, n))?;
    Ok((rd, rs1, n as i32))
}

/// `rd, rs1, rs2`
#[tactic(auto, unfolding(crate::specs::Statements::three_registers))]
pub fn three_registers(operands: &[u8]) -> Judgment<(u8, u8, u8)>
    ensures value { result ≡ three_registers operands.now }
    ensures small { IfOk result (λ it. IsRegister it.0 × IsRegister it.1 × IsRegister it.2) }
{
    let (rd, rs1, rs2) = three_pieces(operands)?;
    let ((rd, rs1), rs2) = pair(pair(register(rd), register(rs1)), register(rs2))?;
    Ok((rd, rs1, rs2))
}

/// `rd, label`
#[tactic(auto, unfolding(crate::specs::Statements::register_label))]
pub fn register_label(operands: &[u8]) -> Judgment<(u8, Label<'_>)>
    ensures value { result ≡ register_label operands.now }
    ensures small { IfOk result (λ it. IsRegister it.0) }
{
    let (rd, label) = two_pieces(operands)?;
    let (rd, ()) = pair(register(rd), name_piece(label))?;
    Ok((rd, Label::from_bytes(label)))
}

/// `rs1, rs2, label`
#[tactic(auto, unfolding(crate::specs::Statements::registers_label))]
pub fn registers_label(operands: &[u8]) -> Judgment<(u8, u8, Label<'_>)>
    ensures value { result ≡ registers_label operands.now }
    ensures small { IfOk result (λ it. IsRegister it.0 × IsRegister it.1) }
{
    let (rs1, rs2, label) = three_pieces(operands)?;
    let ((rs1, rs2), ()) = pair(pair(register(rs1), register(rs2)), name_piece(label))?;
    Ok((rs1, rs2, Label::from_bytes(label)))
}
