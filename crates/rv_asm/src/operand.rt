//! Operands of statements.

ghost use Rattle.std.specs.Prelude.{◌≡◌, ◌∷◌, [], ◌≤ℤ◌, ◌<◌, length, Some, Ok, IfOk, IfSome, option_map};
ghost use Rattle.rv_inst.specs.Valid.{IsRegister, IsTwelveBits};
ghost use Rattle.rv_asm.specs.Faults.{pair_judgment};
ghost use Rattle.rv_asm.specs.Line.{pieces, comma_pieces};
ghost use Rattle.ce_text.specs.Names.{meanings_of};
ghost use Rattle.rv_asm.specs.Operand.{IsViewOf, no_piece, one_piece, two_pieces, three_pieces, register, number, number_in_range, name_piece, twelve_bits, bracket_operand, memory};

use crate::fault::{AsmKind, Judgment};
use crate::line::is_token;
use crate::literal::literal_of;
use crate::name::is_name;
use crate::register::register_of;
use crate::symbols::{Symbol, Symbols};
use ce_text::{cut_at, without_outer_blanks};
use rv_model::{GREATEST_IMMEDIATE, LEAST_IMMEDIATE};

/// Two judgments of one line: both values, or the fault whose kind is judged first.
#[tactic(auto, unfolding(crate::specs::Faults::pair_judgment))]
pub fn pair<A: Drop, B: Drop>(first: Judgment<A>, second: Judgment<B>) -> Judgment<(A, B)>
    ensures joined { result ≡ pair_judgment first second }
    ensures parts { IfOk result (λ pair. (first ≡ Ok pair.0) × (second ≡ Ok pair.1)) }
{
    match (first, second) {
        (Ok(first), Ok(second)) => Ok((first, second)),
        (Ok(_), Err(kind)) | (Err(kind), Ok(_)) => Err(kind),
        (Err(first), Err(second)) => Err(first.min(second)),
    }
}

/// `Operands` where there is an operand.
pub fn no_piece(operands: &[u8]) -> Judgment<()>
    ensures { result ≡ no_piece operands.now }
{
    match operands {
        [] => Ok(()),
        [_, ..] => Err(AsmKind::Operands),
    }
}

/// The first operand, and what stands behind its comma, where there is one.
pub fn first_piece(operands: &[u8]) -> (&[u8], Option<&[u8]>)
    ensures parts { pieces operands.now
        ≡ result.0.now ∷ comma_pieces (option_map (λ rest. rest.now) result.1) }
    ensures shorter { IfSome result.1 (λ rest. length rest.now < length operands.now) }
{
    let (piece, rest) = cut_at(operands, b',');
    (without_outer_blanks(piece), rest)
}

/// The one operand, and `Operands` where there are more.
#[tactic(auto, using(crate::proofs::Pieces::one_alone, crate::proofs::Pieces::one_more))]
pub fn one_piece(operands: &[u8]) -> Judgment<&[u8]>
    ensures { IsViewOf (λ piece. piece.now) result (one_piece operands.now) }
{
    match first_piece(operands) {
        (only, None) => Ok(only),
        (_, Some(_)) => Err(AsmKind::Operands),
    }
}

/// The two operands, and `Operands` where there are fewer or more.
#[tactic(auto, using(crate::proofs::Pieces::two_alone, crate::proofs::Pieces::two_more, crate::proofs::Pieces::two_wrong))]
pub fn two_pieces(operands: &[u8]) -> Judgment<(&[u8], &[u8])>
    ensures { IsViewOf (λ parts. (parts.0.now, parts.1.now)) result (two_pieces operands.now) }
{
    match first_piece(operands) {
        (_, None) => Err(AsmKind::Operands),
        (first, Some(rest)) => {
            let second = one_piece(rest)?;
            Ok((first, second))
        }
    }
}

/// The three operands, and `Operands` where there are fewer or more.
#[tactic(auto, using(crate::proofs::Pieces::three_alone, crate::proofs::Pieces::three_more, crate::proofs::Pieces::three_wrong))]
pub fn three_pieces(operands: &[u8]) -> Judgment<(&[u8], &[u8], &[u8])>
    ensures { IsViewOf (λ parts. (parts.0.now, parts.1.now, parts.2.now)) result
        (three_pieces operands.now) }
{
    match first_piece(operands) {
        (_, None) => Err(AsmKind::Operands),
        (first, Some(rest)) => {
            let (second, third) = two_pieces(rest)?;
            Ok((first, second, third))
        }
    }
}

/// A register. `Operands` where the operand is not one token, then `BadRegister`.
#[tactic(auto, unfolding(crate::specs::Operand::register))]
pub fn register(piece: &[u8]) -> Judgment<u8>
    ensures value { result ≡ register piece.now }
    ensures small { IfOk result IsRegister }
{
    if !is_token(piece) {
        return Err(AsmKind::Operands);
    }
    match register_of(piece) {
        Some(register) => Ok(register),
        None => Err(AsmKind::BadRegister),
    }
}

/// A number. `Operands` where the operand is not one token, then `BadNumber`, then `UnknownName`.
#[tactic(auto, unfolding(crate::specs::Operand::number))]
pub fn number(symbols: &Symbols, piece: &[u8]) -> Judgment<i64>
    ensures { result ≡ number (meanings_of symbols.now) piece.now }
{
    if !is_token(piece) {
        return Err(AsmKind::Operands);
    }
    if !is_name(piece) {
        return literal_of(piece).ok_or(AsmKind::BadNumber);
    }
    match symbols.meaning(piece) {
        Some(Symbol::Number(number)) => Ok(number),
        Some(Symbol::Label(_)) | None => Err(AsmKind::UnknownName),
    }
}

/// A number that is judged to lie in a range, and `BadNumber` where it does not.
#[tactic(auto, unfolding(crate::specs::Operand::number_in_range))]
pub fn number_in_range(low: i64, high: i64, judgment: Judgment<i64>) -> Judgment<i64>
    ensures value { result ≡ number_in_range low high judgment }
    ensures least { IfOk result (λ number. low ≤ℤ number) }
    ensures greatest { IfOk result (λ number. number ≤ℤ high) }
{
    let number = judgment?;
    if low <= number && number <= high {
        Ok(number)
    } else {
        Err(AsmKind::BadNumber)
    }
}

/// `Operands` where an operand has not the form of a name.
#[tactic(auto, unfolding(crate::specs::Operand::name_piece))]
pub fn name_piece(piece: &[u8]) -> Judgment<()>
    ensures { result ≡ name_piece piece.now }
{
    if is_name(piece) {
        Ok(())
    } else {
        Err(AsmKind::Operands)
    }
}

/// A number of twelve bits.
#[tactic(auto, unfolding(crate::specs::Operand::twelve_bits))]
pub fn twelve_bits(symbols: &Symbols, piece: &[u8]) -> Judgment<i64>
    ensures value { result ≡ twelve_bits (meanings_of symbols.now) piece.now }
    ensures small { IfOk result IsTwelveBits }
{
    number_in_range(
        i64::from(LEAST_IMMEDIATE),
        i64::from(GREATEST_IMMEDIATE),
        number(symbols, piece),
    )
}

fn bracket_operand(symbols: &Symbols, front: &[u8], rest: &[u8]) -> Judgment<(i64, u8)>
    ensures value { result ≡ bracket_operand (meanings_of symbols.now) front.now (Some rest.now) }
    ensures small { IfOk result (λ it. IsTwelveBits it.0 × IsRegister it.1) }
{
    let (inner, end) = cut_at(rest, b')');
    match end {
        None => Err(AsmKind::Operands),
        Some(end) => {
            if !without_outer_blanks(end).is_empty() {
                return Err(AsmKind::Operands);
            }
            pair(
                twelve_bits(symbols, without_outer_blanks(front)),
                register(without_outer_blanks(inner)),
            )
        }
    }
}

/// `n(rs1)`: a number of twelve bits, and a register.
#[tactic(auto, unfolding(crate::specs::Operand::memory))]
pub fn memory(symbols: &Symbols, piece: &[u8]) -> Judgment<(i64, u8)>
    ensures value { result ≡ memory (meanings_of symbols.now) piece.now }
    ensures small { IfOk result (λ it. IsTwelveBits it.0 × IsRegister it.1) }
{
    match cut_at(piece, b'(') {
        (_, None) => Err(AsmKind::Operands),
        (front, Some(rest)) => bracket_operand(symbols, front, rest),
    }
}
