//! The second pass: each statement becomes instructions or bytes.

ghost use Rattle.std.specs.Prelude.{◌≡◌, ◌+◌, ◌≤◌, ◌∷◌, [], ◌++◌, replicate, vec_len, pos, neg_ℤ, ◌≤ℤ◌, ◌<ℤ◌, Ok, IfOk, OnOk};
ghost use Rattle.std.specs.Int.{w32, to_le_bytes};
ghost use Rattle.rv_model.specs.declared.limits.TheConstants.{PRIVATE_START, IMAGE_ROOM, WORD_SIZE};
ghost use Rattle.rv_inst.specs.Valid.{IsRegister, IsEven, IsValid};
ghost use Rattle.rv_model.specs.declared.inst.Inst.TheVariants as insts;
ghost use Rattle.ce_text.specs.Names.{meanings_of};
ghost use Rattle.rv_asm.specs.Sizes.{size_of};
ghost use Rattle.rv_asm.specs.Sound.{IsSoundStatement};
ghost use Rattle.rv_asm.specs.SecondPass.{Instruction, address_of, offset_to, parts_of, second_pass};
ghost use Rattle.rv_asm.specs.Spelling.{HasAppended, AreGivenParts};
ghost use Rattle.rv_asm.specs.declared.statement.Statement.TheVariants as statements;

use crate::fault::{AsmFault, AsmKind, Halt, Judgment};
use crate::label::Label;
use crate::layout::Layout;
use crate::statement::{Statement, two_instructions};
use crate::symbols::{Symbol, Symbols};
use rv_inst::encode;
use rv_model::{BRANCH_REACH, BranchOp, Inst, JUMP_REACH, PRIVATE_START, Register};
use std::alloc::{AllocError, Global};

/// The address of a label, and `UnknownName` where no line has it.
#[tactic(auto, unfolding(crate::specs::SecondPass::address_of))]
fn address_of(symbols: &Symbols, label: &Label<'_>) -> Judgment<u32>
    ensures { result ≡ address_of (meanings_of symbols.now) label.now }
{
    match symbols.meaning(label.as_slice()) {
        Some(Symbol::Label(address)) => Ok(address),
        Some(Symbol::Number(_)) | None => Err(AsmKind::UnknownName),
    }
}

/// How far a target lies from an instruction, and `TooFar` where that is odd or not from -reach to
/// reach - 1.
#[tactic(auto, unfolding(crate::specs::SecondPass::offset_to))]
fn offset_to(reach: u32, address: u32, target: u32) -> Judgment<i32>
    requires { reach ≤ JUMP_REACH }
    ensures value { result ≡ offset_to reach address target }
    ensures even { IfOk result IsEven }
    ensures least { IfOk result (λ offset. neg_ℤ (pos reach) ≤ℤ offset) }
    ensures greatest { IfOk result (λ offset. offset <ℤ pos reach) }
{
    let offset = i64::from(target) - i64::from(address);
    if offset.unsigned_abs() % 2 != 0 || offset < -i64::from(reach) || offset >= i64::from(reach) {
        return Err(AsmKind::TooFar);
    }
    Ok(offset as i32)
}

/// A branch by an offset.
fn branch(op: BranchOp, rs1: u8, rs2: u8, offset: i32) -> Inst
    ensures { result ≡ insts.Branch op rs1 rs2 offset }
{
    Inst::Branch {
        op,
        rs1,
        rs2,
        offset,
    }
}

fn put_word(out: &mut Vec<u8>, word: u32) -> Result<(), AllocError>
    ensures { OnOk result (out.new.items ≡ out.old.items ++ to_le_bytes w32 word) }
{
    out.extend_from_slice(&word.to_le_bytes())
}

fn put_zeros(out: &mut Vec<u8>, count: u32) -> Result<(), AllocError>
    ensures { OnOk result (out.new.items ≡ out.old.items ++ replicate count 0) }
{
    for _i in 0..count {
        out.push(0)?;
    }
    Ok(())
}

/// Puts an instruction at the end of the bytes.
fn put(out: &mut Vec<u8>, inst: Inst) -> Result<(), Halt>
    requires { IsValid inst }
    ensures parts { HasAppended result out.old.items out.new.items (Ok (Instruction inst ∷ [])) }
    ensures size { OnOk result (vec_len out.new ≡ vec_len out.old + WORD_SIZE) }
{
    Ok(put_word(out, encode(&inst))?)
}

/// What a statement becomes, at the end of the bytes so far.
#[tactic(auto, unfolding(crate::specs::SecondPass::parts_of))]
fn put_statement(
    out: &mut Vec<u8>,
    symbols: &Symbols,
    statement: &Statement<'_>,
) -> Result<(), Halt>
    requires sound { IsSoundStatement statement.now }
    requires room { vec_len out.old ≤ IMAGE_ROOM }
    ensures parts { HasAppended result out.old.items out.new.items
        (parts_of (meanings_of symbols.now) (PRIVATE_START + vec_len out.old) statement.now) }
    ensures size { OnOk result (vec_len out.new ≡ vec_len out.old + size_of statement.now) }
{
    let address = PRIVATE_START + out.len() as u32;
    match statement {
        Statement::Inst(inst) => put(out, *inst),
        Statement::Jal { rd, label } => {
            let offset = offset_to(JUMP_REACH, address, address_of(symbols, label)?)?;
            put(out, Inst::Jal { rd: *rd, offset })
        }
        Statement::Branch {
            op,
            rs1,
            rs2,
            label,
        } => {
            let offset = offset_to(BRANCH_REACH, address, address_of(symbols, label)?)?;
            put(out, branch(*op, *rs1, *rs2, offset))
        }
        Statement::La { rd, label } => {
            let rd = Register { number: *rd };
            let (high, low) = two_instructions(rd, address_of(symbols, label)?);
            put(out, high)?;
            put(out, low)
        }
        Statement::Word(word) => Ok(put_word(out, *word)?),
        Statement::Address(label) => Ok(put_word(out, address_of(symbols, label)?)?),
        Statement::Byte(byte) => Ok(out.push(*byte)?),
        Statement::Zero(count) => Ok(put_zeros(out, *count)?),
    }
}

/// The bytes of a layout, or its first fault of the second pass.
pub fn second_pass(alloc: Global, layout: &Layout<'_>) -> Result<Vec<u8>, AsmFault>
    ensures parts { AreGivenParts (λ out. out.items) result
        (second_pass (meanings_of layout.now.symbols) PRIVATE_START layout.now.statements.items) }
    ensures size { IfOk result (λ out. vec_len out ≡ layout.now.size) }
{
    let mut out = Vec::new(alloc);
    for placed_statement in &layout.statements {
        if let Err(halt) = put_statement(&mut out, &layout.symbols, &placed_statement.statement) {
            return Err(halt.fault_of_line(placed_statement.line));
        }
    }
    Ok(out)
}
