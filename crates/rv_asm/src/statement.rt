//! What each statement means.

ghost use Rattle.std.specs.Prelude.{◌≡◌, ◌∷◌, [], map, IfOk, Ok};
ghost use Rattle.rv_inst.specs.Valid.{IsRegister, IsTwelveBits, IsUpper, IsValid};
ghost use Rattle.rv_asm.specs.Sound.{IsSoundMnemonic, IsSoundStatement, AreSound};
ghost use Rattle.rv_asm.specs.Faults.{IsSeenAs, judgment_of_list, with_judgment};
ghost use Rattle.ce_text.specs.Names.{meanings_of};
ghost use Rattle.rv_asm.specs.Statements.{low_part, high_part, two_instructions, is_short, list_of_one, load_word, word_value, byte_value, statements_of};
ghost use Rattle.rv_asm.specs.Line.{pieces};
ghost use Rattle.rv_asm.specs.Names.{no_names};
ghost use Rattle.rv_asm.specs.Views.{datum_value, list_judgment};
ghost use Rattle.rv_model.specs.declared.inst.Inst.TheVariants as insts;
ghost use Rattle.rv_model.specs.declared.inst.ImmOp.TheVariants.{Addi};
ghost use Rattle.rv_asm.specs.declared.mnemonic.Mnemonic.TheVariants as mnemonics;
ghost use Rattle.rv_asm.specs.declared.statement.Statement.TheVariants as statements;

use crate::fault::{AsmKind, Halt, Judgment};
use crate::forms::{
    byte_of, register_label, register_memory, register_upper, registers_immediate, registers_label,
    three_registers, word_of,
};
use crate::label::Label;
use crate::line::is_token;
use crate::literal::literal_of;
use crate::mnemonic::Mnemonic;
use crate::name::is_name;
use crate::operand::{
    first_piece, name_piece, no_piece, number, number_in_range, one_piece, pair, register,
    two_pieces,
};
use crate::symbols::{Symbol, Symbols};
use rv_model::{
    BranchOp, GREATEST_IMMEDIATE, IMAGE_ROOM, ImmOp, Inst, LEAST_IMMEDIATE, RegOp, Register,
    UPPER_UNIT,
};
use std::alloc::{AllocError, Global};

/// The least number of a `.byte`.
pub const LEAST_BYTE: i64 = -128;

/// The greatest number of a `.byte`.
pub const GREATEST_BYTE: i64 = 255;

/// What is laid at one place. `.word a, b` is laid as `.word a` and `.word b`, and `li` as its
/// instructions.
#[derive(Debug, Drop)]
pub enum Statement<'a> {
    /// An instruction.
    Inst(Inst),
    /// `jal rd, label`
    Jal {
        rd: u8,
        label: Label<'a>,
    },
    /// A branch to a label.
    Branch {
        op: BranchOp,
        rs1: u8,
        rs2: u8,
        label: Label<'a>,
    },
    /// `la rd, label`: two instructions.
    La {
        rd: u8,
        label: Label<'a>,
    },
    /// Four bytes, little-endian.
    Word(u32),
    /// The address of a label as four bytes, little-endian.
    Address(Label<'a>),
    /// One byte.
    Byte(u8),
    /// So many bytes of value 0.
    Zero(u32),
}

/// A statement and its line.
#[derive(Debug, Drop)]
pub struct PlacedStatement<'a> {
    pub line: u32,
    pub statement: Statement<'a>,
}

/// What an operand of `.word` or `.byte` lays.
#[derive(Clone, Copy)]
pub enum Datum {
    Word,
    Byte,
}

/// The low 12 bits of a word, sign-extended.
fn low_part(word: u32) -> i32
    ensures value { result ≡ low_part word }
    ensures small { IsTwelveBits result }
{
    let low = (word % UPPER_UNIT) as i32;
    if low <= GREATEST_IMMEDIATE {
        low
    } else {
        low - UPPER_UNIT as i32
    }
}

/// What is left of a word without its low part, modulo 2^32: a multiple of `UPPER_UNIT`.
fn high_part(word: u32) -> u32
    ensures value { result ≡ high_part word }
    ensures upper { IsUpper result }
{
    (word.wrapping_add(LEAST_IMMEDIATE.unsigned_abs()) / UPPER_UNIT) * UPPER_UNIT
}

/// `addi rd, rs1, imm`
fn addi(rd: u8, rs1: u8, imm: i32) -> Inst
    ensures { result ≡ insts.OpImm Addi rd rs1 imm }
{
    let op = ImmOp::Addi;
    Inst::OpImm { op, rd, rs1, imm }
}

/// The two instructions that put any word into a register.
pub fn two_instructions(rd: Register, word: u32) -> (Inst, Inst)
    ensures high { IsValid result.0 }
    ensures low { IsValid result.1 }
    ensures pair { result.0 ∷ result.1 ∷ [] ≡ two_instructions rd.number word }
{
    let (rd, imm) = (rd.number, high_part(word));
    (Inst::Lui { rd, imm }, addi(rd, rd, low_part(word)))
}

/// The list of one statement.
fn one<'a>(alloc: Global, statement: Statement<'a>) -> Result<Vec<Statement<'a>>, Halt>
    requires { IsSoundStatement statement }
    ensures value { IsSeenAs (λ list. list.items) result (Ok (statement.entry ∷ [])) }
    ensures sound { IfOk result (λ list. AreSound list.items) }
{
    let mut list = Vec::new(alloc);
    list.push(statement)?;
    Ok(list)
}

/// Whether the I format can hold the word, as a signed number.
fn is_short(word: u32) -> bool
    ensures { result ≡ is_short word }
{
    (LEAST_IMMEDIATE..=GREATEST_IMMEDIATE).contains(&word.cast_signed())
}

/// The instructions that put a word into a register.
fn load_word<'a>(alloc: Global, rd: Register, word: u32) -> Result<Vec<Statement<'a>>, Halt>
    ensures value { IsSeenAs (λ list. list.items) result
        (Ok (map (λ inst. statements.Inst inst) (load_word rd.number word))) }
    ensures sound { IfOk result (λ list. AreSound list.items) }
{
    if is_short(word) {
        return one(alloc, Statement::Inst(addi(rd.number, 0, low_part(word))));
    }
    let (high, low) = two_instructions(rd, word);
    let mut list = one(alloc, Statement::Inst(high))?;
    list.push(Statement::Inst(low))?;
    Ok(list)
}

/// An operand of `.word`: a number, or a name that is none so far, which is a label.
#[tactic(auto, unfolding(crate::specs::Statements::word_value))]
fn word_value<'a>(symbols: &Symbols, piece: &'a [u8]) -> Judgment<Statement<'a>>
    ensures value { result ≡ word_value (meanings_of symbols.now) piece.now }
    ensures sound { IfOk result IsSoundStatement }
{
    if !is_token(piece) {
        return Err(AsmKind::Operands);
    }
    if !is_name(piece) {
        let number = literal_of(piece).ok_or(AsmKind::BadNumber)?;
        return Ok(Statement::Word(word_of(number)));
    }
    match symbols.meaning(piece) {
        Some(Symbol::Number(number)) => Ok(Statement::Word(word_of(number))),
        Some(Symbol::Label(_)) | None => Ok(Statement::Address(Label::from_bytes(piece))),
    }
}

/// An operand of `.word`, or one of `.byte`.
#[tactic(auto, unfolding(crate::specs::Statements::byte_value))]
fn datum_value<'a>(datum: Datum, symbols: &Symbols, piece: &'a [u8]) -> Judgment<Statement<'a>>
    ensures value { result ≡ datum_value datum (meanings_of symbols.now) piece.now }
    ensures sound { IfOk result IsSoundStatement }
{
    match datum {
        Datum::Word => word_value(symbols, piece),
        Datum::Byte => {
            let number = number_in_range(LEAST_BYTE, GREATEST_BYTE, number(symbols, piece))?;
            Ok(Statement::Byte(byte_of(number)))
        }
    }
}

/// One more judgment behind those of a line: the statement joins the list, or the fault is the one
/// that is judged first.
#[tactic(auto, unfolding(crate::specs::Faults::with_judgment, crate::specs::Faults::pair_judgment))]
fn gather<'a>(
    list: &mut Vec<Statement<'a>>,
    fault: Option<AsmKind>,
    value: Judgment<Statement<'a>>,
) -> Result<Option<AsmKind>, AllocError>
    requires { IfOk value IsSoundStatement }
    ensures more { IfOk result (λ next. list_judgment next list.new.items
        ≡ with_judgment (list_judgment fault list.old.items) value.entry) }
    ensures sound { IfOk result (λ next. AreSound list.old.items → AreSound list.new.items) }
{
    match value {
        Ok(statement) => {
            list.push(statement)?;
            Ok(fault)
        }
        Err(kind) => match fault {
            None => Ok(Some(kind)),
            Some(first) => Ok(Some(first.min(kind))),
        },
    }
}

/// `.word a, b, ..` and `.byte a, b, ..`
fn data<'a>(
    alloc: Global,
    datum: Datum,
    symbols: &Symbols,
    operands: &'a [u8],
) -> Result<Vec<Statement<'a>>, Halt>
    ensures value { IsSeenAs (λ list. list.items) result
        (judgment_of_list
        (map (datum_value datum (meanings_of symbols.now)) (pieces operands.now))) }
    ensures sound { IfOk result (λ list. AreSound list.items) }
{
    let mut list = Vec::new(alloc);
    let mut fault = None;
    let mut rest = Some(operands);
    while let Some(bytes) = rest {
        let (piece, others) = first_piece(bytes);
        let value = datum_value(datum, symbols, piece);
        fault = gather(&mut list, fault, value)?;
        rest = others;
    }
    match fault {
        None => Ok(list),
        Some(kind) => Err(Halt::Fault(kind)),
    }
}

/// `addi rd, rs1, n` and the other operations on a register and a number.
#[tactic(auto, unfolding(crate::specs::Statements::statements_of))]
fn immediate_operation<'a>(op: ImmOp, symbols: &Symbols, operands: &[u8]) -> Judgment<Statement<'a>>
    ensures value { list_of_one result
        ≡ statements_of (mnemonics.OpImm op) (meanings_of symbols.now) operands.now }
    ensures sound { IfOk result IsSoundStatement }
{
    let (rd, rs1, imm) = registers_immediate(symbols, op, operands)?;
    Ok(Statement::Inst(Inst::OpImm { op, rd, rs1, imm }))
}

/// `add rd, rs1, rs2` and the other operations on two registers. Here, and where else no operand
/// can be a name of a number, it is judged as with no names.
#[tactic(auto, unfolding(crate::specs::Statements::statements_of))]
fn register_operation<'a>(op: RegOp, operands: &[u8]) -> Judgment<Statement<'a>>
    ensures value { list_of_one result ≡ statements_of (mnemonics.Op op) no_names operands.now }
    ensures sound { IfOk result IsSoundStatement }
{
    let (rd, rs1, rs2) = three_registers(operands)?;
    Ok(Statement::Inst(Inst::Op { op, rd, rs1, rs2 }))
}

/// `mv rd, rs`
#[tactic(auto, unfolding(crate::specs::Statements::statements_of, crate::specs::Statements::two_registers))]
fn copy_register<'a>(operands: &[u8]) -> Judgment<Statement<'a>>
    ensures value { list_of_one result ≡ statements_of mnemonics.Mv no_names operands.now }
    ensures sound { IfOk result IsSoundStatement }
{
    let (rd, rs) = two_pieces(operands)?;
    let (rd, rs) = pair(register(rd), register(rs))?;
    Ok(Statement::Inst(addi(rd, rs, 0)))
}

/// `jal rd, label`
#[tactic(auto, unfolding(crate::specs::Statements::statements_of))]
fn jump_and_link<'a>(operands: &'a [u8]) -> Judgment<Statement<'a>>
    ensures value { list_of_one result ≡ statements_of mnemonics.Jal no_names operands.now }
    ensures sound { IfOk result IsSoundStatement }
{
    let (rd, label) = register_label(operands)?;
    Ok(Statement::Jal { rd, label })
}

/// `j label` and `call label`, which leave the return address in this register.
#[tactic(auto, unfolding(crate::specs::Statements::statements_of, crate::specs::Statements::one_label))]
fn jump<'a>(rd: u8, operands: &'a [u8]) -> Judgment<Statement<'a>>
    requires { IsRegister rd }
    ensures value { list_of_one result ≡ statements_of (mnemonics.Jump rd) no_names operands.now }
    ensures sound { IfOk result IsSoundStatement }
{
    let label = one_piece(operands)?;
    name_piece(label)?;
    let label = Label::from_bytes(label);
    Ok(Statement::Jal { rd, label })
}

/// `beq rs1, rs2, label` and the other branches.
#[tactic(auto, unfolding(crate::specs::Statements::statements_of))]
fn branch<'a>(op: BranchOp, operands: &'a [u8]) -> Judgment<Statement<'a>>
    ensures value { list_of_one result ≡ statements_of (mnemonics.Branch op) no_names operands.now }
    ensures sound { IfOk result IsSoundStatement }
{
    let (rs1, rs2, label) = registers_label(operands)?;
    Ok(Statement::Branch {
        op,
        rs1,
        rs2,
        label,
    })
}

/// `la rd, label`
#[tactic(auto, unfolding(crate::specs::Statements::statements_of))]
fn load_address<'a>(operands: &'a [u8]) -> Judgment<Statement<'a>>
    ensures value { list_of_one result ≡ statements_of mnemonics.La no_names operands.now }
    ensures sound { IfOk result IsSoundStatement }
{
    let (rd, label) = register_label(operands)?;
    Ok(Statement::La { rd, label })
}

/// `.zero n`
#[tactic(auto, unfolding(crate::specs::Statements::statements_of, crate::specs::Statements::zero_count))]
fn zeros<'a>(symbols: &Symbols, operands: &[u8]) -> Judgment<Statement<'a>>
    ensures value { list_of_one result
        ≡ statements_of mnemonics.Zero (meanings_of symbols.now) operands.now }
    ensures sound { IfOk result IsSoundStatement }
{
    let count = one_piece(operands)?;
    let count = number_in_range(0, i64::from(IMAGE_ROOM), number(symbols, count))?;
    Ok(Statement::Zero(count as u32))
}

/// `li rd, n`
#[tactic(auto, unfolding(crate::specs::Statements::statements_of, crate::specs::Statements::register_word))]
fn load_number<'a>(
    alloc: Global,
    symbols: &Symbols,
    operands: &[u8],
) -> Result<Vec<Statement<'a>>, Halt>
    ensures value { IsSeenAs (λ list. list.items) result
        (statements_of mnemonics.Li (meanings_of symbols.now) operands.now) }
    ensures sound { IfOk result (λ list. AreSound list.items) }
{
    let (rd, word) = two_pieces(operands)?;
    let (rd, word) = pair(register(rd), number(symbols, word))?;
    load_word(alloc, Register { number: rd }, word_of(word))
}

/// What a mnemonic and its operands lay, one after the other. The faults are judged in the order
/// Operands, BadRegister, BadNumber, UnknownName.
#[tactic(auto, unfolding(crate::specs::Statements::statements_of))]
pub fn statements_of<'a>(
    alloc: Global,
    mnemonic: Mnemonic,
    symbols: &Symbols,
    operands: &'a [u8],
) -> Result<Vec<Statement<'a>>, Halt>
    requires { IsSoundMnemonic mnemonic }
    ensures value { IsSeenAs (λ list. list.items) result
        (statements_of mnemonic (meanings_of symbols.now) operands.now) }
    ensures sound { IfOk result (λ list. AreSound list.items) }
{
    match mnemonic {
        Mnemonic::Plain(inst) => {
            no_piece(operands)?;
            one(alloc, Statement::Inst(inst))
        }
        Mnemonic::Lui => {
            let (rd, imm) = register_upper(symbols, operands)?;
            one(alloc, Statement::Inst(Inst::Lui { rd, imm }))
        }
        Mnemonic::Auipc => {
            let (rd, imm) = register_upper(symbols, operands)?;
            one(alloc, Statement::Inst(Inst::Auipc { rd, imm }))
        }
        Mnemonic::Jalr => {
            let (rd, imm, rs1) = register_memory(symbols, operands)?;
            one(alloc, Statement::Inst(Inst::Jalr { rd, rs1, imm }))
        }
        Mnemonic::Load(op) => {
            let (rd, imm, rs1) = register_memory(symbols, operands)?;
            one(alloc, Statement::Inst(Inst::Load { op, rd, rs1, imm }))
        }
        Mnemonic::Store(op) => {
            let (rs2, imm, rs1) = register_memory(symbols, operands)?;
            one(alloc, Statement::Inst(Inst::Store { op, rs1, rs2, imm }))
        }
        Mnemonic::OpImm(op) => one(alloc, immediate_operation(op, symbols, operands)?),
        Mnemonic::Op(op) => one(alloc, register_operation(op, operands)?),
        Mnemonic::Mv => one(alloc, copy_register(operands)?),
        Mnemonic::Jal => one(alloc, jump_and_link(operands)?),
        Mnemonic::Jump { rd } => one(alloc, jump(rd, operands)?),
        Mnemonic::Branch(op) => one(alloc, branch(op, operands)?),
        Mnemonic::La => one(alloc, load_address(operands)?),
        Mnemonic::Zero => one(alloc, zeros(symbols, operands)?),
        Mnemonic::Li => load_number(alloc, symbols, operands),
        Mnemonic::Word => data(alloc, Datum::Word, symbols, operands),
        Mnemonic::Byte => data(alloc, Datum::Byte, symbols, operands),
    }
}
