//! What one decoded instruction does.
ghost use Rattle.std.specs.Prelude.{◌≡◌, ◌%◌, ◌==◌, if◌then◌else◌};
ghost use Rattle.rv_model.specs.declared.limits.TheConstants.{WORD_SIZE};
ghost use Rattle.std.specs.Int.{w32, cast_unsigned};
ghost use Rattle.rv_inst.specs.Valid.{IsRegister, IsValid};
ghost use Rattle.rv_model.specs.Exec.{effect_of, immediate_result, is_taken, next_pc, offset_by, register_value, register_result, with_register};
ghost use Rattle.rv_step.specs.EventOutcome.{outcome_of_event, OnStopped};

use crate::compute::{immediate_result, is_taken, loaded_number, register_result};
use crate::{Event, Memory, Registers};
use rv_model::{
    AccessSize, BranchOp, ImmOp, Inst, LoadOp, RegOp, Register, Stop, StoreOp, WORD_SIZE,
};

/// Does the instruction `inst`, which stands at `pc`.
#[tactic(auto, unfolding(rv_model::specs::Exec::effect_of))]
pub(crate) fn execute<M: Memory>(
    inst: Inst,
    registers: &mut Registers,
    pc: &mut u32,
    memory: &mut M,
) -> Event
    requires { IsValid inst }
    ensures done { outcome_of_event result registers.new.x pc.new (M.holds memory.new)
        ≡ effect_of M.access inst registers.old.x pc.old (M.holds memory.old) }
    ensures registers_stay { OnStopped result (registers.new.x ≡ registers.old.x) }
    ensures pc_stays { OnStopped result (pc.new ≡ pc.old) }
    ensures memory_stays { OnStopped result (M.holds memory.new ≡ M.holds memory.old) }
    ensures rest { M.rest memory.new ≡ M.rest memory.old }
{
    match inst {
        Inst::Lui { rd, imm } => write(register(rd), imm, registers, pc),
        Inst::Auipc { rd, imm } => write(register(rd), pc.wrapping_add(imm), registers, pc),
        Inst::Jal { rd, offset } => jump_by(register(rd), offset, registers, pc),
        Inst::Jalr { rd, rs1, imm } => {
            let sum = registers.get(register(rs1)).wrapping_add_signed(imm);
            jump(register(rd), sum / 2 * 2, registers, pc)
        }
        Inst::Branch {
            op,
            rs1,
            rs2,
            offset,
        } => branch(op, register(rs1), register(rs2), offset, registers, pc),
        Inst::Load { op, rd, rs1, imm } => {
            load(op, register(rd), register(rs1), imm, registers, pc, memory)
        }
        Inst::Store { op, rs1, rs2, imm } => {
            store(op, register(rs1), register(rs2), imm, registers, pc, memory)
        }
        Inst::OpImm { op, rd, rs1, imm } => {
            apply(op, register(rd), register(rs1), imm, registers, pc)
        }
        Inst::Op { op, rd, rs1, rs2 } => {
            let (rs1, rs2) = (register(rs1), register(rs2));
            combine(op, register(rd), rs1, rs2, registers, pc)
        }
        Inst::Fence { word: _ } => advance(Event::Advance, pc),
        Inst::Ecall => advance(Event::Call, pc),
        Inst::Ebreak => Event::Stopped(Stop::Break(*pc)),
    }
}

/// The register with this number.
#[inline(always)]
fn register(number: u8) -> Register
    requires { IsRegister number }
    ensures { result.number ≡ number }
{
    Register { number }
}

/// Goes on to the next instruction, and answers `event`.
fn advance(event: Event, pc: &mut u32) -> Event
    ensures event { result ≡ event }
    ensures pc { pc.new ≡ next_pc pc.old }
{
    *pc = pc.wrapping_add(WORD_SIZE);
    event
}

/// Writes `value` to `rd`, and goes on to the next instruction.
fn write(rd: Register, value: u32, registers: &mut Registers, pc: &mut u32) -> Event
    ensures event { result ≡ Event.Advance }
    ensures registers { registers.new.x ≡ with_register registers.old.x rd.number value }
    ensures pc { pc.new ≡ next_pc pc.old }
{
    registers.set(rd, value);
    advance(Event::Advance, pc)
}

/// Jumps to `target` and writes the address of the next instruction to `rd`, or stops at a target
/// that isn't a multiple of 4.
fn jump(rd: Register, target: u32, registers: &mut Registers, pc: &mut u32) -> Event
    ensures event { result
        ≡ (if target % WORD_SIZE == 0 then Event.Advance else Event.Stopped (Stop.Target pc.old)) }
    ensures registers { registers.new.x
        ≡ (if target % WORD_SIZE == 0 then with_register registers.old.x rd.number (next_pc pc.old)
        else registers.old.x) }
    ensures pc { pc.new ≡ (if target % WORD_SIZE == 0 then target else pc.old) }
{
    if target % WORD_SIZE != 0 {
        return Event::Stopped(Stop::Target(*pc));
    }
    registers.set(rd, pc.wrapping_add(WORD_SIZE));
    *pc = target;
    Event::Advance
}

/// Jumps to the address at `offset` from `pc`, as `jump` does.
#[inline(always)]
fn jump_by(rd: Register, offset: i32, registers: &mut Registers, pc: &mut u32) -> Event
    ensures event { result
        ≡ (if offset_by pc.old offset % WORD_SIZE == 0 then Event.Advance
        else Event.Stopped (Stop.Target pc.old)) }
    ensures registers { registers.new.x
        ≡ (if offset_by pc.old offset % WORD_SIZE == 0
        then with_register registers.old.x rd.number (next_pc pc.old) else registers.old.x) }
    ensures pc { pc.new
        ≡ (if offset_by pc.old offset % WORD_SIZE == 0 then offset_by pc.old offset else pc.old) }
{
    let target = pc.wrapping_add_signed(offset);
    jump(rd, target, registers, pc)
}

/// Does a branch.
#[inline(always)]
fn branch(
    op: BranchOp,
    rs1: Register,
    rs2: Register,
    offset: i32,
    registers: &mut Registers,
    pc: &mut u32,
) -> Event
    ensures event { result
        ≡ (if is_taken op (register_value registers.old.x rs1.number)
        (register_value registers.old.x rs2.number)
        then (if offset_by pc.old offset % WORD_SIZE == 0 then Event.Advance
        else Event.Stopped (Stop.Target pc.old))
        else Event.Advance) }
    ensures registers { registers.new.x ≡ registers.old.x }
    ensures pc { pc.new
        ≡ (if is_taken op (register_value registers.old.x rs1.number)
        (register_value registers.old.x rs2.number)
        then (if offset_by pc.old offset % WORD_SIZE == 0 then offset_by pc.old offset else pc.old)
        else next_pc pc.old) }
{
    if is_taken(op, registers.get(rs1), registers.get(rs2)) {
        jump_by(Register::zero(), offset, registers, pc)
    } else {
        advance(Event::Advance, pc)
    }
}

/// Does an operation on a register and an immediate.
#[inline(always)]
fn apply(
    op: ImmOp,
    rd: Register,
    rs1: Register,
    imm: i32,
    registers: &mut Registers,
    pc: &mut u32,
) -> Event
    ensures event { result ≡ Event.Advance }
    ensures registers { registers.new.x ≡ with_register registers.old.x rd.number
        (immediate_result op (register_value registers.old.x rs1.number) (cast_unsigned w32 imm)) }
    ensures pc { pc.new ≡ next_pc pc.old }
{
    let value = immediate_result(op, registers.get(rs1), imm.cast_unsigned());
    write(rd, value, registers, pc)
}

/// Does an operation on two registers.
#[inline(always)]
fn combine(
    op: RegOp,
    rd: Register,
    rs1: Register,
    rs2: Register,
    registers: &mut Registers,
    pc: &mut u32,
) -> Event
    ensures event { result ≡ Event.Advance }
    ensures registers { registers.new.x ≡ with_register registers.old.x rd.number
        (register_result op (register_value registers.old.x rs1.number)
        (register_value registers.old.x rs2.number)) }
    ensures pc { pc.new ≡ next_pc pc.old }
{
    let value = register_result(op, registers.get(rs1), registers.get(rs2));
    write(rd, value, registers, pc)
}

/// Does a load.
#[tactic(auto, unfolding(rv_model::specs::Exec::effect_of))]
fn load<M: Memory>(
    op: LoadOp,
    rd: Register,
    rs1: Register,
    imm: i32,
    registers: &mut Registers,
    pc: &mut u32,
    memory: &M,
) -> Event
    ensures done { outcome_of_event result registers.new.x pc.new (M.holds memory.now)
        ≡ effect_of M.access (Inst.Load op rd.number rs1.number imm) registers.old.x pc.old
        (M.holds memory.now) }
    ensures registers_stay { OnStopped result (registers.new.x ≡ registers.old.x) }
    ensures pc_stays { OnStopped result (pc.new ≡ pc.old) }
{
    let address = registers.get(rs1).wrapping_add_signed(imm);
    let load_answer = match op {
        LoadOp::Lb | LoadOp::Lbu => memory.load(address, AccessSize::byte()),
        LoadOp::Lh | LoadOp::Lhu => memory.load(address, AccessSize::half()),
        LoadOp::Lw => memory.load(address, AccessSize::word()),
    };
    match load_answer {
        Ok(n) => write(rd, loaded_number(op, n), registers, pc),
        Err(cause) => Event::Stopped(cause),
    }
}

/// Does a store.
#[tactic(auto, unfolding(rv_model::specs::Exec::effect_of))]
fn store<M: Memory>(
    op: StoreOp,
    rs1: Register,
    rs2: Register,
    imm: i32,
    registers: &Registers,
    pc: &mut u32,
    memory: &mut M,
) -> Event
    ensures done { outcome_of_event result registers.now.x pc.new (M.holds memory.new)
        ≡ effect_of M.access (Inst.Store op rs1.number rs2.number imm) registers.now.x pc.old
        (M.holds memory.old) }
    ensures pc_stays { OnStopped result (pc.new ≡ pc.old) }
    ensures memory_stays { OnStopped result (M.holds memory.new ≡ M.holds memory.old) }
    ensures rest { M.rest memory.new ≡ M.rest memory.old }
{
    let address = registers.get(rs1).wrapping_add_signed(imm);
    let value = registers.get(rs2);
    let store_answer = match op {
        StoreOp::Sb => memory.store(address, AccessSize::byte(), value % 0x100),
        StoreOp::Sh => memory.store(address, AccessSize::half(), value % 0x1_0000),
        StoreOp::Sw => memory.store(address, AccessSize::word(), value),
    };
    match store_answer {
        Ok(()) => advance(Event::Advance, pc),
        Err(cause) => Event::Stopped(cause),
    }
}
