// The expected values were worked out by hand from the RISC-V unprivileged specification.
use super::*;
use crate::PrivateMemory;
use rv_model::{AccessSize, PRIVATE_START, Register, Stop, WORD_SIZE};
use std::process::Abort;
use std::test::Fail;

const NEXT: u32 = PRIVATE_START + WORD_SIZE;

const DATA: u32 = PRIVATE_START + 0x100;

const ONES: u32 = 0xFFFF_FFFF;

const MAX: u32 = 0x7FFF_FFFF;

const MIN: u32 = 0x8000_0000;

// Registers of which x1, x2 and x3 are these, and the others 0.
fn three_registers(x1: u32, x2: u32, x3: u32) -> Registers {
    let mut registers = Registers::new();
    registers.set(Register { number: 1 }, x1);
    registers.set(Register { number: 2 }, x2);
    registers.set(Register { number: 3 }, x3);
    registers
}

// Checks what `word` does at PRIVATE_START.
fn check(
    rt: &impl Abort,
    memory: &mut PrivateMemory,
    word: u32,
    mut registers: Registers,
    event: Event,
    after: Registers,
    target: u32,
) {
    let mut pc = PRIVATE_START;
    assert_eq!(rt;
        memory.store(PRIVATE_START, AccessSize::word(), word),
        Ok(())
    );
    assert_eq!(rt; step(&mut registers, &mut pc, memory), event, "{word:x}");
    assert_eq!(rt; registers, after, "{word:x}");
    assert_eq!(rt; pc, target, "{word:x}");
}

// Checks x3 after each word, where x1 and x2 are the two numbers beside it.
fn check_results(rt: &impl Abort, memory: &mut PrivateMemory, rows: &[(u32, u32, u32, u32)]) {
    for (word, a, b, result) in rows {
        let after = three_registers(*a, *b, *result);
        check(
            rt,
            memory,
            *word,
            three_registers(*a, *b, 77),
            Event::Advance,
            after,
            NEXT,
        );
    }
}

#[test]
fn sums_and_comparisons_of_registers(rt: HostRuntime) -> Result<(), Fail> {
    let mut memory = PrivateMemory::new(rt.alloc())?;
    let rows = [
        // add
        (0x002081B3, 0, 0, 0),
        (0x002081B3, 1, ONES, 0),
        (0x002081B3, MAX, 1, MIN),
        (0x002081B3, MIN, MIN, 0),
        // sub
        (0x402081B3, 0, 1, ONES),
        (0x402081B3, 1, ONES, 2),
        (0x402081B3, MIN, 1, MAX),
        (0x402081B3, 0, MIN, MIN),
        // slt
        (0x0020A1B3, ONES, 0, 1),
        (0x0020A1B3, 0, ONES, 0),
        (0x0020A1B3, MIN, MAX, 1),
        (0x0020A1B3, MAX, MIN, 0),
        (0x0020A1B3, 1, 1, 0),
        // sltu
        (0x0020B1B3, ONES, 0, 0),
        (0x0020B1B3, 0, ONES, 1),
        (0x0020B1B3, MIN, MAX, 0),
        (0x0020B1B3, MAX, MIN, 1),
        (0x0020B1B3, 1, 1, 0),
    ];
    check_results(&rt, &mut memory, &rows);
    Ok(())
}

#[test]
fn shifts_and_bitwise_operations_of_registers(rt: HostRuntime) -> Result<(), Fail> {
    let mut memory = PrivateMemory::new(rt.alloc())?;
    let rows = [
        // sll
        (0x002091B3, 3, 0, 3),
        (0x002091B3, 3, 31, MIN),
        (0x002091B3, ONES, 32, ONES),
        (0x002091B3, 1, 33, 2),
        // srl
        (0x0020D1B3, MIN, 0, MIN),
        (0x0020D1B3, MIN, 31, 1),
        (0x0020D1B3, ONES, 1, MAX),
        (0x0020D1B3, MIN, 32, MIN),
        // sra
        (0x4020D1B3, MIN, 0, MIN),
        (0x4020D1B3, MIN, 31, ONES),
        (0x4020D1B3, MAX, 31, 0),
        (0x4020D1B3, MIN, 33, 0xC000_0000),
        // xor
        (0x0020C1B3, ONES, MAX, MIN),
        (0x0020C1B3, 0xF0F0_F0F0, 0xFF00_FF00, 0x0FF0_0FF0),
        // or
        (0x0020E1B3, MIN, 1, 0x8000_0001),
        (0x0020E1B3, 0xF0F0_F0F0, 0x0F0F_0F0F, ONES),
        // and
        (0x0020F1B3, ONES, MIN, MIN),
        (0x0020F1B3, 0xF0F0_F0F0, 0xFF00_FF00, 0xF000_F000),
    ];
    check_results(&rt, &mut memory, &rows);
    Ok(())
}

#[test]
fn sums_and_comparisons_with_numbers(rt: HostRuntime) -> Result<(), Fail> {
    let mut memory = PrivateMemory::new(rt.alloc())?;
    let rows = [
        // addi by -1, 1, -2,048 and 2,047
        (0xFFF08193, 0, 0, ONES),
        (0xFFF08193, MIN, 0, MAX),
        (0x00108193, MAX, 0, MIN),
        (0x00108193, ONES, 0, 0),
        (0x80008193, 0, 0, 0xFFFF_F800),
        (0x7FF08193, MAX, 0, 0x8000_07FE),
        // slti -1 and 1
        (0xFFF0A193, MIN, 0, 1),
        (0xFFF0A193, ONES, 0, 0),
        (0xFFF0A193, 0, 0, 0),
        (0x0010A193, ONES, 0, 1),
        (0x0010A193, 0, 0, 1),
        (0x0010A193, MAX, 0, 0),
        // sltiu -1, which is the greatest number, and 1
        (0xFFF0B193, 0, 0, 1),
        (0xFFF0B193, MIN, 0, 1),
        (0xFFF0B193, ONES, 0, 0),
        (0x0010B193, 0, 0, 1),
        (0x0010B193, ONES, 0, 0),
    ];
    check_results(&rt, &mut memory, &rows);
    Ok(())
}

#[test]
fn shifts_and_bitwise_operations_by_numbers(rt: HostRuntime) -> Result<(), Fail> {
    let mut memory = PrivateMemory::new(rt.alloc())?;
    let rows = [
        // slli by 0 and 31
        (0x00009193, ONES, 0, ONES),
        (0x01F09193, ONES, 0, MIN),
        // srli by 0 and 31
        (0x0000D193, MIN, 0, MIN),
        (0x01F0D193, MIN, 0, 1),
        // srai by 0 and 31
        (0x4000D193, MIN, 0, MIN),
        (0x41F0D193, MIN, 0, ONES),
        (0x41F0D193, MAX, 0, 0),
        // xori -1
        (0xFFF0C193, 0, 0, ONES),
        (0xFFF0C193, MAX, 0, MIN),
        // ori -1 and 1
        (0xFFF0E193, 0, 0, ONES),
        (0x0010E193, MIN, 0, 0x8000_0001),
        // andi -1, 1 and -2,048
        (0xFFF0F193, MIN, 0, MIN),
        (0x0010F193, ONES, 0, 1),
        (0x8000F193, ONES, 0, 0xFFFF_F800),
    ];
    check_results(&rt, &mut memory, &rows);
    Ok(())
}

#[test]
fn upper_numbers_and_x0(rt: HostRuntime) -> Result<(), Fail> {
    let mut memory = PrivateMemory::new(rt.alloc())?;
    let rows = [
        // lui 0x80000 and 0x7FFFF
        (0x800001B7, 0, 0, MIN),
        (0x7FFFF1B7, 0, 0, 0x7FFF_F000),
        // auipc 0, 0xFFFFF and 0x80000
        (0x00000197, 0, 0, 0x0001_0000),
        (0xFFFFF197, 0, 0, 0x0000_F000),
        (0x80000197, 0, 0, 0x8001_0000),
        // addi and lui to x0, and fence
        (0x00108013, 5, 0, 77),
        (0x80000037, 5, 0, 77),
        (0x0FF0000F, 5, 6, 77),
        // add x3, x0, x0
        (0x000001B3, 5, 6, 0),
    ];
    check_results(&rt, &mut memory, &rows);
    Ok(())
}

// Checks where the six branches by 8 go, where x1 and x2 are the two numbers.
fn check_branches(rt: &impl Abort, memory: &mut PrivateMemory, a: u32, b: u32, taken: &[bool]) {
    // beq, bne, blt, bge, bltu, bgeu
    let words = [
        0x00208463, 0x00209463, 0x0020C463, 0x0020D463, 0x0020E463, 0x0020F463,
    ];
    let registers = three_registers(a, b, 77);
    for (word, taken) in words.iter().zip(taken) {
        let target = if *taken { 0x1_0008 } else { NEXT };
        check(
            rt,
            memory,
            *word,
            registers,
            Event::Advance,
            registers,
            target,
        );
    }
}

#[test]
fn branches(rt: HostRuntime) -> Result<(), Fail> {
    let mut memory = PrivateMemory::new(rt.alloc())?;
    let rows = [
        (0, 0, [true, false, false, true, false, true]),
        (1, ONES, [false, true, false, true, true, false]),
        (ONES, 0, [false, true, true, false, false, true]),
        (MIN, MAX, [false, true, true, false, false, true]),
        (MAX, MIN, [false, true, false, true, true, false]),
        (MIN, MIN, [true, false, false, true, false, true]),
    ];
    for (a, b, taken) in &rows {
        check_branches(&rt, &mut memory, *a, *b, taken);
    }
    Ok(())
}

#[test]
fn jumps(rt: HostRuntime) -> Result<(), Fail> {
    let mut memory = PrivateMemory::new(rt.alloc())?;
    let refused = Event::Stopped(Stop::Target(PRIVATE_START));
    // Each word, x1 before it, what it comes to, and the pc and x1 afterwards.
    let rows = [
        // jal x1 by 6, 8 and -4
        (0x006000EF, 0, refused, PRIVATE_START, 0),
        (0x008000EF, 0, Event::Advance, 0x1_0008, NEXT),
        (0xFFDFF0EF, 0, Event::Advance, 0xFFFC, NEXT),
        // jal x0 by 8
        (0x0080006F, 5, Event::Advance, 0x1_0008, 5),
        // bne x0, x0 by 6, and beq x0, x0 by 6
        (0x00001363, 0, Event::Advance, NEXT, 0),
        (0x00000363, 0, refused, PRIVATE_START, 0),
        // beq x0, x0 by -4
        (0xFE000EE3, 0, Event::Advance, 0xFFFC, 0),
        // jalr x1, 0(x1) and jalr x1, 1(x1)
        (0x000080E7, 0x1_0010, Event::Advance, 0x1_0010, NEXT),
        (0x000080E7, 0x1_0012, refused, PRIVATE_START, 0x1_0012),
        (0x001080E7, 0x1_0008, Event::Advance, 0x1_0008, NEXT),
        (0x001080E7, 0x1_0009, refused, PRIVATE_START, 0x1_0009),
        (0x001080E7, 0x1_000B, Event::Advance, 0x1_000C, NEXT),
    ];
    for (word, before, event, pc, after) in &rows {
        let after = three_registers(*after, 0, 0);
        check(
            &rt,
            &mut memory,
            *word,
            three_registers(*before, 0, 0),
            *event,
            after,
            *pc,
        );
    }
    Ok(())
}

#[test]
fn loads(rt: HostRuntime) -> Result<(), Fail> {
    let mut memory = PrivateMemory::new(rt.alloc())?;
    assert_eq!(rt; memory.store(DATA, AccessSize::word(), 0x017F_FF80), Ok(()));
    let rows = [
        // lb
        (0x00008183, DATA, 0, 0xFFFF_FF80),
        (0x00008183, DATA + 1, 0, ONES),
        (0x00008183, DATA + 2, 0, 0x7F),
        (0x00008183, DATA + 3, 0, 1),
        // lbu
        (0x0000C183, DATA, 0, 0x80),
        (0x0000C183, DATA + 1, 0, 0xFF),
        // lh and lhu
        (0x00009183, DATA, 0, 0xFFFF_FF80),
        (0x00009183, DATA + 2, 0, 0x17F),
        (0x0000D183, DATA, 0, 0xFF80),
        // lw by 0 and -4
        (0x0000A183, DATA, 0, 0x017F_FF80),
        (0xFFC0A183, DATA + 4, 0, 0x017F_FF80),
        // lw to x0, and from the last word
        (0x0000A003, DATA, 0, 77),
        (0x0000A183, 0x2_FFFC, 0, 0),
    ];
    check_results(&rt, &mut memory, &rows);
    Ok(())
}

// Checks the word at DATA, which was 0x017F_FF80, after a store of 0x1234_5678, where x1 is
// `address`.
fn check_store(rt: &impl Abort, memory: &mut PrivateMemory, word: u32, address: u32, stored: u32) {
    assert_eq!(rt; memory.store(DATA, AccessSize::word(), 0x017F_FF80), Ok(()));
    let registers = three_registers(address, 0x1234_5678, 77);
    check(rt, memory, word, registers, Event::Advance, registers, NEXT);
    assert_eq!(rt;
        memory.load(DATA, AccessSize::word()),
        Ok(stored),
        "{word:x} {address:x}"
    );
    assert_eq!(rt; memory.load(DATA - 4, AccessSize::word()), Ok(0));
    assert_eq!(rt; memory.load(DATA + 4, AccessSize::word()), Ok(0));
}

#[test]
fn stores(rt: HostRuntime) -> Result<(), Fail> {
    let mut memory = PrivateMemory::new(rt.alloc())?;
    let rows = [
        // sb, sh, sw, and sw by -4
        (0x00208023, DATA, 0x017F_FF78),
        (0x00208023, DATA + 1, 0x017F_7880),
        (0x00208023, DATA + 3, 0x787F_FF80),
        (0x00209023, DATA, 0x017F_5678),
        (0x00209023, DATA + 2, 0x5678_FF80),
        (0x0020A023, DATA, 0x1234_5678),
        (0xFE20AE23, DATA + 4, 0x1234_5678),
    ];
    for (word, address, stored) in &rows {
        check_store(&rt, &mut memory, *word, *address, *stored);
    }
    Ok(())
}

#[test]
fn stops(rt: HostRuntime) -> Result<(), Fail> {
    let mut memory = PrivateMemory::new(rt.alloc())?;
    let rows = [
        // the words 0, fence.i and ebreak
        (0x00000000, 0, Stop::Illegal(PRIVATE_START, 0)),
        (0x0000100F, 0, Stop::Illegal(PRIVATE_START, 0x0000100F)),
        (0x00100073, 0, Stop::Break(PRIVATE_START)),
        // lb, lh, lw and sw: a misaligned address comes first
        (0x00009183, 0x1_0101, Stop::Misaligned(0x1_0101)),
        (0x0000A183, 0x8000_0002, Stop::Misaligned(0x8000_0002)),
        (0x0020A023, 0x1_0102, Stop::Misaligned(0x1_0102)),
        (0x00008183, 0xFFFF, Stop::Unmapped(0xFFFF)),
        (0x0000A183, 0x3_0000, Stop::Unmapped(0x3_0000)),
        (0x0020A023, 0x8000_0000, Stop::Unmapped(0x8000_0000)),
        // lb by 1: addresses go on from 0
        (0x00108183, ONES, Stop::Unmapped(0)),
    ];
    for (word, address, cause) in &rows {
        let registers = three_registers(*address, 5, 77);
        check(
            &rt,
            &mut memory,
            *word,
            registers,
            Event::Stopped(*cause),
            registers,
            PRIVATE_START,
        );
    }
    Ok(())
}

#[test]
fn fetches_outside(rt: HostRuntime) -> Result<(), Fail> {
    let mut memory = PrivateMemory::new(rt.alloc())?;
    for start in [0xFFFC, 0x1_0002, 0x3_0000, 0x8000_0000] {
        let mut pc = start;
        let event = step(&mut three_registers(0, 0, 0), &mut pc, &mut memory);
        assert_eq!(rt; event, Event::Stopped(Stop::Fetch(start)));
    }
    Ok(())
}

#[test]
fn calls(rt: HostRuntime) -> Result<(), Fail> {
    let mut memory = PrivateMemory::new(rt.alloc())?;
    memory.load_into_zeros(&[0x6F, 0, 0, 0, 9]);
    assert_eq!(rt; memory.load(PRIVATE_START, AccessSize::word()), Ok(0x6F));
    assert_eq!(rt; memory.load(NEXT, AccessSize::word()), Ok(9));
    let registers = three_registers(1, 2, 3);
    check(
        &rt,
        &mut memory,
        0x00000073,
        registers,
        Event::Call,
        registers,
        NEXT,
    );
    memory.load_image(&[0x13, 0, 0, 0, 7]);
    assert_eq!(rt; memory.load(PRIVATE_START, AccessSize::word()), Ok(0x13));
    assert_eq!(rt; memory.load(NEXT, AccessSize::word()), Ok(7));
    memory.load_image(&[0x6F]);
    assert_eq!(rt; memory.bytes().first(), Some(&0x6F));
    assert_eq!(rt; memory.load(NEXT, AccessSize::word()), Ok(0));
    Ok(())
}
