// The instruction words were worked out by hand from the RISC-V unprivileged specification.
ghost use Rattle.std.specs.Prelude.{◌≡◌, ◌≤◌, ◌<◌, ◌+◌, ℕ, None, IfOk};
ghost use Rattle.ce_model.specs.Limits.{block_room, window_count};
ghost use Rattle.xm_owner.specs.Holdings.{block_held_at};

use super::*;
use ce_model::calls::NUMBER_ARGUMENT;
use ce_model::{BlockId, Status, WINDOW_BASE, WINDOW_SIZE};
use rv_image::Image;
use rv_model::{A0, PRIVATE_START, Register, Stop};
use std::alloc::Global;
use std::process::Abort;
use std::test::Fail;
use xm_block::{Block, Store};
use xm_owner::HeldBlocks;

// The register of a kernel call's number.
const A7: u8 = A0 + NUMBER_ARGUMENT as u8;

fn image(alloc: Global, words: &[u32]) -> Result<Image, Fail> {
    let mut bytes = Vec::new(alloc);
    for word in words {
        bytes.extend_from_slice(&word.to_le_bytes())?;
    }
    Ok(Image::of_parts(PRIVATE_START, bytes, 0)?)
}

fn block(alloc: Global, index: u32) -> Result<Block, Fail>
    ensures { IfOk result (λ block. block.id ≡ record { home = 0; index = index }) }
{
    Ok(Block::new(alloc, BlockId { home: 0, index })?)
}

#[test]
fn openings(rt: HostRuntime) -> Result<(), Fail> {
    let process = Process::new(rt.alloc())?;
    assert_eq!(rt; process.status(), Status::Unborn);
    assert_eq!(rt; process.windows(), 0);
    Ok(())
}

// Checks what loads of process `pid` at these addresses answer.
fn check_loads(
    rt: &impl Abort,
    process: &Process,
    pid: u32,
    held_blocks: &HeldBlocks,
    rows: &[(u32, Result<u32, Stop>)],
) {
    for (address, answer) in rows {
        assert_eq!(rt;
            process.load_word(pid, held_blocks, *address),
            *answer,
            "{address:x}"
        );
    }
}

#[test]
fn rules_of_private_memory(rt: HostRuntime) -> Result<(), Fail> {
    let held_blocks = HeldBlocks::new(rt.alloc(), 0)?;
    let process = Process::new(rt.alloc())?;
    let rows = [
        (0x0001_0001, Err(Stop::Misaligned(0x0001_0001))),
        (0x0001_0000, Ok(0)),
        (0x0000_FFFC, Err(Stop::Unmapped(0x0000_FFFC))),
        (0x0002_FFFC, Ok(0)),
        (0x0003_0000, Err(Stop::Unmapped(0x0003_0000))),
        (0x7FFF_FFFC, Err(Stop::Unmapped(0x7FFF_FFFC))),
        (0x8000_0000, Err(Stop::Unmapped(0x8000_0000))),
    ];
    check_loads(&rt, &process, 4, &held_blocks, &rows);
    Ok(())
}

#[test]
#[tactic(auto, unfolding(ce_model::specs::Limits::window_count, ce_model::specs::Limits::block_room))]
fn rules_of_windows(rt: HostRuntime) -> Result<(), Fail> {
    let mut held_blocks = HeldBlocks::new(rt.alloc(), 1)?;
    let mut process = Process::new(rt.alloc())?;
    let mut bytes = block(rt.alloc(), 0)?;
    bytes.fill(&[1, 2, 3, 4, 5, 6, 7, 8]);
    held_blocks.map(4, process.give_window(), bytes);
    assert_eq!(rt; process.windows(), 1);
    let rows = [
        (0x8000_0001, Err(Stop::Misaligned(0x8000_0001))),
        (0x8000_0000, Ok(0x0403_0201)),
        (0x8000_0004, Ok(0x0807_0605)),
        (0x8000_0008, Err(Stop::PastEnd(0x8000_0008))),
        (0x8001_0000, Err(Stop::Unmapped(0x8001_0000))),
    ];
    check_loads(&rt, &process, 4, &held_blocks, &rows);
    let other_rows = [(0x8000_0000, Err(Stop::Gone(0x8000_0000)))];
    check_loads(&rt, &process, 5, &held_blocks, &other_rows);
    assert!(rt; held_blocks.unmap(4, 0).is_some());
    windows_stay_gone_law();
    let later_rows = [
        (0x8000_0001, Err(Stop::Misaligned(0x8000_0001))),
        (0x8000_0000, Err(Stop::Gone(0x8000_0000))),
        (0x8000_FFFC, Err(Stop::Gone(0x8000_FFFC))),
    ];
    check_loads(&rt, &process, 4, &held_blocks, &later_rows);
    Ok(())
}

// lui a0, 0x80001; sw sp, -4(a0); lui a0, 0x80010; lb a1, 0(a0)
#[test]
#[tactic(auto, unfolding(ce_model::specs::Limits::window_count, ce_model::specs::Limits::block_room))]
fn sizes(rt: HostRuntime) -> Result<(), Fail> {
    let mut held_blocks = HeldBlocks::new(rt.alloc(), 2)?;
    let mut process = Process::new(rt.alloc())?;
    process.start(&image(
        rt.alloc(),
        &[0x8000_1537, 0xFE25_2E23, 0x8001_0537, 0x0005_0583],
    )?);
    let mut full_block = block(rt.alloc(), 0)?;
    full_block.reset(4096);
    held_blocks.map(0, process.give_window(), full_block);
    held_blocks.map(0, process.give_window(), block(rt.alloc(), 1)?);
    let mut instructions_left = 10;
    let pause = process.run_to_call(0, &mut held_blocks, &mut instructions_left);
    assert_eq!(rt; pause, Pause::Stopped(Stop::PastEnd(0x8001_0000)));
    assert_eq!(rt; instructions_left, 6);
    let rows = [
        (0x8000_0FFC, Ok(0x0003_0000)),
        (0x8000_1000, Err(Stop::PastEnd(0x8000_1000))),
    ];
    check_loads(&rt, &process, 0, &held_blocks, &rows);
    Ok(())
}

// li a0, 42; li a7, 14; ecall
#[test]
fn run_to_a_call(rt: HostRuntime) -> Result<(), Fail> {
    let mut held_blocks = HeldBlocks::new(rt.alloc(), 0)?;
    let mut process = Process::new(rt.alloc())?;
    process.start(&image(rt.alloc(), &[0x02A0_0513, 0x00E0_0893, 0x0000_0073])?);
    assert_eq!(rt; process.status(), Status::Running);
    assert_eq!(rt; process.register(Register::sp()), 0x0003_0000);
    let mut instructions_left = 10;
    let pause = process.run_to_call(0, &mut held_blocks, &mut instructions_left);
    assert_eq!(rt; pause, Pause::Call);
    assert_eq!(rt; instructions_left, 7);
    assert_eq!(rt; process.register(Register::a0()), 42);
    assert_eq!(rt; process.register(Register { number: A7 }), 14);
    process.answer(7);
    assert_eq!(rt; process.register(Register::a0()), 7);
    process.set_status(Status::Asking);
    assert_eq!(rt; process.status(), Status::Asking);
    process.reset();
    assert_eq!(rt; process.status(), Status::Unborn);
    assert_eq!(rt; process.register(Register::a0()), 0);
    assert_eq!(rt; process.load_word(0, &held_blocks, PRIVATE_START), Ok(0));
    Ok(())
}

// lui t0, 0x10; sw sp, 64(t0); ecall. What the process wrote is gone once it is reset and starts
// anew.
#[test]
fn memory_starts_anew(rt: HostRuntime) -> Result<(), Fail> {
    let mut held_blocks = HeldBlocks::new(rt.alloc(), 0)?;
    let mut process = Process::new(rt.alloc())?;
    process.start(&image(rt.alloc(), &[0x0001_02B7, 0x0422_A023, 0x0000_0073])?);
    let mut instructions_left = 10;
    assert_eq!(rt;
        process.run_to_call(0, &mut held_blocks, &mut instructions_left),
        Pause::Call
    );
    assert_eq!(rt;
        process.load_word(0, &held_blocks, PRIVATE_START + 64),
        Ok(0x0003_0000)
    );
    process.reset();
    process.start(&image(rt.alloc(), &[0x0000_0073])?);
    assert_eq!(rt;
        process.load_word(0, &held_blocks, PRIVATE_START),
        Ok(0x0000_0073)
    );
    assert_eq!(rt;
        process.load_word(0, &held_blocks, PRIVATE_START + 4),
        Ok(0)
    );
    assert_eq!(rt;
        process.load_word(0, &held_blocks, PRIVATE_START + 64),
        Ok(0)
    );
    Ok(())
}

// A loop that jumps to itself. With nothing left it stops before anything is fetched.
#[test]
fn turn_spent(rt: HostRuntime) -> Result<(), Fail> {
    let mut held_blocks = HeldBlocks::new(rt.alloc(), 0)?;
    let mut process = Process::new(rt.alloc())?;
    process.start(&image(rt.alloc(), &[0x0000_006F])?);
    let mut instructions_left = 3;
    let pause = process.run_to_call(0, &mut held_blocks, &mut instructions_left);
    assert_eq!(rt; pause, Pause::Stopped(Stop::TurnSpent));
    assert_eq!(rt; instructions_left, 0);
    let again = process.run_to_call(0, &mut held_blocks, &mut instructions_left);
    assert_eq!(rt; again, Pause::Stopped(Stop::TurnSpent));
    Ok(())
}

// What the kernel does for a process that asks for a block of this length: the least block of the
// store at its next window.
#[tactic(auto, unfolding(ce_model::specs::Limits::window_count))]
fn allocate(
    process: &mut Process,
    held_blocks: &mut HeldBlocks,
    store: &mut Store,
    length: u32,
) -> u32
    requires length { length ≤ block_room }
    requires unused { process.old.used_count < window_count }
    requires room { 1 ≤ held_blocks.old.spare }
    requires vacant { (k : ℕ) → process.old.used_count ≤ k
        → block_held_at held_blocks.old.mappings 0 k ≡ None }
    ensures used { process.new.used_count ≤ process.old.used_count + 1 }
    ensures room { held_blocks.old.spare ≤ held_blocks.new.spare + 1 }
    ensures vacant { (k : ℕ) → process.new.used_count ≤ k
        → block_held_at held_blocks.new.mappings 0 k ≡ None }
    ensures spare { store.old.spare ≤ store.new.spare }
{
    match store.take_least() {
        None => 0,
        Some(mut taken_block) => {
            taken_block.reset(length);
            let window = process.give_window();
            held_blocks.map(0, window, taken_block);
            WINDOW_BASE + WINDOW_SIZE * window
        }
    }
}

#[test]
#[tactic(auto, unfolding(ce_model::specs::Limits::window_count, ce_model::specs::Limits::block_room, ce_model::specs::Limits::home_blocks))]
fn store(rt: HostRuntime) -> Result<(), Fail> {
    let mut held_blocks = HeldBlocks::new(rt.alloc(), 40)?;
    let mut process = Process::new(rt.alloc())?;
    let mut store = Store::of_home(rt.alloc(), 0, 40)?;
    for k in 0..32u32 {
        let address = allocate(&mut process, &mut held_blocks, &mut store, 16);
        assert_eq!(rt; address, WINDOW_BASE + WINDOW_SIZE * k);
    }
    assert_eq!(rt; allocate(&mut process, &mut held_blocks, &mut store, 16), 0);
    assert_eq!(rt; store.count(), 0);
    match held_blocks.unmap(0, 0) {
        Some(freed_block) => store.give(freed_block),
        None => panic!(rt; "window 0 is empty"),
    }
    assert_eq!(rt;
        allocate(&mut process, &mut held_blocks, &mut store, 16),
        WINDOW_BASE + WINDOW_SIZE * 32
    );
    assert_eq!(rt; process.windows(), 33);
    Ok(())
}
