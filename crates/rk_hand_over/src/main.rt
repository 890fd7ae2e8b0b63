//! Has a process hand a block to itself, as often as the program's one word says, and tells how
//! often it did.
#![tactic(auto)]

use ce_model::{PROCESS_COUNT, WINDOW_COUNT};
use ce_text::TEXT_LIMIT;
use rk_rows::{LoneNode, RowFault};
use rv_asm::assemble;
use rv_image::Image;
use std::alloc::Global;
use std::env::Env;
use std::{env, io};

/// Takes a block, and then over and over sends it to itself, waits for it, and counts in it: a turn
/// that takes the message runs 12 instructions up to the next xrecvb.
const PROGRAM: &str = "\
        li a0, 4\n\
        li a7, 1\n\
        ecall\n\
        li a1, 0\n\
loop:   li a2, 0\n\
        li a7, 4\n\
        ecall\n\
        li a7, 7\n\
        ecall\n\
        lw t0, 0(a0)\n\
        addi t0, t0, 1\n\
        sw t0, 0(a0)\n\
        li a1, 0\n\
        nop\n\
        nop\n\
        j loop\n";

/// How often a process can be handed a block that has taken one before: as often as it has windows
/// left.
const PROCESS_HAND_OVERS: u64 = WINDOW_COUNT as u64 - 1;

fn main(rt: HostRuntime) -> io::Result<()> {
    let count = count_of(&rt)?;
    match hand_overs(rt.alloc(), count) {
        Ok(total) => println!(rt; "{total} hand-overs"),
        Err(fault) => println!(rt; "{fault}"),
    }
}

/// The program's one word as a number; 0 where it is none.
fn count_of<R: Env + AllocGlobal>(rt: &R) -> io::Result<u64> {
    match env::args(rt)?.nth(1) {
        Some(word) => Ok(word.as_str().parse().unwrap_or(0)),
        None => Ok(0),
    }
}

/// Makes so many hand-overs: how many there were.
fn hand_overs(alloc: Global, count: u64) -> Result<u64, RowFault> {
    let mut total: u64 = 0;
    for _ in 0..count {
        if total >= count {
            return Ok(total);
        }
        total = total.saturating_add(node_hand_overs(alloc, count - total)?);
    }
    Ok(total)
}

/// Makes so many hand-overs at most, in one node, whose processes hand blocks over one after the
/// other.
fn node_hand_overs(alloc: Global, greatest: u64) -> Result<u64, RowFault> {
    let mut images = Vec::new(alloc);
    images.push(image(alloc)?)?;
    let mut node = LoneNode::new(alloc, images, false)?;
    let mut total: u64 = 0;
    for pid in 0..PROCESS_COUNT {
        if total < greatest {
            let old_count = node.parcels();
            process_hand_overs(&mut node, pid, (greatest - total).min(PROCESS_HAND_OVERS))?;
            let parcel_count = node.parcels().saturating_sub(old_count);
            total = total.saturating_add(parcel_count.saturating_sub(1));
        }
    }
    Ok(total)
}

/// Has a process start, send its block, and be handed it so often; a process that has no window
/// left is told so then.
fn process_hand_overs(node: &mut LoneNode, pid: u32, count: u64) -> Result<(), RowFault> {
    node.spawn(0, pid)?;
    node.exchange()?;
    node.exchange()?;
    for _ in 0..count {
        node.exchange()?;
        node.exchange()?;
    }
    node.exchange()?;
    Ok(())
}

fn image(alloc: Global) -> Result<Image, RowFault> {
    if PROGRAM.len() >= TEXT_LIMIT {
        return Err(RowFault::Images);
    }
    assemble(alloc, PROGRAM.as_bytes()).map_err(|_| RowFault::Images)
}
