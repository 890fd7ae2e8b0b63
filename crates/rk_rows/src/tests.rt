mod rows;

use super::*;
use ce_model::{PROCESS_COUNT, Status};
use ce_text::TEXT_LIMIT;
use rows::{
    ANSWERS, CALLS_SPENT, CAUSES_OF_CALLS, CAUSES_OF_INSTRUCTIONS, IDLE, JUMPS, KILLED,
    KILLED_LATE, MAIL_FOR_ONE_THAT_ASKS, MAIL_FOR_ONE_THAT_HAS_STOPPED, MAIL_FOR_ONE_THAT_POLLS,
    POLLED, Row, RowCommand, SIZES, STARTED, UNREAD, WINDOWS, XMSEND,
};
use rv_asm::assemble;
use rv_image::Image;
use std::alloc::Global;
use std::process::Abort;
use std::test::Fail;

/// How many exchanges a row has at most.
const GREATEST_EXCHANGES: u32 = 100;

fn image(alloc: Global, text: &str) -> Result<Image, Fail> {
    if text.len() >= TEXT_LIMIT {
        return Err("a long text")?;
    }
    Ok(assemble(alloc, text.as_bytes())?)
}

/// The images of a row.
fn row_images(alloc: Global, row: &Row) -> Result<Vec<Image>, Fail> {
    let mut images = Vec::new(alloc);
    for text in row.images {
        images.push(image(alloc, text)?)?;
    }
    Ok(images)
}

/// The node once the commands of a row were made.
fn driven_node(alloc: Global, row: &Row) -> Result<LoneNode, Fail> {
    let mut node = LoneNode::new(alloc, row_images(alloc, row)?, true)?;
    for command in row.commands {
        match *command {
            RowCommand::Spawn { image, pid } => {
                node.spawn(image, pid)?;
            }
            RowCommand::Kill { pid } => {
                node.kill(pid)?;
            }
            RowCommand::Run => node.run(GREATEST_EXCHANGES)?,
        }
    }
    Ok(node)
}

/// What a process does at this moment; None where there is none of its id.
#[tactic(auto, using(ce_model::specs::Limits::process_count_lem))]
fn status_of(node: &LoneNode, pid: u32) -> Option<Status> {
    if pid >= PROCESS_COUNT {
        return None;
    }
    Some(node.status(pid))
}

/// The node says and hears what the row has, and its processes end so.
fn holds(rt: &impl Abort, alloc: Global, row: &Row) -> Result<(), Fail> {
    let title = row.title;
    let node = driven_node(alloc, row)?;
    assert_eq!(rt; node.transcript(), row.transcript, "{title}");
    for (pid, status) in row.ends {
        assert_eq!(rt;
            status_of(&node, *pid),
            Some(*status),
            "{title}, process {pid}"
        );
    }
    Ok(())
}

#[test]
fn sizes(rt: HostRuntime) -> Result<(), Fail> {
    holds(&rt, rt.alloc(), &SIZES)
}

#[test]
fn windows(rt: HostRuntime) -> Result<(), Fail> {
    holds(&rt, rt.alloc(), &WINDOWS)
}

#[test]
fn jumps(rt: HostRuntime) -> Result<(), Fail> {
    holds(&rt, rt.alloc(), &JUMPS)
}

#[test]
fn xmsend(rt: HostRuntime) -> Result<(), Fail> {
    for row in [XMSEND, UNREAD, CALLS_SPENT] {
        holds(&rt, rt.alloc(), &row)?;
    }
    Ok(())
}

#[test]
fn stop_causes(rt: HostRuntime) -> Result<(), Fail> {
    for row in [CAUSES_OF_INSTRUCTIONS, CAUSES_OF_CALLS, WINDOWS] {
        holds(&rt, rt.alloc(), &row)?;
    }
    Ok(())
}

#[test]
fn hears(rt: HostRuntime) -> Result<(), Fail> {
    for row in [
        STARTED,
        MAIL_FOR_ONE_THAT_ASKS,
        MAIL_FOR_ONE_THAT_POLLS,
        MAIL_FOR_ONE_THAT_HAS_STOPPED,
        KILLED,
        KILLED_LATE,
        POLLED,
        ANSWERS,
        IDLE,
    ] {
        holds(&rt, rt.alloc(), &row)?;
    }
    Ok(())
}

#[test]
fn nothing_goes_on_behind_a_fault(rt: HostRuntime) -> Result<(), Fail> {
    let alloc = rt.alloc();
    let mut node = LoneNode::new(alloc, Vec::new(alloc), true)?;
    assert_eq!(rt; node.spawn(0, PROCESS_COUNT).err(), Some(RowFault::Place));
    assert_eq!(rt; node.run(1).err(), Some(RowFault::Stuck));
    let mut other = LoneNode::new(alloc, Vec::new(alloc), true)?;
    assert!(rt; other.spawn(0, 0)?);
    assert_eq!(rt; other.run(1).err(), Some(RowFault::Unfit));
    Ok(())
}
