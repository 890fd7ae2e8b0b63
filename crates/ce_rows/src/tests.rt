mod calls;
mod opening;
mod running;
mod wanted;

use crate::WorkedRow;
use ce_daemon::node_numbers;
use opening::open;
use rk_node::node_boxes;
use running::{next_owner, run};
use std::test::Fail;

#[test]
fn first_cube_of_four_nodes(rt: HostRuntime) -> Result<(), Fail> {
    let alloc = rt.alloc();
    let mut machine = open(alloc, WorkedRow::FirstCube, node_numbers(alloc, 4)?)?;
    run(&mut machine, alloc, WorkedRow::FirstCube, 2)?;
    assert_eq!(rt; machine.into_history().len(), 2);
    Ok(())
}

#[test]
fn greatest_machine(rt: HostRuntime) -> Result<(), Fail> {
    let alloc = rt.alloc();
    let mut machine = open(alloc, WorkedRow::GreatestCube, node_numbers(alloc, 64)?)?;
    run(&mut machine, alloc, WorkedRow::GreatestCube, 1)
}

#[test]
fn next_owner_finds_nothing(rt: HostRuntime) -> Result<(), Fail> {
    let alloc = rt.alloc();
    let mut machine = open(alloc, WorkedRow::NextOwner, node_numbers(alloc, 1)?)?;
    next_owner(&mut machine, alloc)
}

#[test]
#[tactic(auto, using(ce_model::specs::Limits::greatest_dim_lem))]
fn next_owner_of_a_node_finds_nothing(rt: HostRuntime) -> Result<(), Fail> {
    let alloc = rt.alloc();
    let mut machine = open(alloc, WorkedRow::NextOwner, node_boxes(alloc, 0)?)?;
    next_owner(&mut machine, alloc)
}

#[test]
fn each_reply_without_a_process(rt: HostRuntime) -> Result<(), Fail> {
    let alloc = rt.alloc();
    let mut machine = open(alloc, WorkedRow::Replies, node_numbers(alloc, 1)?)?;
    run(&mut machine, alloc, WorkedRow::Replies, 17)
}

#[test]
fn what_a_process_is_told(rt: HostRuntime) -> Result<(), Fail> {
    let alloc = rt.alloc();
    let mut machine = open(alloc, WorkedRow::Hearings, node_numbers(alloc, 1)?)?;
    run(&mut machine, alloc, WorkedRow::Hearings, 13)
}

#[test]
#[tactic(auto, using(ce_model::specs::Limits::greatest_dim_lem))]
fn mail_of_three_nodes_and_the_host_is_drained(rt: HostRuntime) -> Result<(), Fail> {
    let alloc = rt.alloc();
    let mut machine = open(alloc, WorkedRow::WaitingMail, node_boxes(alloc, 2)?)?;
    run(&mut machine, alloc, WorkedRow::WaitingMail, 10)
}
