ghost use Rattle.std.specs.Prelude.{◌≡◌, ◌+◌, ◌^◌, ◌<◌, IfOk};
ghost use Rattle.ce_daemon.specs.Boxes.{AreBoxes};
ghost use Rattle.ce_daemon.specs.declared.grant.Grant.{Grant};
ghost use Rattle.ce_model.specs.Subcubes.{node_of};
ghost use Rattle.ce_rows.specs.RowEntries.{HasMadeRowEntries, IsNextRowReply};
ghost use Rattle.ce_rows.specs.Rows.{row_of, node_0};

use super::calls::call_at;
use super::wanted::is_wanted;
use crate::{WorkedRow, ask};
use ce_daemon::Homed;
use ce_lock::Who;
use ce_machine::{Call, Machine, Reply};
use ce_model::HOST;
use std::alloc::Global;
use std::test::Fail;

// Makes the call of a row behind its first `count` ones.
fn answer_row<N: Homed>(
    machine: &mut Machine<N>,
    alloc: Global,
    row: WorkedRow,
    count: usize,
) -> Result<Reply<N>, Fail>
    requires { HasMadeRowEntries (row_of row) count machine.old }
    ensures at { IfOk result (λ _. HasMadeRowEntries (row_of row) (count + 1) machine.new) }
    ensures reply { IfOk result (λ reply. IsNextRowReply N.home N.clean (row_of row) count reply) }
{
    let row_call = call_at(alloc, row, count)?;
    let reply = ask(machine, alloc, row, count, row_call.who, row_call.call)?;
    Ok(reply)
}

// Fails where a reply isn't the wanted one.
fn expect<N: Homed>(row: WorkedRow, count: usize, reply: &Reply<N>) -> Result<(), Fail> {
    if is_wanted(row, count, reply) {
        Ok(())
    } else {
        Err(Fail::from("another reply"))
    }
}

// Makes a call of a row, and looks at the reply.
fn make_call<N: Homed>(
    machine: &mut Machine<N>,
    alloc: Global,
    row: WorkedRow,
    count: usize,
) -> Result<(), Fail>
    requires { HasMadeRowEntries (row_of row) count machine.old }
    ensures { IfOk result (λ _. HasMadeRowEntries (row_of row) (count + 1) machine.new) }
{
    let reply = answer_row(machine, alloc, row, count)?;
    expect(row, count, &reply)
}

// Makes the first so many calls of a row.
pub(crate) fn run<N: Homed>(
    machine: &mut Machine<N>,
    alloc: Global,
    row: WorkedRow,
    end: usize,
) -> Result<(), Fail>
    requires { HasMadeRowEntries (row_of row) 0 machine.old }
    ensures { IfOk result (λ _. HasMadeRowEntries (row_of row) end machine.new) }
{
    for count in 0..end {
        make_call(machine, alloc, row, count)?;
    }
    if machine.history().len() != end {
        return Err(Fail::from("another history"));
    }
    Ok(())
}

// The boxes that a reply hands out.
fn boxes_of<N: Homed>(reply: Reply<N>) -> Result<Vec<N>, Fail>
    ensures { IfOk result (λ boxes. (grant : Grant) × (reply ≡ Reply.Granted grant boxes)) }
{
    match reply {
        Reply::Granted { boxes, .. } => Ok(boxes),
        _ => Err(Fail::from("no cube")),
    }
}

// The boxes of the first cube.
fn first_boxes<N: Homed>(machine: &mut Machine<N>, alloc: Global) -> Result<Vec<N>, Fail>
    requires { HasMadeRowEntries (row_of WorkedRow.NextOwner) 0 machine.old }
    ensures at { IfOk result (λ _. HasMadeRowEntries (row_of WorkedRow.NextOwner) 1 machine.new) }
    ensures boxes { IfOk result (λ boxes.
        AreBoxes N.home N.clean 1 (node_of node_0) boxes.items) }
{
    let reply = answer_row(machine, alloc, WorkedRow::NextOwner, 0)?;
    expect(WorkedRow::NextOwner, 0, &reply)?;
    boxes_of(reply)
}

// The first cube is given back.
fn give_back<N: Homed>(machine: &mut Machine<N>, alloc: Global, boxes: Vec<N>) -> Result<(), Fail>
    requires at { HasMadeRowEntries (row_of WorkedRow.NextOwner) 3 machine.old }
    requires boxes { AreBoxes N.home N.clean 1 (node_of node_0) boxes.items }
    ensures { IfOk result (λ _. HasMadeRowEntries (row_of WorkedRow.NextOwner) 4 machine.new) }
{
    let who = Who {
        family: 0,
        actor: HOST,
    };
    let reply = ask(
        machine,
        alloc,
        WorkedRow::NextOwner,
        3,
        who,
        Call::Freecube { boxes },
    )?;
    expect(WorkedRow::NextOwner, 3, &reply)
}

// The whole row of the next owner.
pub(crate) fn next_owner<N: Homed>(machine: &mut Machine<N>, alloc: Global) -> Result<(), Fail>
    requires { HasMadeRowEntries (row_of WorkedRow.NextOwner) 0 machine.old }
    ensures { IfOk result (λ _. HasMadeRowEntries (row_of WorkedRow.NextOwner) 6 machine.new) }
{
    let row = WorkedRow::NextOwner;
    let boxes = first_boxes(machine, alloc)?;
    make_call(machine, alloc, row, 1)?;
    make_call(machine, alloc, row, 2)?;
    give_back(machine, alloc, boxes)?;
    make_call(machine, alloc, row, 4)?;
    make_call(machine, alloc, row, 5)
}
