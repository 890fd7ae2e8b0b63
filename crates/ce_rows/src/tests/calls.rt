ghost use Rattle.std.specs.Prelude.{◌≡◌, [], ◌∷◌, Result, IfOk};
ghost use Rattle.ce_model.specs.declared.limits.TheConstants.{HOST_HOME};
ghost use Rattle.ce_model.specs.declared.topology.TheConstants.{HOST};
ghost use Rattle.ce_model.specs.Node.{send_call, host_place};
ghost use Rattle.ce_model.specs.Machine.{cube_request};
ghost use Rattle.ce_machine.specs.Requests.{request_of};
ghost use Rattle.ce_rows.specs.RowEntries.{IsCallWithoutBoxes};
ghost use Rattle.ce_rows.specs.Rows.{IsRowCallWithoutBoxes, block, first_bytes};

use crate::WorkedRow;
use ce_daemon::Homed;
use ce_lock::Who;
use ce_machine::Call;
use ce_model::{BlockId, HOST, HOST_HOME, NoMemory, Place};
use rk_mail::{Batch, Say};
use std::alloc::Global;
use std::test::Fail;
use xm_block::Block;

// Who makes a call, and the call.
#[derive(Drop)]
pub(crate) struct RowCall<N: Homed> {
    pub(crate) who: Who,
    pub(crate) call: Call<N>,
}

// A call of a user's host.
fn host_call<N: Homed>(user: u32, call: Call<N>) -> Result<RowCall<N>, Fail>
    ensures { result
        ≡ Result.Ok (record { who = record { family = user; actor = HOST }; call = call }) }
{
    node_call(user, HOST, call)
}

// A call of a node that a user holds.
fn node_call<N: Homed>(user: u32, node: u32, call: Call<N>) -> Result<RowCall<N>, Fail>
    ensures { result
        ≡ Result.Ok (record { who = record { family = user; actor = node }; call = call }) }
{
    let who = Who {
        family: user,
        actor: node,
    };
    Ok(RowCall { who, call })
}

// A message of one block of this home to a place.
#[tactic(auto, using(ce_model::specs::Limits::block_room_lem))]
fn message(alloc: Global, to: Place, id: BlockId, byte: u8) -> Result<Batch, NoMemory>
    ensures { IfOk result (λ batch. batch ≡ (to, record { id = id; bytes = byte ∷ [] }) ∷ []) }
{
    let mut block = Block::new(alloc, id)?;
    block.fill(&[byte]);
    let mut batch = Batch::new(alloc)?;
    batch.add_first(to, block);
    Ok(batch)
}

// A message of a host or of process 0.
fn send<N: Homed>(alloc: Global, to: Place, id: BlockId, byte: u8) -> Result<Call<N>, NoMemory>
    ensures asks { IfOk result (λ call.
        request_of call ≡ cube_request (send_call 0 ((to, id) ∷ []) (byte ∷ []))) }
    ensures boxes { IfOk result (λ call. IsCallWithoutBoxes call) }
{
    let batch = message(alloc, to, id, byte)?;
    Ok(Call::Say(Say::Send { pid: 0, batch }))
}

// A message of the host, of a block of its own.
fn host_message<N: Homed>(alloc: Global, to: Place, index: u32) -> Result<Call<N>, NoMemory>
    ensures asks { IfOk result (λ call.
        request_of call
        ≡ cube_request (send_call 0 ((to, block HOST_HOME index) ∷ []) first_bytes)) }
    ensures boxes { IfOk result (λ call. IsCallWithoutBoxes call) }
{
    send(
        alloc,
        to,
        BlockId {
            home: HOST_HOME,
            index,
        },
        0xAA,
    )
}

// A message of a process to its host, of its node's first block.
fn node_message<N: Homed>(alloc: Global, home: u32) -> Result<Call<N>, NoMemory>
    ensures asks { IfOk result (λ call. request_of call
        ≡ cube_request (send_call 0 ((host_place, block home 0) ∷ []) (0 ∷ []))) }
    ensures boxes { IfOk result (λ call. IsCallWithoutBoxes call) }
{
    send(
        alloc,
        Place { node: HOST, pid: 0 },
        BlockId { home, index: 0 },
        0,
    )
}

// A node asks for work.
fn take<N: Homed>(asking: u32, dead: u32, poller: Option<u32>) -> Call<N>
    ensures { result ≡ Call.Say (Say.Take asking dead poller) }
{
    Call::Say(Say::Take {
        asking,
        dead,
        poller,
    })
}

// The host has the rows' image started as process 0 of a node.
fn spawn<N: Homed>(node: u32) -> Call<N>
    ensures { result ≡ Call.Say (Say.Spawn 0 0 (record { node = node; pid = 0 })) }
{
    Call::Say(Say::Spawn {
        pid: 0,
        image: 0,
        to: Place { node, pid: 0 },
    })
}

// The host has process 0 of node 0 ended.
fn kill<N: Homed>() -> Call<N>
    ensures { result ≡ Call.Say (Say.Kill 0 (record { node = 0; pid = 0 })) }
{
    Call::Say(Say::Kill {
        pid: 0,
        to: Place { node: 0, pid: 0 },
    })
}

// The process of the rows' image notes its word.
fn note<N: Homed>() -> Call<N>
    ensures { result ≡ Call.Say (Say.Note 0 42) }
{
    Call::Say(Say::Note { pid: 0, word: 42 })
}

// A call of the row of the next owner, but the one that brings boxes.
fn next_owner_call<N: Homed>(alloc: Global, count: usize) -> Result<RowCall<N>, Fail>
    ensures { IfOk result (λ row_call.
        IsRowCallWithoutBoxes WorkedRow.NextOwner count row_call.who row_call.call) }
{
    match count {
        0 => host_call(0, Call::Getcube { dim: 0 }),
        1 => host_call(0, host_message(alloc, Place { node: 0, pid: 0 }, 0)?),
        2 => host_call(0, Call::Drain),
        4 => host_call(1, Call::Getcube { dim: 0 }),
        5 => node_call(1, 0, take(0, 0, None)),
        _ => Err(Fail::from("no such call")),
    }
}

// A call of the row of the replies.
fn replies_call<N: Homed>(alloc: Global, count: usize) -> Result<RowCall<N>, Fail>
    ensures { IfOk result (λ row_call.
        IsRowCallWithoutBoxes WorkedRow.Replies count row_call.who row_call.call) }
{
    match count {
        0 => host_call(1, Call::Peek),
        1 => host_call(0, Call::Getcube { dim: 0 }),
        2 => host_call(1, Call::Getcube { dim: 0 }),
        3 | 7 | 10 => host_call(0, Call::Look),
        4 | 11 | 12 => host_call(0, kill()),
        5 | 6 => host_call(0, spawn(0)),
        8 | 15 => node_call(0, 0, take(0, 0, None)),
        9 => host_call(0, Call::Arm { count: 3 }),
        13 => host_call(0, host_message(alloc, Place { node: 0, pid: 0 }, 0)?),
        14 => host_call(0, Call::HostTake),
        16 => host_call(0, Call::Drain),
        _ => Err(Fail::from("no such call")),
    }
}

// A call of the row of what a process is told.
fn hearings_call<N: Homed>(alloc: Global, count: usize) -> Result<RowCall<N>, Fail>
    ensures { IfOk result (λ row_call.
        IsRowCallWithoutBoxes WorkedRow.Hearings count row_call.who row_call.call) }
{
    match count {
        0 => host_call(0, Call::Getcube { dim: 0 }),
        1 => host_call(0, spawn(0)),
        2 => host_call(0, Call::Arm { count: 10 }),
        3 => node_call(0, 0, take(0, 0, None)),
        4 => node_call(0, 0, note()),
        5 => node_call(0, 0, node_message(alloc, 0)?),
        6 | 8 | 11 => node_call(0, 0, take(1, 0, Some(0))),
        7 => host_call(0, host_message(alloc, Place { node: 0, pid: 0 }, 0)?),
        9 => host_call(0, Call::HostTake),
        10 => host_call(0, kill()),
        12 => node_call(0, 0, take(0, 1, None)),
        _ => Err(Fail::from("no such call")),
    }
}

// A call of the row of the drain.
fn waiting_mail_call<N: Homed>(alloc: Global, count: usize) -> Result<RowCall<N>, Fail>
    ensures { IfOk result (λ row_call.
        IsRowCallWithoutBoxes WorkedRow.WaitingMail count row_call.who row_call.call) }
{
    match count {
        0 => host_call(0, Call::Getcube { dim: 2 }),
        1 => host_call(0, spawn(1)),
        2 => host_call(0, Call::Arm { count: 10 }),
        3 => node_call(0, 1, take(0, 0, None)),
        4 => node_call(0, 1, note()),
        5 => node_call(0, 1, node_message(alloc, 1)?),
        6 => host_call(0, host_message(alloc, Place { node: 2, pid: 0 }, 0)?),
        7 => host_call(0, host_message(alloc, Place { node: 0, pid: 0 }, 1)?),
        8 => host_call(0, host_message(alloc, Place { node: 3, pid: 1 }, 2)?),
        9 => host_call(0, Call::Drain),
        _ => Err(Fail::from("no such call")),
    }
}

// A call of the row of the first cube.
fn first_cube_call<N: Homed>(count: usize) -> Result<RowCall<N>, Fail>
    ensures { IfOk result (λ row_call.
        IsRowCallWithoutBoxes WorkedRow.FirstCube count row_call.who row_call.call) }
{
    match count {
        0 => host_call(1, Call::Getcube { dim: 1 }),
        1 => host_call(0, Call::Peek),
        _ => Err(Fail::from("no such call")),
    }
}

// A call of the row of the greatest cube.
fn greatest_cube_call<N: Homed>(count: usize) -> Result<RowCall<N>, Fail>
    ensures { IfOk result (λ row_call.
        IsRowCallWithoutBoxes WorkedRow.GreatestCube count row_call.who row_call.call) }
{
    match count {
        0 => host_call(7, Call::Getcube { dim: 6 }),
        _ => Err(Fail::from("no such call")),
    }
}

// The call of a row behind its first `count` ones.
pub(crate) fn call_at<N: Homed>(
    alloc: Global,
    row: WorkedRow,
    count: usize,
) -> Result<RowCall<N>, Fail>
    ensures { IfOk result (λ row_call.
        IsRowCallWithoutBoxes row count row_call.who row_call.call) }
{
    match row {
        WorkedRow::FirstCube => first_cube_call(count),
        WorkedRow::GreatestCube => greatest_cube_call(count),
        WorkedRow::NextOwner => next_owner_call(alloc, count),
        WorkedRow::Replies => replies_call(alloc, count),
        WorkedRow::Hearings => hearings_call(alloc, count),
        WorkedRow::WaitingMail => waiting_mail_call(alloc, count),
    }
}
