use crate::WorkedRow;
use ce_daemon::{Grant, Homed};
use ce_machine::Reply;
use ce_model::{BlockId, HOST, HOST_HOME, Place};
use rk_mail::{Hearing, Parcel};
use xm_block::Block;

// Whether a grant is the one of this number and this user, of the nodes with this mask from node 0
// on.
fn is_grant(grant: &Grant, number: u64, user: u32, mask: u32) -> bool {
    grant.number == number
        && grant.user == user
        && grant.dim == mask.count_ones()
        && grant.sub.mask == mask
        && grant.sub.base == 0
}

// Whether the blocks are those of these names, in this order.
fn are_named(blocks: &[Block], names: &[(u32, u32)]) -> bool {
    if blocks.len() != names.len() {
        return false;
    }
    for (block, (home, index)) in blocks.iter().zip(names) {
        if block.id()
            != (BlockId {
                home: *home,
                index: *index,
            })
        {
            return false;
        }
    }
    true
}

// Whether a parcel has this number, and brings this byte from and to a place of these nodes.
fn is_parcel(parcel: &Parcel, number: u64, from: u32, to: u32, byte: u8) -> bool {
    parcel.number == number
        && parcel.from == (Place { node: from, pid: 0 })
        && parcel.to == (Place { node: to, pid: 0 })
        && parcel.block.bytes() == [byte].as_slice()
}

// Whether a reply is the one that the row of the first cube has at this place.
fn first_cube_wants<N: Homed>(count: usize, reply: &Reply<N>) -> bool {
    match reply {
        Reply::Granted { grant, boxes } => {
            count == 0 && boxes.len() == 2 && is_grant(grant, 0, 1, 1)
        }
        Reply::Peeked(peek_result) => {
            count == 1 && peek_result.free == 2 && peek_result.grants.as_slice().len() == 1
        }
        _ => false,
    }
}

// The same for the row of the greatest cube.
fn greatest_cube_wants<N: Homed>(count: usize, reply: &Reply<N>) -> bool {
    match reply {
        Reply::Granted { grant, boxes } => {
            count == 0 && boxes.len() == 64 && is_grant(grant, 0, 7, 63)
        }
        _ => false,
    }
}

// The same for the row of the next owner.
fn next_owner_wants<N: Homed>(count: usize, reply: &Reply<N>) -> bool {
    match reply {
        Reply::Granted { grant, boxes } => {
            boxes.len() == 1
                && (count == 0 && is_grant(grant, 0, 0, 0)
                    || count == 4 && is_grant(grant, 1, 1, 0))
        }
        Reply::Heard(Hearing::Posted(batch)) => count == 1 && batch.count() == 0,
        Reply::Drained(blocks) => count == 2 && are_named(blocks.as_slice(), &[(HOST_HOME, 0)]),
        Reply::Freed => count == 3,
        Reply::Heard(Hearing::Idle) => count == 5,
        _ => false,
    }
}

// The same for the row of the replies.
fn replies_want<N: Homed>(count: usize, reply: &Reply<N>) -> bool {
    match reply {
        Reply::Peeked(peek_result) => {
            count == 0 && peek_result.free == 1 && peek_result.grants.as_slice().is_empty()
        }
        Reply::Granted { grant, boxes } => {
            count == 1 && boxes.len() == 1 && is_grant(grant, 0, 0, 0)
        }
        Reply::NoneFree => count == 2,
        Reply::Quiet => count == 3,
        Reply::Heard(Hearing::Unused) => count == 4,
        Reply::Heard(Hearing::Spawned) => count == 5,
        Reply::Heard(Hearing::Used) => count == 6,
        Reply::Spent => count == 7,
        Reply::Heard(Hearing::Spent) => count == 8,
        Reply::Armed => count == 9,
        Reply::Busy => count == 10,
        Reply::Heard(Hearing::Killed) => count == 11,
        Reply::Heard(Hearing::Already) => count == 12,
        Reply::Heard(Hearing::Posted(batch)) => count == 13 && batch.count() == 0,
        Reply::NoMail => count == 14,
        Reply::Heard(Hearing::Start { pid, image }) => count == 15 && *pid == 0 && *image == 0,
        Reply::Drained(blocks) => count == 16 && are_named(blocks.as_slice(), &[(HOST_HOME, 0)]),
        _ => false,
    }
}

// The same for the row of what a process is told.
fn hearings_wants<N: Homed>(count: usize, reply: &Reply<N>) -> bool {
    match reply {
        Reply::Granted { grant, boxes } => {
            count == 0 && boxes.len() == 1 && is_grant(grant, 0, 0, 0)
        }
        Reply::Heard(Hearing::Spawned) => count == 1,
        Reply::Armed => count == 2,
        Reply::Heard(Hearing::Start { pid, image }) => count == 3 && *pid == 0 && *image == 0,
        Reply::Heard(Hearing::Noted) => count == 4,
        Reply::Heard(Hearing::Posted(batch)) => (count == 5 || count == 7) && batch.count() == 0,
        Reply::Heard(Hearing::Poll { pid }) => count == 6 && *pid == 0,
        Reply::Heard(Hearing::Mail(parcel)) => count == 8 && is_parcel(parcel, 1, HOST, 0, 0xAA),
        Reply::Mail(parcel) => count == 9 && is_parcel(parcel, 0, 0, HOST, 0),
        Reply::Heard(Hearing::Killed) => count == 10,
        Reply::Heard(Hearing::Kill { pid }) => count == 11 && *pid == 0,
        Reply::Heard(Hearing::Idle) => count == 12,
        _ => false,
    }
}

// The same for the row of the drain: the messages come by their nodes, and the host's last.
fn waiting_mail_wants<N: Homed>(count: usize, reply: &Reply<N>) -> bool {
    match reply {
        Reply::Granted { grant, boxes } => {
            count == 0 && boxes.len() == 4 && is_grant(grant, 0, 0, 3)
        }
        Reply::Heard(Hearing::Spawned) => count == 1,
        Reply::Armed => count == 2,
        Reply::Heard(Hearing::Start { pid, image }) => count == 3 && *pid == 0 && *image == 0,
        Reply::Heard(Hearing::Noted) => count == 4,
        Reply::Heard(Hearing::Posted(batch)) => 5 <= count && count <= 8 && batch.count() == 0,
        Reply::Drained(blocks) => {
            count == 9
                && are_named(
                    blocks.as_slice(),
                    &[(HOST_HOME, 1), (HOST_HOME, 0), (HOST_HOME, 2), (1, 0)],
                )
        }
        _ => false,
    }
}

// Whether a reply is the one that a row has behind its first `count` ones.
pub(crate) fn is_wanted<N: Homed>(row: WorkedRow, count: usize, reply: &Reply<N>) -> bool {
    match row {
        WorkedRow::FirstCube => first_cube_wants(count, reply),
        WorkedRow::GreatestCube => greatest_cube_wants(count, reply),
        WorkedRow::NextOwner => next_owner_wants(count, reply),
        WorkedRow::Replies => replies_want(count, reply),
        WorkedRow::Hearings => hearings_wants(count, reply),
        WorkedRow::WaitingMail => waiting_mail_wants(count, reply),
    }
}
