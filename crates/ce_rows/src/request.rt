ghost use Rattle.std.specs.Prelude.{◌+◌, IfOk};
ghost use Rattle.ce_machine.specs.Requests.{HasBroughtBoxes};
ghost use Rattle.ce_rows.specs.RowEntries.{HasMadeRowEntries, IsNextRowCall, IsNextRowReply};
ghost use Rattle.ce_rows.specs.Rows.{row_of};

use crate::WorkedRow;
use ce_daemon::Homed;
use ce_lock::{Kept, Who};
use ce_machine::{Call, Machine, Reply};
use ce_model::NoMemory;
use std::alloc::Global;

/// What the machine answers to the call of a worked row that comes behind its first `count` ones.
/// `NoMemory` may come at any time.
pub fn ask<N: Homed>(
    machine: &mut Machine<N>,
    alloc: Global,
    row: WorkedRow,
    count: usize,
    who: Who,
    call: Call<N>,
) -> Result<Reply<N>, NoMemory>
    requires at { HasMadeRowEntries (row_of row) count machine.old }
    requires next { IsNextRowCall (row_of row) count who call }
    requires boxes { HasBroughtBoxes N.home N.clean machine.old.history who.family call }
    ensures at { IfOk result (λ _. HasMadeRowEntries (row_of row) (count + 1) machine.new) }
    ensures reply { IfOk result (λ reply. IsNextRowReply N.home N.clean (row_of row) count reply) }
{
    match machine.act(alloc, who, call) {
        Ok(reply) => Ok(reply),
        Err((_, want)) => Err(want),
    }
}
