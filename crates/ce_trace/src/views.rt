//! What the machine's history is for one cube.
ghost use Rattle.std.specs.Prelude.{◌≡◌, IfOk, option_map};
ghost use Rattle.ce_model.specs.Views.{history_behind_grant, trace_behind, view};
ghost use Rattle.ce_daemon.specs.Peeks.{cube_grant};

use crate::grants::{entry_grant_numbered, is_call, is_drain};
use crate::inward::entry_inward;
use ce_daemon::Grant;
use ce_model::{Entry, NoMemory};
use std::alloc::Global;

/// The trace of a cube in the machine's history: the calls of its user's cube from its grant up to
/// its drain, as the cube knows them. Grants are numbered from 0; a number that was not granted has
/// the empty trace. `NoMemory` may come at any time.
#[tactic(auto, unfolding(ce_model::specs::Views::view))]
pub fn view(alloc: Global, history: &[Entry], number: u64) -> Result<Vec<Entry>, NoMemory>
    ensures { IfOk result (λ entries. entries.items ≡ view history.now number) }
{
    match grant_numbered(history, number) {
        Some((cube, later_entries)) => trace_behind(alloc, &cube, later_entries),
        None => Ok(Vec::new(alloc)),
    }
}

/// The grant of this number, and the history behind it.
fn grant_numbered(history: &[Entry], number: u64) -> Option<(Grant, &[Entry])>
    ensures { option_map (λ pair. (cube_grant pair.0, pair.1.now)) result
        ≡ history_behind_grant history.now number }
{
    let mut grant_count = 0;
    for (index, entry) in history.iter().enumerate() {
        if let Some(grant) = entry_grant_numbered(entry, grant_count) {
            if grant_count == number {
                return Some((grant, &history[index + 1..]));
            }
            grant_count += 1;
        }
    }
    None
}

/// The trace of a cube in the history behind its grant.
#[tactic(auto, using(crate::proofs::Traces::at_drain, crate::proofs::Traces::at_call, crate::proofs::Traces::at_pass, crate::proofs::Traces::at_other))]
fn trace_behind(
    alloc: Global,
    grant: &Grant,
    later_entries: &[Entry],
) -> Result<Vec<Entry>, NoMemory>
    ensures { IfOk result (λ entries. entries.items
        ≡ trace_behind (cube_grant grant.now) later_entries.now) }
{
    let mut trace = Vec::new(alloc);
    for entry in later_entries {
        if entry.user == grant.user {
            if is_drain(&entry.what) {
                break;
            }
            if is_call(&entry.what) {
                trace.push(entry_inward(alloc, grant.sub, entry)?)?;
            }
        }
    }
    Ok(trace)
}
