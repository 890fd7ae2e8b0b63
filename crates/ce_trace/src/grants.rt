//! What an entry is for a cube: its grant, its drain, or a call of it.
ghost use Rattle.std.specs.Prelude.{◌≡◌, IfSome, is_some, option_map};
ghost use Rattle.ce_model.specs.Answers.{recorded_call};
ghost use Rattle.ce_model.specs.Views.{entry_grant, is_drain};
ghost use Rattle.ce_daemon.specs.Peeks.{numbered_grant};

use ce_daemon::Grant;
use ce_model::{Entry, What};

/// The cube that an entry grants, under this number.
pub(crate) fn entry_grant_numbered(entry: &Entry, number: u64) -> Option<Grant>
    ensures cube { result
        ≡ option_map (λ cube. numbered_grant (number, cube)) (entry_grant entry.now) }
    ensures user { IfSome result (λ grant. grant.user ≡ entry.now.user) }
{
    match entry.what {
        What::Getcube {
            dim,
            sub: Some(sub),
        } => Some(Grant {
            number,
            user: entry.user,
            dim,
            sub,
        }),
        _ => None,
    }
}

/// With this the host takes back what waits in its cube, which ends the cube's trace.
pub(crate) fn is_drain(what: &What) -> bool
    ensures { result ≡ is_drain what.now }
{
    matches!(what, What::Drain)
}

/// This is a call of a cube, and stands in its trace.
pub(crate) fn is_call(what: &What) -> bool
    ensures { result ≡ is_some (recorded_call what.now) }
{
    match what {
        What::Getcube { .. } | What::Peek | What::Drain | What::Freecube => false,
        What::Arm { .. }
        | What::Look { .. }
        | What::HostTake { .. }
        | What::Send { .. }
        | What::Spawn { .. }
        | What::Kill { .. }
        | What::Note { .. }
        | What::Take { .. } => true,
    }
}
