//! The numbers of the machine as a cube knows them.
ghost use Rattle.std.specs.Prelude.{◌≡◌, IfOk};
ghost use Rattle.ce_model.specs.Renaming.{block_inward, entry_inward, place_inward, renamed_targets, renamed_what};

use ce_model::{BlockId, Bytes, Entry, HOST_HOME, NoMemory, Place, Subcube, Targets, What};
use ce_set::relative_number;
use std::alloc::Global;

/// A place, as the cube knows it.
pub(crate) fn place_inward(sub: Subcube, place: Place) -> Place
    ensures { result ≡ place_inward sub place }
{
    Place {
        node: relative_number(&sub, place.node),
        pid: place.pid,
    }
}

/// A block, as the cube knows it.
#[tactic(auto, unfolding(ce_model::specs::Limits::host_home))]
pub(crate) fn block_inward(sub: Subcube, id: BlockId) -> BlockId
    ensures { result ≡ block_inward sub id }
{
    let home = if id.home < HOST_HOME {
        relative_number(&sub, id.home)
    } else {
        HOST_HOME
    };
    BlockId {
        home,
        index: id.index,
    }
}

/// The targets of a message, as the cube knows them.
fn targets_inward(alloc: Global, sub: Subcube, to: &[(Place, BlockId)]) -> Result<Targets, NoMemory>
    ensures { IfOk result (λ targets. targets
        ≡ renamed_targets (place_inward sub) (block_inward sub) to.now) }
{
    let mut targets = Vec::new(alloc);
    for target in to {
        targets.push((place_inward(sub, target.0), block_inward(sub, target.1)))?;
    }
    Ok(Targets::from_vec(targets))
}

/// A send, as the cube knows it.
fn send_inward(
    alloc: Global,
    sub: Subcube,
    pid: u32,
    first: u64,
    to: &Targets,
    bytes: &Bytes,
) -> Result<What, NoMemory>
    ensures { IfOk result (λ what. what ≡ What.Send pid first
        (renamed_targets (place_inward sub) (block_inward sub) to.now) bytes.now) }
{
    let to = targets_inward(alloc, sub, to.as_slice())?;
    let bytes = Bytes::from_vec(Vec::from_slice(alloc, bytes.as_slice())?);
    Ok(What::Send {
        pid,
        first,
        to,
        bytes,
    })
}

/// A spawn, as the cube knows it.
fn spawn_inward(sub: Subcube, pid: u32, image: u32, to: Place, fresh: bool) -> What
    ensures { result ≡ What.Spawn pid image (place_inward sub to) fresh }
{
    What::Spawn {
        pid,
        image,
        to: place_inward(sub, to),
        fresh,
    }
}

/// A call and its answer, as the cube knows them.
fn what_inward(alloc: Global, sub: Subcube, what: &What) -> Result<What, NoMemory>
    ensures { IfOk result (λ answer. answer
        ≡ renamed_what (place_inward sub) (block_inward sub) what.now) }
{
    match what {
        &What::Getcube { dim, sub } => Ok(What::Getcube { dim, sub }),
        What::Peek => Ok(What::Peek),
        What::Drain => Ok(What::Drain),
        What::Freecube => Ok(What::Freecube),
        &What::Arm { count } => Ok(What::Arm { count }),
        &What::Look { found } => Ok(What::Look { found }),
        &What::HostTake { number } => Ok(What::HostTake { number }),
        What::Send {
            pid,
            first,
            to,
            bytes,
        } => send_inward(alloc, sub, *pid, *first, to, bytes),
        &What::Spawn {
            pid,
            image,
            to,
            fresh,
        } => Ok(spawn_inward(sub, pid, image, to, fresh)),
        &What::Kill { pid, to, found } => Ok(What::Kill {
            pid,
            to: place_inward(sub, to),
            found,
        }),
        &What::Note { pid, word } => Ok(What::Note { pid, word }),
        &What::Take {
            asking,
            dead,
            poller,
            given,
        } => Ok(What::Take {
            asking,
            dead,
            poller,
            given,
        }),
    }
}

/// An entry, as the cube knows it.
pub(crate) fn entry_inward(alloc: Global, sub: Subcube, entry: &Entry) -> Result<Entry, NoMemory>
    ensures { IfOk result (λ answer. answer ≡ entry_inward sub entry.now) }
{
    Ok(Entry {
        user: entry.user,
        actor: relative_number(&sub, entry.actor),
        what: what_inward(alloc, sub, &entry.what)?,
    })
}
