//! The entries of each user, one linked to the next.
ghost use Rattle.std.specs.Prelude.{◌≡◌, IfOk};
ghost use Rattle.ce_trace.specs.Links.{links_of};

use ce_model::Entry;
use std::alloc::{AllocError, Global};
use std::collections::BTreeMap;

/// For each entry, the last one first: how many entries the history has from the next one of the
/// same user on, 0 where there is no further one.
pub(crate) fn links_of(alloc: Global, history: &[Entry]) -> Result<Vec<usize>, AllocError>
    ensures { IfOk result (λ links. links.items ≡ links_of history.now) }
{
    let mut links = Vec::new(alloc);
    let mut nearest_entries = BTreeMap::new(alloc);
    for index in (0..history.len()).rev() {
        let next = nearest_entries.insert(history[index].user, history.len() - index)?;
        links.push(next.unwrap_or(0))?;
    }
    Ok(links)
}
