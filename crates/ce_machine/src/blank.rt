//! What the machine keeps for each node and for each host, of which nothing is known at first.
ghost use Rattle.std.specs.Prelude.{◌≡◌, ℕ, length, slice_index_or, IfOk};

use ce_model::NoMemory;
use std::alloc::Global;

/// A desk that is blank while nothing is known of the node or the host that it is for.
pub(crate) trait Blank: Sized + Drop {
    // the blank one
    ghost blank: { Self };

    /// Makes a blank one.
    fn new(alloc: Global) -> Result<Self, NoMemory>
        ensures { IfOk result (λ desk. desk ≡ blank) };
}

// So many desks, all of them blank.
pub(crate) fn blank_desks<T: Blank>(alloc: Global, count: u32) -> Result<Vec<T>, NoMemory>
    ensures count { IfOk result (λ desks. length desks.items ≡ count) }
    ensures each { IfOk result (λ desks.
        (i : ℕ) → slice_index_or desks.items i T.blank ≡ T.blank) }
{
    let mut desks = Vec::with_capacity(alloc, count as usize)?;
    for _ in 0..count {
        desks.push_reserved(T::new(alloc)?);
    }
    Ok(desks)
}
