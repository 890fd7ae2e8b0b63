ghost use Rattle.std.specs.Prelude.{◌≡◌, ℕ, ◌+◌, ◌^◌, ◌<◌, ◌≤◌, length, slice_index_or, vec_len, vec_capacity, Some, IsFalse, [], map, All, IfOk};
ghost use Rattle.ce_model.specs.Limits.{greatest_dim};
ghost use Rattle.ce_model.specs.Subcubes.{node_of, is_inside, IsSubcube};
ghost use Rattle.ce_daemon.specs.Boxes.{AreBoxes, HasBox};

use crate::Homed;
use ce_model::{NoMemory, Subcube};
use ce_set::node_of;
use std::alloc::Global;

/// The numbers of so many nodes, each of which is the box of its node. `NoMemory` may come at any
/// time.
pub fn node_numbers(alloc: Global, count: u32) -> Result<Vec<u32>, NoMemory>
    ensures { IfOk result (λ boxes. AreBoxes ⟦<u32 as Homed>⟧.home ⟦<u32 as Homed>⟧.clean count
        (λ node. node) boxes.items) }
{
    let mut boxes = Vec::new(alloc);
    for node in 0..count {
        boxes.push(node)?;
    }
    Ok(boxes)
}

// The boxes, each at its place.
pub(crate) fn places_of<N: Homed>(alloc: Global, boxes: Vec<N>) -> Result<Vec<Option<N>>, NoMemory>
    ensures { IfOk result (λ places. places.items ≡ map Some boxes.items) }
{
    let mut places = Vec::with_capacity(alloc, boxes.len())?;
    for next in boxes {
        places.push(Some(next))?;
    }
    Ok(places)
}

// Takes the boxes of the subcube's nodes out, in relative order. There is room for them.
pub(crate) fn take_out<N: Homed>(
    places: &mut Vec<Option<N>>,
    sub: &Subcube,
    cube_dim: u32,
    boxes: &mut Vec<N>,
)
    requires subcube { IsSubcube greatest_dim cube_dim sub.now }
    requires filled { (r : ℕ) → r < 2 ^ cube_dim
        → HasBox N.home N.clean places.old.items (node_of sub.now r) }
    requires places { (r : ℕ) → r < 2 ^ cube_dim → node_of sub.now r < length places.old.items }
    requires room { 2 ^ cube_dim ≤ vec_capacity boxes.old }
    requires empty { boxes.old.items ≡ [] }
    ensures taken { AreBoxes N.home N.clean (2 ^ cube_dim) (node_of sub.now) boxes.new.items }
    ensures others { (node : ℕ) → IsFalse (is_inside sub.now node)
        → HasBox N.home N.clean places.old.items node
        → HasBox N.home N.clean places.new.items node }
    ensures all { length places.new.items ≡ length places.old.items }
{
    for r in 0..1u32 << cube_dim {
        let node = node_of(sub, r) as usize;
        let place = &mut places[node];
        let Some(node_box) = place.take() else {
            unreachable!()
        };
        boxes.push_reserved(node_box);
    }
}

// Puts each box at its home.
pub(crate) fn put_home<N: Homed>(places: &mut Vec<Option<N>>, boxes: Vec<N>)
    requires at_home { All (λ next. N.home next < length places.old.items) boxes.items }
    requires are_clean { All N.clean boxes.items }
    ensures put { All (λ next. HasBox N.home N.clean places.new.items (N.home next)) boxes.items }
    ensures others { (node : ℕ) → HasBox N.home N.clean places.old.items node
        → HasBox N.home N.clean places.new.items node }
    ensures all { length places.new.items ≡ length places.old.items }
{
    for next in boxes {
        let node = next.home() as usize;
        places[node] = Some(next);
    }
}
