ghost use Rattle.std.specs.Prelude.{◌≡◌, ℕ, ◌^◌, ◌<◌, ◌≤◌, ◌&&◌, ◌||◌, not};
ghost use Rattle.ce_model.specs.Subcubes.{has_node};

use ce_model::NodeSet;

// The nodes of a set that are not in the other.
pub(crate) fn difference(set: NodeSet, other: NodeSet) -> NodeSet
    ensures nodes { (node : ℕ) → has_node result node
        ≡ (has_node set node && not (has_node other node)) }
    ensures within { result.0 ≤ set.0 }
{
    NodeSet(set.0 & !other.0)
}

// The nodes of two sets.
pub(crate) fn union(set: NodeSet, other: NodeSet) -> NodeSet
    ensures nodes { (node : ℕ) → has_node result node ≡ (has_node set node || has_node other node) }
    ensures within { (count : ℕ) → set.0 < 2 ^ count → other.0 < 2 ^ count → result.0 < 2 ^ count }
{
    NodeSet(set.0 | other.0)
}
