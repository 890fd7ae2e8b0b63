//! What the end of a cube leaves of its boxes. The functions do nothing: a contract is the law,
//! which proofs cite.
ghost use Rattle.rk_node.specs.Laws.{ScrubbedIsClean};

/// A scrubbed box is clean again once the blocks of its home were put into it, in whatever order.
pub fn scrubbed_is_clean_law()
    ensures law { ScrubbedIsClean }
{}
