ghost use Rattle.std.specs.Prelude.{◌≡◌, ◌≤◌, true, false, length};
ghost use Rattle.std.specs.List.{AllWithin};
ghost use Rattle.ce_model.specs.Blocks.{is_lower};
ghost use Rattle.ce_model.specs.Rising.{IsRising};
ghost use Rattle.xm_block.specs.Stores.{is_block_before};

use crate::Block;
use ce_model::BlockId;
use std::collections::VecDeque;

/// Whether the name `a` comes before the name `b`: by home, and in one home by index.
fn is_lower(a: BlockId, b: BlockId) -> bool
    ensures { result ≡ is_lower a b }
{
    a.home < b.home || (a.home == b.home && a.index < b.index)
}

/// The place of a block among blocks in order: in front of the first whose name its own comes
/// before.
pub(crate) fn place_of(blocks: &VecDeque<Block>, block: &Block) -> usize
    requires { IsRising is_block_before blocks.now.items }
    ensures within { result ≤ length blocks.now.items }
    ensures passed { AllWithin
        (λ other. is_block_before block.now other ≡ false) blocks.now.items 0 result }
    ensures ahead { AllWithin (λ other. is_block_before block.now other ≡ true)
        blocks.now.items result (length blocks.now.items) }
{
    blocks.partition_point(|other| !is_lower(block.id(), other.id()))
}
