ghost use Rattle.std.specs.Prelude.{◌≡◌, ◌+◌, ◌≤◌, [], ◌++◌, length, map, vec_capacity};
ghost use Rattle.ce_model.specs.Parcels.{item_parcels};

use rk_mail::{Item, Mailbox};
use xm_block::Block;

// Takes all items out, and puts the blocks of the messages behind those that were taken before.
// There is room.
pub(crate) fn take_blocks(mailbox: &mut Mailbox, blocks: &mut Vec<Block>)
    requires { length blocks.old.items + length mailbox.old.items ≤ vec_capacity blocks.old }
    ensures none { mailbox.new.items ≡ [] }
    ensures spare { mailbox.new.spare ≡ mailbox.old.spare + length mailbox.old.items }
    ensures blocks { blocks.new.items
        ≡ blocks.old.items ++ map (λ parcel. parcel.block) (item_parcels mailbox.old.items) }
    ensures capacity { vec_capacity blocks.new ≡ vec_capacity blocks.old }
{
    while let Some(item) = mailbox.take_first() {
        if let Item::Mail(parcel) = item {
            blocks.push_reserved(parcel.block);
        }
    }
}
