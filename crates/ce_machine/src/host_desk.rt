ghost use Rattle.std.specs.Prelude.{◌≡◌, ℕ, ◌+◌, ◌<◌, ◌≤◌, ◌^◌, ◌==◌, if◌then◌else◌, true, IsTrue, IsFalse, List, [], ◌∷◌, ◌++◌, length, map, IfSome, IfNone, option_to_list, vec_capacity};
ghost use Rattle.ce_model.specs.Limits.{process_count, mail_room};
ghost use Rattle.ce_model.specs.Parcels.{mail, item_parcels};
ghost use Rattle.rk_mail.specs.Items.{item_of, parcel_of};
ghost use Rattle.ce_machine.specs.Tables.{blank_host};

use crate::blank::Blank;
use crate::mail::take_blocks;
use ce_model::{MAIL_ROOM, NoMemory};
use rk_mail::{Item, Mailbox, Parcel};
use std::alloc::Global;
use std::marker::Model;
use xm_block::Block;

/// What the machine keeps for a user's host: whether the user's cube is drained, how many
/// dispatches are allowed and how many of them were made, how many parcels were sent in the cube,
/// and what waits for the host, with room for all that can.
#[derive(Drop)]
pub(crate) struct HostDesk {
    is_drained: bool,
    allowed_dispatches: u32,
    made_dispatches: u32,
    parcel_count: u64,
    mailbox: Mailbox,
}

impl Model for HostDesk {
    ghost use Rattle.std.specs.Prelude.{◌≡◌, ◌+◌, ◌≤◌, length};
    ghost use Rattle.ce_model.specs.Limits.{mail_room};
    ghost use Rattle.ce_machine.specs.Tables.{HostRecord};

    ghost Value = { HostRecord };

    ghost view = { λ host. record {
      is_drained = host.is_drained;
      allowed_dispatches = host.allowed_dispatches;
      made_dispatches = host.made_dispatches;
      parcel_count = host.parcel_count;
      mail = host.mailbox.items;
    } };

    ghost invariant = { λ host. (length host.mailbox.items + host.mailbox.spare ≡ mail_room)
        × (host.made_dispatches ≤ host.allowed_dispatches) };
}

impl Blank for HostDesk {
    ghost blank = { blank_host };

    #[tactic(auto, using(ce_model::specs::Limits::mail_room_lem))]
    fn new(alloc: Global) -> Result<HostDesk, NoMemory> {
        let mailbox = Mailbox::new(alloc, MAIL_ROOM)?;
        Ok(HostDesk {
            is_drained: false,
            allowed_dispatches: 0,
            made_dispatches: 0,
            parcel_count: 0,
            mailbox,
        })
    }
}

impl HostDesk {
    /// How many messages wait.
    pub(crate) fn count(&self) -> u32
        ensures value { result ≡ length self.now.mail }
        ensures within { result ≤ mail_room }
    {
        self.mailbox.count()
    }

    /// So many dispatches are allowed; none of them was made yet.
    pub(crate) fn arm(&mut self, count: u32)
        ensures { self.new ≡ record self.old { allowed_dispatches = count; made_dispatches = 0 } }
    {
        self.allowed_dispatches = count;
        self.made_dispatches = 0;
    }

    /// Whether the dispatches that are allowed are used up.
    pub(crate) fn is_used_up(&self) -> bool
        ensures value { result ≡ (self.now.made_dispatches == self.now.allowed_dispatches) }
    {
        self.made_dispatches == self.allowed_dispatches
    }

    /// A node was answered, with work or not; an answer with work is a dispatch.
    pub(crate) fn dispatch(&mut self, is_work: bool)
        requires { IsTrue is_work
            → IsFalse (self.old.made_dispatches == self.old.allowed_dispatches) }
        ensures { self.new ≡ record self.old {
          made_dispatches = if is_work then self.old.made_dispatches + 1
              else self.old.made_dispatches;
        } }
    {
        if is_work {
            self.made_dispatches += 1;
        }
    }

    /// So many parcels more are sent: the number of the first.
    pub(crate) fn add_parcels(&mut self, count: u32) -> u64
        requires { self.old.parcel_count + count < 2 ^ 64 }
        ensures first { result ≡ self.old.parcel_count }
        ensures host { self.new ≡ record self.old { parcel_count = self.old.parcel_count + count } }
    {
        let first = self.parcel_count;
        self.parcel_count += count as u64;
        first
    }

    /// A message waits from now on.
    pub(crate) fn post(&mut self, parcel: Parcel)
        requires room { length self.old.mail < mail_room }
        requires process { parcel.to.pid < process_count }
        ensures { self.new
            ≡ record self.old { mail = self.old.mail ++ mail (parcel_of parcel) ∷ [] } }
    {
        self.mailbox.post(Item::Mail(parcel));
    }

    /// Takes out the first item that waits.
    pub(crate) fn take_first(&mut self) -> Option<Item>
        ensures first { self.old.mail ≡ map item_of (option_to_list result) ++ self.new.mail }
        ensures host { self.new ≡ record self.old { mail = self.new.mail } }
        ensures none { IfNone result (self.old.mail ≡ []) }
    {
        self.mailbox.take_first()
    }

    /// Takes all that waits out, and puts the blocks of the messages behind those that were taken
    /// before. The cube is drained.
    pub(crate) fn drain(&mut self, blocks: &mut Vec<Block>)
        requires { length blocks.old.items + length self.old.mail ≤ vec_capacity blocks.old }
        ensures host { self.new ≡ record self.old { is_drained = true; mail = [] } }
        ensures blocks { blocks.new.items ≡ blocks.old.items
            ++ map (λ parcel. parcel.block) (item_parcels self.old.mail) }
    {
        take_blocks(&mut self.mailbox, blocks);
        self.is_drained = true;
    }

    /// Makes it the desk of the host of a user without a cube. Nothing waits.
    pub(crate) fn clear(&mut self)
        requires { self.old.mail ≡ [] }
        ensures { self.new ≡ blank_host }
    {
        self.is_drained = false;
        self.allowed_dispatches = 0;
        self.made_dispatches = 0;
        self.parcel_count = 0;
    }
}
