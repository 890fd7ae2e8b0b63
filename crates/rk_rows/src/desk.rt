ghost use Rattle.std.specs.Prelude.{◌≡◌, ◌<◌, ◌≤◌, IfOk, IsTrue, [], ◌∷◌, map};
ghost use Rattle.ce_model.specs.Limits.{process_count};
ghost use Rattle.ce_model.specs.Parcels.{item_id};
ghost use Rattle.ce_model.specs.Node.{take_call};
ghost use Rattle.ce_solo.proofs.Items.{parcel_ids};
ghost use Rattle.rk_mail.specs.Items.{item_of};
ghost use Rattle.rk_mail.specs.Talk.{call_of_say, is_take_hearing};
ghost use Rattle.rk_node.specs.Answering.{IsBoxWork};
ghost use Rattle.rk_rows.specs.Lone.{hearing_ids, batch_ids, HasQueued, IsEligibleItem, IsAnswerable, IsAnsweredAlone};

use crate::fault::RowFault;
use crate::transcript::Transcript;
use ce_model::{HOME_BLOCKS, HOST, KillResult, PROCESS_COUNT, Place, Status};
use rk_mail::{Batch, Hearing, Item, Mailbox, Parcel, Say, kill_hearing, spawn_hearing};
use rk_node::NodeBox;
use rv_image::Image;
use std::alloc::Global;
use xm_block::Block;

/// How many items can wait: a start and a kill for each process id, and a parcel for each block of
/// the node.
const QUEUE_ROOM: u32 = HOME_BLOCKS + 2 * PROCESS_COUNT;

/// What became of a process id.
#[derive(Clone, Copy, Debug, PartialEq, Eq)]
pub(crate) enum Life {
    /// No process was spawned.
    Unused,
    /// A process was spawned.
    Used,
    /// A process was spawned, and a kill of it was accepted.
    Killed,
}

/// What answers a node that is alone: the items that wait for it, for how many more there is room
/// at least, what became of each process id, how many parcels there were, and what was said so far.
#[derive(Drop)]
pub(crate) struct LoneDesk {
    pub mailbox: Mailbox,
    pub spare: u32,
    pub lives: Vec<Life>,
    pub parcels: u64,
    pub transcript: Transcript,
    ghost within: { spare ≤ mailbox.spare },
}

impl LoneDesk {
    /// Nothing waits, and no process id was used.
    pub fn new(alloc: Global, is_told: bool) -> Result<LoneDesk, RowFault>
        ensures { IfOk result (λ desk. desk.mailbox.items ≡ []) }
    {
        let mut lives = Vec::with_capacity(alloc, PROCESS_COUNT as usize)?;
        for _ in 0..PROCESS_COUNT {
            lives.push(Life::Unused)?;
        }
        Ok(LoneDesk {
            mailbox: Mailbox::new(alloc, QUEUE_ROOM)?,
            spare: QUEUE_ROOM,
            lives,
            parcels: 0,
            transcript: Transcript {
                text: if is_told {
                    Some(String::new(alloc))
                } else {
                    None
                },
            },
        })
    }

    /// An item waits from now on.
    fn queue(&mut self, item: Item) -> Result<(), RowFault>
        requires { item_id (item_of item) < process_count }
        ensures { IfOk result (λ _. HasQueued (parcel_ids (item_of item ∷ []))
            self.old.mailbox.items self.new.mailbox.items) }
    {
        if self.spare == 0 {
            return Err(RowFault::Full);
        }
        self.spare -= 1;
        self.mailbox.post(item);
        Ok(())
    }

    /// The start of an image as a process waits, unless the process id was used: whether it was
    /// fresh.
    pub fn accept_spawn(&mut self, image: u32, pid: u32) -> Result<bool, RowFault>
        ensures { IfOk result (λ _. HasQueued []
            self.old.mailbox.items self.new.mailbox.items) }
    {
        match life_at(&self.lives, pid)? {
            Life::Unused => {
                set_life(&mut self.lives, pid, Life::Used);
                self.queue(Item::Start { pid, image })?;
                Ok(true)
            }
            Life::Used | Life::Killed => Ok(false),
        }
    }

    /// The end of a process waits, unless the process id wasn't used or a kill was accepted before.
    pub fn accept_kill(&mut self, pid: u32) -> Result<KillResult, RowFault>
        ensures { IfOk result (λ _. HasQueued []
            self.old.mailbox.items self.new.mailbox.items) }
    {
        match life_at(&self.lives, pid)? {
            Life::Used => {
                set_life(&mut self.lives, pid, Life::Killed);
                self.queue(Item::Kill { pid })?;
                Ok(KillResult::Killed)
            }
            Life::Unused => Ok(KillResult::Unused),
            Life::Killed => Ok(KillResult::Already),
        }
    }

    /// A block goes its way: a parcel for a process of the node waits, and what is for the host is
    /// gone.
    fn deliver(&mut self, from: Place, to: Place, block: Block) -> Result<(), RowFault>
        ensures { IfOk result (λ _. HasQueued (block.id ∷ [])
            self.old.mailbox.items self.new.mailbox.items) }
    {
        self.transcript.write_target(to, block.id())?;
        let number = self.parcels;
        self.parcels = number.checked_add(1).ok_or(RowFault::Full)?;
        if to.node == HOST {
            return Ok(());
        }
        if to.node != 0 || to.pid >= PROCESS_COUNT {
            return Err(RowFault::Place);
        }
        self.queue(Item::Mail(Parcel {
            from,
            to,
            number,
            block,
        }))
    }

    /// The blocks of a message go their ways; its batch is empty then.
    fn send(&mut self, pid: u32, mut batch: Batch) -> Result<Batch, RowFault>
        ensures emptied { IfOk result (λ rest. rest ≡ []) }
        ensures queued { IfOk result (λ _. HasQueued (batch_ids batch)
            self.old.mailbox.items self.new.mailbox.items) }
    {
        if batch.count() == 0 {
            return Err(RowFault::Place);
        }
        self.transcript
            .write_message(pid, self.parcels, batch.bytes())?;
        let from = Place { node: 0, pid };
        while let Some((to, block)) = batch.take_first() {
            self.deliver(from, to, block)?;
        }
        self.transcript.write_end()?;
        Ok(batch)
    }

    /// The answer to a Take: the first item that can be given, else a poll, else nothing.
    fn take(
        &mut self,
        node: &NodeBox,
        images: &[Image],
        asking: u32,
        dead: u32,
        poller: Option<u32>,
    ) -> Result<Hearing, RowFault>
        requires { IsAnswerable node.now (take_call asking dead poller) self.old.mailbox.items }
        ensures { IfOk result (λ hearing. IsAnsweredAlone images.now node.now hearing
            self.new.mailbox.items) }
    {
        let hearing = match self.mailbox.take_next(asking, dead) {
            Some(item) => {
                self.spare = self.spare.saturating_add(1);
                hearing_of_item(node, images, item)?
            }
            None => match poller {
                Some(pid) => Hearing::Poll { pid },
                None => Hearing::Idle,
            },
        };
        self.transcript.write_take(asking, dead, poller, &hearing)?;
        Ok(hearing)
    }

    /// The answer to what the node has said.
    pub fn answer(
        &mut self,
        node: &NodeBox,
        images: &[Image],
        say: Say,
    ) -> Result<Hearing, RowFault>
        requires { IsAnswerable node.now (call_of_say say) self.old.mailbox.items }
        ensures { IfOk result (λ hearing. IsAnsweredAlone images.now node.now hearing
            self.new.mailbox.items) }
    {
        match say {
            Say::Take {
                asking,
                dead,
                poller,
            } => self.take(node, images, asking, dead, poller),
            Say::Send { pid, batch } => Ok(Hearing::Posted(self.send(pid, batch)?)),
            Say::Spawn { pid, image, to } => {
                let is_fresh = self.accept_spawn(image, to.pid)?;
                self.transcript.write_spawn(pid, image, to, is_fresh)?;
                Ok(spawn_hearing(is_fresh))
            }
            Say::Kill { pid, to } => {
                let found = self.accept_kill(to.pid)?;
                self.transcript.write_kill(pid, to, found)?;
                Ok(kill_hearing(found))
            }
            Say::Note { pid, word } => {
                self.transcript.write_note(pid, word)?;
                Ok(Hearing::Noted)
            }
        }
    }
}

/// What became of a process id, which is below `PROCESS_COUNT`.
#[tactic(auto, using(ce_model::specs::Limits::process_count_lem))]
fn life_at(lives: &Vec<Life>, pid: u32) -> Result<Life, RowFault>
    ensures { IfOk result (λ _. pid < process_count) }
{
    if pid >= PROCESS_COUNT {
        return Err(RowFault::Place);
    }
    lives.get(pid as usize).copied().ok_or(RowFault::Place)
}

/// Says what becomes of a process id.
fn set_life(lives: &mut Vec<Life>, pid: u32, life: Life) {
    if let Some(place) = lives.get_mut(pid as usize) {
        *place = life;
    }
}

/// What a node hears that is given an item.
fn hearing_of_item(node: &NodeBox, images: &[Image], item: Item) -> Result<Hearing, RowFault>
    requires { IsEligibleItem node.now (item_of item) }
    ensures work { IfOk result (λ hearing. IsBoxWork images.now node.now hearing) }
    ensures take { IfOk result (λ hearing. IsTrue (is_take_hearing hearing)) }
    ensures blocks { IfOk result (λ hearing. hearing_ids hearing ≡ parcel_ids (item_of item ∷ [])) }
{
    match item {
        Item::Start { pid, image } => {
            if pid < PROCESS_COUNT
                && (image as usize) < images.len()
                && is_unborn(node.status(pid))
            {
                Ok(Hearing::Start { pid, image })
            } else {
                Err(RowFault::Unfit)
            }
        }
        Item::Mail(parcel) => Ok(Hearing::Mail(parcel)),
        Item::Kill { pid } => {
            if pid < PROCESS_COUNT && !is_unborn(node.status(pid)) {
                Ok(Hearing::Kill { pid })
            } else {
                Err(RowFault::Unfit)
            }
        }
    }
}

ghost use Rattle.ce_model.specs.Sound.{is_unborn};

/// It wasn't started yet.
fn is_unborn(status: Status) -> bool
    ensures { result ≡ is_unborn status }
{
    match status {
        Status::Unborn => true,
        Status::Running | Status::Asking | Status::Polling | Status::Stopped(_) => false,
    }
}
