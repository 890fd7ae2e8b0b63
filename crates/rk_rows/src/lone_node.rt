ghost use Rattle.std.specs.Prelude.{◌≡◌, ◌<◌, IfOk, false};
ghost use Rattle.ce_model.specs.Limits.{process_count};
ghost use Rattle.ce_model.specs.Node.{process_at};
ghost use Rattle.rk_rows.specs.Lone.{HasExchangedAlone};

use crate::desk::LoneDesk;
use crate::fault::RowFault;
use crate::transcript::Transcript;
use ce_model::{GREATEST_BLOCKS, GREATEST_IMAGES, KillResult, PROCESS_COUNT, Status};
use rk_mail::Hearing;
use rk_node::NodeBox;
use rv_image::Image;
use std::alloc::Global;
use std::marker::Model;

/// A node in a box, alone in its cube and driven by hand: its images, what answers it, and whether
/// a command has failed, behind which no further command is made. Contracts see the box.
#[derive(Drop)]
pub struct LoneNode {
    node: NodeBox,
    images: Vec<Image>,
    desk: LoneDesk,
    is_stuck: bool,
}

impl Model for LoneNode {
    ghost use Rattle.std.specs.Prelude.{◌≡◌, false};
    ghost use Rattle.rk_node.specs.Boxes.{Box};
    ghost use Rattle.rk_rows.specs.Lone.{IsAloneAtRest};

    ghost Value = { Box };

    ghost view = { λ inside. inside.node };

    ghost invariant = { λ inside. inside.is_stuck ≡ false
        → IsAloneAtRest inside.node inside.images.items inside.desk.mailbox };
}

impl LoneNode {
    /// The node of a cube of one node, with these images, `GREATEST_IMAGES` at most, and no process
    /// started. What it says and hears is kept as a text where that is asked for.
    pub fn new(alloc: Global, images: Vec<Image>, is_told: bool) -> Result<LoneNode, RowFault> {
        if images.len() > GREATEST_IMAGES as usize {
            return Err(RowFault::Images);
        }
        let mut node = NodeBox::new(alloc, 0, GREATEST_BLOCKS)?;
        node.enter(0, 0, images.len() as u32);
        Ok(LoneNode {
            node,
            images,
            desk: LoneDesk::new(alloc, is_told)?,
            is_stuck: false,
        })
    }

    /// Has the start of an image as a process wait, unless the process id was used: whether it was
    /// fresh.
    pub fn spawn(&mut self, image: u32, pid: u32) -> Result<bool, RowFault>
        ensures { self.new ≡ self.old }
    {
        if self.is_stuck {
            return Err(RowFault::Stuck);
        }
        self.is_stuck = true;
        let is_fresh = self.desk.accept_spawn(image, pid)?;
        self.is_stuck = false;
        Ok(is_fresh)
    }

    /// Has the end of a process wait, unless the process id wasn't used or a kill was accepted
    /// before.
    pub fn kill(&mut self, pid: u32) -> Result<KillResult, RowFault>
        ensures { self.new ≡ self.old }
    {
        if self.is_stuck {
            return Err(RowFault::Stuck);
        }
        self.is_stuck = true;
        let found = self.desk.accept_kill(pid)?;
        self.is_stuck = false;
        Ok(found)
    }

    /// The node says something, is answered, and hears the answer: whether there was something to
    /// do.
    pub fn exchange(&mut self) -> Result<bool, RowFault>
        ensures { IfOk result (λ _. HasExchangedAlone self.old self.new) }
    {
        if self.is_stuck {
            return Err(RowFault::Stuck);
        }
        self.is_stuck = true;
        let say = self.node.says();
        let hearing = self.desk.answer(&self.node, self.images.as_slice(), say)?;
        let has_work = !matches!(hearing, Hearing::Idle);
        self.node.hears(self.images.as_slice(), hearing);
        self.is_stuck = false;
        Ok(has_work)
    }

    /// Makes exchanges until there is nothing to do, so many at most.
    pub fn run(&mut self, limit: u32) -> Result<(), RowFault> {
        for _ in 0..limit {
            if !self.exchange()? {
                return Ok(());
            }
        }
        Err(RowFault::Endless)
    }

    /// What a process does at this moment; its id is below `PROCESS_COUNT`.
    pub fn status(&self, pid: u32) -> Status
        requires { pid < process_count }
        ensures { result ≡ (process_at self.now.node pid).status }
    {
        self.node.status(pid)
    }

    /// How many parcels were sent so far.
    pub fn parcels(&self) -> u64 {
        self.desk.parcels
    }

    /// What was said and heard, a line for each exchange.
    pub fn transcript(&self) -> &str {
        match &self.desk.transcript.text {
            Some(text) => text.as_str(),
            None => "",
        }
    }
}
