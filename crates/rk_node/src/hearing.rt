ghost use Rattle.std.specs.Prelude.{◌≡◌, ◌<◌, [], Some, None};
ghost use Rattle.ce_model.specs.declared.calls.TheConstants.{DONE};
ghost use Rattle.ce_model.specs.declared.process.Status.{Status};
ghost use Rattle.ce_model.specs.Limits.{process_count};
ghost use Rattle.ce_model.specs.Process.{started_process};
ghost use Rattle.ce_model.specs.Node.{process_at, blocks_of};
ghost use Rattle.ce_model.specs.Hearing.{mail_of, kill_of, answer_of, with_turn, with_answered_turn, with_received_parcel, node_after_hearing};
ghost use Rattle.ce_solo.proofs.Counting.{count};
ghost use Rattle.rk_mail.specs.Items.{parcel_of};
ghost use Rattle.rk_mail.specs.Talk.{hearing_model};
ghost use Rattle.rk_node.specs.Standing.{node_model};
ghost use Rattle.rk_node.specs.Ready.{IsHearing, HasRoom};
ghost use Rattle.rk_node.specs.Hearings.{IsNodeWork, HasRoomToHear, batch_after_hearing};

use crate::node::Node;
use crate::pid::Pid;
use crate::saying::{is_receiving, is_stopped};
use crate::turn::Turn;
use ce_model::calls::{DONE, KILLED_BEFORE, NO_ADDRESS, UNUSED_ID, USED_ID};
use ce_model::{Status, Stop, TURN_INSTRUCTIONS};
use rk_mail::{Batch, Hearing, Parcel};
use rv_image::Image;

impl Node {
    /// What the node becomes by the answer to its call.
    pub fn hears(&mut self, images: &[Image], hearing: Hearing)
        requires ready { IsHearing self.old }
        requires work { IsNodeWork images.now (node_model self.old) hearing }
        requires room { HasRoomToHear hearing self.old }
        ensures node { node_model self.new
            ≡ node_after_hearing images.now (node_model self.old) (hearing_model hearing) }
        ensures batch { self.new.batch ≡ batch_after_hearing hearing self.old.batch }
        ensures room { self.new.room ≡ self.old.room }
    {
        match hearing {
            Hearing::Start { pid, image } => self.start(
                Pid { number: pid },
                &images[image as usize],
            ),
            Hearing::Mail(parcel) => self.take_mail(parcel),
            Hearing::Kill { pid } => self.end_process(Pid { number: pid }),
            Hearing::Poll { pid } => self.begin_answered_turn(Pid { number: pid }, NO_ADDRESS),
            Hearing::Idle => {}
            Hearing::Spent => {}
            Hearing::Noted => {}
            Hearing::Posted(batch) => self.regain_batch(batch),
            Hearing::Spawned => self.answer_call(DONE),
            Hearing::Killed => self.answer_call(DONE),
            Hearing::Used => self.answer_call(USED_ID),
            Hearing::Unused => self.answer_call(UNUSED_ID),
            Hearing::Already => self.answer_call(KILLED_BEFORE),
        }
    }

    /// A turn of a process begins.
    fn begin_turn(&mut self, pid: Pid)
        ensures node { node_model self.new
            ≡ with_turn (node_model self.old) pid.number
            (process_at (node_model self.old) pid.number) }
        ensures batch { self.new.batch ≡ self.old.batch }
        ensures room { self.new.room ≡ self.old.room }
    {
        self.set_status(pid, Status::Running);
        self.leave_polling(pid);
        self.turn = Some(Turn {
            pid,
            instructions_left: TURN_INSTRUCTIONS,
            calls: 0,
        });
    }

    /// A turn begins of a process that is answered by this number.
    fn begin_answered_turn(&mut self, pid: Pid, value: u32)
        ensures node { node_model self.new ≡ with_answered_turn (node_model self.old) pid.number
            (process_at (node_model self.old) pid.number) value }
        ensures batch { self.new.batch ≡ self.old.batch }
        ensures room { self.new.room ≡ self.old.room }
    {
        self.answer(pid, value);
        self.begin_turn(pid);
    }

    /// An image is started as a process.
    fn start(&mut self, pid: Pid, image: &Image)
        requires unborn { (process_at (node_model self.old) pid.number).status ≡ Status.Unborn }
        requires unused { (process_at (node_model self.old) pid.number).space.windows ≡ [] }
        ensures node { node_model self.new
            ≡ with_turn (node_model self.old) pid.number (started_process image.now) }
        ensures batch { self.new.batch ≡ self.old.batch }
        ensures room { self.new.room ≡ self.old.room }
    {
        let process = &mut self.processes[pid.number as usize];
        process.start(image);
        self.begin_turn(pid);
    }

    /// A parcel came: for a process that has stopped its block goes to the store.
    fn take_mail(&mut self, parcel: Parcel)
        requires ready { IsHearing self.old }
        requires idle { self.old.turn ≡ None }
        requires pid { parcel.to.pid < process_count }
        requires room { HasRoom self.old }
        requires apart { count parcel.block.id (blocks_of (node_model self.old)) ≡ 0 }
        ensures node { node_model self.new
            ≡ node_after_hearing [] (node_model self.old) (mail_of (parcel_of parcel)) }
        ensures batch { self.new.batch ≡ self.old.batch }
        ensures room { self.new.room ≡ self.old.room }
    {
        let pid = Pid {
            number: parcel.to.pid,
        };
        if is_receiving(self.status(pid)) {
            self.receive(parcel);
        } else {
            self.give(parcel.block);
        }
    }

    /// A process gets a parcel: its block is mapped at the next window, and its turn begins. Where
    /// no window is left it stops, and this block and all its others are in the store.
    fn receive(&mut self, parcel: Parcel)
        requires ready { IsHearing self.old }
        requires idle { self.old.turn ≡ None }
        requires pid { parcel.to.pid < process_count }
        requires room { HasRoom self.old }
        requires apart { count parcel.block.id (blocks_of (node_model self.old)) ≡ 0 }
        ensures node { node_model self.new
            ≡ with_received_parcel (node_model self.old) (parcel_of parcel)
            (process_at (node_model self.old) parcel.to.pid) }
        ensures batch { self.new.batch ≡ self.old.batch }
        ensures room { self.new.room ≡ self.old.room }
    {
        let pid = Pid {
            number: parcel.to.pid,
        };
        if self.has_unused_window(pid) {
            let address = self.map(pid, parcel.block);
            self.begin_answered_turn(pid, address);
        } else {
            self.give(parcel.block);
            self.stop(pid, Stop::WindowsSpent);
        }
    }

    /// A process is stopped, unless it has stopped already.
    fn end_process(&mut self, pid: Pid)
        requires { IsHearing self.old }
        ensures node { node_model self.new
            ≡ node_after_hearing [] (node_model self.old) (kill_of pid.number) }
        ensures batch { self.new.batch ≡ self.old.batch }
        ensures room { self.new.room ≡ self.old.room }
    {
        if !is_stopped(self.status(pid)) {
            self.stop(pid, Stop::Killed);
        }
    }

    /// The call of the turn's process is answered.
    fn answer_call(&mut self, value: u32)
        ensures node { node_model self.new
            ≡ node_after_hearing [] (node_model self.old) (answer_of value) }
        ensures batch { self.new.batch ≡ self.old.batch }
        ensures room { self.new.room ≡ self.old.room }
    {
        match self.turn {
            Some(turn) => self.answer(turn.pid, value),
            None => {}
        }
    }

    /// The batch comes back, and the message's sender is answered.
    fn regain_batch(&mut self, batch: Batch)
        ensures node { node_model self.new
            ≡ node_after_hearing [] (node_model self.old) (answer_of DONE) }
        ensures batch { self.new.batch ≡ Some batch }
        ensures room { self.new.room ≡ self.old.room }
    {
        self.batch = Some(batch);
        self.answer_call(DONE);
    }
}
