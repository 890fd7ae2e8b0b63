//! What hosts ask of the machine.
ghost use Rattle.std.specs.Prelude.{◌≡◌, IfOk, IfErr, OnErr};
ghost use Rattle.ce_model.specs.Answers.{look_result_where};
ghost use Rattle.ce_machine.specs.Replies.{look_reply};
ghost use Rattle.ce_machine.specs.Requests.{IsFittingCall};
ghost use Rattle.ce_machine.specs.Answering.{HasAnswered};

use crate::desks::{clear_nodes, drain_nodes, is_quiet, waiting_count};
use crate::machine::{add_entry, grant_of, make_room};
use crate::{Call, Machine, Reply};
use ce_daemon::Homed;
use ce_lock::Who;
use ce_model::{LookResult, NoMemory, What};
use rk_mail::Item;
use std::alloc::Global;

impl<N: Homed> Machine<N> {
    // The host asks for a cube.
    pub(crate) fn getcube(
        &mut self,
        alloc: Global,
        who: Who,
        dim: u32,
    ) -> Result<Reply<N>, NoMemory>
        requires { IsFittingCall N.home N.clean self.old.parts self.old.history who
            (Call.Getcube dim) }
        ensures answered { IfOk result (λ reply.
            HasAnswered N.home N.clean self.old self.new who (Call.Getcube dim) reply) }
        ensures refused { OnErr result (self.new ≡ self.old) }
    {
        make_room(&mut self.history)?;
        match self.daemon.getcube(alloc, who.family, dim)? {
            Some((grant, boxes)) => {
                let sub = Some(grant.sub);
                add_entry(&mut self.history, who, What::Getcube { dim, sub });
                Ok(Reply::Granted { grant, boxes })
            }
            None => {
                let sub = None;
                add_entry(&mut self.history, who, What::Getcube { dim, sub });
                Ok(Reply::NoneFree)
            }
        }
    }

    // The host asks which cubes are held.
    pub(crate) fn peek(&mut self, alloc: Global, who: Who) -> Result<Reply<N>, NoMemory>
        requires { IsFittingCall N.home N.clean self.old.parts self.old.history who Call.Peek }
        ensures answered { IfOk result (λ reply.
            HasAnswered N.home N.clean self.old self.new who Call.Peek reply) }
        ensures refused { OnErr result (self.new ≡ self.old) }
    {
        make_room(&mut self.history)?;
        let peek_result = self.daemon.peek(alloc)?;
        add_entry(&mut self.history, who, What::Peek);
        Ok(Reply::Peeked(peek_result))
    }

    // The host takes all messages that wait in its cube.
    pub(crate) fn drain(&mut self, alloc: Global, who: Who) -> Result<Reply<N>, NoMemory>
        requires { IsFittingCall N.home N.clean self.old.parts self.old.history who Call.Drain }
        ensures answered { IfOk result (λ reply.
            HasAnswered N.home N.clean self.old self.new who Call.Drain reply) }
        ensures refused { OnErr result (self.new ≡ self.old) }
    {
        make_room(&mut self.history)?;
        let grant = grant_of(&self.daemon, who.family);
        let host = &mut self.hosts[who.family as usize];
        let count = waiting_count(&self.desks, &grant) + host.count() as usize;
        let mut blocks = Vec::with_capacity(alloc, count)?;
        drain_nodes(&mut self.desks, &grant, &mut blocks);
        host.drain(&mut blocks);
        add_entry(&mut self.history, who, What::Drain);
        Ok(Reply::Drained(blocks))
    }

    // The host gives its drained cube back, with the clean boxes of its nodes.
    pub(crate) fn freecube(
        &mut self,
        who: Who,
        boxes: Vec<N>,
    ) -> Result<Reply<N>, (Vec<N>, NoMemory)>
        requires { IsFittingCall N.home N.clean self.old.parts self.old.history who
            (Call.Freecube boxes) }
        ensures answered { IfOk result (λ reply.
            HasAnswered N.home N.clean self.old self.new who (Call.Freecube boxes) reply) }
        ensures refused { IfErr result (λ refusal. (self.new ≡ self.old) × (refusal.0 ≡ boxes)) }
    {
        let Ok(()) = make_room(&mut self.history) else {
            return Err((boxes, NoMemory));
        };
        let grant = grant_of(&self.daemon, who.family);
        self.daemon.freecube(who.family, boxes);
        clear_nodes(&mut self.desks, &grant);
        let host = &mut self.hosts[who.family as usize];
        host.clear();
        add_entry(&mut self.history, who, What::Freecube);
        Ok(Reply::Freed)
    }

    // The host allows so many dispatches.
    pub(crate) fn arm(&mut self, who: Who, count: u32) -> Result<Reply<N>, NoMemory>
        requires { IsFittingCall N.home N.clean self.old.parts self.old.history who
            (Call.Arm count) }
        ensures answered { IfOk result (λ reply.
            HasAnswered N.home N.clean self.old self.new who (Call.Arm count) reply) }
        ensures refused { OnErr result (self.new ≡ self.old) }
    {
        make_room(&mut self.history)?;
        let host = &mut self.hosts[who.family as usize];
        host.arm(count);
        add_entry(&mut self.history, who, What::Arm { count });
        Ok(Reply::Armed)
    }

    // The host looks whether its cube is quiet.
    pub(crate) fn look(&mut self, who: Who) -> Result<Reply<N>, NoMemory>
        requires { IsFittingCall N.home N.clean self.old.parts self.old.history who Call.Look }
        ensures answered { IfOk result (λ reply.
            HasAnswered N.home N.clean self.old self.new who Call.Look reply) }
        ensures refused { OnErr result (self.new ≡ self.old) }
    {
        make_room(&mut self.history)?;
        let grant = grant_of(&self.daemon, who.family);
        let host = &self.hosts[who.family as usize];
        let found = look_result_where(is_quiet(&self.desks, &grant), host.is_used_up());
        let reply = look_reply(found);
        add_entry(&mut self.history, who, What::Look { found });
        Ok(reply)
    }

    // The host takes its next message.
    pub(crate) fn host_take(&mut self, who: Who) -> Result<Reply<N>, NoMemory>
        requires { IsFittingCall N.home N.clean self.old.parts self.old.history who Call.HostTake }
        ensures answered { IfOk result (λ reply.
            HasAnswered N.home N.clean self.old self.new who Call.HostTake reply) }
        ensures refused { OnErr result (self.new ≡ self.old) }
    {
        make_room(&mut self.history)?;
        let host = &mut self.hosts[who.family as usize];
        match host.take_first() {
            Some(Item::Mail(parcel)) => {
                let number = Some(parcel.number);
                add_entry(&mut self.history, who, What::HostTake { number });
                Ok(Reply::Mail(parcel))
            }
            Some(Item::Start { .. }) => unreachable!(),
            Some(Item::Kill { .. }) => unreachable!(),
            None => {
                let number = None;
                add_entry(&mut self.history, who, What::HostTake { number });
                Ok(Reply::NoMail)
            }
        }
    }
}

// What a look finds.
fn look_result_where(is_quiet: bool, is_used_up: bool) -> LookResult
    ensures { result ≡ look_result_where is_quiet is_used_up }
{
    if is_quiet {
        LookResult::Quiet
    } else if is_used_up {
        LookResult::Spent
    } else {
        LookResult::Busy
    }
}

// What a look is answered.
fn look_reply<N: Homed>(found: LookResult) -> Reply<N>
    ensures { result ≡ look_reply found }
{
    match found {
        LookResult::Quiet => Reply::Quiet,
        LookResult::Spent => Reply::Spent,
        LookResult::Busy => Reply::Busy,
    }
}
