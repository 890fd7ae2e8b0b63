//! What nodes say to the machine, and hosts that send, spawn or kill.
ghost use Rattle.std.specs.Prelude.{◌≡◌, ◌<◌, ◌≤◌, [], if◌then◌else◌, length, vec_len, vec_capacity, Result, IfOk, IfErr, OnOk, OnErr, MatchResult};
ghost use Rattle.rk_mail.specs.Targets.{bytes_of, HasEqualBytes};
ghost use Rattle.ce_model.specs.Limits.{greatest_targets, greatest_history};
ghost use Rattle.ce_machine.specs.Requests.{IsFittingCall};
ghost use Rattle.ce_machine.specs.Answering.{HasAnswered};

use crate::desks::{mark_busy, post_all};
use crate::give::{is_idle, is_work, offer, result_of_hearing};
use crate::machine::{add_entry, grant_of, make_room};
use crate::order::Order;
use crate::{Call, Machine, Reply};
use ce_daemon::Homed;
use ce_lock::Who;
use ce_model::{BlockId, Bytes, Entry, NoMemory, Place, Targets, What};
use ce_set::relative_number;
use rk_mail::{Batch, Hearing, Say};
use std::alloc::Global;

impl<N: Homed> Machine<N> {
    // An actor says something.
    pub(crate) fn say(
        &mut self,
        alloc: Global,
        who: Who,
        say: Say,
    ) -> Result<Reply<N>, (Say, NoMemory)>
        requires { IsFittingCall N.home N.clean self.old.parts self.old.history who
            (Call.Say say) }
        ensures answered { IfOk result (λ reply.
            HasAnswered N.home N.clean self.old self.new who (Call.Say say) reply) }
        ensures refused { IfErr result (λ refusal. (self.new ≡ self.old) × (refusal.0 ≡ say)) }
    {
        match say {
            Say::Take {
                asking,
                dead,
                poller,
            } => reply_or_say(
                self.take(who, asking, dead, poller),
                Say::Take {
                    asking,
                    dead,
                    poller,
                },
            ),
            Say::Send { pid, batch } => match self.send(alloc, who, pid, batch) {
                Ok(hearing) => Ok(Reply::Heard(hearing)),
                Err((batch, want)) => Err((Say::Send { pid, batch }, want)),
            },
            Say::Spawn { pid, image, to } => reply_or_say(
                self.order(who, pid, Order::Spawn { image }, to),
                Say::Spawn { pid, image, to },
            ),
            Say::Kill { pid, to } => reply_or_say(
                self.order(who, pid, Order::Kill, to),
                Say::Kill { pid, to },
            ),
            Say::Note { pid, word } => reply_or_say(
                self.note(who, pid, word),
                Say::Note { pid, word },
            ),
        }
    }

    // A node asks for work.
    fn take(
        &mut self,
        who: Who,
        asking: u32,
        dead: u32,
        poller: Option<u32>,
    ) -> Result<Hearing, NoMemory>
        requires { IsFittingCall N.home N.clean self.old.parts self.old.history who
            (Call.Say (Say.Take asking dead poller)) }
        ensures answered { IfOk result (λ hearing. HasAnswered N.home N.clean self.old self.new who
            (Call.Say (Say.Take asking dead poller)) (Reply.Heard hearing)) }
        ensures refused { OnErr result (self.new ≡ self.old) }
    {
        make_room(&mut self.history)?;
        let desk = &mut self.desks[who.actor as usize];
        let host = &mut self.hosts[who.family as usize];
        let hearing = offer(desk, asking, dead, poller, host.is_used_up());
        let given = result_of_hearing(&hearing);
        host.dispatch(is_work(given));
        desk.mark_take(asking, dead, is_idle(given));
        add_entry(
            &mut self.history,
            who,
            What::Take {
                asking,
                dead,
                poller,
                given,
            },
        );
        Ok(hearing)
    }

    // A message is sent.
    fn send(
        &mut self,
        alloc: Global,
        who: Who,
        pid: u32,
        batch: Batch,
    ) -> Result<Hearing, (Batch, NoMemory)>
        requires { IsFittingCall N.home N.clean self.old.parts self.old.history who
            (Call.Say (Say.Send pid batch)) }
        ensures answered { IfOk result (λ hearing. HasAnswered N.home N.clean self.old self.new who
            (Call.Say (Say.Send pid batch)) (Reply.Heard hearing)) }
        ensures refused { IfErr result (λ refusal. (self.new ≡ self.old) × (refusal.0 ≡ batch)) }
    {
        let Ok((mut to, bytes)) = room_for(alloc, &mut self.history, &batch) else {
            return Err((batch, NoMemory));
        };
        let grant = grant_of(&self.daemon, who.family);
        let from = Place {
            node: relative_number(&grant.sub, who.actor),
            pid,
        };
        let host = &mut self.hosts[who.family as usize];
        let first = host.add_parcels(batch.count());
        let batch = post_all(&mut self.desks, host, &grant, from, first, batch, &mut to);
        mark_busy(&mut self.desks, who.actor);
        let to = Targets::from_vec(to);
        add_entry(
            &mut self.history,
            who,
            What::Send {
                pid,
                first,
                to,
                bytes,
            },
        );
        Ok(Hearing::Posted(batch))
    }

    // A word goes into the trace.
    fn note(&mut self, who: Who, pid: u32, word: u32) -> Result<Hearing, NoMemory>
        requires { IsFittingCall N.home N.clean self.old.parts self.old.history who
            (Call.Say (Say.Note pid word)) }
        ensures answered { IfOk result (λ hearing. HasAnswered N.home N.clean self.old self.new who
            (Call.Say (Say.Note pid word)) (Reply.Heard hearing)) }
        ensures refused { OnErr result (self.new ≡ self.old) }
    {
        make_room(&mut self.history)?;
        mark_busy(&mut self.desks, who.actor);
        add_entry(&mut self.history, who, What::Note { pid, word });
        Ok(Hearing::Noted)
    }
}

// What was heard, or with no memory what was said.
fn reply_or_say<N: Homed>(
    hearing: Result<Hearing, NoMemory>,
    say: Say,
) -> Result<Reply<N>, (Say, NoMemory)>
    ensures { MatchResult hearing (λ value. result ≡ Result.Ok (Reply.Heard value))
        (λ want. result ≡ Result.Err (say, want)) }
{
    match hearing {
        Ok(value) => Ok(Reply::Heard(value)),
        Err(want) => Err((say, want)),
    }
}

// The memory for a message's entry: that of the entry, room for its targets, and its bytes.
#[tactic(auto, using(ce_model::specs::Limits::block_room_lem))]
fn room_for(
    alloc: Global,
    history: &mut Vec<Entry>,
    batch: &Batch,
) -> Result<(Vec<(Place, BlockId)>, Bytes), NoMemory>
    ensures same { history.new.items ≡ history.old.items }
    ensures entry { OnOk result (vec_len history.new < vec_capacity history.new) }
    ensures short { OnOk result (length history.old.items < greatest_history) }
    ensures none { IfOk result (λ room_and_bytes. room_and_bytes.0.items ≡ []) }
    ensures room { IfOk result (λ room_and_bytes.
        length batch.now ≤ vec_capacity room_and_bytes.0) }
    ensures bytes { IfOk result (λ room_and_bytes. room_and_bytes.1 ≡ bytes_of batch.now) }
    ensures equal { IfOk result (λ _. HasEqualBytes batch.now) }
    ensures few { length batch.now ≤ greatest_targets }
{
    let count = batch.count();
    make_room(history)?;
    let to = Vec::with_capacity(alloc, count as usize)?;
    let bytes = if count == 0 {
        Vec::new(alloc)
    } else {
        batch.bytes().to_vec(alloc)?
    };
    Ok((to, Bytes::from_vec(bytes)))
}
