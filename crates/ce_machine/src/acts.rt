//! The machine, as a book keeps it.
ghost use Rattle.std.specs.Prelude.{◌≡◌, IfOk, IfErr, OnErr, Result, MatchResult};
ghost use Rattle.ce_model.specs.Machine.{IsLawful};
ghost use Rattle.ce_machine.specs.Requests.{IsFittingCall};
ghost use Rattle.ce_machine.specs.Answering.{HasAnswered};
ghost use Rattle.ce_machine.specs.Meanings.{whose, is_alone_call, is_alone_entry, IsAnsweredBy};

use crate::{Call, Machine, Reply};
use ce_daemon::Homed;
use ce_lock::{Kept, Who};
use ce_model::{Entry, NoMemory};
use std::alloc::Global;

impl<N: Homed> Kept for Machine<N> {
    ghost use Rattle.ce_model.specs.Machine.{MachineParts};
    ghost use Rattle.ce_machine.specs.Keeping.{empty_is_lawful, prefix_is_lawful, stands_for, still_fits};

    type Call = Call<N>;

    type Reply = Reply<N>;

    type Entry = Entry;

    ghost Fixed = { MachineParts };

    ghost fixed = { λ machine. machine.parts };

    ghost history = { λ machine. machine.history };

    ghost whose = { whose };

    ghost alone = { is_alone_call };

    ghost alone_entry = { is_alone_entry };

    ghost lawful = { IsLawful };

    ghost fits = { IsFittingCall N.home N.clean };

    ghost stands = { IsAnsweredBy N.home N.clean };

    fn act(
        &mut self,
        alloc: Global,
        who: Who,
        call: Call<N>,
    ) -> Result<Reply<N>, (Call<N>, NoMemory)> {
        self.answer(alloc, who, call)
    }

    ghost empty_is_lawful = { empty_is_lawful };

    ghost prefix_is_lawful = { prefix_is_lawful };

    ghost stands_for = { stands_for N.home N.clean };

    ghost still_fits = { still_fits N.home N.clean };
}

impl<N: Homed> Machine<N> {
    // Answers a call that fits.
    fn answer(
        &mut self,
        alloc: Global,
        who: Who,
        call: Call<N>,
    ) -> Result<Reply<N>, (Call<N>, NoMemory)>
        requires { IsFittingCall N.home N.clean self.old.parts self.old.history who call }
        ensures answered { IfOk result (λ reply.
            HasAnswered N.home N.clean self.old self.new who call reply) }
        ensures refused { IfErr result (λ refusal. (self.new ≡ self.old) × (refusal.0 ≡ call)) }
    {
        match call {
            Call::Getcube { dim } => reply_or_call(
                self.getcube(alloc, who, dim),
                Call::Getcube { dim },
            ),
            Call::Peek => reply_or_call(self.peek(alloc, who), Call::Peek),
            Call::Drain => reply_or_call(self.drain(alloc, who), Call::Drain),
            Call::Freecube { boxes } => match self.freecube(who, boxes) {
                Ok(reply) => Ok(reply),
                Err((boxes, want)) => Err((Call::Freecube { boxes }, want)),
            },
            Call::Arm { count } => reply_or_call(self.arm(who, count), Call::Arm { count }),
            Call::Look => reply_or_call(self.look(who), Call::Look),
            Call::HostTake => reply_or_call(self.host_take(who), Call::HostTake),
            Call::Say(say) => match self.say(alloc, who, say) {
                Ok(reply) => Ok(reply),
                Err((say, want)) => Err((Call::Say(say), want)),
            },
        }
    }
}

// The reply, or with no memory the call.
fn reply_or_call<N: Homed>(
    reply: Result<Reply<N>, NoMemory>,
    call: Call<N>,
) -> Result<Reply<N>, (Call<N>, NoMemory)>
    ensures { MatchResult reply (λ value. result ≡ Result.Ok value)
        (λ want. result ≡ Result.Err (call, want)) }
{
    match reply {
        Ok(value) => Ok(value),
        Err(want) => Err((call, want)),
    }
}
