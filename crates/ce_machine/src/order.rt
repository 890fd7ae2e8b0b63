//! Orders to nodes, which nodes and hosts give: that a process starts, or that one ends.
ghost use Rattle.std.specs.Prelude.{◌≡◌, IfOk, OnErr};
ghost use Rattle.ce_machine.specs.Requests.{IsFittingCall};
ghost use Rattle.ce_machine.specs.Answering.{HasAnswered};
ghost use Rattle.ce_machine.specs.Orders.{say_of_order};

use crate::desks::{carry_out, mark_busy, place_outward};
use crate::machine::{add_entry, grant_of, make_room};
use crate::{Call, Machine, Reply};
use ce_daemon::Homed;
use ce_lock::Who;
use ce_model::{NoMemory, Place};
use rk_mail::{Hearing, Say};

/// What is to become of a process.
#[derive(Clone, Copy)]
pub(crate) enum Order {
    /// It starts.
    Spawn {
        /// The number of its image.
        image: u32,
    },
    /// It ends.
    Kill,
}

impl<N: Homed> Machine<N> {
    // Process `pid` of an actor gives an order for a place of the cube.
    pub(crate) fn order(
        &mut self,
        who: Who,
        pid: u32,
        order: Order,
        to: Place,
    ) -> Result<Hearing, NoMemory>
        requires { IsFittingCall N.home N.clean self.old.parts self.old.history who
            (Call.Say (say_of_order order pid to)) }
        ensures answered { IfOk result (λ hearing. HasAnswered N.home N.clean self.old self.new who
            (Call.Say (say_of_order order pid to)) (Reply.Heard hearing)) }
        ensures refused { OnErr result (self.new ≡ self.old) }
    {
        make_room(&mut self.history)?;
        let grant = grant_of(&self.daemon, who.family);
        let place = place_outward(&grant, to);
        let (what, hearing) = carry_out(&mut self.desks, order, pid, place);
        mark_busy(&mut self.desks, who.actor);
        add_entry(&mut self.history, who, what);
        Ok(hearing)
    }
}
