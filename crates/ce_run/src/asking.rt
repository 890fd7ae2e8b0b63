//! What a user's host asks of the machine.
ghost use Rattle.std.specs.Prelude.{◌≡◌, IfOk};
ghost use Rattle.ce_model.specs.declared.topology.TheConstants.{HOST};
ghost use Rattle.ce_machine.specs.Requests.{IsFittingCall};
ghost use Rattle.rk_node.specs.Boxes.{IsCleanBox, home_of};
ghost use Rattle.ce_cube.specs.Crews.{IsLawfulMachine, serial_facts};
ghost use Rattle.ce_run.specs.Asking.{HasAsked, HasHostCalled, AreNodesInStep, IsHostCall};

use ce_cube::SerialCrew;
use ce_lock::{Kept, Who};
use ce_machine::{Call, Machine, Reply};
use ce_model::{HOST, NoMemory};
use rk_node::NodeBox;
use std::alloc::Global;

/// What the machine answers the host of a user. `NoMemory` may come at any time.
pub(crate) fn ask(
    alloc: Global,
    machine: &mut Machine<NodeBox>,
    user: u32,
    call: Call<NodeBox>,
) -> Result<Reply<NodeBox>, NoMemory>
    requires machine { IsLawfulMachine machine.old }
    requires fits { IsFittingCall home_of IsCleanBox machine.old.parts machine.old.history
        (record { family = user; actor = HOST }) call }
    ensures { IfOk result (HasAsked machine.old machine.new user call) }
{
    let who = Who {
        family: user,
        actor: HOST,
    };
    match machine.act(alloc, who, call) {
        Ok(reply) => Ok(reply),
        Err((_, want)) => Err(want),
    }
}

/// What the machine answers the host of a crew, which makes a call of its cube. `NoMemory` may come
/// at any time; the crew isn't used again then.
pub(crate) fn ask_in_cube(
    alloc: Global,
    machine: &mut Machine<NodeBox>,
    crew: &mut SerialCrew,
    call: Call<NodeBox>,
) -> Result<Reply<NodeBox>, NoMemory>
    requires machine { IsLawfulMachine machine.old }
    requires nodes { AreNodesInStep machine.old.parts machine.old.history (serial_facts crew.old) }
    requires call { IsHostCall machine.old.parts machine.old.history crew.old.grant.user call }
    ensures { IfOk result (HasHostCalled machine.old machine.new
        (serial_facts crew.old) (serial_facts crew.new) call) }
{
    let reply = ask(alloc, machine, crew.grant.user, call)?;
    crew.entries += 1;
    Ok(reply)
}
