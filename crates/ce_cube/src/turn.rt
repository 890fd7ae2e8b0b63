//! One turn of a node.
ghost use Rattle.std.specs.Prelude.{◌≡◌, IfErr, IfOk, IfSome, IfNone, IsTrue, IsFalse};
ghost use Rattle.ce_model.specs.Saying.{says};
ghost use Rattle.rk_mail.specs.Talk.{call_of_say};
ghost use Rattle.rk_node.specs.Answering.{IsAwaitingAnswer};
ghost use Rattle.rk_node.specs.Boxes.{IsIdleBox};
ghost use Rattle.ce_script.specs.Rounds.{asks_for_work};
ghost use Rattle.ce_cube.specs.Boxes.{IsInStep};
ghost use Rattle.ce_cube.specs.Crews.{HasStopped, IsReadyBox};
ghost use Rattle.ce_daemon.specs.Peeks.{cube_grant};
ghost use Rattle.ce_cube.specs.Exchanges.{HasNode, IsTurnUnderWay, machine_node};

use crate::exchange::exchange;
use ce_daemon::Grant;
use ce_machine::Machine;
use ce_model::NoMemory;
use rk_mail::Say;
use rk_node::NodeBox;
use rv_image::Image;
use std::alloc::Global;

/// What a turn came to.
#[derive(Clone, Copy, Debug, PartialEq, Eq)]
pub(crate) struct TurnResult {
    /// The node was given work.
    pub has_work: bool,
    /// How many entries it made.
    pub entries: u64,
}

/// A turn of node r of the cube, whose box is in step: it asks for work once, and runs on until it
/// would ask again.
pub(crate) fn take_turn(
    alloc: Global,
    machine: &mut Machine<NodeBox>,
    grant: &Grant,
    r: u32,
    node_box: &mut NodeBox,
    images: &[Image],
) -> Result<TurnResult, NoMemory>
    requires node { HasNode machine.old grant.now r }
    requires ready { IsReadyBox node_box.old }
    requires in_step { IsInStep (cube_grant grant.now)
        (machine_node machine.old grant.now r) node_box.old.node }
    requires images { images.now ≡ machine.old.parts.images }
    ensures turn { IfOk result (λ turn. IsTurnUnderWay machine.old machine.new grant.now r
        node_box.new turn.has_work turn.entries) }
    ensures in_step { IfOk result (λ _. IsInStep (cube_grant grant.now)
        (machine_node machine.new grant.now r) node_box.new.node) }
    ensures stopped { IfErr result (λ _. HasStopped machine.old machine.new grant.now.user) }
{
    let take = node_box.says();
    let gives_work = exchange(alloc, machine, grant, r, node_box, images, take)?;
    let mut entries = 1;
    while let Some(say) = next_call(node_box) {
        exchange(alloc, machine, grant, r, node_box, images, say)?;
        entries += 1;
    }
    Ok(TurnResult {
        has_work: gives_work,
        entries,
    })
}

/// What the box says next, unless it asks for work: its turn is over then.
fn next_call(node_box: &mut NodeBox) -> Option<Say>
    requires idle { IsIdleBox node_box.old }
    ensures node { node_box.new.node ≡ (says node_box.old.node).node }
    ensures room { node_box.new.room ≡ node_box.old.room }
    ensures call { IfSome result (λ say. call_of_say say ≡ (says node_box.old.node).call) }
    ensures goes_on { IfSome result (λ say. IsFalse (asks_for_work (call_of_say say))) }
    ensures said { IfSome result (λ say. IsAwaitingAnswer node_box.new (call_of_say say)) }
    ensures over { IfNone result (IsTrue (asks_for_work (says node_box.old.node).call)) }
    ensures idle { IfNone result (IsIdleBox node_box.new) }
{
    match node_box.says() {
        Say::Take { .. } => None,
        say => Some(say),
    }
}
