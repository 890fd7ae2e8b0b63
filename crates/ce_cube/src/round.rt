//! A round on one thread: each node of a cube takes a turn.
ghost use Rattle.std.specs.Prelude.{◌≡◌, ◌^◌, ◌<◌, MatchResult};
ghost use Rattle.ce_cube.specs.Crews.{HasMadeSerialRound, HasStopped, IsCrewInStep, IsLawfulMachine, serial_facts};
ghost use Rattle.ce_cube.specs.Exchanges.{HasTakenTurn};

use crate::SerialCrew;
use crate::turn::take_turn;
use ce_machine::Machine;
use ce_model::NoMemory;
use rk_node::NodeBox;
use rv_image::Image;
use std::alloc::Global;

/// One round: each node of the cube, in relative order, asks for work once and runs that turn to
/// its end. Whether one of them was given work. The crew is in step with the machine, and the list
/// has the machine's images. `NoMemory` may come at any time; the entries that were made before it
/// stand, and the crew isn't used again.
pub fn round_serial(
    alloc: Global,
    machine: &mut Machine<NodeBox>,
    crew: &mut SerialCrew,
    images: &[Image],
) -> Result<bool, NoMemory>
    requires machine { IsLawfulMachine machine.old }
    requires crew { IsCrewInStep machine.old.parts machine.old.history
        (serial_facts crew.old) }
    requires images { images.now ≡ machine.old.parts.images }
    ensures { MatchResult result (HasMadeSerialRound machine.old machine.new
        (serial_facts crew.old) (serial_facts crew.new))
        (λ _. HasStopped machine.old machine.new crew.old.grant.user) }
{
    let count = crew.boxes.len() as u32;
    let mut gives_work = false;
    for r in 0..count {
        gives_work |= turn_of(alloc, machine, crew, r, images)?;
    }
    Ok(gives_work)
}

/// A turn of node r of the crew. Whether it was given work.
fn turn_of(
    alloc: Global,
    machine: &mut Machine<NodeBox>,
    crew: &mut SerialCrew,
    r: u32,
    images: &[Image],
) -> Result<bool, NoMemory>
    requires machine { IsLawfulMachine machine.old }
    requires crew { IsCrewInStep machine.old.parts machine.old.history
        (serial_facts crew.old) }
    requires node { r < 2 ^ crew.old.grant.dim }
    requires images { images.now ≡ machine.old.parts.images }
    ensures { MatchResult result (HasTakenTurn machine.old machine.new
        (serial_facts crew.old) (serial_facts crew.new) r)
        (λ _. HasStopped machine.old machine.new crew.old.grant.user) }
{
    let node_box = &mut crew.boxes[r as usize];
    let turn = take_turn(alloc, machine, &crew.grant, r, node_box, images)?;
    crew.entries += turn.entries;
    Ok(turn.has_work)
}
