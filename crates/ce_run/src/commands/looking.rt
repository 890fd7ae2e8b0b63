//! Commands that look into a cube.
ghost use Rattle.std.specs.Prelude.{◌≡◌, List, []};
ghost use Rattle.ce_model.specs.declared.entry.Entry.{Entry};
ghost use Rattle.ce_model.specs.Machine.{MachineParts};
ghost use Rattle.ce_host.specs.declared.command.Command.TheVariants.{Dump};
ghost use Rattle.ce_cube.specs.Crews.{IsCrewInStep, serial_facts};
ghost use Rattle.ce_script.specs.Rounds.{serial};
ghost use Rattle.ce_record.specs.Run.{IsNextCommand};

use crate::commands::sending::has_place;
use ce_cube::SerialCrew;
use ce_host::Answer;
use ce_model::Place;

/// What the process of a place does.
pub(crate) fn status(crew: &SerialCrew, place: Place) -> Answer
    requires { (parts : MachineParts) × (history : List Entry)
        × IsCrewInStep parts history (serial_facts crew.now) }
    ensures { (parts : MachineParts) (history : List Entry)
        → IsCrewInStep parts history (serial_facts crew.now)
        → IsNextCommand serial parts history crew.now.grant.user (Dump place) result [] }
{
    if !has_place(crew, place) {
        return Answer::NoPlace;
    }
    Answer::State(crew.boxes[place.node as usize].status(place.pid))
}
