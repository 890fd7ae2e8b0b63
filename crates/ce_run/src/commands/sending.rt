//! Commands by which a host sends, starts and ends.
ghost use Rattle.std.specs.Prelude.{◌≡◌, ◌<◌, ◌^◌, [], IfOk, IsSome, Some, length};
ghost use Rattle.ce_model.specs.Node.{is_place};
ghost use Rattle.ce_host.specs.declared.command.Command.TheVariants.{Kill, Send, Spawn};
ghost use Rattle.ce_cube.specs.Crews.{serial_facts};
ghost use Rattle.rk_mail.specs.Talk.{call_of_say};
ghost use Rattle.rk_mail.specs.declared.talk.Hearing.TheVariants.{Posted};
ghost use Rattle.ce_record.specs.Requests.{hearing_reply};
ghost use Rattle.ce_machine.specs.declared.call.Call.TheVariants as calls;
ghost use Rattle.ce_script.specs.Rounds.{serial};
ghost use Rattle.ce_run.specs.Asking.{IsHostCall, IsStartOrEnd};
ghost use Rattle.ce_run.specs.UserStates.{HasCrew, HasDone, HasToldHost, cube_crew};

use crate::asking::ask_in_cube;
use ce_cube::SerialCrew;
use ce_host::Answer;
use ce_machine::{Call, Machine, Reply};
use ce_model::{Bytes, NoMemory, PROCESS_COUNT, Place};
use rk_mail::{Batch, Hearing, Say};
use rk_node::NodeBox;
use std::alloc::Global;

/// Starts an image as the process of a place. `NoMemory` may come at any time.
pub(crate) fn spawn(
    alloc: Global,
    machine: &mut Machine<NodeBox>,
    crew: &mut SerialCrew,
    image: u32,
    to: Place,
) -> Result<Answer, NoMemory>
    requires crew { HasCrew machine.old (serial_facts crew.old) }
    requires image { image < length machine.old.parts.images }
    ensures { IfOk result (λ answer. HasDone serial machine.old machine.new crew.old.grant.user
        (Spawn image to) answer (cube_crew (serial_facts crew.new))) }
{
    if !has_place(crew, to) {
        return Ok(Answer::NoPlace);
    }
    give_order(alloc, machine, crew, Say::Spawn { pid: 0, image, to })
}

/// Ends the process of a place. `NoMemory` may come at any time.
pub(crate) fn kill(
    alloc: Global,
    machine: &mut Machine<NodeBox>,
    crew: &mut SerialCrew,
    to: Place,
) -> Result<Answer, NoMemory>
    requires { HasCrew machine.old (serial_facts crew.old) }
    ensures { IfOk result (λ answer. HasDone serial machine.old machine.new crew.old.grant.user
        (Kill to) answer (cube_crew (serial_facts crew.new))) }
{
    if !has_place(crew, to) {
        return Ok(Answer::NoPlace);
    }
    give_order(alloc, machine, crew, Say::Kill { pid: 0, to })
}

/// Sends bytes to the process of a place. `NoMemory` may come at any time.
pub(crate) fn send(
    alloc: Global,
    machine: &mut Machine<NodeBox>,
    crew: &mut SerialCrew,
    to: Place,
    bytes: &Bytes,
) -> Result<Answer, NoMemory>
    requires { HasCrew machine.old (serial_facts crew.old) }
    ensures { IfOk result (λ answer. HasDone serial machine.old machine.new crew.old.grant.user
        (Send to bytes.now) answer (cube_crew (serial_facts crew.new))) }
{
    if !has_place(crew, to) {
        return Ok(Answer::NoPlace);
    }
    let Some(batch) = crew.host.batch(to, bytes.as_slice()) else {
        return Ok(Answer::NoStore);
    };
    let call = Call::Say(Say::Send { pid: 0, batch });
    match ask_in_cube(alloc, machine, crew, call)? {
        Reply::Heard(hearing) => {
            crew.host.regain(batch_of(hearing));
            Ok(Answer::Ok)
        }
        _ => unreachable!(),
    }
}

/// The empty batch that comes back from a message.
fn batch_of(hearing: Hearing) -> Batch
    requires { hearing ≡ Posted [] }
    ensures { result ≡ [] }
{
    match hearing {
        Hearing::Posted(batch) => batch,
        _ => unreachable!(),
    }
}

/// Whether the place is one of the crew's cube.
#[tactic(auto, using(ce_model::specs::Limits::process_count_lem))]
pub(crate) fn has_place(crew: &SerialCrew, to: Place) -> bool
    requires { length crew.now.boxes.items ≡ 2 ^ crew.now.grant.dim }
    ensures { result ≡ is_place crew.now.grant.dim to }
{
    (to.node as usize) < crew.boxes.len() && to.pid < PROCESS_COUNT
}

/// What the start or the end of a process is answered.
fn give_order(
    alloc: Global,
    machine: &mut Machine<NodeBox>,
    crew: &mut SerialCrew,
    say: Say,
) -> Result<Answer, NoMemory>
    requires crew { HasCrew machine.old (serial_facts crew.old) }
    requires said { IsStartOrEnd (call_of_say say) }
    requires call { IsHostCall machine.old.parts machine.old.history crew.old.grant.user
        (calls.Say say) }
    ensures { IfOk result (λ answer. HasToldHost serial machine.old machine.new crew.old.grant.user
        (call_of_say say) answer (serial_facts crew.new)) }
{
    match ask_in_cube(alloc, machine, crew, Call::Say(say))? {
        Reply::Heard(hearing) => Ok(answer_of_hearing(hearing)),
        _ => unreachable!(),
    }
}

/// What a host is told that hears so of what it started or ended.
fn answer_of_hearing(hearing: Hearing) -> Answer
    requires { IsSome (hearing_reply hearing) }
    ensures { hearing_reply hearing ≡ Some result }
{
    match hearing {
        Hearing::Posted(_) | Hearing::Spawned | Hearing::Killed => Answer::Ok,
        Hearing::Used => Answer::Used,
        Hearing::Unused => Answer::Unused,
        Hearing::Already => Answer::Already,
        _ => unreachable!(),
    }
}
