//! Commands that run a cube's nodes.
ghost use Rattle.std.specs.Prelude.{◌≤◌, IfOk, MatchOption};
ghost use Rattle.ce_model.specs.Limits.{greatest_count};
ghost use Rattle.ce_host.specs.declared.command.Command.TheVariants.{Recv, Run};
ghost use Rattle.ce_cube.specs.Crews.{serial_facts};
ghost use Rattle.ce_script.specs.Rounds.{serial};
ghost use Rattle.ce_run.specs.Rounds.{HasAllowed, HasEndedCommand, HasLooked, HasRunRounds, HasTaken, HasTakenNone};
ghost use Rattle.ce_run.specs.UserStates.{HasCrew, HasReadyCrew};

use crate::asking::ask_in_cube;
use ce_cube::{SerialCrew, round_serial};
use ce_host::Answer;
use ce_machine::{Call, Machine, Reply};
use ce_model::{Bytes, LookResult, NoMemory, Place};
use rk_node::NodeBox;
use rv_image::Image;
use std::alloc::Global;

/// Allows so many dispatches. `NoMemory` may come at any time.
pub(crate) fn allow(
    alloc: Global,
    machine: &mut Machine<NodeBox>,
    crew: &mut SerialCrew,
    count: u32,
) -> Result<(), NoMemory>
    requires crew { HasCrew machine.old (serial_facts crew.old) }
    requires count { count ≤ greatest_count }
    ensures { IfOk result (λ _. HasAllowed serial machine.old machine.new
        (serial_facts crew.old) (serial_facts crew.new) count) }
{
    ask_in_cube(alloc, machine, crew, Call::Arm { count })?;
    Ok(())
}

/// The command `run` behind the dispatches that it allows: rounds until no node has work.
/// `NoMemory` may come at any time.
pub(crate) fn run(
    alloc: Global,
    machine: &mut Machine<NodeBox>,
    images: &[Image],
    crew: &mut SerialCrew,
) -> Result<Answer, NoMemory>
    requires { HasReadyCrew machine.old images.now (serial_facts crew.old) }
    ensures { IfOk result (HasEndedCommand serial Run machine.old machine.new
        (serial_facts crew.old) (serial_facts crew.new)) }
{
    run_rounds(alloc, machine, images, crew)?;
    match look(alloc, machine, crew)? {
        LookResult::Quiet => Ok(Answer::Quiet),
        LookResult::Spent => Ok(Answer::Spent),
        LookResult::Busy => unreachable!(),
    }
}

/// The command `recv` behind the dispatches that it allows: takes the first message for the host,
/// with a round before each further look for one, until no node has work. `NoMemory` may come at
/// any time.
pub(crate) fn recv(
    alloc: Global,
    machine: &mut Machine<NodeBox>,
    images: &[Image],
    crew: &mut SerialCrew,
) -> Result<Answer, NoMemory>
    requires { HasReadyCrew machine.old images.now (serial_facts crew.old) }
    ensures { IfOk result (HasEndedCommand serial Recv machine.old machine.new
        (serial_facts crew.old) (serial_facts crew.new)) }
{
    let mut has_work = true;
    'waiting: loop {
        if let Some((from, bytes)) = take_message(alloc, machine, crew)? {
            return Ok(Answer::Message(from, bytes));
        }
        if !has_work {
            break;
        }
        has_work = round_serial(alloc, machine, crew, images)?;
    }
    match look(alloc, machine, crew)? {
        LookResult::Quiet => Ok(Answer::None),
        LookResult::Spent => Ok(Answer::Spent),
        LookResult::Busy => unreachable!(),
    }
}

/// Rounds, up to the first by which no node was given work.
fn run_rounds(
    alloc: Global,
    machine: &mut Machine<NodeBox>,
    images: &[Image],
    crew: &mut SerialCrew,
) -> Result<(), NoMemory>
    requires { HasReadyCrew machine.old images.now (serial_facts crew.old) }
    ensures { IfOk result (λ _. HasRunRounds serial machine.old machine.new
        (serial_facts crew.old) (serial_facts crew.new)) }
{
    'rounds: while round_serial(alloc, machine, crew, images)? {}
    Ok(())
}

/// How the cube stands.
fn look(
    alloc: Global,
    machine: &mut Machine<NodeBox>,
    crew: &mut SerialCrew,
) -> Result<LookResult, NoMemory>
    requires { HasCrew machine.old (serial_facts crew.old) }
    ensures { IfOk result (HasLooked serial machine.old machine.new
        (serial_facts crew.old) (serial_facts crew.new)) }
{
    match ask_in_cube(alloc, machine, crew, Call::Look)? {
        Reply::Quiet => Ok(LookResult::Quiet),
        Reply::Spent => Ok(LookResult::Spent),
        Reply::Busy => Ok(LookResult::Busy),
        _ => unreachable!(),
    }
}

/// The next message for the host, if one waits: who sent it, and its bytes. The block goes to the
/// host's store.
fn take_message(
    alloc: Global,
    machine: &mut Machine<NodeBox>,
    crew: &mut SerialCrew,
) -> Result<Option<(Place, Bytes)>, NoMemory>
    requires { HasCrew machine.old (serial_facts crew.old) }
    ensures { IfOk result (λ next_message. MatchOption next_message
        (HasTakenNone serial machine.old machine.new
        (serial_facts crew.old) (serial_facts crew.new))
        (λ message. HasTaken serial machine.old machine.new
        (serial_facts crew.old) (serial_facts crew.new) message.0 message.1)) }
{
    match ask_in_cube(alloc, machine, crew, Call::HostTake)? {
        Reply::NoMail => Ok(None),
        Reply::Mail(parcel) => {
            let from = parcel.from;
            match crew.host.accept(alloc, parcel) {
                Ok(bytes) => Ok(Some((from, bytes))),
                Err((_, want)) => Err(want),
            }
        }
        _ => unreachable!(),
    }
}
