//! What each command of a user does.
ghost use Rattle.std.specs.Prelude.{◌≡◌, IfOk, length};
ghost use Rattle.ce_model.specs.declared.topology.TheConstants.{HOST};
ghost use Rattle.ce_host.specs.declared.command.Command.{Command};
ghost use Rattle.ce_host.specs.declared.command.Command.TheVariants.{Freecube};
ghost use Rattle.ce_script.specs.Bounds.{IsCommandWithin};
ghost use Rattle.ce_script.specs.Rounds.{serial};
ghost use Rattle.ce_cube.specs.Crews.{serial_facts};
ghost use Rattle.ce_run.specs.UserStates.{HasDone, HasReadyCrew, HasReadyUser, HasUser, IsUserStateAt, cube_crew, user_facts};

mod cubes;
mod looking;
mod running;
mod sending;

use crate::user_state::UserState;
use ce_cube::SerialCrew;
use ce_host::{Answer, Command, Host};
use ce_machine::Machine;
use ce_model::NoMemory;
use cubes::{freecube, getcube, peek};
use looking::status;
use rk_node::NodeBox;
use running::{allow, recv, run};
use rv_image::Image;
use sending::{kill, send, spawn};
use std::alloc::Global;

/// Carries out a command of a user: what it is answered, and what the user has then. `NoMemory` may
/// come at any time.
pub(crate) fn carry_out(
    alloc: Global,
    machine: &mut Machine<NodeBox>,
    images: &[Image],
    user: u32,
    user_state: UserState,
    command: &Command,
) -> Result<(UserState, Answer), NoMemory>
    requires user { HasUser machine.old user }
    requires images { images.now ≡ machine.old.parts.images }
    requires user_state { IsUserStateAt machine.old.parts machine.old.history user user_state }
    requires command { IsCommandWithin (length machine.old.parts.images) command.now }
    ensures { IfOk result (λ outcome.
        HasDone serial machine.old machine.new user command.now outcome.1 (user_facts outcome.0)) }
{
    match user_state {
        UserState::HomeHost(host) => carry_out_free(alloc, machine, images, user, host, command),
        UserState::CubeCrew(crew) => carry_out_held(alloc, machine, images, crew, command),
    }
}

/// A command of a user who holds no cube.
fn carry_out_free(
    alloc: Global,
    machine: &mut Machine<NodeBox>,
    images: &[Image],
    user: u32,
    host: Host,
    command: &Command,
) -> Result<(UserState, Answer), NoMemory>
    requires ready { HasReadyUser machine.old images.now user host }
    requires command { IsCommandWithin (length machine.old.parts.images) command.now }
    ensures { IfOk result (λ outcome.
        HasDone serial machine.old machine.new user command.now outcome.1 (user_facts outcome.0)) }
{
    match command {
        Command::Getcube(dim) => getcube(alloc, machine, images, user, host, *dim),
        Command::Peek => {
            let answer = peek(alloc, machine, user)?;
            Ok((UserState::HomeHost(host), answer))
        }
        _ => Ok((UserState::HomeHost(host), Answer::NoCube)),
    }
}

/// A command of a user who holds a cube.
fn carry_out_held(
    alloc: Global,
    machine: &mut Machine<NodeBox>,
    images: &[Image],
    mut crew: SerialCrew,
    command: &Command,
) -> Result<(UserState, Answer), NoMemory>
    requires ready { HasReadyCrew machine.old images.now (serial_facts crew) }
    requires command { IsCommandWithin (length machine.old.parts.images) command.now }
    ensures { IfOk result (λ outcome.
        HasDone serial machine.old machine.new crew.grant.user command.now outcome.1
        (user_facts outcome.0)) }
{
    if let Command::Freecube = command {
        return freecube(alloc, machine, crew);
    }
    let answer = carry_out_in_cube(alloc, machine, images, &mut crew, command)?;
    Ok((UserState::CubeCrew(crew), answer))
}

/// A command of a user who holds a cube, and holds it still behind the command.
fn carry_out_in_cube(
    alloc: Global,
    machine: &mut Machine<NodeBox>,
    images: &[Image],
    crew: &mut SerialCrew,
    command: &Command,
) -> Result<Answer, NoMemory>
    requires ready { HasReadyCrew machine.old images.now (serial_facts crew.old) }
    requires within { IsCommandWithin (length machine.old.parts.images) command.now }
    requires stays { ¬ (command.now ≡ Freecube) }
    ensures { IfOk result (λ answer.
        HasDone serial machine.old machine.new crew.old.grant.user command.now answer
        (cube_crew (serial_facts crew.new))) }
{
    match command {
        Command::Getcube(_) => Ok(Answer::Held),
        Command::Peek => peek(alloc, machine, crew.grant.user),
        Command::Spawn(image, to) => spawn(alloc, machine, crew, *image, *to),
        Command::Kill(to) => kill(alloc, machine, crew, *to),
        Command::Send(to, bytes) => send(alloc, machine, crew, *to, bytes),
        Command::Run(count) => {
            allow(alloc, machine, crew, *count)?;
            run(alloc, machine, images, crew)
        }
        Command::Recv(count) => {
            allow(alloc, machine, crew, *count)?;
            recv(alloc, machine, images, crew)
        }
        Command::Dump(place) => Ok(status(crew, *place)),
        Command::Trace => Ok(Answer::Entries(crew.entries)),
        Command::Freecube => unreachable!(),
    }
}
