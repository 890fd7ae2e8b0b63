//! Commands that ask for a cube, look at the machine, or give the cube back.
ghost use Rattle.std.specs.Prelude.{◌≡◌, ◌≤◌, None, IfOk, map};
ghost use Rattle.ce_model.specs.Limits.{greatest_dim};
ghost use Rattle.ce_host.specs.declared.command.Command.TheVariants.{Freecube, Getcube, Peek};
ghost use Rattle.ce_cube.specs.Crews.{AreAllHome, HasAllBlocks, IsHostAtHome, serial_facts};
ghost use Rattle.ce_daemon.specs.Peeks.{cube_grant};
ghost use Rattle.ce_script.specs.Rounds.{serial};
ghost use Rattle.ce_run.specs.Asking.{HasCube, HasDrained};
ghost use Rattle.ce_run.specs.UserStates.{HasCrew, HasDone, HasReadyUser, HasUser, IsUserAt, UserFacts, user_facts};

use crate::asking::ask;
use crate::user_state::UserState;
use ce_cube::{SerialCrew, rehome};
use ce_host::{Answer, Host};
use ce_machine::{Call, Machine, Reply};
use ce_model::NoMemory;
use rk_node::NodeBox;
use rv_image::Image;
use std::alloc::Global;
use xm_block::Block;

/// A user who holds no cube asks for one. `NoMemory` may come at any time.
pub(crate) fn getcube(
    alloc: Global,
    machine: &mut Machine<NodeBox>,
    images: &[Image],
    user: u32,
    host: Host,
    dim: u32,
) -> Result<(UserState, Answer), NoMemory>
    requires ready { HasReadyUser machine.old images.now user host }
    requires dim { dim ≤ greatest_dim }
    ensures { IfOk result (λ outcome. HasDone serial machine.old machine.new user (Getcube dim)
        outcome.1 (user_facts outcome.0)) }
{
    match ask(alloc, machine, user, Call::Getcube { dim })? {
        Reply::Granted { grant, boxes } => {
            let crew = SerialCrew::new(grant, boxes, host, images.len() as u32);
            Ok((UserState::CubeCrew(crew), Answer::Granted(grant.sub)))
        }
        Reply::NoneFree => Ok((UserState::HomeHost(host), Answer::None)),
        _ => unreachable!(),
    }
}

/// A user looks which cubes are held. `NoMemory` may come at any time.
pub(crate) fn peek(
    alloc: Global,
    machine: &mut Machine<NodeBox>,
    user: u32,
) -> Result<Answer, NoMemory>
    requires user { HasUser machine.old user }
    ensures { IfOk result (λ answer. (facts : UserFacts)
        → IsUserAt machine.old.parts machine.old.history user facts
        → HasDone serial machine.old machine.new user Peek answer facts) }
{
    match ask(alloc, machine, user, Call::Peek)? {
        Reply::Peeked(peek_result) => Ok(Answer::Peeked(peek_result)),
        _ => unreachable!(),
    }
}

/// A user gives the cube back. `NoMemory` may come at any time.
pub(crate) fn freecube(
    alloc: Global,
    machine: &mut Machine<NodeBox>,
    crew: SerialCrew,
) -> Result<(UserState, Answer), NoMemory>
    requires { HasCrew machine.old (serial_facts crew) }
    ensures { IfOk result (λ outcome.
        HasDone serial machine.old machine.new crew.grant.user Freecube outcome.1
        (user_facts outcome.0)) }
{
    let user = crew.grant.user;
    let drained_blocks = drain(alloc, machine, user)?;
    let (boxes, host) = come_home(crew, drained_blocks);
    match ask(alloc, machine, user, Call::Freecube { boxes })? {
        Reply::Freed => Ok((UserState::HomeHost(host), Answer::Freed)),
        _ => unreachable!(),
    }
}

/// The boxes and the host of a crew that is done, with all blocks at home.
fn come_home(crew: SerialCrew, drained_blocks: Vec<Block>) -> (Vec<NodeBox>, Host)
    requires { HasAllBlocks (cube_grant crew.grant) crew.boxes.items crew.host
        drained_blocks.items }
    ensures { AreAllHome (cube_grant crew.grant) result.0.items result.1 }
{
    let SerialCrew {
        mut boxes,
        mut host,
        ..
    } = crew;
    rehome(boxes.as_mut_slice(), &mut host, drained_blocks);
    (boxes, host)
}

/// The blocks of all messages that wait in the cube of a user.
fn drain(alloc: Global, machine: &mut Machine<NodeBox>, user: u32) -> Result<Vec<Block>, NoMemory>
    requires user { HasUser machine.old user }
    requires holds { HasCube machine.old.history user }
    ensures { IfOk result (λ blocks. HasDrained machine.old machine.new user blocks.items) }
{
    match ask(alloc, machine, user, Call::Drain)? {
        Reply::Drained(blocks) => Ok(blocks),
        _ => unreachable!(),
    }
}
