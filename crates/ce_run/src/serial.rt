//! The run of a whole script on one thread.
ghost use Rattle.std.specs.Prelude.{◌≡◌, ℕ, ◌<◌, ◌≤◌, List, [], Some, IfOk, OnOk, length, map};
ghost use Rattle.ce_model.specs.Limits.{greatest_users};
ghost use Rattle.ce_model.specs.Machine.{IsMachine};
ghost use Rattle.ce_script.specs.declared.script.Script.{Script};
ghost use Rattle.ce_script.specs.Bounds.{IsCommandWithin};
ghost use Rattle.ce_script.specs.Doings.{Doing};
ghost use Rattle.ce_script.specs.Legal.{IsLegal, machine_of};
ghost use Rattle.ce_script.specs.Rounds.{serial};
ghost use Rattle.ce_script.specs.Serial.{IsSerial};
ghost use Rattle.ce_run.specs.Script.{AreFreeStates, HasGoneFurther, IsRunBehind};

use crate::commands::carry_out;
use crate::user_state::UserState;
use ce_host::{Command, Host};
use ce_machine::Machine;
use ce_model::{Bytes, NoMemory};
use ce_script::{LimitedScript, Name, NamedImage, Record, UserRecord};
use rk_node::{NodeBox, node_boxes};
use rv_image::Image;
use sqlite_items::Items;
use std::alloc::Global;

/// Carries out the commands of a script one after another, in the script's order, on a machine of
/// its own. A script without users makes no machine, and its record is empty. `NoMemory` may come
/// at any time.
pub(crate) fn run_serial(alloc: Global, limited_script: &LimitedScript) -> Result<Record, NoMemory>
    ensures legal { IfOk result (IsLegal serial limited_script.now.script) }
    ensures serial { IfOk result (IsSerial limited_script.now.script) }
{
    match limited_script.script.dim {
        Some(dim) if !limited_script.script.users.is_empty() => run_on_machine(
            alloc,
            limited_script,
            dim,
        ),
        _ => Ok(Record {
            users: Items::new(alloc),
            history: Items::new(alloc),
        }),
    }
}

/// The run of a script that has users, on a machine of its dimension.
#[tactic(auto, using(ce_model::specs::Limits::greatest_users_lem))]
fn run_on_machine(
    alloc: Global,
    limited_script: &LimitedScript,
    dim: u32,
) -> Result<Record, NoMemory>
    requires dim { limited_script.now.script.dim ≡ Some dim }
    requires users { 0 < length limited_script.now.script.users }
    ensures legal { IfOk result (IsLegal serial limited_script.now.script) }
    ensures serial { IfOk result (IsSerial limited_script.now.script) }
{
    let script = &limited_script.script;
    let images = copy_images(alloc, script.images.as_slice())?;
    let mut machine = open_machine(alloc, limited_script, dim)?;
    let mut user_states = open_user_states(alloc, script.users.len() as u32)?;
    let mut users = open_records(alloc, script.users.as_slice())?;
    for (user, command) in script.commands.as_slice() {
        go_further(
            alloc,
            &mut machine,
            images.as_slice(),
            user_states.as_mut_slice(),
            users.as_mut_slice(),
            *user,
            command,
        )?;
    }
    Ok(Record {
        users: Items::from_vec(users),
        history: Items::from_vec(machine.into_history()),
    })
}

/// Carries out one command of a user, whose record has it then with its answer. `NoMemory` may come
/// at any time; nothing of all this is used again then.
fn go_further(
    alloc: Global,
    machine: &mut Machine<NodeBox>,
    images: &[Image],
    user_states: &mut [Option<UserState>],
    users: &mut [UserRecord],
    user: u32,
    command: &Command,
) -> Result<(), NoMemory>
    requires machine { IsMachine machine.old.parts }
    requires images { images.now ≡ machine.old.parts.images }
    requires user { user < length users.old }
    requires command { IsCommandWithin (length machine.old.parts.images) command.now }
    requires behind { (script : Script) × (all : List (ℕ × Doing))
        × IsRunBehind script machine.old user_states.old users.old all }
    ensures { OnOk result (HasGoneFurther machine.old machine.new
        user_states.old user_states.new users.old users.new user command.now) }
{
    let Some(user_state) = user_states[user as usize].take() else {
        unreachable!()
    };
    let (user_state, answer) = carry_out(alloc, machine, images, user, user_state, command)?;
    user_states[user as usize] = Some(user_state);
    let command = copy_command(alloc, command)?;
    users[user as usize].done.push((command, answer))?;
    Ok(())
}

/// The machine of a script, whose nodes have clean boxes.
#[tactic(auto, using(ce_model::specs::Limits::greatest_users_lem))]
fn open_machine(
    alloc: Global,
    limited_script: &LimitedScript,
    dim: u32,
) -> Result<Machine<NodeBox>, NoMemory>
    requires dim { limited_script.now.script.dim ≡ Some dim }
    requires users { 0 < length limited_script.now.script.users }
    ensures { IfOk result (λ machine.
        machine ≡ record { parts = machine_of limited_script.now.script; history = [] }) }
{
    let script = &limited_script.script;
    let images = copy_images(alloc, script.images.as_slice())?;
    let boxes = node_boxes(alloc, dim)?;
    Machine::new(alloc, dim, script.users.len() as u32, images, boxes)
}

/// The images of a script, by number.
fn copy_images(alloc: Global, images: &[NamedImage]) -> Result<Vec<Image>, NoMemory>
    ensures { IfOk result (λ copies.
        copies.items ≡ map (λ named_image. named_image.image) images.now) }
{
    let mut copies = Vec::new(alloc);
    for named_image in images {
        copies.push(named_image.image.copy(alloc)?)?;
    }
    Ok(copies)
}

/// What so many users have, who hold no cube.
fn open_user_states(alloc: Global, users: u32) -> Result<Vec<Option<UserState>>, NoMemory>
    requires { users ≤ greatest_users }
    ensures { IfOk result (λ user_states. AreFreeStates users user_states.items) }
{
    let mut user_states = Vec::new(alloc);
    for user in 0..users {
        user_states.push(Some(UserState::HomeHost(Host::new(alloc, user)?)))?;
    }
    Ok(user_states)
}

/// The records of users who did nothing.
fn open_records(alloc: Global, names: &[Name]) -> Result<Vec<UserRecord>, NoMemory>
    ensures { IfOk result (λ users. users.items
        ≡ map (λ name. record { name = name; done = [] }) names.now) }
{
    let mut users = Vec::new(alloc);
    for name in names {
        users.push(UserRecord {
            name: name.copy(alloc)?,
            done: Items::new(alloc),
        })?;
    }
    Ok(users)
}

/// The same command.
fn copy_command(alloc: Global, command: &Command) -> Result<Command, NoMemory>
    ensures { IfOk result (λ copy. copy ≡ command.now) }
{
    match command {
        Command::Getcube(dim) => Ok(Command::Getcube(*dim)),
        Command::Peek => Ok(Command::Peek),
        Command::Freecube => Ok(Command::Freecube),
        Command::Spawn(image, to) => Ok(Command::Spawn(*image, *to)),
        Command::Kill(to) => Ok(Command::Kill(*to)),
        Command::Send(to, bytes) => Ok(Command::Send(*to, copy_bytes(alloc, bytes)?)),
        Command::Run(count) => Ok(Command::Run(*count)),
        Command::Recv(count) => Ok(Command::Recv(*count)),
        Command::Dump(place) => Ok(Command::Dump(*place)),
        Command::Trace => Ok(Command::Trace),
    }
}

/// The same bytes.
fn copy_bytes(alloc: Global, bytes: &Bytes) -> Result<Bytes, NoMemory>
    ensures { IfOk result (λ copy. copy ≡ bytes.now) }
{
    Ok(Bytes::from_vec(Vec::from_slice(alloc, bytes.as_slice())?))
}
