//! The script of the load: four users, each with a ring of four processes that hand one message
//! round.
ghost use Rattle.std.specs.Prelude.{◌≡◌, ◌<◌, ◌∷◌, [], ◌++◌, IfOk, OnOk, length, map, flat_map, codes};
ghost use Rattle.std.specs.Int.{w32, to_le_bytes};
ghost use Rattle.std.specs.String.{string_bytes};
ghost use Rattle.ce_script.specs.declared.load.TheConstants.{HAND_OVERS};
ghost use Rattle.ce_text.specs.declared.limits.TheConstants.{TEXT_LIMIT};
ghost use Rattle.ce_script.specs.Load.{numbered_commands, load, load_commands, load_user_numbers, load_users, next_number, ring_image, ring_text};

use crate::limited_script::LimitedScript;
use crate::name::Name;
use crate::script::{NamedImage, Script};
use ce_host::Command;
use ce_model::{Bytes, GREATEST_COUNT, NoMemory, Place};
use rv_asm::{AsmKind, assemble};
use rv_image::Image;
use sqlite_items::Items;
use std::alloc::Global;

/// The program of each process: it receives a block, adds its node's number and one to the block's
/// first word, takes one from the second, and hands the block to the next node; at zero it hands it
/// to the host.
const RING: &str = "loop: li a7, 7
      ecall
      mv s0, a0
      li a7, 10
      ecall
      mv s1, a0
      lw t0, 0(s0)
      addi t1, s1, 1
      add t0, t0, t1
      sw t0, 0(s0)
      lw t0, 4(s0)
      addi t0, t0, -1
      sw t0, 4(s0)
      beq t0, zero, done
      li a7, 12
      ecall
      addi t1, a0, -1
      addi a1, s1, 1
      and a1, a1, t1
      j pass
done: li a1, -1
pass: li a2, 0
      mv a0, s0
      li a7, 4
      ecall
      j loop
";

/// The dimension of the machine, which has room for the cubes of all users at once.
const MACHINE_DIMENSION: u32 = 4;

/// The dimension of each user's cube.
const CUBE_DIMENSION: u32 = 2;

/// How many users there are.
const USERS: u32 = 4;

/// How often each message is handed over.
const HAND_OVERS: u32 = 4_000;

/// By what a number is multiplied for the one that follows it, and what is added then, modulo 2^32.
const NUMBER_FACTOR: u32 = 1_664_525;

const NUMBER_STEP: u32 = 1_013_904_223;

/// The script of the load of a seed. `NoMemory` may come at any time.
#[tactic(auto, using(crate::proofs::LoadWithin::load_within), unfolding(crate::specs::Load::load))]
pub fn make(alloc: Global, seed: u32) -> Result<LimitedScript, NoMemory>
    ensures { IfOk result (λ limited_script. limited_script.script ≡ load seed) }
{
    let script = Script {
        dim: Some(MACHINE_DIMENSION),
        images: load_images(alloc)?,
        users: load_users(alloc)?,
        commands: load_commands(alloc, seed)?,
    };
    Ok(LimitedScript { script })
}

/// The program, with its name.
#[tactic(auto, unfolding(crate::specs::Names::is_name, crate::specs::Names::name_room, ce_text::specs::Name::is_name))]
fn load_images(alloc: Global) -> Result<Items<NamedImage>, NoMemory>
    ensures { IfOk result (λ images. images
        ≡ record { name = codes "ring"; image = ring_image } ∷ []) }
{
    let mut images = Items::new(alloc);
    images.push(NamedImage {
        name: Name::from_str(alloc, "ring")?,
        image: ring_image(alloc)?,
    })?;
    Ok(images)
}

/// The image of the program.
fn ring_image(alloc: Global) -> Result<Image, NoMemory>
    ensures { IfOk result (λ image. image ≡ ring_image) }
{
    match assemble(alloc, ring_text()) {
        Ok(image) => Ok(image),
        Err(fault) => match fault.kind {
            AsmKind::Memory(want) => Err(want),
            _ => unreachable!(),
        },
    }
}

/// The text of the program.
fn ring_text() -> &'static [u8]
    ensures text { result.now ≡ ring_text }
    ensures short { length result.now < TEXT_LIMIT }
{
    RING.as_bytes()
}

/// The names of the users.
#[tactic(auto, unfolding(crate::specs::Names::is_name, crate::specs::Names::name_room, ce_text::specs::Name::is_name))]
fn load_users(alloc: Global) -> Result<Items<Name>, NoMemory>
    ensures { IfOk result (λ users. users ≡ load_users) }
{
    let mut users = Items::new(alloc);
    users.push(Name::from_str(alloc, "u0")?)?;
    users.push(Name::from_str(alloc, "u1")?)?;
    users.push(Name::from_str(alloc, "u2")?)?;
    users.push(Name::from_str(alloc, "u3")?)?;
    Ok(users)
}

/// The commands of all users.
fn load_commands(alloc: Global, seed: u32) -> Result<Items<(u32, Command)>, NoMemory>
    ensures { IfOk result (λ commands. commands
        ≡ flat_map (numbered_commands seed) load_user_numbers) }
{
    let mut commands = Items::new(alloc);
    let mut number = seed;
    for user in 0..USERS {
        number = next_number(number);
        push_commands(&mut commands, user, message(alloc, number)?)?;
    }
    Ok(commands)
}

/// Adds the commands of a user, who has this message sent.
fn push_commands(
    commands: &mut Items<(u32, Command)>,
    user: u32,
    message: Bytes,
) -> Result<(), NoMemory>
    ensures { OnOk result (commands.new
        ≡ commands.old ++ map (λ command. (user, command)) (load_commands message)) }
{
    let start = Place { node: 0, pid: 0 };
    commands.push((user, Command::Getcube(CUBE_DIMENSION)))?;
    for node in 0..1 << CUBE_DIMENSION {
        commands.push((user, Command::Spawn(0, Place { node, pid: 0 })))?;
    }
    commands.push((user, Command::Send(start, message)))?;
    commands.push((user, Command::Recv(GREATEST_COUNT)))?;
    commands.push((user, Command::Freecube))?;
    Ok(())
}

/// A message: its number, and how often it is handed over.
#[tactic(auto, using(ce_model::specs::Limits::block_room_lem))]
fn message(alloc: Global, number: u32) -> Result<Bytes, NoMemory>
    ensures { IfOk result (λ bytes. bytes ≡ to_le_bytes w32 number ++ to_le_bytes w32 HAND_OVERS) }
{
    let mut bytes = Vec::from_slice(alloc, &number.to_le_bytes())?;
    bytes.extend_from_slice(&HAND_OVERS.to_le_bytes())?;
    Ok(Bytes::from_vec(bytes))
}

/// The number that follows another.
fn next_number(number: u32) -> u32
    ensures { result ≡ next_number number }
{
    number.wrapping_mul(NUMBER_FACTOR).wrapping_add(NUMBER_STEP)
}

#[cfg(test)]
mod tests;
