//! The names of the registers.

ghost use Rattle.std.specs.Prelude.{◌≡◌, ◌<◌, IfSome, length};
ghost use Rattle.rv_inst.specs.Valid.{IsRegister};
ghost use Rattle.rv_asm.specs.Register.{register_names, named_register};
ghost use Rattle.rv_asm.specs.Places.{register_number};

use crate::table::place_of;
use rv_model::REGISTER_COUNT;

/// The names of the RISC-V calling convention by number, then `fp`, which is a second name of `s0`,
/// then the numbers.
const NAMES: [&str; 2 * REGISTER_COUNT + 1] = [
    "zero", "ra", "sp", "gp", "tp", "t0", "t1", "t2", "s0", "s1", "a0", "a1", "a2", "a3", "a4",
    "a5", "a6", "a7", "s2", "s3", "s4", "s5", "s6", "s7", "s8", "s9", "s10", "s11", "t3", "t4",
    "t5", "t6", "fp", "x0", "x1", "x2", "x3", "x4", "x5", "x6", "x7", "x8", "x9", "x10", "x11",
    "x12", "x13", "x14", "x15", "x16", "x17", "x18", "x19", "x20", "x21", "x22", "x23", "x24",
    "x25", "x26", "x27", "x28", "x29", "x30", "x31",
];

/// The number of the register with this name, 0 to 31.
#[tactic(auto, using(crate::proofs::RegisterTable::register_by_place), unfolding(crate::specs::Register::register_names))]
pub fn register_of(name: &[u8]) -> Option<u8>
    ensures value { result ≡ named_register name.now }
    ensures small { IfSome result IsRegister }
{
    let place = place_of(&NAMES, name)?;
    Some(number_at(place))
}

/// The number of the register whose name has this place.
#[tactic(auto, unfolding(crate::specs::Register::register_names))]
fn number_at(place: usize) -> u8
    requires { place < length register_names }
    ensures value { result ≡ register_number place }
    ensures small { IsRegister result }
{
    if place < REGISTER_COUNT {
        place as u8
    } else if place == REGISTER_COUNT {
        8
    } else {
        (place - (REGISTER_COUNT + 1)) as u8
    }
}
