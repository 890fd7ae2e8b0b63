ghost use Rattle.std.specs.Prelude.{◌≡◌};
ghost use Rattle.rv_model.specs.Exec.{step_outcome};
ghost use Rattle.rv_step.specs.EventOutcome.{outcome_of_event, OnStopped};

use crate::execute::execute;
use crate::{Event, Memory, Registers};
use rv_inst::decode;
use rv_model::Stop;

/// Does the instruction at `pc` ("RV32I Base Integer Instruction Set"). The tests come in this
/// order, and the first that fits stops the process with nothing changed: the memory refuses the
/// fetch; the word is no instruction (`Illegal`); a jump or a taken branch goes to an address that
/// isn't a multiple of 4 (`Target`, with the jump's own pc); the memory refuses the load or the
/// store; the instruction is EBREAK (`Break`). Otherwise the instruction is done, and the pc is its
/// target or the next instruction. An ECALL changes nothing but the pc.
#[tactic(auto, unfolding(rv_model::specs::Exec::step_outcome))]
pub fn step<M: Memory>(registers: &mut Registers, pc: &mut u32, memory: &mut M) -> Event
    ensures done { outcome_of_event result registers.new.x pc.new (M.holds memory.new)
        ≡ step_outcome M.access registers.old.x pc.old (M.holds memory.old) }
    ensures registers_stay { OnStopped result (registers.new.x ≡ registers.old.x) }
    ensures pc_stays { OnStopped result (pc.new ≡ pc.old) }
    ensures memory_stays { OnStopped result (M.holds memory.new ≡ M.holds memory.old) }
    ensures rest { M.rest memory.new ≡ M.rest memory.old }
{
    let word = match memory.fetch(*pc) {
        Ok(word) => word,
        Err(cause) => return Event::Stopped(cause),
    };
    match decode(word) {
        Some(inst) => execute(inst, registers, pc, memory),
        None => Event::Stopped(Stop::Illegal(*pc, word)),
    }
}

#[cfg(test)]
mod tests;
