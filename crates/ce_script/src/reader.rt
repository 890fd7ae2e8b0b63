//! The reader of scripts.
ghost use Rattle.std.specs.Prelude.{◌≡◌, ◌≢◌, ◌<◌, length, IfOk, IfErr, Some};
ghost use Rattle.ce_text.specs.declared.limits.TheConstants.{TEXT_LIMIT};
ghost use Rattle.rv_model.specs.declared.memory.NoMemory.{NoMemory};
ghost use Rattle.rv_asm.specs.declared.fault.AsmKind.TheVariants as kinds;
ghost use Rattle.ce_script.specs.declared.script.ScriptKind.TheVariants.{Assembly};
ghost use Rattle.ce_script.specs.Faults.{first_script_fault};
ghost use Rattle.ce_script.specs.Scripts.{IsScript, IsNoMemory};

mod body;
mod index;
mod line;
mod operand;
mod rest;
mod so_far;
mod state;

use crate::limited_script::LimitedScript;
use crate::script::ScriptFault;
use rest::Rest;
use state::Reader;
use std::alloc::Global;

/// The script that a text says, or its first fault: statements are judged in order, each by its own
/// line before its body. `Memory` may come at any line. There are fewer than `TEXT_LIMIT` bytes.
pub fn read_script(alloc: Global, bytes: &[u8]) -> Result<LimitedScript, ScriptFault>
    requires { length bytes.now < TEXT_LIMIT }
    ensures script { IfOk result (λ limited_script. IsScript bytes.now limited_script.script) }
    ensures fault { IfErr result (λ fault. ¬ IsNoMemory fault.kind
        → first_script_fault bytes.now ≡ Some fault) }
    ensures told { IfErr result (λ fault. (want : NoMemory)
        → fault.kind ≢ Assembly (kinds.Memory want)) }
{
    let mut reader = Reader::new(alloc);
    let mut rest = Rest::new(bytes);
    while let Some((line, next)) = rest.first_line() {
        (reader, rest) = reader.read_line(line, next)?;
    }
    Ok(LimitedScript {
        script: reader.so_far.script,
    })
}

#[cfg(test)]
mod tests;
