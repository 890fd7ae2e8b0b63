//! All that the program does, over any source and any sinks.
ghost use Rattle.std.specs.Prelude.{◌≡◌, ◌⊎◌, Some, MatchResult, map};
ghost use Rattle.std.specs.String.{string_bytes};
ghost use Rattle.std.specs.IoError.{error_kind};
ghost use Rattle.std.specs.declared.io.ErrorKind.TheVariants.{OutOfMemory};
ghost use Rattle.ce_io.specs.Whole.{reading, writing};
ghost use Rattle.ce_run.specs.Causes.{IsRunNoMemory, HasRunToEnd};
ghost use Rattle.ce_run.specs.Promise.{HasRefusedWords, IsFaultTold, IsPromised};
ghost use Rattle.ce_run.specs.declared.run_end.RunEnd.{RunEnd};
ghost use Rattle.ce_run.specs.declared.run_end.RunFault.TheVariants.{Usage};

use crate::program::{refusal, top};
use crate::run_end::{RunEnd, RunFault, write_fault};
use ce_gate::Gate;
use ce_io::{Sink, Source};
use ce_model::NoMemory;
use std::alloc::Global;
use std::io;
use std::io::ErrorKind;
use std::thread::Threads;

/// Runs the script of `source` as the words of the command line say, writes the report to `sink`
/// and the line of the fault, where there is one, to `errors`, and answers the exit status. Words
/// that can't be read for want of memory end it as `Memory`; those that can't be read otherwise, as
/// where one isn't text, are refused as `Usage`.
pub fn run_command<R: Threads + Sync, S: Source, K: Sink, E: Sink, G: Gate>(
    rt: &R,
    alloc: Global,
    words: io::Result<Vec<String>>,
    source: &mut S,
    sink: &mut K,
    errors: &mut E,
    gate: &G,
) -> u8
    // Of the end of a run, which answers the words, the status is answered, and the fault is told.
    ensures { (end : RunEnd) × (result ≡ end.status)
        × IsFaultTold end.fault (writing E.written E.faults errors.old errors.new)
        × MatchResult words
        (λ words. IsPromised (map string_bytes words.items)
        (reading S.left S.given S.faults source.old source.new)
        (writing K.written K.faults sink.old sink.new) end)
        (λ error. HasRefusedWords error
        (reading S.left S.given S.faults source.old source.new)
        (writing K.written K.faults sink.old sink.new) end) }
{
    let end = match words {
        Ok(words) => top(rt, alloc, words.as_slice(), source, sink, gate),
        Err(error) => refusal(words_fault(&error)),
    };
    tell_fault(end.fault, errors);
    end.status
}

/// Why words can't be read.
fn words_fault(error: &io::Error) -> RunFault
    ensures memory { error_kind error.now ≡ OutOfMemory → IsRunNoMemory (Some result) }
    ensures usage { (result ≡ Usage) ⊎ (error_kind error.now ≡ OutOfMemory) }
    ensures refusal { HasRunToEnd (Some result) → ⊥ }
{
    if error.kind() == ErrorKind::OutOfMemory {
        RunFault::Memory(NoMemory)
    } else {
        RunFault::Usage
    }
}

/// Writes the line of a fault. Where even this can't be written, the status still tells of the
/// fault.
fn tell_fault<E: Sink>(fault: Option<RunFault>, errors: &mut E)
    ensures { IsFaultTold fault (writing E.written E.faults errors.old errors.new) }
{
    if let Some(fault) = fault {
        let _ = write_fault(&fault, errors);
    }
}
