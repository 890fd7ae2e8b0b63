//! The calls that do all that the program does.
ghost use Rattle.std.specs.Prelude.{◌≡◌, ◌↔◌, ◌⊎◌, ◌≤◌, Some, None, IfOk, IfErr, IsErrOf, IfSome, IsSome, map};
ghost use Rattle.std.specs.String.{string_bytes};
ghost use Rattle.ce_io.specs.Faults.{HasRisen};
ghost use Rattle.ce_io.specs.Whole.{reading, writing};
ghost use Rattle.ce_words.specs.Line.{line_of_words};
ghost use Rattle.ce_script.specs.Legal.{IsLegal};
ghost use Rattle.ce_script.specs.Rounds.{serial};
ghost use Rattle.ce_script.specs.Serial.{IsSerial};
ghost use Rattle.ce_run.specs.Causes.{status_of_end, IsReadingFault, IsRunNoMemory, IsServed, HasRunToEnd, HasReported};
ghost use Rattle.ce_run.specs.Fault.{status_of};
ghost use Rattle.ce_run.specs.Promise.{IsPromised, HasEnded, HasReadScript, HasRun, HasFinished, IsComplete, run_text};
ghost use Rattle.ce_script.specs.Load.{load};
ghost use Rattle.ce_run.specs.declared.run_end.RunFault.TheVariants.{Read, Usage, Write};

use crate::run_end::{RunEnd, RunFault};
use crate::serial::run_serial;
use ce_gate::Gate;
use ce_io::{ReadError, Sink, Source, read_to_end, write_all};
use ce_model::{NoMemory, SCRIPT_LIMIT};
use ce_script::{LimitedScript, Record, ScriptKind, make, read_script};
use ce_trace::{write_report, write_summary};
use ce_words::{CommandLine, CommandLineError, read_line};
use std::alloc::Global;
use std::thread::Threads;

/// Runs the script that the source gives, and writes the report to the sink; or the load of a
/// number, and writes its summary. `words` are the words of the command line behind the program's
/// name: `--serial`, and `--load N` for a load.
///
/// Lines without `--serial` are refused as `Usage`: nothing runs on further threads yet, and the
/// gate is not called. The faults are those of `RunFault`, and `HasEnded` says what each leaves.
pub fn top<R: Threads + Sync, S: Source, K: Sink, G: Gate>(
    _rt: &R,
    alloc: Global,
    words: &[String],
    source: &mut S,
    sink: &mut K,
    _gate: &G,
) -> RunEnd
    ensures { IsPromised (map string_bytes words.now)
        (reading S.left S.given S.faults source.old source.new)
        (writing K.written K.faults sink.old sink.new) result }
{
    serial_call(alloc, words, source, sink)
}

/// Does what `top` does on lines with `--serial`, and refuses every other line as `Usage`. It
/// always returns.
pub fn serial_call<S: Source, K: Sink>(
    alloc: Global,
    words: &[String],
    source: &mut S,
    sink: &mut K,
) -> RunEnd
    ensures ended { HasEnded (map string_bytes words.now)
        (reading S.left S.given S.faults source.old source.new)
        (writing K.written K.faults sink.old sink.new) result }
    ensures headline { IfSome result.kept (HasRun (line_of_words (map string_bytes words.now))
        (reading S.left S.given S.faults source.old source.new)
        (writing K.written K.faults sink.old sink.new) result.fault) }
    ensures complete { IsComplete (map string_bytes words.now)
        (reading S.left S.given S.faults source.old source.new)
        (writing K.written K.faults sink.old sink.new) result.fault }
{
    match load_of_words(alloc, words) {
        Err(fault) => refusal(fault),
        Ok(Some(seed)) => run_load(alloc, seed, sink),
        Ok(None) => match read_source(alloc, source) {
            Err(fault) => refusal(fault),
            Ok(script) => run_script(alloc, &script, None, sink),
        },
    }
}

/// The load that a line with `--serial` asks for, if it asks for one; other lines are refused as
/// `Usage`.
fn load_of_words(alloc: Global, words: &[String]) -> Result<Option<u32>, RunFault>
    ensures served { IfOk result (λ _. IsServed (map string_bytes words.now)) }
    ensures load { IfOk result (λ load. (line_of_words (map string_bytes words.now)).load ≡ load) }
    ensures refused { IfErr result (λ fault. fault ≡ Usage
        → ¬ IsServed (map string_bytes words.now)) }
    ensures fault { IfErr result (λ fault. (fault ≡ Usage) ⊎ IsRunNoMemory (Some fault)) }
{
    match read_line(alloc, words) {
        Ok(
            CommandLine {
                is_serial: true,
                load,
            },
        ) => Ok(load),
        Ok(_) | Err(CommandLineError::Usage) => Err(RunFault::Usage),
        Err(CommandLineError::Memory(want)) => Err(RunFault::Memory(want)),
    }
}

/// The end of a run that wrote nothing.
pub(crate) fn refusal(fault: RunFault) -> RunEnd
    requires { HasRunToEnd (Some fault) → ⊥ }
    ensures { result ≡ record { status = status_of fault; kept = None; fault = Some fault } }
{
    RunEnd {
        status: fault.status(),
        kept: None,
        fault: Some(fault),
    }
}

/// Runs the load of a seed and writes its summary.
fn run_load<K: Sink>(alloc: Global, seed: u32, sink: &mut K) -> RunEnd
    ensures { HasFinished (load seed) (Some seed)
        (writing K.written K.faults sink.old sink.new) result }
{
    let script = match make(alloc, seed) {
        Ok(script) => script,
        Err(want) => return refusal(RunFault::Memory(want)),
    };
    run_script(alloc, &script, Some(seed), sink)
}

/// Reads a script from a source.
fn read_source<S: Source>(alloc: Global, source: &mut S) -> Result<LimitedScript, RunFault>
    ensures read { HasReadScript (reading S.left S.given S.faults source.old source.new) result }
    ensures failed { IsErrOf result Read → HasRisen (S.faults source.old) (S.faults source.new) }
    ensures passed { IsErrOf result Read ⊎ (S.faults source.new ≡ S.faults source.old) }
    ensures fault { IfErr result IsReadingFault }
{
    let text = match read_to_end(alloc, source, SCRIPT_LIMIT) {
        Ok(text) => text,
        Err(ReadError::TooLong) => return Err(RunFault::TooLong),
        Err(ReadError::Read) => return Err(RunFault::Read),
        Err(ReadError::Memory(want)) => return Err(RunFault::Memory(want)),
    };
    match read_script(alloc, text.as_slice()) {
        Ok(script) => Ok(script),
        Err(fault) => match fault.kind {
            ScriptKind::Memory(want) => Err(RunFault::Memory(want)),
            _ => Err(RunFault::Script(fault)),
        },
    }
}

/// Runs a script and writes its report, or, where it is the load of a seed, the summary.
fn run_script<K: Sink>(
    alloc: Global,
    limited_script: &LimitedScript,
    seed: Option<u32>,
    sink: &mut K,
) -> RunEnd
    ensures { HasFinished limited_script.now.script seed
        (writing K.written K.faults sink.old sink.new) result }
{
    match record_and_text(alloc, limited_script, seed) {
        Ok((run_record, text)) => write_text(run_record, text, sink),
        Err(want) => refusal(RunFault::Memory(want)),
    }
}

/// The record of a script's run, and the text that is written about it.
fn record_and_text(
    alloc: Global,
    limited_script: &LimitedScript,
    seed: Option<u32>,
) -> Result<(Record, Vec<u8>), NoMemory>
    ensures legal { IfOk result (λ outcome. IsLegal serial limited_script.now.script outcome.0) }
    ensures serial { IfOk result (λ outcome. IsSerial limited_script.now.script outcome.0) }
    ensures text { IfOk result (λ outcome.
        outcome.1.items ≡ run_text seed limited_script.now.script outcome.0) }
{
    let run_record = run_serial(alloc, limited_script)?;
    let text = match seed {
        None => write_report(alloc, &limited_script.script, &run_record)?,
        Some(seed) => write_summary(alloc, seed, &run_record)?,
    };
    Ok((run_record, text))
}

/// Writes the text of a run, which has left this record.
fn write_text<K: Sink>(run_record: Record, text: Vec<u8>, sink: &mut K) -> RunEnd
    ensures status { result.status ≡ status_of_end result.fault }
    ensures kept { result.kept ≡ Some run_record }
    ensures ran { HasRunToEnd result.fault }
    ensures reported { HasReported result.fault text.items (K.written sink.old)
        (K.written sink.new) }
    ensures failed { result.fault ≡ Some Write → HasRisen (K.faults sink.old) (K.faults sink.new) }
    ensures passed { (result.fault ≡ Some Write) ⊎ (K.faults sink.new ≡ K.faults sink.old) }
{
    let (status, fault) = match write_all(sink, text.as_slice()) {
        Ok(()) => (0, None),
        Err(_) => (RunFault::Write.status(), Some(RunFault::Write)),
    };
    RunEnd {
        status,
        kept: Some(run_record),
        fault,
    }
}
