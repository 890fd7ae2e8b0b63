//! How a call ends, and the lines that say so.
ghost use Rattle.std.specs.Prelude.{◌≡◌, ℕ, OnOk, OnErr, take, flat_map};
ghost use Rattle.std.specs.Io.KnownBytes.{append_known};
ghost use Rattle.ce_io.specs.Faults.{HasCause};
ghost use Rattle.ce_run.specs.Fault.{line_of, status_of};

use ce_io::{Failure, Sink, write_all};
use ce_model::NoMemory;
use ce_script::{Record, ScriptFault};
use itoa::Buffer;

/// How a run ended.
#[derive(Debug, Drop)]
pub struct RunEnd {
    /// 0 where the whole text was written; else the status of the fault.
    pub status: u8,
    /// What the run did; there with the statuses 0 and 5.
    pub kept: Option<Record>,
    /// Why the text was not written to its end; there with every status but 0.
    pub fault: Option<RunFault>,
}

/// Why a run's text was not written to its end.
#[derive(Clone, Copy, Debug, PartialEq, Eq)]
pub enum RunFault {
    /// The script is longer than `SCRIPT_LIMIT`. Status 1.
    TooLong,
    /// The script has this fault, its first. Status 1.
    Script(ScriptFault),
    /// The words of the command line are not accepted. Status 2.
    Usage,
    /// The source failed. Status 3.
    Read,
    /// The sink failed; a front part of the text may have been written. Status 5.
    Write,
    /// Memory ran out. Status 4.
    Memory(NoMemory),
}

impl RunFault {
    /// The exit status.
    pub(crate) fn status(&self) -> u8
        ensures { result ≡ status_of self.now }
    {
        match self {
            RunFault::TooLong | RunFault::Script(_) => 1,
            RunFault::Usage => 2,
            RunFault::Read => 3,
            RunFault::Memory(_) => 4,
            RunFault::Write => 5,
        }
    }
}

/// Writes the line that tells of a fault, with a line feed. `Failure` comes where the sink failed,
/// which has then taken a front part of the line.
pub fn write_fault<K: Sink>(fault: &RunFault, sink: &mut K) -> Result<(), Failure>
    ensures ok { OnOk result (K.written sink.new
        ≡ append_known (K.written sink.old) (line_of fault.now)) }
    ensures part { OnErr result ((n : ℕ)
        × (K.written sink.new ≡ append_known (K.written sink.old) (take n (line_of fault.now)))) }
    ensures cause { HasCause (K.faults sink.old) (K.faults sink.new) result }
{
    match fault {
        RunFault::TooLong => write_all(sink, b"ce: script too long\n"),
        RunFault::Script(fault) => {
            let mut digits = Buffer::new();
            let line = digits.format(fault.line).as_bytes();
            let text = fault.kind.text();
            let kind = text.kind.as_bytes();
            let assembly = text.assembly.as_bytes();
            write_pieces(sink, &[b"ce: line ", line, b": ", kind, assembly, b"\n"])
        }
        RunFault::Usage => write_all(sink, b"ce: usage: ce [--serial] [--load N]\n"),
        RunFault::Read => write_all(sink, b"ce: read fault\n"),
        RunFault::Write => write_all(sink, b"ce: write fault\n"),
        RunFault::Memory(want) => {
            let text = want.text().as_bytes();
            write_pieces(sink, &[b"ce: ", text, b"\n"])
        }
    }
}

/// Writes these pieces, one behind the other. After `Failure` the sink has taken a front part of
/// them together.
#[tactic(auto, using(crate::proofs::Pieces::part_of_first, crate::proofs::Pieces::part_of_rest))]
fn write_pieces<K: Sink>(sink: &mut K, pieces: &[&[u8]]) -> Result<(), Failure>
    ensures ok { OnOk result (K.written sink.new
        ≡ append_known (K.written sink.old) (flat_map (λ piece. piece.now) pieces.now)) }
    ensures part { OnErr result ((n : ℕ)
        × (K.written sink.new ≡ append_known (K.written sink.old)
        (take n (flat_map (λ piece. piece.now) pieces.now)))) }
    ensures cause { HasCause (K.faults sink.old) (K.faults sink.new) result }
{
    let Some((piece, rest)) = pieces.split_first() else {
        return Ok(());
    };
    write_all(sink, piece)?;
    write_pieces(sink, rest)
}
