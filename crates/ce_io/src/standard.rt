ghost use Rattle.std.specs.Prelude.{◌≡◌, ◌≢◌, ◌≤◌, None, IfOk, IfErr, length};
ghost use Rattle.std.specs.Io.{ReadsAtMost, WritesAtMost};
ghost use Rattle.std.specs.Io.KnownBytes.{ReadConsumes, WriteAppends};
ghost use Rattle.std.specs.IoError.{error_kind};
ghost use Rattle.ce_io.specs.Faults.{faults_after};
ghost use Rattle.ce_io.specs.Source.{given_count_after};
ghost use Rattle.ce_io.specs.Standard.{reader_left, writer_bytes};

use crate::{Failure, Sink, Source};
use std::io;
use std::io::{ErrorKind, Read, Write};

/// The adapter over a reader of `std`, as a file or standard input. Nothing is proved of what a
/// system gives, so it tells no content. A read that a signal interrupts is tried again, and is no
/// fault.
#[derive(Debug, Drop)]
pub struct StdSource<R> {
    inner: R,
    given: u64,
    faults: u64,
}

impl<R: Read> StdSource<R> {
    /// The source that reads from `inner`.
    pub fn new(inner: R) -> StdSource<R>
        ensures given { ⟦<StdSource<R> as Source>⟧.given result ≡ 0 }
        ensures faults { ⟦<StdSource<R> as Source>⟧.faults result ≡ 0 }
        ensures reader { reader_left R.remaining result ≡ R.remaining inner }
    {
        StdSource {
            inner,
            given: 0,
            faults: 0,
        }
    }
}

impl<R: Read> Source for StdSource<R> {
    ghost left = { λ _. None };

    ghost given = { λ source. source.given };

    ghost faults = { λ source. source.faults };

    fn read(&mut self, buffer: &mut [u8]) -> Result<usize, Failure>
        ensures count { ReadsAtMost result buffer.new }
        ensures given { let given = ⟦<StdSource<R> as Source>⟧.given in
            given self.new ≡ given_count_after (given self.old) result }
        ensures faults { let faults = ⟦<StdSource<R> as Source>⟧.faults in
            faults self.new ≡ faults_after (faults self.old) result }

        // The answer is the reader's: the end is told only where the reader has come to its end.
        ensures reader { let left = reader_left R.remaining in
            ReadConsumes (left self.old) (left self.new) result buffer.new }
    {
        match read_retrying(&mut self.inner, buffer) {
            Ok(count) => {
                self.given = self.given.saturating_add(count as u64);
                Ok(count)
            }
            Err(_) => {
                self.faults = self.faults.saturating_add(1);
                Err(Failure)
            }
        }
    }
}

// One read, tried again where a signal interrupts it.
fn read_retrying<R: Read>(reader: &mut R, buffer: &mut [u8]) -> io::Result<usize>
    ensures bound { ReadsAtMost result buffer.new }
    ensures bytes { ReadConsumes (R.remaining reader.old) (R.remaining reader.new)
        result buffer.new }
    ensures retried { IfErr result (λ error. error_kind error ≢ ErrorKind.Interrupted) }
{
    for _ in 0..u64::MAX {
        match reader.read(buffer) {
            Err(error) if error.kind() == ErrorKind::Interrupted => {}
            answer => return answer,
        }
    }
    Err(io::Error::from(ErrorKind::TimedOut))
}

/// The adapter over a writer of `std`, as a file or standard output. Nothing is proved of what a
/// system does with the bytes, so it tells no content. A write that a signal interrupts is tried
/// again, and is no fault; one that takes nothing is a fault. It never flushes, so the writer
/// should keep no bytes back.
#[derive(Debug, Drop)]
pub struct StdSink<W> {
    inner: W,
    faults: u64,
}

impl<W: Write> StdSink<W> {
    /// The sink that writes to `inner`.
    pub fn new(inner: W) -> StdSink<W>
        ensures faults { ⟦<StdSink<W> as Sink>⟧.faults result ≡ 0 }
        ensures writer { writer_bytes W.contents result ≡ W.contents inner }
    {
        StdSink { inner, faults: 0 }
    }
}

impl<W: Write> Sink for StdSink<W> {
    ghost written = { λ _. None };

    ghost faults = { λ sink. sink.faults };

    fn write(&mut self, piece: &[u8]) -> Result<usize, Failure>
        ensures count { IfOk result (λ n. (1 ≤ n) × (n ≤ length piece.now)) }
        ensures faults { let faults = ⟦<StdSink<W> as Sink>⟧.faults in
            faults self.new ≡ faults_after (faults self.old) result }

        // The answer is the writer's: it has just the bytes that are told to be taken.
        ensures writer { let bytes = writer_bytes W.contents in
            WriteAppends (bytes self.old) (bytes self.new) result piece.now }
    {
        match write_retrying(&mut self.inner, piece) {
            Ok(count) if count > 0 => Ok(count),
            _ => {
                self.faults = self.faults.saturating_add(1);
                Err(Failure)
            }
        }
    }
}

// One write, tried again where a signal interrupts it.
fn write_retrying<W: Write>(writer: &mut W, piece: &[u8]) -> io::Result<usize>
    ensures bound { WritesAtMost result piece.now }
    ensures bytes { WriteAppends (W.contents writer.old) (W.contents writer.new) result piece.now }
    ensures retried { IfErr result (λ error. error_kind error ≢ ErrorKind.Interrupted) }
{
    for _ in 0..u64::MAX {
        match writer.write(piece) {
            Err(error) if error.kind() == ErrorKind::Interrupted => {}
            answer => return answer,
        }
    }
    Err(io::Error::from(ErrorKind::TimedOut))
}
