//! Reading a source to its end, and writing all to a sink.
ghost use Rattle.std.specs.Prelude.{◌≡◌, ◌⊎◌, ℕ, Err, IsErrOf, OnErr, OnOk, take};
ghost use Rattle.std.specs.Io.KnownBytes.{append_known};
ghost use Rattle.ce_io.specs.Faults.{HasRisen, HasCause};
ghost use Rattle.ce_io.specs.Whole.{HasReadToEnd, reading};
ghost use Rattle.ce_io.specs.declared.whole.ReadError.TheVariants.{Read};

use crate::{Failure, Sink, Source};
use ce_model::NoMemory;
use std::alloc::{AllocError, Global};
use thiserror::Error;

/// How many bytes are asked for at a time.
pub const PIECE: usize = 4096;

/// Why a source was not read to its end.
#[derive(Clone, Copy, Debug, PartialEq, Eq, Error)]
pub enum ReadError {
    /// It gave more bytes than the limit allows.
    #[error("too long")]
    TooLong,
    /// A read failed.
    #[error("a read failed")]
    Read,
    /// Memory ran out.
    #[error("{0}")]
    Memory(NoMemory),
}

impl From<AllocError> for ReadError {
    ghost use Rattle.ce_io.specs.ReadError.{IsReadNoMemory};

    ghost from_gives = { λ _ e. IsReadNoMemory e };

    fn from(want: AllocError) -> Self {
        ReadError::Memory(NoMemory::from(want))
    }
}

impl From<Failure> for ReadError {
    ghost use Rattle.std.specs.Prelude.{◌≡◌};
    ghost use Rattle.ce_io.specs.declared.whole.ReadError.TheVariants.{Read};

    ghost from_gives = { λ _ e. e ≡ Read };

    fn from(_: Failure) -> Self {
        ReadError::Read
    }
}

/// All the bytes of a source, up to its end. `TooLong` comes exactly where it gave more than
/// `limit` bytes, and then it gave `PIECE` more at most; `Read` where a read failed, which is not
/// tried again.
pub fn read_to_end<S: Source>(
    alloc: Global,
    source: &mut S,
    limit: usize,
) -> Result<Vec<u8>, ReadError>
    ensures read { HasReadToEnd
        (reading S.left S.given S.faults source.old source.new) limit PIECE result }
    ensures failed { IsErrOf result Read → HasRisen (S.faults source.old) (S.faults source.new) }
    ensures passed { (result ≡ Err Read) ⊎ (S.faults source.new ≡ S.faults source.old) }
{
    let mut text = Vec::new(alloc);
    let mut piece = [0; PIECE];
    loop {
        let count = source.read(&mut piece)?;
        if count == 0 {
            return Ok(text);
        }
        if count > limit - text.len() {
            return Err(ReadError::TooLong);
        }
        text.extend_from_slice(&piece[..count])?;
    }
}

/// Writes all of these bytes. After `Failure`, which comes where a write failed, the sink has taken
/// a front part of them.
#[tactic(auto, using(crate::proofs::Known::append_more, crate::proofs::Known::append_all))]
pub fn write_all<K: Sink>(sink: &mut K, bytes: &[u8]) -> Result<(), Failure>
    ensures ok { OnOk result (K.written sink.new ≡ append_known (K.written sink.old) bytes.now) }
    ensures part { OnErr result ((n : ℕ)
        × (K.written sink.new ≡ append_known (K.written sink.old) (take n bytes.now))) }
    ensures cause { HasCause (K.faults sink.old) (K.faults sink.new) result }
{
    let mut written_count = 0;
    while written_count < bytes.len() {
        written_count += sink.write(&bytes[written_count..])?;
    }
    Ok(())
}
