//! What no clause says of sources and sinks: examples, and failing ends.
use super::*;
use std::alloc::Global;
use std::io;
use std::io::{ErrorKind, Read, Write};
use std::test::Fail;

#[test]
fn a_source_is_read_to_its_end(rt: HostRuntime) -> Result<(), Fail> {
    let alloc = rt.alloc();
    let bytes = [1, 2, 3, 4, 5, 6, 7];
    for limit in [7, 8] {
        let mut memory = MemSource::new(bytes.to_vec(alloc)?, Vec::new(alloc), 3);
        assert_eq!(rt;
            read_to_end(alloc, &mut memory, limit)?.as_slice(),
            bytes.as_slice()
        );
        let mut standard = StdSource::new(bytes.as_slice());
        assert_eq!(rt;
            read_to_end(alloc, &mut standard, limit)?.as_slice(),
            bytes.as_slice()
        );
    }
    let mut long = StdSource::new(bytes.as_slice());
    let refused = read_to_end(alloc, &mut long, 6);
    assert!(rt; matches!(refused, Err(ReadError::TooLong)));
    let mut failing = MemSource::new(bytes.to_vec(alloc)?, [2].to_vec(alloc)?, 3);
    let refused = read_to_end(alloc, &mut failing, 8);
    assert!(rt; matches!(refused, Err(ReadError::Read)));
    Ok(())
}

#[test]
fn reading_goes_on_after_a_failed_read(rt: HostRuntime) -> Result<(), Fail> {
    let alloc = rt.alloc();
    let mut source = MemSource::new([5, 6].to_vec(alloc)?, [1].to_vec(alloc)?, 1);
    let mut piece = [0; 4];
    for (answer, first) in [(Ok(1), 5), (Err(Failure), 5), (Ok(1), 6), (Ok(0), 6)] {
        assert_eq!(rt; source.read(&mut piece), answer);
        assert_eq!(rt; piece[0], first);
    }
    Ok(())
}

#[test]
fn a_failed_write_takes_nothing(rt: HostRuntime) -> Result<(), Fail> {
    let alloc = rt.alloc();
    let bytes = [9; 40];
    let mut sink = MemSink::new(alloc, 64, [2].to_vec(alloc)?, 8)?;
    assert_eq!(rt; write_all(&mut sink, &bytes), Err(Failure));
    assert_eq!(rt; sink.bytes(), [9; 16].as_slice());
    assert_eq!(rt; write_all(&mut sink, &bytes), Ok(()));
    assert_eq!(rt; sink.bytes(), [9; 56].as_slice());
    Ok(())
}

#[test]
fn a_sink_without_room_fails(rt: HostRuntime) -> Result<(), Fail> {
    let alloc = rt.alloc();
    let mut sink = MemSink::new(alloc, 4, Vec::new(alloc), 8)?;
    assert_eq!(rt; sink.write(&[1, 2, 3, 4, 5, 6]), Ok(4));
    assert_eq!(rt; sink.write(&[5, 6]), Err(Failure));
    assert_eq!(rt; sink.bytes(), [1, 2, 3, 4].as_slice());
    Ok(())
}

/// What each call of a reader or a writer does: fails so, or moves one byte.
const CALLS: [Option<ErrorKind>; 9] = [
    Some(ErrorKind::Interrupted),
    Some(ErrorKind::Interrupted),
    Some(ErrorKind::Interrupted),
    None,
    Some(ErrorKind::Other),
    Some(ErrorKind::Interrupted),
    Some(ErrorKind::UnexpectedEof),
    Some(ErrorKind::WouldBlock),
    Some(ErrorKind::TimedOut),
];

/// Does what `CALLS` says, and then moves one byte a call, a 7 where it is read.
#[derive(Drop)]
struct Faulty {
    calls: usize,
}

impl Faulty {
    fn call(&mut self) -> io::Result<usize> {
        let call = self.calls;
        self.calls = call.saturating_add(1);
        match CALLS.get(call) {
            Some(Some(kind)) => Err(io::Error::from(*kind)),
            _ => Ok(1),
        }
    }
}

impl Read for Faulty {
    fn read(&mut self, buf: &mut [u8]) -> io::Result<usize> {
        if buf.is_empty() {
            return Ok(0);
        }
        self.call()?;
        buf[0] = 7;
        Ok(1)
    }
}

impl Write for Faulty {
    fn write(&mut self, buf: &[u8]) -> io::Result<usize> {
        if buf.is_empty() {
            return Ok(0);
        }
        self.call()?;
        Ok(1)
    }

    fn flush(&mut self) -> io::Result<()> {
        Ok(())
    }
}

/// What a source or a sink answers over `CALLS`: interruptions are tried again, and each other
/// fault is told.
const ANSWERS: [Result<usize, Failure>; 6] = [
    Ok(1),
    Err(Failure),
    Err(Failure),
    Err(Failure),
    Err(Failure),
    Ok(1),
];

#[test]
fn interruptions_are_tried_again_and_faults_told(rt: HostRuntime) {
    let mut source = StdSource::new(Faulty { calls: 0 });
    let mut sink = StdSink::new(Faulty { calls: 0 });
    let mut piece = [0; 2];
    for answer in ANSWERS {
        assert_eq!(rt; source.read(&mut piece), answer);
        assert_eq!(rt; sink.write(&piece), answer);
    }
    assert_eq!(rt; piece[0], 7);
}

// Is interrupted, and then takes a byte at a time, up to so many.
#[derive(Drop)]
struct Narrow {
    calls: u64,
    room: u64,
}

impl Write for Narrow {
    fn write(&mut self, buf: &[u8]) -> io::Result<usize> {
        let call = self.calls;
        self.calls = call.saturating_add(1);
        if call == 0 {
            return Err(io::Error::from(ErrorKind::Interrupted));
        }
        Ok(usize::from(call <= self.room && !buf.is_empty()))
    }

    fn flush(&mut self) -> io::Result<()> {
        Ok(())
    }
}

#[test]
fn a_writer_that_takes_nothing_has_failed(rt: HostRuntime) {
    let mut sink = StdSink::new(Narrow { calls: 0, room: 3 });
    assert_eq!(rt; write_all(&mut sink, &[1, 2, 3]), Ok(()));
    assert_eq!(rt; write_all(&mut sink, &[4]), Err(Failure));
}
