//! The adapters of standard streams.

ghost use Rattle.std.specs.Prelude.{◌≤◌, IfOk};

use qc_app::{StdSink, StdSource};
use qc_types::{PutStep, ReadStep, Sink, Source};
use std::io::{self, ErrorKind, Read, Write};

/// A stream whose calls are interrupted, take a byte, take two, take nothing, and fail, in turn.
#[derive(Drop)]
struct Faulty {
    calls: u8,
}

impl Faulty {
    /// How many of so many bytes a call takes.
    fn next(&mut self, length: usize) -> io::Result<usize>
        ensures { IfOk result (λ n. n ≤ length) }
    {
        self.calls = self.calls.wrapping_add(1);
        match self.calls % 5 {
            1 => Err(io::Error::from(ErrorKind::Interrupted)),
            2 => Ok(length.min(1)),
            3 => Ok(length.min(2)),
            4 => Ok(0),
            _ => Err(io::Error::from(ErrorKind::Other)),
        }
    }
}

impl Read for Faulty {
    fn read(&mut self, buf: &mut [u8]) -> io::Result<usize> {
        self.next(buf.len())
    }
}

impl Write for Faulty {
    fn write(&mut self, buf: &[u8]) -> io::Result<usize> {
        self.next(buf.len())
    }

    fn flush(&mut self) -> io::Result<()> {
        Ok(())
    }
}

/// What each read and each put of a piece does.
const READS: &[ReadStep] = &[
    ReadStep::Got(1),
    ReadStep::Got(2),
    ReadStep::End,
    ReadStep::Failed,
];

const PUTS: &[(&[u8], PutStep)] = &[
    (b"abc", PutStep::Done),
    (b"a", PutStep::Failed),
    (b"a", PutStep::Failed),
    (b"", PutStep::Done),
    (b"abcd", PutStep::Failed),
];

/// An interrupted call is made again, and a piece is put in parts. A read that takes nothing is the end, and a write that takes nothing is a fault.
#[test]
fn standard_streams(rt: HostRuntime) {
    let mut buffer = [0u8; 4];
    let mut input = StdSource::new(Faulty { calls: 0 });
    for wanted in READS {
        let step = input.read(&mut buffer);
        assert!(rt; step == *wanted);
    }
    let mut out = StdSink::new(Faulty { calls: 0 });
    for (piece, wanted) in PUTS {
        let step = out.put(piece);
        assert!(rt; step == *wanted);
    }
}
