//! A source and a sink over the standard library's readers and writers. They tell no content.

ghost use Rattle.std.specs.Prelude.{◌≡◌, ◌≤◌, ℕ, List};
ghost use Rattle.std.specs.declared.option.Option.{Option};
ghost use Rattle.qc_types.specs.Streams.{Rose, FillsWithin, ReadGives, PutGives};

use qc_types::{PutStep, ReadStep, Sink, Source};
use std::io::{self, ErrorKind, Read, Write};
use std::marker::Model;

/// A reader or a writer, and a count of the calls that failed. The count stays at 2^64 - 1 once it is there. Contracts see the count.
#[derive(Drop)]
pub struct StdStream<S> {
    stream: S,
    faults: u64,
}

/// A source that reads from a reader, and counts the errors of its reads.
pub type StdSource<R> = StdStream<R>;

/// A sink that writes to a writer, and counts the errors of its writes and the writes that take nothing.
pub type StdSink<W> = StdStream<W>;

impl<S> Model for StdStream<S> {
    ghost use Rattle.std.specs.Prelude.{ℕ};

    ghost Value = { ℕ };

    ghost view = { λ s. s.faults };
}

impl<S> StdStream<S> {
    /// A source or a sink without faults so far.
    pub fn new(stream: S) -> StdStream<S>
        ensures { result ≡ 0 }
    {
        StdStream { stream, faults: 0 }
    }
}

impl<R: Read> Source for StdStream<R> {
    ghost left = { λ _. Option.None };

    ghost faults = { λ s. s };

    /// One read, again where a signal interrupts it. Each error counts.
    fn read(&mut self, out: &mut [u8]) -> ReadStep {
        for _ in 0..u64::MAX {
            match self.stream.read(out) {
                Ok(0) => return ReadStep::End,
                Ok(count) => return ReadStep::Got(count),
                Err(error) => {
                    if !is_interrupted(&mut self.faults, &error) {
                        return ReadStep::Failed;
                    }
                }
            }
        }
        count_fault(&mut self.faults);
        ReadStep::Failed
    }
}

impl<W: Write> Sink for StdStream<W> {
    ghost held = { λ _. Option.None };

    ghost faults = { λ s. s };

    /// Writes until the whole piece is taken. A write that a signal interrupts is made again.
    fn put(&mut self, piece: &[u8]) -> PutStep {
        let mut rest = piece;
        for _ in 0..u64::MAX {
            if rest.is_empty() {
                return PutStep::Done;
            }
            match self.stream.write(rest) {
                Ok(0) => break,
                Ok(count) => rest = &rest[count..],
                Err(error) => {
                    if !is_interrupted(&mut self.faults, &error) {
                        return PutStep::Failed;
                    }
                }
            }
        }
        count_fault(&mut self.faults);
        PutStep::Failed
    }
}

/// Counts an error, and tells whether a signal interrupted the call, which is then to be made again.
fn is_interrupted(faults: &mut u64, error: &io::Error) -> bool
    ensures later { faults.old ≤ faults.new }
    ensures rises { Rose faults.old faults.new }
{
    count_fault(faults);
    error.kind() == ErrorKind::Interrupted
}

fn count_fault(faults: &mut u64)
    ensures later { faults.old ≤ faults.new }
    ensures rises { Rose faults.old faults.new }
{
    *faults = faults.saturating_add(1);
}
