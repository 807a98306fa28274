//! Streams over the readers and writers of std: what they give and take is trusted.

ghost use Rattle.std.specs.Prelude.{◌≡◌, ◌<◌, ◌≤◌, length, IfOk, OnErr, OnOk};
ghost use Rattle.std.specs.Io.KnownBytes.{Keeps, ReadConsumes, WriteAppends};
ghost use Rattle.wt_env.specs.Counts.{risen};
ghost use Rattle.wt_env.specs.Stream.{Rose};

use crate::stream::{Failed, Sink, Source};
use std::io::{Read, Write};
use std::marker::Model;

/// A source over a reader, which counts the reads that failed.
#[derive(Debug, Drop)]
pub struct StdSource<R> {
    reader: R,
    faults: u64,
}

impl<R> Model for StdSource<R> {
    ghost use Rattle.wt_env.specs.StdStream.{Counted};

    ghost Value = { Counted R };

    ghost view = { λ source. record { inner = source.reader; faults = source.faults } };
}

impl<R> StdSource<R> {
    /// A source over this reader, with no fault so far.
    pub fn new(reader: R) -> StdSource<R>
        ensures { result ≡ record { inner = reader; faults = 0 } }
    {
        StdSource { reader, faults: 0 }
    }

    /// How many reads failed, up to `u64::MAX`.
    pub fn faults(&self) -> u64
        ensures { result ≡ self.now.faults }
    {
        self.faults
    }
}

impl<R: Read> Source for StdSource<R> {
    ghost use Rattle.std.specs.Prelude.{None};

    ghost left = { λ _. None };

    ghost faults = { λ source. source.faults };

    /// Reads once from the reader. Each of its errors is a failure.
    fn read(&mut self, buffer: &mut [u8]) -> Result<usize, Failed>
        ensures within { IfOk result (λ n. n ≤ length buffer.old) }
        ensures failed { OnErr result (Rose self.old.faults self.new.faults) }
        ensures count { self.old.faults ≤ self.new.faults }
        ensures bytes { ReadConsumes (R.remaining self.old.inner) (R.remaining self.new.inner) result buffer.new }
        ensures calm { OnOk result (self.new.faults ≡ self.old.faults) }
        ensures fault { OnErr result (self.new.faults ≡ risen self.old.faults) }
    {
        match self.reader.read(buffer) {
            Ok(count) => Ok(count),
            Err(_) => {
                self.faults = self.faults.saturating_add(1);
                Err(Failed)
            }
        }
    }
}

/// A sink over a writer, which counts the writes and flushes that failed.
#[derive(Debug, Drop)]
pub struct StdSink<W> {
    writer: W,
    faults: u64,
}

impl<W> Model for StdSink<W> {
    ghost use Rattle.wt_env.specs.StdStream.{Counted};

    ghost Value = { Counted W };

    ghost view = { λ sink. record { inner = sink.writer; faults = sink.faults } };
}

impl<W> StdSink<W> {
    /// A sink over this writer, with no fault so far.
    pub fn new(writer: W) -> StdSink<W>
        ensures { result ≡ record { inner = writer; faults = 0 } }
    {
        StdSink { writer, faults: 0 }
    }

    /// How many writes and flushes failed, up to `u64::MAX`.
    pub fn faults(&self) -> u64
        ensures { result ≡ self.now.faults }
    {
        self.faults
    }
}

impl<W: Write> StdSink<W> {
    /// Has the writer hand on what it holds back. What was taken stays taken.
    pub fn flush(&mut self) -> Result<(), Failed>
        ensures bytes { Keeps (W.contents self.old.inner) (W.contents self.new.inner) }
        ensures calm { OnOk result (self.new.faults ≡ self.old.faults) }
        ensures fault { OnErr result (self.new.faults ≡ risen self.old.faults) }
        ensures failed { OnErr result (Rose self.old.faults self.new.faults) }
        ensures count { self.old.faults ≤ self.new.faults }
    {
        if self.writer.flush().is_err() {
            self.faults = self.faults.saturating_add(1);
            return Err(Failed);
        }
        Ok(())
    }
}

impl<W: Write> Sink for StdSink<W> {
    ghost use Rattle.std.specs.Prelude.{None};

    ghost taken = { λ _. None };

    ghost faults = { λ sink. sink.faults };

    /// Writes once to the writer. An error is a failure, and so is taking nothing of a piece that isn't
    /// empty.
    fn write(&mut self, piece: &[u8]) -> Result<usize, Failed>
        ensures within { IfOk result (λ n. n ≤ length piece.now) }
        ensures some { IfOk result (λ n. 0 < length piece.now → 0 < n) }
        ensures failed { OnErr result (Rose self.old.faults self.new.faults) }
        ensures count { self.old.faults ≤ self.new.faults }
        ensures bytes { WriteAppends (W.contents self.old.inner) (W.contents self.new.inner) result piece.now }
        ensures calm { OnOk result (self.new.faults ≡ self.old.faults) }
        ensures fault { OnErr result (self.new.faults ≡ risen self.old.faults) }
    {
        match self.writer.write(piece) {
            Ok(count) if count > 0 || piece.is_empty() => Ok(count),
            _ => {
                self.faults = self.faults.saturating_add(1);
                Err(Failed)
            }
        }
    }
}

#[cfg(test)]
mod tests {
    use super::*;
    use std::test::*;

    #[test]
    fn a_slice_is_read_to_its_end(rt: HostRuntime) {
        let mut source = StdSource::new(b"abc".as_slice());
        let mut buffer = [0; 2];
        assert_eq!(rt; source.read(&mut buffer), Ok(2));
        assert_eq!(rt; &buffer, b"ab");
        assert_eq!(rt; source.read(&mut buffer), Ok(1));
        assert_eq!(rt; source.read(&mut buffer), Ok(0));
        assert_eq!(rt; source.faults(), 0);
    }

    #[test]
    fn a_writer_without_room_fails(rt: HostRuntime) {
        let mut sink = StdSink::new(Vec::new(rt.alloc()));
        assert_eq!(rt; sink.write(b"abc"), Ok(3));
        assert_eq!(rt; sink.flush(), Ok(()));
        assert_eq!(rt; sink.writer.as_slice(), b"abc".as_slice());
        assert_eq!(rt; sink.faults(), 0);

        let mut room = [0; 1];
        let mut full = StdSink::new(room.as_mut_slice());
        assert_eq!(rt; full.write(b"abc"), Ok(1));
        assert_eq!(rt; full.write(b"bc"), Err(Failed));
        assert_eq!(rt; full.write(b""), Ok(0));
        assert_eq!(rt; full.faults(), 1);
    }
}
