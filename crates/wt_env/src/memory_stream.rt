//! Streams over bytes in memory, which move few bytes a call and fail at the calls that are listed;
//! and calm ones, which never fail. They stand in for files and pipes.

ghost use Rattle.std.specs.Prelude.{◌≡◌, ◌==◌, ◌<◌, ◌≤◌, ◌++◌, [], length, take, drop, min, IsTrue, IsErr, ◌↔◌, IfOk, OnErr, IfSome};
ghost use Rattle.std.specs.List.{list_any};
ghost use Rattle.std.specs.Option.{option_map};
ghost use Rattle.wt_env.specs.Counts.{risen};
ghost use Rattle.wt_env.specs.MemoryStream.{is_listed, moved, after_fault, after_move};
ghost use Rattle.wt_env.specs.Stream.{Rose};

use crate::stream::{Failed, Sink, Source};
use std::alloc::Global;
use std::marker::Model;

/// The calls of a stream: which fail, how many there were, and how many failed.
#[derive(Debug, Drop)]
struct Calls {
    failing: Vec<u64>,
    calls: u64,
    faults: u64,
}

impl Calls {
    fn new(failing: Vec<u64>) -> Calls
        ensures failing { result.failing ≡ failing }
        ensures calls { result.calls ≡ 0 }
        ensures faults { result.faults ≡ 0 }
    {
        Calls {
            failing,
            calls: 0,
            faults: 0,
        }
    }

    /// Counts a call, and answers whether its number is listed.
    fn is_next_listed(&mut self) -> bool
        ensures failing { self.new.failing ≡ self.old.failing }
        ensures calls { self.new.calls ≡ risen self.old.calls }
        ensures faults { self.new.faults ≡ self.old.faults }
        ensures listed { result ≡ list_any (λ number. number == risen self.old.calls) self.old.failing.items }
    {
        self.calls = self.calls.saturating_add(1);
        self.failing.contains(&self.calls)
    }

    /// Counts a fault.
    fn add_fault(&mut self)
        ensures failing { self.new.failing ≡ self.old.failing }
        ensures calls { self.new.calls ≡ self.old.calls }
        ensures faults { self.new.faults ≡ risen self.old.faults }
    {
        self.faults = self.faults.saturating_add(1);
    }
}

/// Bytes of which the first are given away: contracts see those that are left.
#[derive(Debug, Drop)]
struct Rest {
    bytes: Vec<u8>,
    place: usize,
}

impl Model for Rest {
    ghost use Rattle.std.specs.Prelude.{ℕ, ◌≤◌, List, length, drop};

    ghost Value = { List ℕ };

    ghost view = { λ rest. drop rest.place rest.bytes.items };

    ghost invariant = { λ rest. rest.place ≤ length rest.bytes.items };
}

impl Rest {
    fn new(bytes: Vec<u8>) -> Rest
        ensures { result ≡ bytes.items }
    {
        Rest { bytes, place: 0 }
    }

    /// Moves as many bytes into the front of the buffer as fit, are left and are at most `most`.
    #[tactic(auto, using(crate::proofs::Parted::parted))]
    fn give(&mut self, buffer: &mut [u8], most: usize) -> usize
        ensures count { result ≡ min most (min (length buffer.old) (length self.old)) }
        ensures given { self.old ≡ take result buffer.new ++ self.new }
        ensures left { self.new ≡ drop result self.old }
    {
        let (_, rest) = self.bytes.as_slice().split_at(self.place);
        let count = copy_front(rest, buffer, most);
        self.place += count;
        count
    }
}

/// Copies as many bytes to the front of the buffer as fit, there are and are at most `most`.
#[tactic(auto, using(crate::proofs::Parted::copied))]
fn copy_front(rest: &[u8], buffer: &mut [u8], most: usize) -> usize
    ensures count { result ≡ min most (min (length buffer.old) (length rest.now)) }
    ensures copied { take result buffer.new ≡ take result rest.now }
{
    let count = most.min(buffer.len().min(rest.len()));
    buffer[..count].copy_from_slice(&rest[..count]);
    count
}

/// Bytes in memory that are read at most so many a call. The calls whose numbers are listed fail.
#[derive(Debug, Drop)]
pub struct MemorySource {
    rest: Rest,
    most: usize,
    calls: Calls,
}

impl Model for MemorySource {
    ghost use Rattle.std.specs.Prelude.{◌≤◌};
    ghost use Rattle.wt_env.specs.MemoryStream.{MemoryParts};

    ghost Value = { MemoryParts };

    ghost view = { λ source. record { bytes = source.rest; failing = source.calls.failing.items; most = source.most; calls = source.calls.calls; faults = source.calls.faults } };

    ghost invariant = { λ source. 1 ≤ source.most };
}

impl MemorySource {
    /// A source of these bytes that gives at most `most` a call. The calls of `read` are counted from
    /// 1, those with nothing to give too, up to `u64::MAX`; those whose numbers are in `failing` fail.
    pub fn new(bytes: Vec<u8>, failing: Vec<u64>, most: usize) -> MemorySource
        requires { 1 ≤ most }
        ensures { result ≡ record { bytes = bytes.items; failing = failing.items; most = most; calls = 0; faults = 0 } }
    {
        MemorySource {
            rest: Rest::new(bytes),
            most,
            calls: Calls::new(failing),
        }
    }

    /// How many reads failed, up to `u64::MAX`.
    pub fn faults(&self) -> u64
        ensures { result ≡ self.now.faults }
    {
        self.calls.faults
    }
}

impl Source for MemorySource {
    ghost use Rattle.std.specs.Prelude.{Some};

    ghost left = { λ source. Some source.bytes };

    ghost faults = { λ source. source.faults };

    /// Fails exactly at the calls that are listed; else it gives as many bytes as are left, fit, and
    /// may be given at once.
    fn read(&mut self, buffer: &mut [u8]) -> Result<usize, Failed>
        ensures within { IfOk result (λ n. n ≤ length buffer.old) }
        ensures taken { IfOk result (λ n. self.old.bytes ≡ take n buffer.new ++ self.new.bytes) }
        ensures end { result ≡ Ok 0 → 0 < length buffer.old → self.old.bytes ≡ [] }
        ensures failed { OnErr result (Rose self.old.faults self.new.faults) }
        ensures unread { OnErr result (self.new.bytes ≡ self.old.bytes) }
        ensures count { self.old.faults ≤ self.new.faults }
        ensures listed { IsErr result ↔ IsTrue (is_listed self.old) }
        ensures given { IfOk result (λ n. n ≡ moved self.old (min (length buffer.old) (length self.old.bytes))) }
        ensures after { IfOk result (λ n. self.new ≡ after_move self.old (drop n self.old.bytes)) }
        ensures fault { OnErr result (self.new ≡ after_fault self.old) }
    {
        if self.calls.is_next_listed() {
            self.calls.add_fault();
            return Err(Failed);
        }
        Ok(self.rest.give(buffer, self.most))
    }
}

/// A sink that keeps its bytes in memory and takes at most so many a call. The calls whose numbers
/// are listed fail.
#[derive(Debug, Drop)]
pub struct MemorySink {
    held: Vec<u8>,
    most: usize,
    calls: Calls,
}

impl Model for MemorySink {
    ghost use Rattle.std.specs.Prelude.{◌≤◌};
    ghost use Rattle.wt_env.specs.MemoryStream.{MemoryParts};

    ghost Value = { MemoryParts };

    ghost view = { λ sink. record { bytes = sink.held.items; failing = sink.calls.failing.items; most = sink.most; calls = sink.calls.calls; faults = sink.calls.faults } };

    ghost invariant = { λ sink. 1 ≤ sink.most };
}

impl MemorySink {
    /// An empty sink that takes at most `most` bytes a call. The calls of `write` are counted from 1,
    /// those with nothing to take too, up to `u64::MAX`; those whose numbers are in `failing` fail.
    pub fn new(alloc: Global, failing: Vec<u64>, most: usize) -> MemorySink
        requires { 1 ≤ most }
        ensures { result ≡ record { bytes = []; failing = failing.items; most = most; calls = 0; faults = 0 } }
    {
        MemorySink {
            held: Vec::new(alloc),
            most,
            calls: Calls::new(failing),
        }
    }

    /// The bytes that were taken, in order.
    pub fn bytes(&self) -> &[u8]
        ensures { result.now ≡ self.now.bytes }
    {
        self.held.as_slice()
    }

    /// How many writes failed, up to `u64::MAX`.
    pub fn faults(&self) -> u64
        ensures { result ≡ self.now.faults }
    {
        self.calls.faults
    }
}

impl Sink for MemorySink {
    ghost use Rattle.std.specs.Prelude.{Some};

    ghost taken = { λ sink. Some sink.bytes };

    ghost faults = { λ sink. sink.faults };

    /// Fails at the calls that are listed and where memory for the bytes is lacking; else it takes as
    /// many bytes as there are and may be taken at once.
    fn write(&mut self, piece: &[u8]) -> Result<usize, Failed>
        ensures within { IfOk result (λ n. n ≤ length piece.now) }
        ensures some { IfOk result (λ n. 0 < length piece.now → 0 < n) }
        ensures added { IfOk result (λ n. self.new.bytes ≡ self.old.bytes ++ take n piece.now) }
        ensures failed { OnErr result (Rose self.old.faults self.new.faults) }
        ensures unwritten { OnErr result (self.new.bytes ≡ self.old.bytes) }
        ensures count { self.old.faults ≤ self.new.faults }
        ensures listed { IsTrue (is_listed self.old) → IsErr result }
        ensures kept { IfOk result (λ n. n ≡ moved self.old (length piece.now)) }
        ensures after { IfOk result (λ n. self.new ≡ after_move self.old (self.old.bytes ++ take n piece.now)) }
        ensures fault { OnErr result (self.new ≡ after_fault self.old) }
    {
        let count = self.most.min(piece.len());
        if self.calls.is_next_listed() || self.held.extend_from_slice(&piece[..count]).is_err() {
            self.calls.add_fault();
            return Err(Failed);
        }
        Ok(count)
    }
}

/// Bytes in memory whose reads never fail. Contracts see the bytes that are left.
#[derive(Debug, Drop)]
pub struct CalmSource {
    rest: Rest,
}

impl Model for CalmSource {
    ghost use Rattle.std.specs.Prelude.{ℕ, List};

    ghost Value = { List ℕ };

    ghost view = { λ source. source.rest };
}

impl CalmSource {
    /// A source of these bytes.
    pub fn new(bytes: Vec<u8>) -> CalmSource
        ensures { result ≡ bytes.items }
    {
        CalmSource {
            rest: Rest::new(bytes),
        }
    }
}

impl Source for CalmSource {
    ghost use Rattle.std.specs.Prelude.{Some};

    ghost left = { λ source. Some source };

    ghost faults = { λ _. 0 };

    /// Gives as many bytes as are left and fit.
    fn read(&mut self, buffer: &mut [u8]) -> Result<usize, Failed>
        ensures within { IfOk result (λ n. n ≤ length buffer.old) }
        ensures taken { IfOk result (λ n. self.old ≡ take n buffer.new ++ self.new) }
        ensures end { result ≡ Ok 0 → 0 < length buffer.old → self.old ≡ [] }
        ensures given { result ≡ Ok (min (length buffer.old) (length self.old)) }
        ensures after { IfOk result (λ n. self.new ≡ drop n self.old) }
    {
        let room = buffer.len();
        Ok(self.rest.give(buffer, room))
    }
}

/// A sink in memory whose writes never fail: where memory is lacking, it lets all its bytes go and
/// counts on, so what it has taken isn't told to its trait. Contracts see the bytes, or `None` then.
#[derive(Debug, Drop)]
pub struct CalmSink {
    held: Vec<u8>,
    whole: bool,
}

impl Model for CalmSink {
    ghost use Rattle.std.specs.Prelude.{ℕ, List, Option, Some, None, if◌then◌else◌};

    ghost Value = { Option (List ℕ) };

    ghost view = { λ sink. if sink.whole then Some sink.held.items else None };
}

impl CalmSink {
    /// An empty sink.
    pub fn new(alloc: Global) -> CalmSink
        ensures { result ≡ Some [] }
    {
        CalmSink {
            held: Vec::new(alloc),
            whole: true,
        }
    }

    /// The bytes that were taken, in order; `None` where memory for them ran out.
    pub fn bytes(&self) -> Option<&[u8]>
        ensures { option_map (λ bytes. bytes.now) result ≡ self.now }
    {
        if self.whole {
            Some(self.held.as_slice())
        } else {
            None
        }
    }
}

impl Sink for CalmSink {
    ghost use Rattle.std.specs.Prelude.{None};

    ghost taken = { λ _. None };

    ghost faults = { λ _. 0 };

    /// Takes the whole piece.
    fn write(&mut self, piece: &[u8]) -> Result<usize, Failed>
        ensures within { IfOk result (λ n. n ≤ length piece.now) }
        ensures some { IfOk result (λ n. 0 < length piece.now → 0 < n) }
        ensures all { result ≡ Ok (length piece.now) }
        ensures kept { IfSome self.new (λ held. option_map (λ before. before ++ piece.now) self.old ≡ Some held) }
    {
        if self.whole && self.held.extend_from_slice(piece).is_err() {
            self.whole = false;
        }
        Ok(piece.len())
    }
}

#[cfg(test)]
mod tests {
    use super::*;
    use std::test::*;

    #[test]
    fn a_source_fails_at_the_listed_call_alone(rt: HostRuntime) -> Result<(), Fail> {
        let bytes = Vec::from_slice(rt.alloc(), b"abcde")?;
        let failing = Vec::from_slice(rt.alloc(), &[2])?;
        let mut source = MemorySource::new(bytes, failing, 2);
        let mut buffer = [0; 3];
        let mut given = Vec::new(rt.alloc());
        let rows = [
            (Ok(2), 0),
            (Err(Failed), 1),
            (Ok(2), 1),
            (Ok(1), 1),
            (Ok(0), 1),
        ];
        for (answer, faults) in rows {
            let read = source.read(&mut buffer);
            assert_eq!(rt; read, answer);
            assert_eq!(rt; source.faults(), faults);
            if let Ok(count) = read {
                given.extend_from_slice(&buffer[..count])?;
            }
        }
        assert_eq!(rt; given.as_slice(), b"abcde".as_slice());
        Ok(())
    }

    #[test]
    fn a_sink_fails_at_the_listed_call_alone(rt: HostRuntime) -> Result<(), Fail> {
        let failing = Vec::from_slice(rt.alloc(), &[3])?;
        let mut sink = MemorySink::new(rt.alloc(), failing, 1);
        assert_eq!(rt; sink.write(b"xyz"), Ok(1));
        assert_eq!(rt; sink.write(b"yz"), Ok(1));
        assert_eq!(rt; sink.write(b"z"), Err(Failed));
        assert_eq!(rt; sink.bytes(), b"xy".as_slice());
        assert_eq!(rt; sink.faults(), 1);
        assert_eq!(rt; sink.write(b"z"), Ok(1));
        assert_eq!(rt; sink.bytes(), b"xyz".as_slice());
        Ok(())
    }

    #[test]
    fn calm_streams_move_all(rt: HostRuntime) -> Result<(), Fail> {
        let mut source = CalmSource::new(Vec::from_slice(rt.alloc(), b"abc")?);
        let mut sink = CalmSink::new(rt.alloc());
        let mut buffer = [0; 2];
        for answer in [2, 1, 0] {
            let count = source.read(&mut buffer).unwrap_or(0);
            assert_eq!(rt; count, answer);
            assert_eq!(rt; sink.write(&buffer[..count.min(2)]), Ok(answer));
        }
        assert_eq!(rt; sink.bytes(), Some(b"abc".as_slice()));
        Ok(())
    }
}
