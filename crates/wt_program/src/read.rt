//! Reading all of a source, up to the greatest length of an input.

ghost use Rattle.std.specs.Prelude.{◌≡◌, ◌≢◌, ℕ, ◌+◌, ◌^◌, ◌<◌, ◌≤◌, List, ◌++◌, length, Ok, Err, true, false, IfOk, OnOk};
ghost use Rattle.wt_env.specs.Stream.{IsTaken, IsAtEnd, Rose};

use std::alloc::Global;
use wt_env::stream::Source;

/// The most bytes that are read: 2^24.
pub const LIMIT: usize = 16_777_216;

/// How many bytes are asked for at once.
const PIECE: usize = 4096;

/// Why not all was read.
#[derive(Clone, Copy, Debug, PartialEq, Eq)]
pub enum ReadRefusal {
    /// A read failed.
    Fault,
    /// More than 2^24 bytes came.
    TooLong,
    /// Memory ran out.
    OutOfMemory,
}

/// Reads once, and adds what was read. Answers whether there was any.
fn read_piece<S: Source>(
    source: &mut S,
    buffer: &mut [u8],
    bytes: &mut Vec<u8>,
) -> Result<bool, ReadRefusal>
    requires buffer { 0 < length buffer.old }
    requires short { length bytes.old.items ≤ 2 ^ 24 }
    ensures taken { (piece : List ℕ)
        × IsTaken piece (S.left source.old) (S.left source.new)
        × OnOk result (bytes.new.items ≡ bytes.old.items ++ piece)
        × (result ≢ Err ReadRefusal.TooLong → length bytes.old.items + length piece ≤ 2 ^ 24)
        × (result ≡ Err ReadRefusal.TooLong → 2 ^ 24 < length bytes.old.items + length piece) }
    ensures more { result ≡ Ok true → length bytes.old.items < length bytes.new.items }
    ensures end { result ≡ Ok false → IsAtEnd (S.left source.new) }
    ensures fault { result ≡ Err ReadRefusal.Fault → Rose (S.faults source.old) (S.faults source.new) }
    ensures count { S.faults source.old ≤ S.faults source.new }
{
    let Ok(n) = source.read(buffer) else {
        return Err(ReadRefusal::Fault);
    };
    if n == 0 {
        return Ok(false);
    }
    if n > LIMIT - bytes.len() {
        return Err(ReadRefusal::TooLong);
    }
    match bytes.extend_from_slice(&buffer[..n]) {
        Ok(()) => Ok(true),
        Err(_) => Err(ReadRefusal::OutOfMemory),
    }
}

/// Reads until the end of the source, at most 2^24 bytes.
pub fn read_all<S: Source>(alloc: Global, source: &mut S) -> Result<Vec<u8>, ReadRefusal>
    ensures ok { IfOk result (λ bytes. IsTaken bytes.items (S.left source.old) (S.left source.new)) }
    ensures at_end { OnOk result (IsAtEnd (S.left source.new)) }
    ensures within { IfOk result (λ bytes. length bytes.items ≤ 2 ^ 24) }
    ensures fault { result ≡ Err ReadRefusal.Fault → Rose (S.faults source.old) (S.faults source.new) }
    ensures too_long { result ≡ Err ReadRefusal.TooLong → ((bytes : List ℕ) × IsTaken bytes (S.left source.old) (S.left source.new) × (2 ^ 24 < length bytes)) }
    ensures any { (bytes : List ℕ) × IsTaken bytes (S.left source.old) (S.left source.new) × (result ≢ Err ReadRefusal.TooLong → length bytes ≤ 2 ^ 24) }
    ensures count { S.faults source.old ≤ S.faults source.new }
{
    let mut buffer = [0u8; PIECE];
    let mut bytes = Vec::new(alloc);
    while read_piece(source, &mut buffer, &mut bytes)? {}
    Ok(bytes)
}

#[cfg(test)]
mod tests {
    use super::*;
    use std::test::Fail;
    use wt_env::stream::Failed;

    // so many bytes are left, all the same
    #[derive(Drop)]
    struct Same {
        rest: usize,
    }

    impl Source for Same {
        ghost use Rattle.std.specs.Prelude.{None};

        ghost left = { λ _. None };

        ghost faults = { λ _. 0 };

        fn read(&mut self, buffer: &mut [u8]) -> Result<usize, Failed> {
            let n = buffer.len().min(self.rest);
            for byte in buffer[..n].iter_mut() {
                *byte = b'a';
            }
            self.rest -= n;
            Ok(n)
        }
    }

    #[test]
    fn reads_to_the_end_or_the_limit(rt: HostRuntime) -> Result<(), Fail> {
        for (length, whole) in [(0, true), (5000, true), (LIMIT, true), (LIMIT + 1, false)] {
            let mut source = Same { rest: length };
            match read_all(rt.alloc(), &mut source) {
                Ok(bytes) => assert!(rt; whole && bytes.len() == length, "at {length}"),
                Err(refusal) => {
                    assert!(rt; !whole, "at {length}");
                    assert_eq!(rt; refusal, ReadRefusal::TooLong);
                }
            }
        }
        Ok(())
    }
}
