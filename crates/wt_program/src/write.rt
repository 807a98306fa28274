//! Writing all of a text. It relies on a sink taking at least one byte of each piece that isn't empty.

ghost use Rattle.std.specs.Prelude.{ℕ, ◌≤◌, length, take, OnOk, OnErr};
ghost use Rattle.wt_env.specs.Stream.{IsAdded, Rose};

use wt_env::stream::{Failed, Sink};

/// Writes all the bytes, in as many pieces as the sink asks for. After `Failed` a front of them was
/// written.
pub fn write_all<K: Sink>(sink: &mut K, bytes: &[u8]) -> Result<(), Failed>
    ensures ok { OnOk result (IsAdded bytes.now (K.taken sink.old) (K.taken sink.new)) }
    ensures failed { OnErr result (Rose (K.faults sink.old) (K.faults sink.new)) }
    ensures prefix { OnErr result ((n : ℕ) × (n ≤ length bytes.now) × IsAdded (take n bytes.now) (K.taken sink.old) (K.taken sink.new)) }
    ensures count { K.faults sink.old ≤ K.faults sink.new }
{
    let mut written = 0;
    while written < bytes.len() {
        written += sink.write(&bytes[written..])?;
    }
    Ok(())
}

#[cfg(test)]
mod tests {
    use super::*;
    use std::test::Fail;

    // takes at most three bytes at once, and fails where there is no memory
    #[derive(Drop)]
    struct Slow {
        held: Vec<u8>,
    }

    impl Sink for Slow {
        ghost use Rattle.std.specs.Prelude.{◌^◌, None};

        ghost taken = { λ _. None };

        ghost faults = { λ _. 2 ^ 64 };

        fn write(&mut self, piece: &[u8]) -> Result<usize, Failed> {
            let n = piece.len().min(3);
            match self.held.extend_from_slice(&piece[..n]) {
                Ok(()) => Ok(n),
                Err(_) => Err(Failed),
            }
        }
    }

    #[test]
    fn writes_all_in_pieces(rt: HostRuntime) -> Result<(), Fail> {
        let mut sink = Slow {
            held: Vec::new(rt.alloc()),
        };
        assert_eq!(rt; write_all(&mut sink, b"abcdefgh"), Ok(()));
        assert_eq!(rt; sink.held.as_slice(), b"abcdefgh".as_slice());
        Ok(())
    }
}
