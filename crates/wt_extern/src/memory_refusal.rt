//! Why settings are no memory type, and how that is told.

use std::error::Error;
use std::fmt;

/// Why settings are no memory type. Where several causes hold, the first in this order is told (after
/// wasmtime).
#[derive(Clone, Copy, Debug, PartialEq, Eq, Hash)]
pub enum MemoryRefusal {
    /// The maximum is below the minimum.
    MaximumBelowMinimum,
    /// The logarithm of the page size is neither 0 nor 16, but this.
    PageSize(u8),
    /// A shared memory has no maximum.
    SharedWithoutMaximum,
    /// The minimum has more than 2^64 - 1 bytes.
    MinimumPastU64,
    /// The minimum of a 32-bit memory has more than 2^32 bytes.
    MinimumTooLarge,
    /// The maximum of a 32-bit memory has more than 2^32 bytes, and no more than 2^64 - 1.
    MaximumTooLarge,
}

impl fmt::Display for MemoryRefusal {
    ghost use Rattle.std.specs.Prelude.{Some};
    ghost use Rattle.wt_extern.specs.MemoryText.{memory_refusal_text};

    ghost output = { λ refusal. Some (memory_refusal_text refusal) };

    fn fmt<W: fmt::Write>(&self, f: &mut fmt::Formatter<W>) -> fmt::Result {
        match self {
            MemoryRefusal::MaximumBelowMinimum => write!(
                f,
                "maximum page size cannot be smaller than the minimum page size"
            ),
            MemoryRefusal::PageSize(log2) => write!(
                f,
                "page size must be 2**16 or 2**0, but was given 2**{log2}; note that future Wasm extensions might allow any power of two page size, but only 2**16 and 2**0 are currently valid"
            ),
            MemoryRefusal::SharedWithoutMaximum => {
                write!(f, "shared memories must have a maximum size")
            }
            MemoryRefusal::MinimumPastU64 => {
                write!(f, "memory's minimum byte size must fit in a u64")
            }
            MemoryRefusal::MinimumTooLarge => write!(
                f,
                "minimum size is too large for this memory type's index type"
            ),
            MemoryRefusal::MaximumTooLarge => write!(
                f,
                "maximum size is too large for this memory type's index type"
            ),
        }
    }
}

impl Error for MemoryRefusal {}

#[cfg(test)]
mod tests {
    use super::*;
    use std::test::Fail;

    /// Each refusal with the text that wasmtime gives it.
    const ROWS: [(MemoryRefusal, &str); 7] = [
        (
            MemoryRefusal::MaximumBelowMinimum,
            "maximum page size cannot be smaller than the minimum page size",
        ),
        (
            MemoryRefusal::PageSize(3),
            "page size must be 2**16 or 2**0, but was given 2**3; note that future Wasm extensions might allow any power of two page size, but only 2**16 and 2**0 are currently valid",
        ),
        (
            MemoryRefusal::PageSize(255),
            "page size must be 2**16 or 2**0, but was given 2**255; note that future Wasm extensions might allow any power of two page size, but only 2**16 and 2**0 are currently valid",
        ),
        (
            MemoryRefusal::SharedWithoutMaximum,
            "shared memories must have a maximum size",
        ),
        (
            MemoryRefusal::MinimumPastU64,
            "memory's minimum byte size must fit in a u64",
        ),
        (
            MemoryRefusal::MinimumTooLarge,
            "minimum size is too large for this memory type's index type",
        ),
        (
            MemoryRefusal::MaximumTooLarge,
            "maximum size is too large for this memory type's index type",
        ),
    ];

    #[test]
    fn tells_each_text(rt: HostRuntime) -> Result<(), Fail> {
        for (refusal, text) in ROWS {
            let told = format!(in rt.alloc(); "{refusal}")?;
            assert_eq!(rt; told.as_str(), text);
        }
        Ok(())
    }
}
