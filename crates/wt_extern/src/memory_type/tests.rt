//! Rows of settings that are a memory type and of settings that are none, by the standard's limits and the
//! order of causes after wasmtime; and each public call once.

use super::*;
use std::test::Fail;

/// Settings of a memory, as a row writes them.
#[derive(Clone, Copy)]
struct Row {
    minimum: u64,
    maximum: Option<u64>,
    memory64: bool,
    shared: bool,
    page_size_log2: u8,
}

/// A 32-bit, unshared memory with pages of 2^16 bytes.
fn narrow(minimum: u64, maximum: Option<u64>) -> Row {
    Row {
        minimum,
        maximum,
        memory64: false,
        shared: false,
        page_size_log2: 16,
    }
}

/// A 64-bit, unshared memory with pages of 2^16 bytes.
fn wide(minimum: u64, maximum: Option<u64>) -> Row {
    Row {
        memory64: true,
        ..narrow(minimum, maximum)
    }
}

/// The same with pages of so many bytes, by their logarithm.
fn paged(page_size_log2: u8, row: Row) -> Row {
    Row {
        page_size_log2,
        ..row
    }
}

/// The same, shared.
fn shared(row: Row) -> Row {
    Row {
        shared: true,
        ..row
    }
}

fn builder(row: Row) -> MemoryTypeBuilder {
    let mut builder = MemoryTypeBuilder::new();
    builder
        .min(row.minimum)
        .max(row.maximum)
        .memory64(row.memory64)
        .shared(row.shared)
        .page_size_log2(row.page_size_log2);
    builder
}

/// The sizes that the memory type of a row tells.
fn sizes(row: Row) -> Result<(u64, Option<u64>), MemoryRefusal> {
    let memory = builder(row).build()?;
    Ok((memory.minimum(), memory.maximum()))
}

#[test]
fn tells_each_cause(rt: HostRuntime) {
    let rows = [
        (narrow(2, Some(1)), MemoryRefusal::MaximumBelowMinimum),
        (paged(3, narrow(2, Some(2))), MemoryRefusal::PageSize(3)),
        (wide(1 << 48, None), MemoryRefusal::MinimumPastU64),
        (narrow(0, Some(65_537)), MemoryRefusal::MaximumTooLarge),
        (shared(narrow(0, None)), MemoryRefusal::SharedWithoutMaximum),
        (narrow(65_537, None), MemoryRefusal::MinimumTooLarge),
        (
            paged(0, narrow(0, Some((1 << 32) + 1))),
            MemoryRefusal::MaximumTooLarge,
        ),
        (
            paged(0, narrow((1 << 32) + 1, None)),
            MemoryRefusal::MinimumTooLarge,
        ),
        (paged(64, wide(0, None)), MemoryRefusal::PageSize(64)),
        (
            narrow(0, Some((1 << 48) - 1)),
            MemoryRefusal::MaximumTooLarge,
        ),
    ];
    for (row, cause) in rows {
        assert_eq!(rt; builder(row).build(), Err(cause));
    }
}

/// Of two causes that hold together, the first is told.
#[test]
fn tells_the_first_cause(rt: HostRuntime) {
    let rows = [
        (
            paged(3, narrow(2, Some(1))),
            MemoryRefusal::MaximumBelowMinimum,
        ),
        (
            shared(paged(1, narrow(0, None))),
            MemoryRefusal::PageSize(1),
        ),
        (
            shared(wide(1 << 48, None)),
            MemoryRefusal::SharedWithoutMaximum,
        ),
        (narrow(1 << 48, None), MemoryRefusal::MinimumPastU64),
        (narrow(65_537, Some(65_538)), MemoryRefusal::MinimumTooLarge),
    ];
    for (row, cause) in rows {
        assert_eq!(rt; builder(row).build(), Err(cause));
    }
}

/// Bounds that are just reached, and maximums whose bytes don't fit 64 bits.
#[test]
fn accepts_what_fits(rt: HostRuntime) {
    let rows = [
        narrow(0, None),
        narrow(1, Some(1)),
        narrow(65_536, Some(65_536)),
        paged(0, narrow(1 << 32, Some(1 << 32))),
        shared(narrow(65_536, Some(65_536))),
        wide((1 << 48) - 1, Some((1 << 48) - 1)),
        paged(0, wide(u64::MAX, Some(u64::MAX))),
        wide(65_537, Some(65_537)),
        narrow(0, Some(1 << 48)),
        narrow(0, Some(u64::MAX)),
        wide(0, Some(u64::MAX)),
    ];
    for row in rows {
        assert_eq!(rt; sizes(row), Ok((row.minimum, row.maximum)));
    }
}

#[test]
fn makes_memory_types(rt: HostRuntime) -> Result<(), Fail> {
    let narrow = MemoryType::new(1, Some(2))?;
    assert!(rt; !narrow.is_64() && !narrow.is_shared());
    assert_eq!(rt; narrow.minimum(), 1);
    assert_eq!(rt; narrow.maximum(), Some(2));
    assert_eq!(rt; narrow.page_size(), 65_536);
    assert_eq!(rt; narrow.page_size_log2(), 16);

    let wide = MemoryType::new64(65_537, None)?;
    assert!(rt; wide.is_64() && !wide.is_shared());
    assert_eq!(rt; wide.minimum(), 65_537);
    assert_eq!(rt; wide.maximum(), None);
    assert_eq!(rt; wide.page_size(), 65_536);

    let shared = MemoryType::shared(3, 4)?;
    assert!(rt; !shared.is_64() && shared.is_shared());
    assert_eq!(rt; shared.minimum(), 3);
    assert_eq!(rt; shared.maximum(), Some(4));

    let bytes = MemoryType::builder().page_size_log2(0).min(5).build()?;
    assert_eq!(rt; bytes.page_size(), 1);
    assert_eq!(rt; bytes.page_size_log2(), 0);
    assert_eq!(rt; bytes.minimum(), 5);
    Ok(())
}

#[test]
fn refuses_by_constructor(rt: HostRuntime) {
    assert_eq!(rt;
        MemoryType::new(2, Some(1)),
        Err(MemoryRefusal::MaximumBelowMinimum)
    );
    assert_eq!(rt;
        MemoryType::new(65_537, None),
        Err(MemoryRefusal::MinimumTooLarge)
    );
    assert_eq!(rt;
        MemoryType::new64(1 << 48, None),
        Err(MemoryRefusal::MinimumPastU64)
    );
    assert_eq!(rt;
        MemoryType::shared(0, 65_537),
        Err(MemoryRefusal::MaximumTooLarge)
    );
}

#[test]
fn compares_by_contents(rt: HostRuntime) -> Result<(), Fail> {
    let memory = MemoryType::new(1, Some(2))?;
    let built = MemoryTypeBuilder::default().min(1).max(Some(2)).build()?;
    assert_eq!(rt; memory, built);
    assert_eq!(rt; memory.clone()?, memory);
    assert!(rt; memory != MemoryType::new(1, None)?);
    assert!(rt; memory != MemoryType::shared(1, 2)?);
    assert!(rt; memory != MemoryType::new64(1, Some(2))?);
    assert_eq!(rt; MemoryTypeBuilder::default(), MemoryTypeBuilder::new());
    Ok(())
}
