//! Memory types and their builder. Sizes are in pages; a memory type is settings which `build` accepts.

ghost use Rattle.std.specs.Prelude.{◌≡◌, ◌^◌, ◌<◌, ◌&&◌, IsTrue, SomeIff, Some, None, true};
ghost use Rattle.wt_extern.specs.Entities.{memory_to_wasm};
ghost use Rattle.wt_extern.specs.EntityRules.{memory_settings, is_memory};
ghost use Rattle.wt_extern.specs.Memory.{first_settings, some_is, byte_size, fits_u64, passes_32_bits, has_maximum_below_minimum, has_page_size, size_refusal, memory_refusal, build};

use crate::entity::{IndexType, Limits, Memory};
use crate::memory_refusal::MemoryRefusal;
use std::marker::Model;

/// The bytes that 32 bits address.
const BYTES_OF_32_BITS: u64 = 1 << 32;

/// The settings of a memory type. Any settings may stand here; `build` tells whether they are a memory
/// type (WebAssembly 3.0, "Memory Types"; page sizes and sharing after wasmtime).
#[derive(Clone, Copy, Debug, PartialEq, Eq, Hash)]
pub struct MemoryTypeBuilder {
    minimum: u64,
    maximum: Option<u64>,
    is_64: bool,
    is_shared: bool,
    page_size_log2: u8,
}

impl Model for MemoryTypeBuilder {
    ghost use Rattle.wt_extern.specs.Memory.{MemorySettings};

    ghost Value = { MemorySettings };

    ghost view = { λ memory. record { minimum = memory.minimum; maximum = memory.maximum; is_64 = memory.is_64; is_shared = memory.is_shared; page_size_log2 = memory.page_size_log2 } };

    ghost inverse = { λ memory. record { minimum = memory.minimum; maximum = memory.maximum; is_64 = memory.is_64; is_shared = memory.is_shared; page_size_log2 = memory.page_size_log2 } };
}

impl Default for MemoryTypeBuilder {
    ghost use Rattle.std.specs.Prelude.{◌≡◌};
    ghost use Rattle.wt_extern.specs.Memory.{first_settings};

    ghost is_default = { λ memory. memory ≡ first_settings };

    fn default() -> MemoryTypeBuilder {
        MemoryTypeBuilder::new()
    }
}

impl MemoryTypeBuilder {
    /// The settings of a 32-bit, unshared memory of at least 0 pages, with no maximum and pages of 2^16
    /// bytes.
    pub fn new() -> MemoryTypeBuilder
        ensures { result ≡ first_settings }
    {
        MemoryTypeBuilder {
            minimum: 0,
            maximum: None,
            is_64: false,
            is_shared: false,
            page_size_log2: 16,
        }
    }

    /// Sets the minimum size, in pages.
    pub fn min(&mut self, minimum: u64) -> &mut Self
        ensures same { result.ghost_name ≡ self.entry.ghost_name }
        ensures set { result.now ≡ record (self.old) { minimum = minimum } }
    {
        self.minimum = minimum;
        self
    }

    /// Sets the maximum size, in pages, or none.
    pub fn max(&mut self, maximum: Option<u64>) -> &mut Self
        ensures same { result.ghost_name ≡ self.entry.ghost_name }
        ensures set { result.now ≡ record (self.old) { maximum = maximum } }
    {
        self.maximum = maximum;
        self
    }

    /// Sets whether addresses have 64 bits, and not 32.
    pub fn memory64(&mut self, memory64: bool) -> &mut Self
        ensures same { result.ghost_name ≡ self.entry.ghost_name }
        ensures set { result.now ≡ record (self.old) { is_64 = memory64 } }
    {
        self.is_64 = memory64;
        self
    }

    /// Sets whether threads share the memory.
    pub fn shared(&mut self, shared: bool) -> &mut Self
        ensures same { result.ghost_name ≡ self.entry.ghost_name }
        ensures set { result.now ≡ record (self.old) { is_shared = shared } }
    {
        self.is_shared = shared;
        self
    }

    /// Sets the logarithm to base 2 of the page size in bytes.
    pub fn page_size_log2(&mut self, page_size_log2: u8) -> &mut Self
        ensures same { result.ghost_name ≡ self.entry.ghost_name }
        ensures set { result.now ≡ record (self.old) { page_size_log2 = page_size_log2 } }
    {
        self.page_size_log2 = page_size_log2;
        self
    }

    /// The memory type of these settings. It is refused the first cause that holds, in the order of
    /// `MemoryRefusal`. Bytes are exact products of pages and page size. A maximum whose bytes are more
    /// than 2^64 - 1 is accepted.
    pub fn build(&self) -> Result<MemoryType, MemoryRefusal>
        ensures { result ≡ build self.now }
    {
        match self.refusal() {
            Some(refusal) => Err(refusal),
            None => Ok(MemoryType { settings: *self }),
        }
    }

    /// The first cause for which the settings are no memory type.
    fn refusal(&self) -> Option<MemoryRefusal>
        ensures { result ≡ memory_refusal self.now }
    {
        if self.has_maximum_below_minimum() {
            Some(MemoryRefusal::MaximumBelowMinimum)
        } else if !self.has_page_size() {
            Some(MemoryRefusal::PageSize(self.page_size_log2))
        } else if self.is_shared && self.maximum.is_none() {
            Some(MemoryRefusal::SharedWithoutMaximum)
        } else {
            self.size_refusal()
        }
    }

    fn has_maximum_below_minimum(&self) -> bool
        ensures { result ≡ has_maximum_below_minimum self.now }
    {
        self.maximum.is_some_and(|maximum| maximum < self.minimum)
    }

    fn has_page_size(&self) -> bool
        ensures { result ≡ has_page_size self.now }
    {
        self.page_size_log2 == 0 || self.page_size_log2 == 16
    }

    /// The first cause for which the bytes are too many.
    fn size_refusal(&self) -> Option<MemoryRefusal>
        requires { IsTrue (has_page_size self.now) }
        ensures { result ≡ size_refusal self.now }
    {
        let Some(minimum) = self.byte_size(self.minimum) else {
            return Some(MemoryRefusal::MinimumPastU64);
        };
        if !self.is_64 && minimum > BYTES_OF_32_BITS {
            return Some(MemoryRefusal::MinimumTooLarge);
        }
        if !self.is_64 && self.has_large_maximum() {
            return Some(MemoryRefusal::MaximumTooLarge);
        }
        None
    }

    /// Whether the maximum has more than 2^32 bytes, and no more than 2^64 - 1.
    fn has_large_maximum(&self) -> bool
        requires { IsTrue (has_page_size self.now) }
        ensures { result ≡ some_is self.now.maximum (λ pages. passes_32_bits self.now pages && fits_u64 self.now pages) }
    {
        let bytes = self.maximum.and_then(|pages| self.byte_size(pages));
        bytes.is_some_and(|bytes| bytes > BYTES_OF_32_BITS)
    }

    /// The bytes of so many pages, where these fit 64 bits.
    fn byte_size(&self, pages: u64) -> Option<u64>
        requires { IsTrue (has_page_size self.now) }
        ensures { SomeIff result (byte_size self.now pages < 2 ^ 64) (byte_size self.now pages) }
    {
        pages.checked_mul(page_size(self.page_size_log2))
    }
}

/// The bytes of a page by their logarithm to base 2.
fn page_size(page_size_log2: u8) -> u64
    requires { page_size_log2 < 64 }
    ensures { result ≡ 2 ^ page_size_log2 }
{
    1 << page_size_log2
}

/// A memory type (WebAssembly 3.0, "Memory Types"; page sizes and sharing after wasmtime): settings which
/// `MemoryTypeBuilder::build` accepts.
#[derive(Clone, Copy, Debug, PartialEq, Eq, Hash)]
pub struct MemoryType {
    settings: MemoryTypeBuilder,
}

impl Model for MemoryType {
    ghost use Rattle.std.specs.Prelude.{◌≡◌, None};
    ghost use Rattle.wt_extern.specs.Memory.{MemorySettings, memory_refusal};

    ghost Value = { MemorySettings };

    ghost view = { λ memory. memory.settings };

    ghost invariant = { λ memory. memory_refusal memory.settings ≡ None };

    ghost inverse = { λ settings. record { settings = settings } };
}

impl MemoryType {
    /// A 32-bit, unshared memory type with pages of 2^16 bytes, from these sizes in pages. It is refused as
    /// `MemoryTypeBuilder::build` says.
    pub fn new(minimum: u32, maximum: Option<u32>) -> Result<MemoryType, MemoryRefusal>
        ensures { result ≡ build (record first_settings { minimum = minimum; maximum = maximum }) }
    {
        MemoryTypeBuilder::new()
            .min(minimum as u64)
            .max(maximum.map(|maximum| maximum as u64))
            .build()
    }

    /// A 64-bit, unshared memory type with pages of 2^16 bytes, from these sizes in pages. It is refused as
    /// `MemoryTypeBuilder::build` says.
    pub fn new64(minimum: u64, maximum: Option<u64>) -> Result<MemoryType, MemoryRefusal>
        ensures { result ≡ build (record first_settings { minimum = minimum; maximum = maximum; is_64 = true }) }
    {
        MemoryTypeBuilder::new()
            .memory64(true)
            .min(minimum)
            .max(maximum)
            .build()
    }

    /// A 32-bit, shared memory type with pages of 2^16 bytes, from these sizes in pages. It is refused as
    /// `MemoryTypeBuilder::build` says.
    pub fn shared(minimum: u32, maximum: u32) -> Result<MemoryType, MemoryRefusal>
        ensures { result ≡ build (record first_settings { minimum = minimum; maximum = Some maximum; is_shared = true }) }
    {
        MemoryTypeBuilder::new()
            .shared(true)
            .min(minimum as u64)
            .max(Some(maximum as u64))
            .build()
    }

    /// A new builder.
    pub fn builder() -> MemoryTypeBuilder
        ensures { result ≡ first_settings }
    {
        MemoryTypeBuilder::new()
    }

    /// What is true of every memory type: `build` accepts its settings.
    pub fn tell_invariant(&self)
        ensures { memory_refusal self.now ≡ None }
    {
        let _ = &self.settings;
    }

    /// Whether its addresses have 64 bits, and not 32.
    pub fn is_64(&self) -> bool
        ensures { result ≡ self.now.is_64 }
    {
        self.settings.is_64
    }

    /// Whether threads share it.
    pub fn is_shared(&self) -> bool
        ensures { result ≡ self.now.is_shared }
    {
        self.settings.is_shared
    }

    /// Its minimum size, in pages.
    pub fn minimum(&self) -> u64
        ensures { result ≡ self.now.minimum }
    {
        self.settings.minimum
    }

    /// Its maximum size, in pages, if it has one.
    pub fn maximum(&self) -> Option<u64>
        ensures { result ≡ self.now.maximum }
    {
        self.settings.maximum
    }

    /// Its page size, in bytes.
    pub fn page_size(&self) -> u64
        ensures { result ≡ 2 ^ self.now.page_size_log2 }
    {
        page_size(self.settings.page_size_log2)
    }

    /// The logarithm to base 2 of its page size in bytes: 0 or 16.
    pub fn page_size_log2(&self) -> u8
        ensures { result ≡ self.now.page_size_log2 }
    {
        self.settings.page_size_log2
    }

    /// The same as data.
    pub fn to_wasm(&self) -> Memory
        ensures wasm { result ≡ memory_to_wasm self.now }
        ensures accepted { IsTrue (is_memory result) }
    {
        Memory {
            idx_type: IndexType::new(self.settings.is_64),
            limits: Limits {
                min: self.settings.minimum,
                max: self.settings.maximum,
            },
            shared: self.settings.is_shared,
            page_size_log2: self.settings.page_size_log2,
        }
    }

    /// The memory type that is this data, which `MemoryTypeBuilder::build` accepts.
    pub fn from_wasm(memory: &Memory) -> MemoryType
        requires { IsTrue (is_memory memory.now) }
        ensures settings { result ≡ memory_settings memory.now }
        ensures wasm { memory_to_wasm result ≡ memory.now }
    {
        MemoryType {
            settings: settings_of(memory),
        }
    }

    /// Whether `MemoryTypeBuilder::build` accepts this data.
    pub fn accepts(memory: &Memory) -> bool
        ensures { result ≡ is_memory memory.now }
    {
        settings_of(memory).refusal().is_none()
    }
}

/// What this data says of a memory, as a builder takes it.
fn settings_of(memory: &Memory) -> MemoryTypeBuilder
    ensures { result ≡ memory_settings memory.now }
{
    MemoryTypeBuilder {
        minimum: memory.limits.min,
        maximum: memory.limits.max,
        is_64: memory.idx_type.is_64(),
        is_shared: memory.shared,
        page_size_log2: memory.page_size_log2,
    }
}

#[cfg(test)]
mod tests;
