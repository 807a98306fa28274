//! The data of what a module imports and exports, as WebAssembly 3.0 has them (section "External Types"), with the names
//! of wasmtime's environment. Everything here is compared and hashed by its contents.

ghost use Rattle.std.specs.Prelude.{◌≡◌};
ghost use Rattle.wt_extern.specs.Entities.{index_type_of, has_64_bits};

use wt_env::types::{EngineOrModuleTypeIndex, WasmRefType, WasmValType};

/// How a table or a memory is addressed (WebAssembly 3.0, "Address Types").
#[derive(Clone, Copy, Debug, PartialEq, Eq, Hash)]
pub enum IndexType {
    /// By numbers of 32 bits.
    I32,
    /// By numbers of 64 bits.
    I64,
}

impl IndexType {
    /// By 64 bits, or else by 32.
    pub fn new(is_64: bool) -> IndexType
        ensures { result ≡ index_type_of is_64 }
    {
        if is_64 {
            IndexType::I64
        } else {
            IndexType::I32
        }
    }

    /// Whether it is by 64 bits, and not 32.
    pub fn is_64(&self) -> bool
        ensures { result ≡ has_64_bits self.now }
    {
        matches!(self, IndexType::I64)
    }
}

/// The least and the greatest size of a table, in elements, or of a memory, in pages (WebAssembly 3.0, "Limits").
#[derive(Clone, Copy, Debug, PartialEq, Eq, Hash)]
pub struct Limits {
    pub min: u64,
    /// None where nothing bounds it.
    pub max: Option<u64>,
}

/// A global: the type of its value, and whether it can change (WebAssembly 3.0, "Global Types").
#[derive(Clone, Copy, Debug, PartialEq, Eq, Hash)]
pub struct Global {
    pub wasm_ty: WasmValType,
    pub mutability: bool,
}

/// A table: what its elements are, how it is addressed, and its size in elements (WebAssembly 3.0, "Table Types").
#[derive(Clone, Copy, Debug, PartialEq, Eq, Hash)]
pub struct Table {
    pub ref_type: WasmRefType,
    pub idx_type: IndexType,
    pub limits: Limits,
}

/// A memory: how it is addressed, its size in pages, whether threads share it, and the logarithm to base 2 of a page's
/// bytes (WebAssembly 3.0, "Memory Types"; page sizes and sharing after wasmtime).
#[derive(Clone, Copy, Debug, PartialEq, Eq, Hash)]
pub struct Memory {
    pub idx_type: IndexType,
    pub limits: Limits,
    pub shared: bool,
    pub page_size_log2: u8,
}

/// A tag: its function type (WebAssembly 3.0, "Tag Types").
#[derive(Clone, Copy, Debug, PartialEq, Eq, Hash)]
pub struct Tag {
    pub signature: EngineOrModuleTypeIndex,
}

/// What a module imports or exports (WebAssembly 3.0, "External Types").
#[derive(Clone, Copy, Debug, PartialEq, Eq, Hash)]
pub enum EntityType {
    /// A function, by its type.
    Function(EngineOrModuleTypeIndex),
    Global(Global),
    Table(Table),
    Memory(Memory),
    Tag(Tag),
}
