//! Table types: what the elements are, how they are addressed, and how many there are. Sizes are in elements.

ghost use Rattle.std.specs.Prelude.{◌≡◌, IsTrue, IsFalse};
ghost use Rattle.wt_tree.specs.Kinds.{kinded_heap, indices_of};
ghost use Rattle.wt_heap.specs.Engines.{ref_engine, IsOfEngine, AreEngineIndices};
ghost use Rattle.wt_extern.specs.declared.table_type.TableType.{TableType as Typed};
ghost use Rattle.wt_extern.specs.Entities.{table_to_wasm};

use crate::entity::{IndexType, Limits, Table};
use wt_heap::ref_type::RefType;

/// The type of a table (WebAssembly 3.0, "Table Types"). Its minimum may be above its maximum: no table is of such a
/// type.
///
/// `==` compares contents.
#[derive(Clone, Copy, Debug, PartialEq, Eq, Hash)]
pub struct TableType {
    element: RefType,
    is_64: bool,
    minimum: u64,
    maximum: Option<u64>,
}

impl TableType {
    /// The type of tables with elements of this type, addressed by 32 bits, from this many elements to this many, or
    /// without a bound.
    pub fn new(element: RefType, min: u32, max: Option<u32>) -> TableType
        ensures element { result.element ≡ element }
        ensures is_64 { IsFalse result.is_64 }
        ensures minimum { result.minimum ≡ min }
        ensures maximum { result.maximum ≡ max }
    {
        TableType {
            element,
            is_64: false,
            minimum: min as u64,
            maximum: max.map(|max| max as u64),
        }
    }

    /// The same, addressed by 64 bits.
    pub fn new64(element: RefType, min: u64, max: Option<u64>) -> TableType
        ensures element { result.element ≡ element }
        ensures is_64 { IsTrue result.is_64 }
        ensures minimum { result.minimum ≡ min }
        ensures maximum { result.maximum ≡ max }
    {
        TableType {
            element,
            is_64: true,
            minimum: min,
            maximum: max,
        }
    }

    /// Whether it is addressed by 64 bits, and not 32.
    pub fn is_64(&self) -> bool
        ensures { result ≡ self.now.is_64 }
    {
        self.is_64
    }

    /// The type of the table's elements.
    pub fn element(&self) -> &RefType
        ensures { result.now ≡ self.now.element }
    {
        &self.element
    }

    /// The least number of elements.
    pub fn minimum(&self) -> u64
        ensures { result ≡ self.now.minimum }
    {
        self.minimum
    }

    /// The greatest number of elements, if there is one.
    pub fn maximum(&self) -> Option<u64>
        ensures { result ≡ self.now.maximum }
    {
        self.maximum
    }

    /// The same as data, with a registered type by its index.
    pub fn to_wasm(&self) -> Table
        ensures { result ≡ table_to_wasm self.now }
    {
        Table {
            ref_type: self.element.to_wasm(),
            idx_type: IndexType::new(self.is_64),
            limits: Limits {
                min: self.minimum,
                max: self.maximum,
            },
        }
    }

    /// The type that is this data, where the registered type that it names, if any, is one of the engine with this
    /// number. Its index is an engine index.
    pub fn from_wasm(engine: u64, table: &Table) -> TableType
        requires { AreEngineIndices (indices_of (kinded_heap table.now.ref_type.heap_type)) }
        ensures wasm { table_to_wasm result ≡ table.now }
        ensures engine { IsOfEngine engine (ref_engine result.element) }
        ensures only { (t : Typed) → table_to_wasm t ≡ table.now → IsOfEngine engine (ref_engine t.element) → result ≡ t }
    {
        TableType {
            element: RefType::from_wasm(engine, &table.ref_type),
            is_64: table.idx_type.is_64(),
            minimum: table.limits.min,
            maximum: table.limits.max,
        }
    }
}
