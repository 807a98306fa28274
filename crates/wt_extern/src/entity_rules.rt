//! Which data of imports and exports are an external type of an engine: the conditions of `ExternType::from_entity`, each
//! with its test.

ghost use Rattle.std.specs.Prelude.{◌≡◌, ◌↔◌, IsTrue};
ghost use Rattle.wt_tree.specs.Kinds.{kinded_heap, kinded_val, indices_of};
ghost use Rattle.wt_heap.specs.Engines as engines;
ghost use Rattle.wt_heap.specs.Engines.{AreEngineIndices};
ghost use Rattle.wt_extern.specs.EntityRules as rules;
ghost use Rattle.wt_extern.specs.EntityRules.{entity_indices};

use crate::entity::{EntityType, IndexType, Limits, Table};
use crate::memory_type::MemoryType;
use wt_env::types::{EngineOrModuleTypeIndex, WasmHeapType, WasmValType};

/// Whether every type index in it is an engine index.
pub fn is_engine_entity(entity: &EntityType) -> bool
    ensures { IsTrue result ↔ AreEngineIndices (entity_indices entity.now) }
{
    match entity {
        EntityType::Function(index) => is_engine_index(index),
        EntityType::Global(global) => is_engine_val(&global.wasm_ty),
        EntityType::Table(table) => is_engine_heap(&table.ref_type.heap_type),
        EntityType::Memory(_) => true,
        EntityType::Tag(tag) => is_engine_index(&tag.signature),
    }
}

/// Whether `MemoryTypeBuilder::build` accepts what it says of a memory. So it is of all that is no memory.
pub fn has_memory_type(entity: &EntityType) -> bool
    ensures { result ≡ rules.has_memory_type entity.now }
{
    match entity {
        EntityType::Memory(memory) => MemoryType::accepts(memory),
        _ => true,
    }
}

/// Whether a table's limits are ones that a table can have (WebAssembly 3.0, "Limits"). So it is of all that is no table.
pub fn obeys_limits(entity: &EntityType) -> bool
    ensures { result ≡ rules.obeys_limits entity.now }
{
    match entity {
        EntityType::Table(table) => table_obeys_limits(table),
        _ => true,
    }
}

/// Whether the maximum, if there is one, isn't below the minimum, and where addresses have 32 bits neither is above
/// 2^32 - 1 (WebAssembly 3.0, "Limits").
pub fn table_obeys_limits(table: &Table) -> bool
    ensures { result ≡ rules.table_obeys_limits table.now }
{
    !has_low_maximum(&table.limits)
        && (table.idx_type == IndexType::I64 || !has_large_limits(&table.limits))
}

/// Whether the maximum is below the minimum.
fn has_low_maximum(limits: &Limits) -> bool
    ensures { result ≡ rules.has_low_maximum limits.now }
{
    limits.max.is_some_and(|max| max < limits.min)
}

/// Whether the minimum or the maximum is above 2^32 - 1.
fn has_large_limits(limits: &Limits) -> bool
    ensures { result ≡ rules.has_large_limits limits.now }
{
    let greatest = u32::MAX as u64;
    limits.min > greatest || limits.max.is_some_and(|max| max > greatest)
}

fn is_engine_index(index: &EngineOrModuleTypeIndex) -> bool
    ensures { IsTrue result ↔ engines.IsEngineIndex index.now }
{
    matches!(index, EngineOrModuleTypeIndex::Engine(_))
}

/// Whether what a value type names, if anything, is named by an engine index.
fn is_engine_val(val: &WasmValType) -> bool
    ensures { IsTrue result ↔ AreEngineIndices (indices_of (kinded_val val.now)) }
{
    match val {
        WasmValType::Ref(reference) => is_engine_heap(&reference.heap_type),
        _ => true,
    }
}

/// Whether what a heap type names, if anything, is named by an engine index.
fn is_engine_heap(heap: &WasmHeapType) -> bool
    ensures { IsTrue result ↔ AreEngineIndices (indices_of (kinded_heap heap.now)) }
{
    match heap {
        WasmHeapType::ConcreteFunc(index)
        | WasmHeapType::ConcreteArray(index)
        | WasmHeapType::ConcreteStruct(index)
        | WasmHeapType::ConcreteExn(index)
        | WasmHeapType::ConcreteCont(index) => is_engine_index(index),
        _ => true,
    }
}
