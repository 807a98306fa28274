//! Whether what is matched names known types alone: the condition of import checks, with a test of each.

ghost use Rattle.std.specs.Prelude.{◌↔◌, IsTrue, ◌∷◌, []};
ghost use Rattle.wt_tree.specs.Kinds.{kinded_heap, kinded_val, indices_of};
ghost use Rattle.wt_tree.specs.Fit.{IsKnown, AreKnown};
ghost use Rattle.wt_extern.specs.EntityRules.{entity_indices};
ghost use Rattle.wt_matching.specs.Import.{definition_indices};

use crate::definition::DefinitionType;
use wt_env::types::{EngineOrModuleTypeIndex, WasmHeapType, WasmValType};
use wt_extern::entity::EntityType;
use wt_tree::supers::Types;

/// Whether every type index in it is an engine index that has a closed tree.
#[tactic(auto, using(crate::proofs::KnownIndices::known_none))]
pub fn is_known_entity<T: Types>(types: &T, entity: &EntityType) -> bool
    ensures { IsTrue result ↔ AreKnown (T.types types.now) (entity_indices entity.now) }
{
    match entity {
        EntityType::Function(index) => is_known_alone(types, *index),
        EntityType::Global(global) => is_known_val(types, global.wasm_ty),
        EntityType::Table(table) => is_known_heap(types, table.ref_type.heap_type),
        EntityType::Memory(_) => true,
        EntityType::Tag(tag) => is_known_alone(types, tag.signature),
    }
}

/// Whether every type index in it is an engine index that has a closed tree.
#[tactic(auto, using(crate::proofs::KnownIndices::known_none))]
pub fn is_known_definition<T: Types>(types: &T, definition: &DefinitionType) -> bool
    ensures { IsTrue result ↔ AreKnown (T.types types.now) (definition_indices definition.now) }
{
    match definition {
        DefinitionType::Func(index) => {
            is_known_alone(types, EngineOrModuleTypeIndex::Engine(*index))
        }
        DefinitionType::Global(global) => is_known_val(types, global.wasm_ty),
        DefinitionType::Table(table, _) => is_known_heap(types, table.ref_type.heap_type),
        DefinitionType::Memory(_, _) => true,
        DefinitionType::Tag(tag) => is_known_alone(types, tag.signature),
    }
}

/// Whether what a value type names, if anything, is known.
#[tactic(auto, using(crate::proofs::KnownIndices::known_none))]
fn is_known_val<T: Types>(types: &T, val: WasmValType) -> bool
    ensures { IsTrue result ↔ AreKnown (T.types types.now) (indices_of (kinded_val val)) }
{
    match val {
        WasmValType::Ref(reference) => is_known_heap(types, reference.heap_type),
        _ => true,
    }
}

/// Whether what a heap type names, if anything, is known.
#[tactic(auto, using(crate::proofs::KnownIndices::known_none))]
fn is_known_heap<T: Types>(types: &T, heap: WasmHeapType) -> bool
    ensures { IsTrue result ↔ AreKnown (T.types types.now) (indices_of (kinded_heap heap)) }
{
    match heap {
        WasmHeapType::ConcreteFunc(index)
        | WasmHeapType::ConcreteArray(index)
        | WasmHeapType::ConcreteStruct(index)
        | WasmHeapType::ConcreteExn(index)
        | WasmHeapType::ConcreteCont(index) => is_known_alone(types, index),
        _ => true,
    }
}

/// Whether an index is known, as the only one of a list.
#[tactic(auto, using(crate::proofs::KnownIndices::both_ways))]
fn is_known_alone<T: Types>(types: &T, index: EngineOrModuleTypeIndex) -> bool
    ensures { IsTrue result ↔ AreKnown (T.types types.now) (index ∷ []) }
{
    is_known(types, index)
}

fn is_known<T: Types>(types: &T, index: EngineOrModuleTypeIndex) -> bool
    ensures { IsTrue result ↔ IsKnown (T.types types.now) index }
{
    match index {
        EngineOrModuleTypeIndex::Engine(index) => types.borrow(index).is_some(),
        _ => false,
    }
}
