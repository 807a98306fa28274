//! The types of a module, as a decoder would make them.

ghost use Rattle.std.specs.Prelude.{◌≡◌, [], ◌∷◌, IfOk};
ghost use Rattle.wt_registry.specs.Rules.{AreCountable, AreModuleTypes, total_members};
ghost use Rattle.wt_tree.specs.Kinds.{type_indices};

use std::alloc::Global;
use wt_env::memory::OutOfMemory;
use wt_env::seq::Seq;
use wt_env::types::{
    EngineOrModuleTypeIndex, ModuleInternedTypeIndex, ModuleTypes, WasmCompositeInnerType,
    WasmFieldType, WasmHeapType, WasmRecGroup, WasmRefType, WasmStorageType, WasmStructType,
    WasmSubType, WasmValType,
};

/// A final struct of one field, which refers to the struct of the module that has this index.
fn structure(alloc: Global, index: u32) -> Result<WasmSubType, OutOfMemory>
    ensures { IfOk result (λ ty. type_indices ty ≡ EngineOrModuleTypeIndex.Module (record { 0 = index }) ∷ []) }
{
    let other = EngineOrModuleTypeIndex::Module(ModuleInternedTypeIndex(index));
    let field = WasmFieldType {
        element_type: WasmStorageType::Val(WasmValType::Ref(WasmRefType {
            nullable: true,
            heap_type: WasmHeapType::ConcreteStruct(other),
        })),
        mutable: true,
    };
    Ok(WasmSubType {
        is_final: true,
        supertype: None,
        composite_type: WasmCompositeInnerType::Struct(WasmStructType {
            fields: Seq::one(alloc, field)?,
        }),
    })
}

/// A module of one group: two structs that refer to each other.
pub(crate) fn mutual_structs(alloc: Global) -> Result<ModuleTypes, OutOfMemory>
    ensures members { IfOk result (λ types. total_members types.groups ≡ 2) }
    ensures countable { IfOk result (λ types. AreCountable types.groups) }
    ensures named { IfOk result (λ types. AreModuleTypes types.groups) }
{
    let mut types = Seq::one(alloc, structure(alloc, 1)?)?;
    types.push(structure(alloc, 0)?)?;
    Ok(ModuleTypes {
        groups: Seq::one(alloc, WasmRecGroup { types })?,
    })
}
