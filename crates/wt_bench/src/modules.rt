//! The modules that the works register.

use std::alloc::Global;
use wt_env::memory::OutOfMemory;
use wt_env::seq::Seq;
use wt_env::types::{
    EngineOrModuleTypeIndex, ModuleInternedTypeIndex, ModuleTypes, WasmCompositeInnerType,
    WasmFieldType, WasmHeapType, WasmRecGroup, WasmRefType, WasmStorageType, WasmStructType,
    WasmSubType, WasmValType,
};

/// The type of a module that has this index.
fn module_type(index: u32) -> EngineOrModuleTypeIndex {
    EngineOrModuleTypeIndex::Module(ModuleInternedTypeIndex(index))
}

/// A constant field that stores references to the struct with this index.
fn reference_to(index: u32) -> WasmFieldType {
    WasmFieldType {
        element_type: WasmStorageType::Val(WasmValType::Ref(WasmRefType {
            nullable: true,
            heap_type: WasmHeapType::ConcreteStruct(module_type(index)),
        })),
        mutable: false,
    }
}

/// The struct of these fields.
fn structure(is_final: bool, supertype: Option<u32>, fields: Seq<WasmFieldType>) -> WasmSubType {
    WasmSubType {
        is_final,
        supertype: supertype.map(module_type),
        composite_type: WasmCompositeInnerType::Struct(WasmStructType { fields }),
    }
}

/// So many groups of one struct: the first has no field, and each other one a reference to the one before.
pub(crate) fn chained_groups(alloc: Global, count: u32) -> Result<ModuleTypes, OutOfMemory> {
    let mut groups = Seq::new(alloc);
    for index in 0..count {
        let mut fields = Seq::new(alloc);
        if let Some(before) = index.checked_sub(1) {
            fields.push(reference_to(before))?;
        }
        groups.push(WasmRecGroup::alone(alloc, structure(true, None, fields))?)?;
    }
    Ok(ModuleTypes { groups })
}

/// So many structs without fields, each in a group of its own and below the one before.
pub(crate) fn chained_subtypes(alloc: Global, count: u32) -> Result<ModuleTypes, OutOfMemory> {
    let mut groups = Seq::new(alloc);
    for index in 0..count {
        let ty = structure(false, index.checked_sub(1), Seq::new(alloc));
        groups.push(WasmRecGroup::alone(alloc, ty)?)?;
    }
    Ok(ModuleTypes { groups })
}

/// A group of 8 structs that differs from those with other numbers: as many bytes as the number says in its first
/// fields, and a reference to a member of the group in each.
fn group_of_eight(alloc: Global, number: u32, first: u32) -> Result<WasmRecGroup, OutOfMemory> {
    let mut types = Seq::new(alloc);
    for member in 0..8u32 {
        let mut fields = Seq::new(alloc);
        for bit in 0..20u32 {
            fields.push(WasmFieldType {
                element_type: WasmStorageType::I8,
                mutable: number >> bit & 1 == 1,
            })?;
        }
        fields.push(reference_to(first.saturating_add(member)))?;
        types.push(structure(true, None, fields))?;
    }
    Ok(WasmRecGroup { types })
}

/// So many groups of 8 structs, of which no two are equal.
pub(crate) fn groups_of_eight(alloc: Global, count: u32) -> Result<ModuleTypes, OutOfMemory> {
    let mut groups = Seq::new(alloc);
    for number in 0..count {
        let first = number.saturating_mul(8);
        groups.push(group_of_eight(alloc, number, first)?)?;
    }
    Ok(ModuleTypes { groups })
}
