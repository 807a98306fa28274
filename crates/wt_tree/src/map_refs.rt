//! A change of the references in a group, at every level of its data, and the change that makes a
//! module's group canonical.

ghost use Rattle.std.specs.Prelude.{◌≡◌, List, IfOk};
ghost use Rattle.wt_env.specs.declared.types.EngineOrModuleTypeIndex.{EngineOrModuleTypeIndex as Index};
ghost use Rattle.wt_tree.specs.MapRefs.{map_heap_refs as heap_over, map_val_refs as val_over, map_vals_refs as vals_over, map_storage_refs as storage_over, map_field_refs as field_over, map_fields_refs as fields_over, map_shape_refs as shape_over, map_sub_refs as sub_over, map_group_refs as group_over};
ghost use Rattle.wt_tree.specs.Canonical.{canonical_index as index_of};
ghost use Rattle.wt_env.specs.declared.types.EngineOrModuleTypeIndex.TheVariants as at;

use std::alloc::Global;
use wt_env::memory::OutOfMemory;
use wt_env::seq::Seq;
use wt_env::types::{
    EngineOrModuleTypeIndex, ModuleInternedTypeIndex, VMSharedTypeIndex, WasmArrayType,
    WasmCompositeInnerType, WasmContType, WasmExnType, WasmFieldType, WasmFuncType, WasmHeapType,
    WasmRefType, WasmStorageType, WasmStructType, WasmSubType, WasmValType,
};

/// A change of references.
pub trait IndexChange {
    ghost changed: { Self → Index → Index };

    /// What becomes of one reference.
    fn change(&self, index: EngineOrModuleTypeIndex) -> EngineOrModuleTypeIndex
        ensures { result ≡ changed self.now index };
}

fn map_heap_refs<C: IndexChange>(change: &C, heap: WasmHeapType) -> WasmHeapType
    ensures { result ≡ heap_over (C.changed change.now) heap }
{
    match heap {
        WasmHeapType::ConcreteFunc(i) => WasmHeapType::ConcreteFunc(change.change(i)),
        WasmHeapType::ConcreteArray(i) => WasmHeapType::ConcreteArray(change.change(i)),
        WasmHeapType::ConcreteStruct(i) => WasmHeapType::ConcreteStruct(change.change(i)),
        WasmHeapType::ConcreteExn(i) => WasmHeapType::ConcreteExn(change.change(i)),
        WasmHeapType::ConcreteCont(i) => WasmHeapType::ConcreteCont(change.change(i)),
        _ => heap,
    }
}

fn map_val_refs<C: IndexChange>(change: &C, ty: WasmValType) -> WasmValType
    ensures { result ≡ val_over (C.changed change.now) ty }
{
    match ty {
        WasmValType::Ref(reference) => WasmValType::Ref(WasmRefType {
            nullable: reference.nullable,
            heap_type: map_heap_refs(change, reference.heap_type),
        }),
        _ => ty,
    }
}

fn map_storage_refs<C: IndexChange>(change: &C, ty: WasmStorageType) -> WasmStorageType
    ensures { result ≡ storage_over (C.changed change.now) ty }
{
    match ty {
        WasmStorageType::Val(value) => WasmStorageType::Val(map_val_refs(change, value)),
        _ => ty,
    }
}

fn map_field_refs<C: IndexChange>(change: &C, field: WasmFieldType) -> WasmFieldType
    ensures { result ≡ field_over (C.changed change.now) field }
{
    WasmFieldType {
        element_type: map_storage_refs(change, field.element_type),
        mutable: field.mutable,
    }
}

fn map_vals_refs<C: IndexChange>(
    alloc: Global,
    change: &C,
    types: &[WasmValType],
) -> Result<Seq<WasmValType>, OutOfMemory>
    ensures { IfOk result (λ changed. changed ≡ vals_over (C.changed change.now) types.now) }
{
    let mut changed = Seq::new(alloc);
    for ty in types {
        changed.push(map_val_refs(change, *ty))?;
    }
    Ok(changed)
}

fn map_fields_refs<C: IndexChange>(
    alloc: Global,
    change: &C,
    fields: &[WasmFieldType],
) -> Result<Seq<WasmFieldType>, OutOfMemory>
    ensures { IfOk result (λ changed. changed ≡ fields_over (C.changed change.now) fields.now) }
{
    let mut changed = Seq::new(alloc);
    for field in fields {
        changed.push(map_field_refs(change, *field))?;
    }
    Ok(changed)
}

fn map_shape_refs<C: IndexChange>(
    alloc: Global,
    change: &C,
    shape: &WasmCompositeInnerType,
) -> Result<WasmCompositeInnerType, OutOfMemory>
    ensures { IfOk result (λ changed. changed ≡ shape_over (C.changed change.now) shape.now) }
{
    Ok(match shape {
        WasmCompositeInnerType::Func(func) => WasmCompositeInnerType::Func(WasmFuncType {
            params: map_vals_refs(alloc, change, func.params.as_slice())?,
            results: map_vals_refs(alloc, change, func.results.as_slice())?,
        }),
        WasmCompositeInnerType::Struct(fields) => WasmCompositeInnerType::Struct(WasmStructType {
            fields: map_fields_refs(alloc, change, fields.fields.as_slice())?,
        }),
        WasmCompositeInnerType::Array(array) => {
            WasmCompositeInnerType::Array(WasmArrayType(map_field_refs(change, array.0)))
        }
        WasmCompositeInnerType::Exn(exn) => WasmCompositeInnerType::Exn(WasmExnType {
            func_ty: change.change(exn.func_ty),
            fields: map_fields_refs(alloc, change, exn.fields.as_slice())?,
        }),
        WasmCompositeInnerType::Cont(cont) => {
            WasmCompositeInnerType::Cont(WasmContType(change.change(cont.0)))
        }
    })
}

fn map_sub_refs<C: IndexChange>(
    alloc: Global,
    change: &C,
    ty: &WasmSubType,
) -> Result<WasmSubType, OutOfMemory>
    ensures { IfOk result (λ changed. changed ≡ sub_over (C.changed change.now) ty.now) }
{
    let supertype = match ty.supertype {
        Some(index) => Some(change.change(index)),
        None => None,
    };
    Ok(WasmSubType {
        is_final: ty.is_final,
        supertype,
        composite_type: map_shape_refs(alloc, change, &ty.composite_type)?,
    })
}

/// The types of a group with each reference changed, at every level, supertypes included. The only error
/// is want of memory.
pub fn map_group_refs<C: IndexChange>(
    alloc: Global,
    change: &C,
    types: &[WasmSubType],
) -> Result<Seq<WasmSubType>, OutOfMemory>
    ensures { IfOk result (λ changed. changed ≡ group_over (C.changed change.now) types.now) }
{
    let mut changed = Seq::new(alloc);
    for ty in types {
        changed.push(map_sub_refs(alloc, change, ty)?)?;
    }
    Ok(changed)
}

/// The change that makes a module's group canonical.
#[derive(Clone, Copy)]
struct Canonical<'a> {
    /// The index of the group's first type in its module.
    start: u32,
    /// The engine index of each type of the module that is registered.
    known: &'a [VMSharedTypeIndex],
}

impl<'a> Canonical<'a> {
    fn of_module(&self, index: ModuleInternedTypeIndex) -> EngineOrModuleTypeIndex
        ensures { result ≡ index_of self.now.start self.now.known.now (at.Module index) }
    {
        if index.0 >= self.start {
            return EngineOrModuleTypeIndex::RecGroup(index.0 - self.start);
        }
        match self.known.get(index.0 as usize) {
            Some(engine) => EngineOrModuleTypeIndex::Engine(*engine),
            None => EngineOrModuleTypeIndex::Module(index),
        }
    }
}

impl<'a> IndexChange for Canonical<'a> {
    ghost changed = { λ canonical. index_of canonical.start canonical.known.now };

    fn change(&self, index: EngineOrModuleTypeIndex) -> EngineOrModuleTypeIndex {
        match index {
            EngineOrModuleTypeIndex::Module(index) => self.of_module(index),
            _ => index,
        }
    }
}

/// The types of a module's group in canonical form. `start` is the module's index of the first of them:
/// a reference from there on is to a type of the group, and becomes its place. `known` has the engine
/// index of each earlier type of the module, and a reference to one of them becomes that index; one that
/// it doesn't have stays as it is. The only error is want of memory.
pub fn canonical_group(
    alloc: Global,
    start: u32,
    known: &[VMSharedTypeIndex],
    types: &[WasmSubType],
) -> Result<Seq<WasmSubType>, OutOfMemory>
    ensures { IfOk result (λ canonical. canonical ≡ group_over (index_of start known.now) types.now) }
{
    map_group_refs(alloc, &Canonical { start, known }, types)
}

#[cfg(test)]
mod tests {
    use super::*;
    use std::test::Fail;

    fn reference(to: EngineOrModuleTypeIndex) -> WasmValType {
        WasmValType::Ref(WasmRefType {
            nullable: true,
            heap_type: WasmHeapType::ConcreteStruct(to),
        })
    }

    fn field(to: EngineOrModuleTypeIndex) -> WasmFieldType {
        WasmFieldType {
            element_type: WasmStorageType::Val(reference(to)),
            mutable: false,
        }
    }

    fn open(
        supertype: Option<EngineOrModuleTypeIndex>,
        shape: WasmCompositeInnerType,
    ) -> WasmSubType {
        WasmSubType {
            is_final: false,
            supertype,
            composite_type: shape,
        }
    }

    /// A struct, a function and an exception that refer to themselves and to two earlier types.
    fn group(
        alloc: Global,
        earlier: EngineOrModuleTypeIndex,
        supertype: EngineOrModuleTypeIndex,
        own: EngineOrModuleTypeIndex,
        function: EngineOrModuleTypeIndex,
    ) -> Result<Seq<WasmSubType>, OutOfMemory> {
        let mut fields = Seq::one(alloc, field(earlier))?;
        fields.push(field(own))?;
        let first = WasmCompositeInnerType::Struct(WasmStructType { fields });
        let second = WasmCompositeInnerType::Func(WasmFuncType {
            params: Seq::one(alloc, reference(own))?,
            results: Seq::one(alloc, WasmValType::I32)?,
        });
        let third = WasmCompositeInnerType::Exn(WasmExnType {
            func_ty: function,
            fields: Seq::one(alloc, field(earlier))?,
        });
        let mut types = Seq::one(alloc, open(Some(supertype), first))?;
        types.push(open(None, second))?;
        types.push(open(None, third))?;
        Ok(types)
    }

    fn of_module(index: u32) -> EngineOrModuleTypeIndex {
        EngineOrModuleTypeIndex::Module(ModuleInternedTypeIndex(index))
    }

    fn of_engine(index: u32) -> EngineOrModuleTypeIndex {
        EngineOrModuleTypeIndex::Engine(VMSharedTypeIndex(index))
    }

    #[test]
    fn earlier_types_become_engine_indices(rt: HostRuntime) -> Result<(), Fail> {
        let alloc = rt.alloc();
        let known = [VMSharedTypeIndex(7), VMSharedTypeIndex(9)];
        let types = group(
            alloc,
            of_module(0),
            of_module(1),
            of_module(2),
            of_module(3),
        )?;
        let canonical = canonical_group(alloc, 2, &known, types.as_slice())?;
        let expected = group(
            alloc,
            of_engine(7),
            of_engine(9),
            EngineOrModuleTypeIndex::RecGroup(0),
            EngineOrModuleTypeIndex::RecGroup(1),
        )?;
        assert!(rt; canonical == expected);
        assert!(rt; canonical != types);
        Ok(())
    }
}
