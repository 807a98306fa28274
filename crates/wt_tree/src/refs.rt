//! The references that leave a group, in order of occurrence: the supertype of a member first, then its
//! shape from left to right.

ghost use Rattle.std.specs.Prelude.{◌≡◌, ◌++◌, IfOk, OnOk};
ghost use Rattle.wt_tree.specs.References.{index_refs, heap_refs, val_refs, vals_refs, storage_refs, fields_refs, shape_refs, super_refs, sub_refs, group_refs};

use std::alloc::Global;
use wt_env::memory::OutOfMemory;
use wt_env::seq::Seq;
use wt_env::types::{
    EngineOrModuleTypeIndex, WasmCompositeInnerType, WasmFieldType, WasmHeapType, WasmStorageType,
    WasmSubType, WasmValType,
};

fn push_index(
    refs: &mut Seq<EngineOrModuleTypeIndex>,
    index: EngineOrModuleTypeIndex,
) -> Result<(), OutOfMemory>
    ensures { OnOk result (refs.new ≡ refs.old ++ index_refs index) }
{
    match index {
        EngineOrModuleTypeIndex::RecGroup(_) => Ok(()),
        _ => refs.push(index),
    }
}

fn push_heap(refs: &mut Seq<EngineOrModuleTypeIndex>, heap: WasmHeapType) -> Result<(), OutOfMemory>
    ensures { OnOk result (refs.new ≡ refs.old ++ heap_refs heap) }
{
    match heap {
        WasmHeapType::ConcreteFunc(i)
        | WasmHeapType::ConcreteArray(i)
        | WasmHeapType::ConcreteStruct(i)
        | WasmHeapType::ConcreteExn(i)
        | WasmHeapType::ConcreteCont(i) => push_index(refs, i),
        _ => Ok(()),
    }
}

fn push_val(refs: &mut Seq<EngineOrModuleTypeIndex>, ty: &WasmValType) -> Result<(), OutOfMemory>
    ensures { OnOk result (refs.new ≡ refs.old ++ val_refs ty.now) }
{
    match ty {
        WasmValType::Ref(reference) => push_heap(refs, reference.heap_type),
        _ => Ok(()),
    }
}

fn push_vals(
    refs: &mut Seq<EngineOrModuleTypeIndex>,
    types: &[WasmValType],
) -> Result<(), OutOfMemory>
    ensures { OnOk result (refs.new ≡ refs.old ++ vals_refs types.now) }
{
    for ty in types {
        push_val(refs, ty)?;
    }
    Ok(())
}

fn push_field(
    refs: &mut Seq<EngineOrModuleTypeIndex>,
    field: &WasmFieldType,
) -> Result<(), OutOfMemory>
    ensures { OnOk result (refs.new ≡ refs.old ++ storage_refs field.now.element_type) }
{
    match &field.element_type {
        WasmStorageType::Val(value) => push_val(refs, value),
        _ => Ok(()),
    }
}

fn push_fields(
    refs: &mut Seq<EngineOrModuleTypeIndex>,
    fields: &[WasmFieldType],
) -> Result<(), OutOfMemory>
    ensures { OnOk result (refs.new ≡ refs.old ++ fields_refs fields.now) }
{
    for field in fields {
        push_field(refs, field)?;
    }
    Ok(())
}

fn push_shape(
    refs: &mut Seq<EngineOrModuleTypeIndex>,
    shape: &WasmCompositeInnerType,
) -> Result<(), OutOfMemory>
    ensures { OnOk result (refs.new ≡ refs.old ++ shape_refs shape.now) }
{
    match shape {
        WasmCompositeInnerType::Func(func) => {
            push_vals(refs, func.params.as_slice())?;
            push_vals(refs, func.results.as_slice())
        }
        WasmCompositeInnerType::Struct(fields) => push_fields(refs, fields.fields.as_slice()),
        WasmCompositeInnerType::Array(array) => push_field(refs, &array.0),
        WasmCompositeInnerType::Exn(exn) => {
            push_index(refs, exn.func_ty)?;
            push_fields(refs, exn.fields.as_slice())
        }
        WasmCompositeInnerType::Cont(cont) => push_index(refs, cont.0),
    }
}

fn push_sub(refs: &mut Seq<EngineOrModuleTypeIndex>, ty: &WasmSubType) -> Result<(), OutOfMemory>
    ensures { OnOk result (refs.new ≡ refs.old ++ sub_refs ty.now) }
{
    if let Some(index) = ty.supertype {
        push_index(refs, index)?;
    }
    push_shape(refs, &ty.composite_type)
}

/// The references that leave a group of these types, in order of occurrence. A reference to a member of the
/// group is none of them. The only error is want of memory.
pub fn leaving_refs(
    alloc: Global,
    types: &[WasmSubType],
) -> Result<Seq<EngineOrModuleTypeIndex>, OutOfMemory>
    ensures { IfOk result (λ refs. refs ≡ group_refs types.now) }
{
    let mut refs = Seq::new(alloc);
    for ty in types {
        push_sub(&mut refs, ty)?;
    }
    Ok(refs)
}
