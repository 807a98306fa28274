//! The types that commands of the host describe, as core types over the registered types that the party's handles name.

ghost use Rattle.std.specs.Prelude.{◌≡◌, map, true, false, Some, IfOk};
ghost use Rattle.wt_env.specs.declared.types.Kind.TheVariants as kind;
ghost use Rattle.wt_rules.specs.HostTypes.{is_host_type};
ghost use Rattle.wt_model.specs.Indices.{closed_tree};
ghost use Rattle.wt_session.specs.HostTypes.{type_named, concrete_heap, heap_of, ref_of, val_of, storage_of, field_of, shape_of, index_of_named, sub_type_of, tag_of, is_missing};

use crate::handle::Handle;
use crate::named_types::type_named;
use std::alloc::{AllocError, Global};
use wt_commands::command::NamedType;
use wt_commands::host_type::{HostField, HostHeap, HostRef, HostShape, HostStorage, HostVal};
use wt_env::memory::OutOfMemory;
use wt_env::seq::Seq;
use wt_env::types::{
    EngineOrModuleTypeIndex, Kind, VMSharedTypeIndex, WasmArrayType, WasmCompositeInnerType,
    WasmFieldType, WasmFuncType, WasmHeapType, WasmRefType, WasmStorageType, WasmStructType,
    WasmSubType, WasmValType,
};
use wt_registry::registry::TypeRegistry;

/// The concrete heap type of the type with this index, which is of this kind.
fn concrete_heap(kind: Kind, index: VMSharedTypeIndex) -> WasmHeapType
    ensures { result ≡ concrete_heap kind index }
{
    let named = EngineOrModuleTypeIndex::Engine(index);
    match kind {
        Kind::Func => WasmHeapType::ConcreteFunc(named),
        Kind::Struct => WasmHeapType::ConcreteStruct(named),
        Kind::Array => WasmHeapType::ConcreteArray(named),
        Kind::Exn => WasmHeapType::ConcreteExn(named),
        Kind::Cont => WasmHeapType::ConcreteCont(named),
    }
}

/// A heap type; a name that is missing reads as `none`.
fn heap_type(registry: &TypeRegistry, row: &[Handle], heap: HostHeap) -> WasmHeapType
    ensures { result ≡ heap_of (type_named registry.now.made row.now) heap }
{
    match heap {
        HostHeap::Extern => WasmHeapType::Extern,
        HostHeap::NoExtern => WasmHeapType::NoExtern,
        HostHeap::Func => WasmHeapType::Func,
        HostHeap::NoFunc => WasmHeapType::NoFunc,
        HostHeap::Any => WasmHeapType::Any,
        HostHeap::Eq => WasmHeapType::Eq,
        HostHeap::I31 => WasmHeapType::I31,
        HostHeap::Array => WasmHeapType::Array,
        HostHeap::Struct => WasmHeapType::Struct,
        HostHeap::None => WasmHeapType::None,
        HostHeap::Cont => WasmHeapType::Cont,
        HostHeap::NoCont => WasmHeapType::NoCont,
        HostHeap::Exn => WasmHeapType::Exn,
        HostHeap::NoExn => WasmHeapType::NoExn,
        HostHeap::Named(name) => match type_named(registry, row, name) {
            Some((kind, index)) => concrete_heap(kind, index),
            None => WasmHeapType::None,
        },
    }
}

fn ref_type(registry: &TypeRegistry, row: &[Handle], reference: HostRef) -> WasmRefType
    ensures { result ≡ ref_of (type_named registry.now.made row.now) reference }
{
    WasmRefType {
        nullable: reference.nullable,
        heap_type: heap_type(registry, row, reference.heap),
    }
}

/// A value type.
pub(crate) fn val_type(registry: &TypeRegistry, row: &[Handle], val: HostVal) -> WasmValType
    ensures { result ≡ val_of (type_named registry.now.made row.now) val }
{
    match val {
        HostVal::I32 => WasmValType::I32,
        HostVal::I64 => WasmValType::I64,
        HostVal::F32 => WasmValType::F32,
        HostVal::F64 => WasmValType::F64,
        HostVal::V128 => WasmValType::V128,
        HostVal::Ref(reference) => WasmValType::Ref(ref_type(registry, row, reference)),
    }
}

fn all_val_types(
    alloc: Global,
    registry: &TypeRegistry,
    row: &[Handle],
    vals: &[HostVal],
) -> Result<Vec<WasmValType>, AllocError>
    ensures { IfOk result (λ types. types.items ≡ map (val_of (type_named registry.now.made row.now)) vals.now) }
{
    vals.iter()
        .map(|val| val_type(registry, row, *val))
        .collect(alloc)
}

/// Value types, in order.
pub(crate) fn val_types(
    alloc: Global,
    registry: &TypeRegistry,
    row: &[Handle],
    vals: &[HostVal],
) -> Result<Seq<WasmValType>, OutOfMemory>
    ensures { IfOk result (λ types. types ≡ map (val_of (type_named registry.now.made row.now)) vals.now) }
{
    Ok(Seq::from_vec(all_val_types(alloc, registry, row, vals)?))
}

fn storage_type(registry: &TypeRegistry, row: &[Handle], storage: HostStorage) -> WasmStorageType
    ensures { result ≡ storage_of (type_named registry.now.made row.now) storage }
{
    match storage {
        HostStorage::I8 => WasmStorageType::I8,
        HostStorage::I16 => WasmStorageType::I16,
        HostStorage::Val(val) => WasmStorageType::Val(val_type(registry, row, val)),
    }
}

fn field_type(registry: &TypeRegistry, row: &[Handle], field: HostField) -> WasmFieldType
    ensures { result ≡ field_of (type_named registry.now.made row.now) field }
{
    WasmFieldType {
        element_type: storage_type(registry, row, field.element),
        mutable: field.mutable,
    }
}

fn all_field_types(
    alloc: Global,
    registry: &TypeRegistry,
    row: &[Handle],
    fields: &[HostField],
) -> Result<Vec<WasmFieldType>, AllocError>
    ensures { IfOk result (λ types. types.items ≡ map (field_of (type_named registry.now.made row.now)) fields.now) }
{
    fields
        .iter()
        .map(|field| field_type(registry, row, *field))
        .collect(alloc)
}

fn field_types(
    alloc: Global,
    registry: &TypeRegistry,
    row: &[Handle],
    fields: &[HostField],
) -> Result<Seq<WasmFieldType>, OutOfMemory>
    ensures { IfOk result (λ types. types ≡ map (field_of (type_named registry.now.made row.now)) fields.now) }
{
    Ok(Seq::from_vec(all_field_types(alloc, registry, row, fields)?))
}

fn composite_type(
    alloc: Global,
    registry: &TypeRegistry,
    row: &[Handle],
    shape: &HostShape,
) -> Result<WasmCompositeInnerType, OutOfMemory>
    ensures { IfOk result (λ ty. ty ≡ shape_of (type_named registry.now.made row.now) shape.now) }
{
    match shape {
        HostShape::Func { params, results } => Ok(WasmCompositeInnerType::Func(WasmFuncType {
            params: val_types(alloc, registry, row, params.as_slice())?,
            results: val_types(alloc, registry, row, results.as_slice())?,
        })),
        HostShape::Struct { fields } => Ok(WasmCompositeInnerType::Struct(WasmStructType {
            fields: field_types(alloc, registry, row, fields.as_slice())?,
        })),
        HostShape::Array(field) => Ok(WasmCompositeInnerType::Array(WasmArrayType(field_type(
            registry, row, *field,
        )))),
    }
}

/// The index of the type that a name names; a name that is missing reads as the index 0.
fn index_named(registry: &TypeRegistry, row: &[Handle], name: NamedType) -> VMSharedTypeIndex
    ensures { result ≡ index_of_named (type_named registry.now.made row.now name) }
{
    match type_named(registry, row, name) {
        Some((_, index)) => index,
        None => VMSharedTypeIndex::new(0),
    }
}

/// The function, struct or array that the host declares. A name that is missing reads as some other type: the caller sees
/// to it that none is.
pub(crate) fn sub_type(
    alloc: Global,
    registry: &TypeRegistry,
    row: &[Handle],
    is_final: bool,
    supertype: Option<NamedType>,
    shape: &HostShape,
) -> Result<WasmSubType, OutOfMemory>
    ensures { IfOk result (λ ty. ty ≡ sub_type_of (type_named registry.now.made row.now) is_final supertype shape.now) }
{
    let supertype = match supertype {
        Some(name) => Some(EngineOrModuleTypeIndex::Engine(index_named(registry, row, name))),
        None => None,
    };
    Ok(WasmSubType {
        is_final,
        supertype,
        composite_type: composite_type(alloc, registry, row, shape)?,
    })
}

/// The exception over the function type that a name names.
pub(crate) fn tag_type(
    registry: &TypeRegistry,
    row: &[Handle],
    name: NamedType,
) -> Result<WasmSubType, OutOfMemory>
    requires { is_missing (Some kind.Func) (type_named registry.now.made row.now name) ≡ false }
    ensures value { IfOk result (λ ty. ty ≡ tag_of registry.now.made (type_named registry.now.made row.now name)) }
    ensures host { IfOk result (λ ty. is_host_type (closed_tree registry.now.made) ty ≡ true) }
{
    match registry.tag_exception(index_named(registry, row, name))? {
        Some(ty) => Ok(ty),
        None => unreachable!(),
    }
}
