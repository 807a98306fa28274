//! Types of a host, and types that its handles name, from JSON: which one a value stands for, if any. The words and what
//! has no index in it are read by `decode_values` of `wt_decode`.

ghost use Rattle.std.specs.Prelude.{◌≡◌, IfOk};
ghost use Rattle.serde_json.specs.View.{view, items_view};
ghost use Rattle.wt_decode.specs.Json.{each_of};
ghost use Rattle.wt_decode.specs.DecodeGroups.{final_in};
ghost use Rattle.wt_commands.specs.DecodeHost.{decode_u32_at, type_of_handle, type_of_module, decode_named_type, host_heap, ref_to, host_val, named_ref, decode_named_ref, decode_plain, decode_val, decode_vals, host_packed, decode_packed, decode_storage, decode_field, func_from, decode_func, decode_struct, decode_array, shape_in, super_in, declared_in, known_keys, decode_declared, decode_exception, decode_tag, decode_sub};

use crate::command::NamedType;
use crate::host_type::{HostField, HostHeap, HostRef, HostShape, HostStorage, HostSub, HostVal};
use serde_json::Value;
use std::alloc::Global;
use wt_decode::decode_values;
use wt_decode::json::{count_at, decode_u32, key_count, only_at};
use wt_env::memory::OutOfMemory;
use wt_env::seq::Seq;
use wt_env::types::{WasmHeapType, WasmStorageType, WasmValType};

/// The number of 32 bits under a key.
pub fn decode_u32_at(value: &Value, key: &str) -> Option<u32>
    ensures { result ≡ decode_u32_at key.now (view value.now) }
{
    value.get(key).and_then(decode_u32)
}

/// A type that is named by a handle: `{"handle": a number}`, or `{"handle": a number, "type": a number}`
/// for a type of a module.
pub fn decode_named_type(value: &Value) -> Option<NamedType>
    ensures { result ≡ decode_named_type (view value.now) }
{
    match value.get("type") {
        Some(ty) => type_of_module(value, ty),
        None => type_of_handle(value),
    }
}

/// The type of a handle: `{"handle": a number}`.
fn type_of_handle(value: &Value) -> Option<NamedType>
    ensures { result ≡ type_of_handle (view value.now) }
{
    if key_count(value) != 1 {
        return None;
    }
    let handle = decode_u32_at(value, "handle")?;
    Some(NamedType::Handle(handle))
}

/// A type of a module: `{"handle": a number, "type": a number}`.
fn type_of_module(value: &Value, ty: &Value) -> Option<NamedType>
    ensures { result ≡ type_of_module (view value.now) (view ty.now) }
{
    if key_count(value) != 2 {
        return None;
    }
    let handle = decode_u32_at(value, "handle")?;
    let ty = decode_u32(ty)?;
    Some(NamedType::OfModule { handle, ty })
}

/// A type as a host describes it. A function, struct or array is an object with the key `"func"`
/// (parameters and results, two lists of value types), `"struct"` (a list of fields) or `"array"` (a field);
/// it may have `"final"` (a bool, else it is final) and `"super"` (a type that is named, else it declares
/// no supertype). An exception has the one key `"exn"`, the list of the value types that it holds, or
/// `"tag"`, the name of its function type. `None` exactly where the value isn't of that form.
pub fn decode_sub(alloc: Global, value: &Value) -> Result<Option<HostSub>, OutOfMemory>
    ensures { IfOk result (λ sub. sub ≡ decode_sub (view value.now)) }
{
    if let Some(fields) = only_at(value, "exn") {
        decode_exception(alloc, fields)
    } else if let Some(func) = only_at(value, "tag") {
        Ok(decode_tag(func))
    } else {
        decode_declared(alloc, value)
    }
}

/// The exception that holds these values.
fn decode_exception(alloc: Global, value: &Value) -> Result<Option<HostSub>, OutOfMemory>
    ensures { IfOk result (λ sub. sub ≡ decode_exception (view value.now)) }
{
    Ok(decode_vals(alloc, value)?.map(|fields| HostSub::Exception { fields }))
}

/// The exception over the function type that is named.
fn decode_tag(value: &Value) -> Option<HostSub>
    ensures { result ≡ decode_tag (view value.now) }
{
    decode_named_type(value).map(HostSub::Tag)
}

/// A function, struct or array: an object with the key of one shape, maybe `final`, maybe `super`, and no
/// other.
fn decode_declared(alloc: Global, value: &Value) -> Result<Option<HostSub>, OutOfMemory>
    ensures { IfOk result (λ sub. sub ≡ decode_declared (view value.now)) }
{
    if key_count(value) != known_keys(value) {
        return Ok(None);
    }
    declared_in(alloc, value)
}

/// How many keys it has, if it has no other than it may.
fn known_keys(value: &Value) -> usize
    ensures { result ≡ known_keys (view value.now) }
{
    count_at(value, "final") + count_at(value, "super") + 1
}

/// The type that stands under the keys of an object (WebAssembly 3.0, "Recursive Types").
fn declared_in(alloc: Global, value: &Value) -> Result<Option<HostSub>, OutOfMemory>
    ensures { IfOk result (λ sub. sub ≡ declared_in (view value.now)) }
{
    let Some(is_final) = final_in(value) else {
        return Ok(None);
    };
    let Some(supertype) = super_in(value) else {
        return Ok(None);
    };
    Ok(shape_in(alloc, value)?.map(|shape| HostSub::Declared {
        is_final,
        supertype,
        shape,
    }))
}

/// Whether a type is final: as `final` says, and where it isn't there, it is.
fn final_in(value: &Value) -> Option<bool>
    ensures { result ≡ final_in (view value.now) }
{
    match value.get("final") {
        Some(is_final) => is_final.as_bool(),
        None => Some(true),
    }
}

/// The supertype that a type declares under `super`, if it does.
fn super_in(value: &Value) -> Option<Option<NamedType>>
    ensures { result ≡ super_in (view value.now) }
{
    match value.get("super") {
        Some(ty) => decode_named_type(ty).map(Some),
        None => Some(None),
    }
}

/// The shape under the key that says its kind (WebAssembly 3.0, "Composite Types").
fn shape_in(alloc: Global, value: &Value) -> Result<Option<HostShape>, OutOfMemory>
    ensures { IfOk result (λ shape. shape ≡ shape_in (view value.now)) }
{
    if let Some(func) = value.get("func") {
        decode_func(alloc, func)
    } else if let Some(fields) = value.get("struct") {
        decode_struct(alloc, fields)
    } else if let Some(field) = value.get("array") {
        Ok(decode_array(field))
    } else {
        Ok(None)
    }
}

/// A function type: `[parameters, results]`, two lists of value types (WebAssembly 3.0, "Function
/// Types").
fn decode_func(alloc: Global, value: &Value) -> Result<Option<HostShape>, OutOfMemory>
    ensures { IfOk result (λ shape. shape ≡ decode_func (view value.now)) }
{
    let Some(list) = value.as_array() else {
        return Ok(None);
    };
    if list.len() != 2 {
        return Ok(None);
    }
    func_from(alloc, &list[0], &list[1])
}

/// The function type with two lists of value types, as parameters and as results.
fn func_from(
    alloc: Global,
    params: &Value,
    results: &Value,
) -> Result<Option<HostShape>, OutOfMemory>
    ensures { IfOk result (λ shape. shape ≡ func_from (view params.now) (view results.now)) }
{
    let Some(params) = decode_vals(alloc, params)? else {
        return Ok(None);
    };
    let Some(results) = decode_vals(alloc, results)? else {
        return Ok(None);
    };
    Ok(Some(HostShape::Func { params, results }))
}

/// A struct type: the list of its fields (WebAssembly 3.0, "Struct Types").
fn decode_struct(alloc: Global, value: &Value) -> Result<Option<HostShape>, OutOfMemory>
    ensures { IfOk result (λ shape. shape ≡ decode_struct (view value.now)) }
{
    let Some(list) = value.as_array() else {
        return Ok(None);
    };
    Ok(fields_of(alloc, list.as_slice())?.map(|fields| HostShape::Struct { fields }))
}

/// An array type: its field (WebAssembly 3.0, "Array Types").
fn decode_array(value: &Value) -> Option<HostShape>
    ensures { result ≡ decode_array (view value.now) }
{
    decode_field(value).map(HostShape::Array)
}

/// The fields that elements stand for, if each is one.
fn fields_of(alloc: Global, list: &[Value]) -> Result<Option<Seq<HostField>>, OutOfMemory>
    ensures { IfOk result (λ fields. fields ≡ each_of decode_field (items_view list.now)) }
{
    let mut fields = Seq::new(alloc);
    for value in list {
        match decode_field(value) {
            Some(field) => fields.push(field)?,
            None => return Ok(None),
        }
    }
    Ok(Some(fields))
}

/// A field: `{"mut": storage type}` where it is mutable, else the storage type alone (WebAssembly 3.0,
/// "Field Types").
fn decode_field(value: &Value) -> Option<HostField>
    ensures { result ≡ decode_field (view value.now) }
{
    let (stored, mutable) = match only_at(value, "mut") {
        Some(stored) => (decode_storage(stored), true),
        None => (decode_storage(value), false),
    };
    stored.map(|element| HostField { element, mutable })
}

/// A storage type: `"i8"`, `"i16"`, or a value type (WebAssembly 3.0, "Storage Types").
fn decode_storage(value: &Value) -> Option<HostStorage>
    ensures { result ≡ decode_storage (view value.now) }
{
    match decode_packed(value) {
        Some(packed) => Some(packed),
        None => decode_val(value).map(HostStorage::Val),
    }
}

/// A packed type.
fn decode_packed(value: &Value) -> Option<HostStorage>
    ensures { result ≡ decode_packed (view value.now) }
{
    decode_values::decode_storage(value).and_then(host_packed)
}

/// A packed type as a host has it; `None` for a value type.
fn host_packed(storage: WasmStorageType) -> Option<HostStorage>
    ensures { result ≡ host_packed storage }
{
    match storage {
        WasmStorageType::I8 => Some(HostStorage::I8),
        WasmStorageType::I16 => Some(HostStorage::I16),
        WasmStorageType::Val(_) => None,
    }
}

/// A list of value types.
fn decode_vals(alloc: Global, value: &Value) -> Result<Option<Seq<HostVal>>, OutOfMemory>
    ensures { IfOk result (λ vals. vals ≡ decode_vals (view value.now)) }
{
    match value.as_array() {
        Some(list) => vals_of(alloc, list.as_slice()),
        None => Ok(None),
    }
}

/// The value types that elements stand for, if each is one.
fn vals_of(alloc: Global, list: &[Value]) -> Result<Option<Seq<HostVal>>, OutOfMemory>
    ensures { IfOk result (λ vals. vals ≡ each_of decode_val (items_view list.now)) }
{
    let mut vals = Seq::new(alloc);
    for value in list {
        match decode_val(value) {
            Some(val) => vals.push(val)?,
            None => return Ok(None),
        }
    }
    Ok(Some(vals))
}

/// A value type of a host: as in a module where no concrete type stands in it, or a reference to a type
/// that is named, `{"ref": type}`, which isn't nullable, or `{"null": type}`, which is (WebAssembly 3.0,
/// "Value Types").
pub fn decode_val(value: &Value) -> Option<HostVal>
    ensures { result ≡ decode_val (view value.now) }
{
    match decode_plain(value) {
        Some(val) => Some(val),
        None => decode_named_ref(value),
    }
}

/// A value type in which no concrete type stands.
fn decode_plain(value: &Value) -> Option<HostVal>
    ensures { result ≡ decode_plain (view value.now) }
{
    decode_values::decode_val(value).and_then(host_val)
}

/// A reference to a type that is named: an object whose only key is `ref` or `null`.
fn decode_named_ref(value: &Value) -> Option<HostVal>
    ensures { result ≡ decode_named_ref (view value.now) }
{
    if let Some(target) = only_at(value, "ref") {
        named_ref(false, target)
    } else if let Some(target) = only_at(value, "null") {
        named_ref(true, target)
    } else {
        None
    }
}

/// The reference to the type that is named.
fn named_ref(nullable: bool, value: &Value) -> Option<HostVal>
    ensures { result ≡ named_ref nullable (view value.now) }
{
    decode_named_type(value).map(|ty| ref_to(nullable, HostHeap::Named(ty)))
}

/// The reference to a heap type.
fn ref_to(nullable: bool, heap: HostHeap) -> HostVal
    ensures { result ≡ ref_to nullable heap }
{
    HostVal::Ref(HostRef { nullable, heap })
}

/// A value type as a host has it; `None` for a reference to a type of a module.
fn host_val(val: WasmValType) -> Option<HostVal>
    ensures { result ≡ host_val val }
{
    match val {
        WasmValType::I32 => Some(HostVal::I32),
        WasmValType::I64 => Some(HostVal::I64),
        WasmValType::F32 => Some(HostVal::F32),
        WasmValType::F64 => Some(HostVal::F64),
        WasmValType::V128 => Some(HostVal::V128),
        WasmValType::Ref(reference) => {
            host_heap(reference.heap_type).map(|heap| ref_to(reference.nullable, heap))
        }
    }
}

/// An abstract heap type as a host has it; `None` for a concrete one, whose index is of a module.
fn host_heap(heap: WasmHeapType) -> Option<HostHeap>
    ensures { result ≡ host_heap heap }
{
    match heap {
        WasmHeapType::Extern => Some(HostHeap::Extern),
        WasmHeapType::NoExtern => Some(HostHeap::NoExtern),
        WasmHeapType::Func => Some(HostHeap::Func),
        WasmHeapType::NoFunc => Some(HostHeap::NoFunc),
        WasmHeapType::Any => Some(HostHeap::Any),
        WasmHeapType::Eq => Some(HostHeap::Eq),
        WasmHeapType::I31 => Some(HostHeap::I31),
        WasmHeapType::Array => Some(HostHeap::Array),
        WasmHeapType::Struct => Some(HostHeap::Struct),
        WasmHeapType::None => Some(HostHeap::None),
        WasmHeapType::Cont => Some(HostHeap::Cont),
        WasmHeapType::NoCont => Some(HostHeap::NoCont),
        WasmHeapType::Exn => Some(HostHeap::Exn),
        WasmHeapType::NoExn => Some(HostHeap::NoExn),
        WasmHeapType::ConcreteFunc(_)
        | WasmHeapType::ConcreteArray(_)
        | WasmHeapType::ConcreteStruct(_)
        | WasmHeapType::ConcreteExn(_)
        | WasmHeapType::ConcreteCont(_) => None,
    }
}

#[cfg(test)]
mod tests;
