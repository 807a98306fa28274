//! The recursion groups of a module from JSON: a list of groups, each a list of members. It rests on
//! the readers of `json` and `decode_values`.

ghost use Rattle.std.specs.Prelude.{◌≡◌, ◌≤◌, IfOk};
ghost use Rattle.serde_json.specs.View.{view, items_view};
ghost use Rattle.wt_decode.specs.Json.{each_of};
ghost use Rattle.wt_decode.specs.DecodeValues.{decode_index, decode_val, decode_field};
ghost use Rattle.wt_decode.specs.DecodeGroups.{decode_vals, func_from, decode_func, decode_struct, decode_array, decode_cont, decode_constant, decode_constants, exn_from, exn_in, composite_in, final_in, super_in, shape_keys, known_keys, member_in, decode_member, decode_group, decode_groups};

use crate::decode_values::{decode_field, decode_index, decode_val};
use crate::json::{count_at, key_count};
use serde_json::Value;
use std::alloc::Global;
use wt_env::memory::OutOfMemory;
use wt_env::seq::Seq;
use wt_env::types::{
    EngineOrModuleTypeIndex, ModuleTypes, WasmArrayType, WasmCompositeInnerType, WasmContType,
    WasmExnType, WasmFieldType, WasmFuncType, WasmRecGroup, WasmStorageType, WasmStructType,
    WasmSubType, WasmValType,
};

/// The recursion groups of a module (WebAssembly 3.0, "Types" and "Recursive Types"): a list of groups,
/// each a list of members. A member is an object with the key of one shape, `"func"` (parameters and
/// results, two lists of value types), `"struct"` (a list of fields), `"array"` (a field), `"cont"` (the
/// index of a function type of the module) or `"exn"` (such an index) with `"fields"` (a list of value
/// types). It may have `"final"` (a bool, else it is final) and `"super"` (the index of a type of the
/// module, else it declares no supertype). `None` exactly where the value isn't of that form.
pub fn decode_groups(alloc: Global, value: &Value) -> Result<Option<ModuleTypes>, OutOfMemory>
    ensures { IfOk result (λ types. types ≡ decode_groups (view value.now)) }
{
    let Some(list) = value.as_array() else {
        return Ok(None);
    };
    Ok(groups_of(alloc, list.as_slice())?.map(|groups| ModuleTypes { groups }))
}

/// The groups that elements stand for, if each is one.
fn groups_of(alloc: Global, list: &[Value]) -> Result<Option<Seq<WasmRecGroup>>, OutOfMemory>
    ensures { IfOk result (λ groups. groups ≡ each_of decode_group (items_view list.now)) }
{
    let mut groups = Seq::new(alloc);
    for value in list {
        match decode_group(alloc, value)? {
            Some(group) => groups.push(group)?,
            None => return Ok(None),
        }
    }
    Ok(Some(groups))
}

/// A recursion group: the list of its members.
fn decode_group(alloc: Global, value: &Value) -> Result<Option<WasmRecGroup>, OutOfMemory>
    ensures { IfOk result (λ group. group ≡ decode_group (view value.now)) }
{
    let Some(list) = value.as_array() else {
        return Ok(None);
    };
    Ok(members_of(alloc, list.as_slice())?.map(|types| WasmRecGroup { types }))
}

/// The members that elements stand for, if each is one.
fn members_of(alloc: Global, list: &[Value]) -> Result<Option<Seq<WasmSubType>>, OutOfMemory>
    ensures { IfOk result (λ members. members ≡ each_of decode_member (items_view list.now)) }
{
    let mut members = Seq::new(alloc);
    for value in list {
        match decode_member(alloc, value)? {
            Some(member) => members.push(member)?,
            None => return Ok(None),
        }
    }
    Ok(Some(members))
}

/// A member of a group: an object with the keys of one shape, maybe `final`, maybe `super`, and no
/// other.
fn decode_member(alloc: Global, value: &Value) -> Result<Option<WasmSubType>, OutOfMemory>
    ensures { IfOk result (λ member. member ≡ decode_member (view value.now)) }
{
    if key_count(value) != known_keys(value) {
        return Ok(None);
    }
    member_in(alloc, value)
}

/// How many keys a member has, if it has no other than it may.
fn known_keys(value: &Value) -> usize
    ensures { result ≡ known_keys (view value.now) }
{
    count_at(value, "final") + count_at(value, "super") + shape_keys(value)
}

/// How many keys a shape takes: two where it is an exception, else one.
fn shape_keys(value: &Value) -> usize
    ensures count { result ≡ shape_keys (view value.now) }
    ensures bound { result ≤ 2 }
{
    1 + count_at(value, "exn")
}

/// The sub type that stands under the keys of an object (WebAssembly 3.0, "Recursive Types").
fn member_in(alloc: Global, value: &Value) -> Result<Option<WasmSubType>, OutOfMemory>
    ensures { IfOk result (λ member. member ≡ member_in (view value.now)) }
{
    let Some(is_final) = final_in(value) else {
        return Ok(None);
    };
    let Some(supertype) = super_in(value) else {
        return Ok(None);
    };
    Ok(composite_in(alloc, value)?.map(|composite_type| WasmSubType {
        is_final,
        supertype,
        composite_type,
    }))
}

/// Whether a type is final: as `final` says, and where it isn't there, it is.
fn final_in(value: &Value) -> Option<bool>
    ensures { result ≡ final_in (view value.now) }
{
    match value.get("final") {
        Some(is_final) => is_final.as_bool(),
        None => Some(true),
    }
}

/// The supertype that a type declares under `super`, if it does.
fn super_in(value: &Value) -> Option<Option<EngineOrModuleTypeIndex>>
    ensures { result ≡ super_in (view value.now) }
{
    match value.get("super") {
        Some(index) => decode_index(index).map(Some),
        None => Some(None),
    }
}

/// The shape under the key that says its kind (WebAssembly 3.0, "Composite Types"; exceptions and
/// continuations after wasmtime). An exception comes first, since it takes a second key.
fn composite_in(alloc: Global, value: &Value) -> Result<Option<WasmCompositeInnerType>, OutOfMemory>
    ensures { IfOk result (λ shape. shape ≡ composite_in (view value.now)) }
{
    if let Some(func) = value.get("exn") {
        Ok(exn_in(alloc, value, func)?.map(WasmCompositeInnerType::Exn))
    } else if let Some(func) = value.get("func") {
        Ok(decode_func(alloc, func)?.map(WasmCompositeInnerType::Func))
    } else if let Some(fields) = value.get("struct") {
        Ok(decode_struct(alloc, fields)?.map(WasmCompositeInnerType::Struct))
    } else if let Some(field) = value.get("array") {
        Ok(decode_array(field).map(WasmCompositeInnerType::Array))
    } else if let Some(func) = value.get("cont") {
        Ok(decode_cont(func).map(WasmCompositeInnerType::Cont))
    } else {
        Ok(None)
    }
}

/// A function type: `[parameters, results]`, two lists of value types (WebAssembly 3.0, "Function
/// Types").
fn decode_func(alloc: Global, value: &Value) -> Result<Option<WasmFuncType>, OutOfMemory>
    ensures { IfOk result (λ func. func ≡ decode_func (view value.now)) }
{
    let Some(list) = value.as_array() else {
        return Ok(None);
    };
    if list.len() != 2 {
        return Ok(None);
    }
    func_from(alloc, &list[0], &list[1])
}

/// The function type with two lists of value types, as parameters and as results.
fn func_from(
    alloc: Global,
    params: &Value,
    results: &Value,
) -> Result<Option<WasmFuncType>, OutOfMemory>
    ensures { IfOk result (λ func. func ≡ func_from (view params.now) (view results.now)) }
{
    let Some(params) = decode_vals(alloc, params)? else {
        return Ok(None);
    };
    let Some(results) = decode_vals(alloc, results)? else {
        return Ok(None);
    };
    Ok(Some(WasmFuncType { params, results }))
}

/// A list of value types.
fn decode_vals(alloc: Global, value: &Value) -> Result<Option<Seq<WasmValType>>, OutOfMemory>
    ensures { IfOk result (λ vals. vals ≡ decode_vals (view value.now)) }
{
    match value.as_array() {
        Some(list) => vals_of(alloc, list.as_slice()),
        None => Ok(None),
    }
}

/// The value types that elements stand for, if each is one.
fn vals_of(alloc: Global, list: &[Value]) -> Result<Option<Seq<WasmValType>>, OutOfMemory>
    ensures { IfOk result (λ vals. vals ≡ each_of decode_val (items_view list.now)) }
{
    let mut vals = Seq::new(alloc);
    for value in list {
        match decode_val(value) {
            Some(val) => vals.push(val)?,
            None => return Ok(None),
        }
    }
    Ok(Some(vals))
}

/// A struct type: the list of its fields (WebAssembly 3.0, "Struct Types").
fn decode_struct(alloc: Global, value: &Value) -> Result<Option<WasmStructType>, OutOfMemory>
    ensures { IfOk result (λ ty. ty ≡ decode_struct (view value.now)) }
{
    let Some(list) = value.as_array() else {
        return Ok(None);
    };
    Ok(fields_of(alloc, list.as_slice())?.map(|fields| WasmStructType { fields }))
}

/// The fields that elements stand for, if each is one.
fn fields_of(alloc: Global, list: &[Value]) -> Result<Option<Seq<WasmFieldType>>, OutOfMemory>
    ensures { IfOk result (λ fields. fields ≡ each_of decode_field (items_view list.now)) }
{
    let mut fields = Seq::new(alloc);
    for value in list {
        match decode_field(value) {
            Some(field) => fields.push(field)?,
            None => return Ok(None),
        }
    }
    Ok(Some(fields))
}

/// An array type: its field (WebAssembly 3.0, "Array Types").
fn decode_array(value: &Value) -> Option<WasmArrayType>
    ensures { result ≡ decode_array (view value.now) }
{
    decode_field(value).map(WasmArrayType)
}

/// A continuation type: the index of its function type (after wasmtime).
fn decode_cont(value: &Value) -> Option<WasmContType>
    ensures { result ≡ decode_cont (view value.now) }
{
    decode_index(value).map(WasmContType)
}

/// An exception type: the index of its function type, and the fields under their key (after
/// wasmtime).
fn exn_in(alloc: Global, value: &Value, func: &Value) -> Result<Option<WasmExnType>, OutOfMemory>
    ensures { IfOk result (λ exn. exn ≡ exn_in (view value.now) (view func.now)) }
{
    match value.get("fields") {
        Some(fields) => exn_from(alloc, func, fields),
        None => Ok(None),
    }
}

/// The exception type with the index of its function type, and its fields.
fn exn_from(alloc: Global, func: &Value, fields: &Value) -> Result<Option<WasmExnType>, OutOfMemory>
    ensures { IfOk result (λ exn. exn ≡ exn_from (view func.now) (view fields.now)) }
{
    let Some(func_ty) = decode_index(func) else {
        return Ok(None);
    };
    Ok(decode_constants(alloc, fields)?.map(|fields| WasmExnType { func_ty, fields }))
}

/// The fields of an exception: a list of value types.
fn decode_constants(alloc: Global, value: &Value) -> Result<Option<Seq<WasmFieldType>>, OutOfMemory>
    ensures { IfOk result (λ fields. fields ≡ decode_constants (view value.now)) }
{
    match value.as_array() {
        Some(list) => constants_of(alloc, list.as_slice()),
        None => Ok(None),
    }
}

/// The fields of an exception that elements stand for, if each is one.
fn constants_of(alloc: Global, list: &[Value]) -> Result<Option<Seq<WasmFieldType>>, OutOfMemory>
    ensures { IfOk result (λ fields. fields ≡ each_of decode_constant (items_view list.now)) }
{
    let mut fields = Seq::new(alloc);
    for value in list {
        match decode_constant(value) {
            Some(field) => fields.push(field)?,
            None => return Ok(None),
        }
    }
    Ok(Some(fields))
}

/// A field of an exception: the value type that it stores, and it can't change.
fn decode_constant(value: &Value) -> Option<WasmFieldType>
    ensures { result ≡ decode_constant (view value.now) }
{
    decode_val(value).map(|val| WasmFieldType {
        element_type: WasmStorageType::Val(val),
        mutable: false,
    })
}

#[cfg(test)]
mod tests;
