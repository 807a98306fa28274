//! Value types, references and fields from JSON: which one a value stands for, if any. The words are
//! those of the text format.

ghost use Rattle.std.specs.Prelude.{◌≡◌};
ghost use Rattle.serde_json.specs.View.{view};
ghost use Rattle.wt_decode.specs.DecodeValues.{abstract_named, decode_index, decode_concrete, decode_heap, nullable_named, decode_spelled_ref, decode_ref, number_named, decode_number, decode_val, packed_named, decode_packed, decode_storage, decode_field};

use crate::json::{decode_u32, only_at};
use serde_json::Value;
use wt_env::types::{
    EngineOrModuleTypeIndex, ModuleInternedTypeIndex, WasmFieldType, WasmHeapType, WasmRefType,
    WasmStorageType, WasmValType,
};

/// A field: `{"mut": storage type}` where it is mutable, else the storage type alone (WebAssembly 3.0,
/// "Field Types").
pub fn decode_field(value: &Value) -> Option<WasmFieldType>
    ensures { result ≡ decode_field (view value.now) }
{
    let (stored, mutable) = match only_at(value, "mut") {
        Some(stored) => (decode_storage(stored), true),
        None => (decode_storage(value), false),
    };
    stored.map(|element_type| WasmFieldType {
        element_type,
        mutable,
    })
}

/// A storage type: `"i8"`, `"i16"`, or a value type (WebAssembly 3.0, "Storage Types").
pub fn decode_storage(value: &Value) -> Option<WasmStorageType>
    ensures { result ≡ decode_storage (view value.now) }
{
    match decode_packed(value) {
        Some(packed) => Some(packed),
        None => decode_val(value).map(WasmStorageType::Val),
    }
}

/// A packed type: the string of its name.
fn decode_packed(value: &Value) -> Option<WasmStorageType>
    ensures { result ≡ decode_packed (view value.now) }
{
    value.as_str().and_then(packed_named)
}

/// The packed type with a name.
fn packed_named(name: &str) -> Option<WasmStorageType>
    ensures { result ≡ packed_named name.now }
{
    match name {
        "i8" => Some(WasmStorageType::I8),
        "i16" => Some(WasmStorageType::I16),
        _ => None,
    }
}

/// A value type: a number or a vector, or a reference (WebAssembly 3.0, "Value Types").
pub fn decode_val(value: &Value) -> Option<WasmValType>
    ensures { result ≡ decode_val (view value.now) }
{
    match decode_number(value) {
        Some(number) => Some(number),
        None => decode_ref(value).map(WasmValType::Ref),
    }
}

/// A number or vector type: the string of its name (WebAssembly 3.0, "Number Types" and "Vector
/// Types").
pub fn decode_number(value: &Value) -> Option<WasmValType>
    ensures { result ≡ decode_number (view value.now) }
{
    value.as_str().and_then(number_named)
}

/// The number or vector type with a name.
fn number_named(name: &str) -> Option<WasmValType>
    ensures { result ≡ number_named name.now }
{
    match name {
        "i32" => Some(WasmValType::I32),
        "i64" => Some(WasmValType::I64),
        "f32" => Some(WasmValType::F32),
        "f64" => Some(WasmValType::F64),
        "v128" => Some(WasmValType::V128),
        _ => None,
    }
}

/// A reference type: the name of a nullable abstract one, `{"ref": heap type}`, which isn't nullable,
/// or `{"null": heap type}`, which is (WebAssembly 3.0, "Reference Types").
pub fn decode_ref(value: &Value) -> Option<WasmRefType>
    ensures { result ≡ decode_ref (view value.now) }
{
    match value.as_str() {
        Some(name) => nullable_named(name).map(|heap_type| WasmRefType {
            nullable: true,
            heap_type,
        }),
        None => decode_spelled_ref(value),
    }
}

/// A reference type that is spelled out: an object whose only key is `ref` or `null`.
fn decode_spelled_ref(value: &Value) -> Option<WasmRefType>
    ensures { result ≡ decode_spelled_ref (view value.now) }
{
    let (heap_type, nullable) = if let Some(target) = only_at(value, "ref") {
        (decode_heap(target), false)
    } else if let Some(target) = only_at(value, "null") {
        (decode_heap(target), true)
    } else {
        (None, false)
    };
    heap_type.map(|heap_type| WasmRefType {
        nullable,
        heap_type,
    })
}

/// The heap type of the nullable abstract reference with a name.
fn nullable_named(name: &str) -> Option<WasmHeapType>
    ensures { result ≡ nullable_named name.now }
{
    match name {
        "externref" => Some(WasmHeapType::Extern),
        "nullexternref" => Some(WasmHeapType::NoExtern),
        "funcref" => Some(WasmHeapType::Func),
        "nullfuncref" => Some(WasmHeapType::NoFunc),
        "anyref" => Some(WasmHeapType::Any),
        "eqref" => Some(WasmHeapType::Eq),
        "i31ref" => Some(WasmHeapType::I31),
        "arrayref" => Some(WasmHeapType::Array),
        "structref" => Some(WasmHeapType::Struct),
        "nullref" => Some(WasmHeapType::None),
        "contref" => Some(WasmHeapType::Cont),
        "nullcontref" => Some(WasmHeapType::NoCont),
        "exnref" => Some(WasmHeapType::Exn),
        "nullexnref" => Some(WasmHeapType::NoExn),
        _ => None,
    }
}

/// A heap type: the name of an abstract one, or a concrete one (WebAssembly 3.0, "Heap Types").
pub fn decode_heap(value: &Value) -> Option<WasmHeapType>
    ensures { result ≡ decode_heap (view value.now) }
{
    match value.as_str() {
        Some(name) => abstract_named(name),
        None => decode_concrete(value),
    }
}

/// The abstract heap type with a name.
fn abstract_named(name: &str) -> Option<WasmHeapType>
    ensures { result ≡ abstract_named name.now }
{
    match name {
        "extern" => Some(WasmHeapType::Extern),
        "noextern" => Some(WasmHeapType::NoExtern),
        "func" => Some(WasmHeapType::Func),
        "nofunc" => Some(WasmHeapType::NoFunc),
        "any" => Some(WasmHeapType::Any),
        "eq" => Some(WasmHeapType::Eq),
        "i31" => Some(WasmHeapType::I31),
        "array" => Some(WasmHeapType::Array),
        "struct" => Some(WasmHeapType::Struct),
        "none" => Some(WasmHeapType::None),
        "cont" => Some(WasmHeapType::Cont),
        "nocont" => Some(WasmHeapType::NoCont),
        "exn" => Some(WasmHeapType::Exn),
        "noexn" => Some(WasmHeapType::NoExn),
        _ => None,
    }
}

/// A concrete heap type: an object whose only key says the kind, with the index of a type of the
/// module.
fn decode_concrete(value: &Value) -> Option<WasmHeapType>
    ensures { result ≡ decode_concrete (view value.now) }
{
    if let Some(index) = only_at(value, "func") {
        decode_index(index).map(WasmHeapType::ConcreteFunc)
    } else if let Some(index) = only_at(value, "struct") {
        decode_index(index).map(WasmHeapType::ConcreteStruct)
    } else if let Some(index) = only_at(value, "array") {
        decode_index(index).map(WasmHeapType::ConcreteArray)
    } else if let Some(index) = only_at(value, "exn") {
        decode_index(index).map(WasmHeapType::ConcreteExn)
    } else if let Some(index) = only_at(value, "cont") {
        decode_index(index).map(WasmHeapType::ConcreteCont)
    } else {
        None
    }
}

/// A type of the module, by its index over all members of all groups from 0.
pub fn decode_index(value: &Value) -> Option<EngineOrModuleTypeIndex>
    ensures { result ≡ decode_index (view value.now) }
{
    decode_u32(value).map(|index| EngineOrModuleTypeIndex::Module(ModuleInternedTypeIndex(index)))
}

#[cfg(test)]
mod tests {
    use super::*;
    use std::test::Fail;

    #[test]
    fn reads_each_number(rt: HostRuntime) -> Result<(), Fail> {
        let rows = [
            (r#""i32""#, WasmValType::I32),
            (r#""i64""#, WasmValType::I64),
            (r#""f32""#, WasmValType::F32),
            (r#""f64""#, WasmValType::F64),
            (r#""v128""#, WasmValType::V128),
        ];
        for (text, val) in rows {
            let value = Value::from_str(rt.alloc(), text)?;
            let want = WasmFieldType {
                element_type: WasmStorageType::Val(val),
                mutable: false,
            };
            assert_eq!(rt; decode_number(&value), Some(val), "at {text}");
            assert_eq!(rt; decode_field(&value), Some(want), "at {text}");
        }
        Ok(())
    }

    /// The word of each abstract heap type, and of a nullable reference to it.
    const WORDS: &str = r#"[
        ["extern", "externref"], ["noextern", "nullexternref"],
        ["func", "funcref"], ["nofunc", "nullfuncref"],
        ["any", "anyref"], ["eq", "eqref"], ["i31", "i31ref"], ["array", "arrayref"],
        ["struct", "structref"], ["none", "nullref"],
        ["cont", "contref"], ["nocont", "nullcontref"],
        ["exn", "exnref"], ["noexn", "nullexnref"]
    ]"#;

    /// What those words name, in the same order.
    const HEAP_TYPES: [WasmHeapType; 14] = [
        WasmHeapType::Extern,
        WasmHeapType::NoExtern,
        WasmHeapType::Func,
        WasmHeapType::NoFunc,
        WasmHeapType::Any,
        WasmHeapType::Eq,
        WasmHeapType::I31,
        WasmHeapType::Array,
        WasmHeapType::Struct,
        WasmHeapType::None,
        WasmHeapType::Cont,
        WasmHeapType::NoCont,
        WasmHeapType::Exn,
        WasmHeapType::NoExn,
    ];

    #[test]
    fn reads_each_abstract_type(rt: HostRuntime) -> Result<(), Fail> {
        let rows = Value::from_str(rt.alloc(), WORDS)?;
        let rows = rows.as_array().ok_or("not a list")?;
        assert_eq!(rt; rows.len(), HEAP_TYPES.len());
        for (row, heap_type) in rows.iter().zip(HEAP_TYPES) {
            let want = WasmRefType {
                nullable: true,
                heap_type,
            };
            assert_eq!(rt;
                row.get(0usize).and_then(decode_heap),
                Some(heap_type),
                "at {row}"
            );
            assert_eq!(rt; row.get(0usize).and_then(decode_ref), None, "at {row}");
            assert_eq!(rt; row.get(1usize).and_then(decode_heap), None, "at {row}");
            assert_eq!(rt;
                row.get(1usize).and_then(decode_ref),
                Some(want),
                "at {row}"
            );
        }
        Ok(())
    }

    /// Values that stand for no field.
    const REFUSED: &str = r#"[
        null, 7, [], ["i32"], "", "I32", "i31", "any", {},
        {"mut":"i32","x":1}, {"mut":{"mut":"i32"}}, {"mut":"i31"}, {"mut":null},
        {"ref":"any","null":"any"}, {"null":"any","x":1}, {"ref":"anyref"}, {"ref":"i32"},
        {"ref":0}, {"null":null}, {"ref":{}}, {"ref":{"func":0,"array":0}},
        {"ref":{"exn":-1}}, {"ref":{"cont":"0"}}, {"ref":{"exn":0,"fields":[]}},
        {"ref":{"tag":0}}, {"ref":{"func":4294967296}},
        {"ref":{"struct":-1}}, {"ref":{"array":1.5}}, {"ref":{"func":1.0}},
        {"ref":{"func":null}}, {"ref":{"func":"0"}}
    ]"#;

    #[test]
    fn refuses_other_values(rt: HostRuntime) -> Result<(), Fail> {
        let rows = Value::from_str(rt.alloc(), REFUSED)?;
        for row in rows.as_array().ok_or("not a list")? {
            assert_eq!(rt; decode_field(row), None, "at {row}");
        }
        Ok(())
    }
}
