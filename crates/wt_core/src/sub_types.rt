//! The type data of which core types are built.

ghost use Rattle.std.specs.Prelude.{◌≡◌, map, true, IfOk};
ghost use Rattle.std.specs.Option.{option_copied};
ghost use Rattle.wt_env.specs.declared.types.Kind.TheVariants as kind;
ghost use Rattle.wt_rules.specs.HostTypes.{is_host_type};
ghost use Rattle.wt_model.specs.Indices.{closed_tree};
ghost use Rattle.wt_heap.specs.ToWasm.{val_to_wasm, field_to_wasm};
ghost use Rattle.wt_core.specs.CoreTypes.{
  func_sub_type as func_sub_type_of,
  struct_sub_type as struct_sub_type_of,
  array_sub_type as array_sub_type_of,
  tag_sub_type as tag_sub_type_of,
  IsOfKind,
};

use std::alloc::{AllocError, Global};
use wt_env::memory::OutOfMemory;
use wt_env::seq::Seq;
use wt_env::types::{
    EngineOrModuleTypeIndex, VMSharedTypeIndex, WasmArrayType, WasmCompositeInnerType,
    WasmFieldType, WasmFuncType, WasmStructType, WasmSubType, WasmValType,
};
use wt_heap::field_type::FieldType;
use wt_heap::mutability::Finality;
use wt_heap::names::{ArrayName, FuncName, StructName};
use wt_heap::val_type::ValType;
use wt_registry::registry::TypeRegistry;

/// Value types as data, in order.
pub fn all_to_wasm(alloc: Global, vals: &[ValType]) -> Result<Vec<WasmValType>, AllocError>
    ensures { IfOk result (λ types. types.items ≡ map val_to_wasm vals.now) }
{
    vals.iter().map(ValType::to_wasm).collect(alloc)
}

fn vals_to_wasm(alloc: Global, vals: &[ValType]) -> Result<Seq<WasmValType>, OutOfMemory>
    ensures { IfOk result (λ types. types ≡ map val_to_wasm vals.now) }
{
    Ok(Seq::from_vec(all_to_wasm(alloc, vals)?))
}

fn all_fields_to_wasm(alloc: Global, fields: &[FieldType]) -> Result<Vec<WasmFieldType>, AllocError>
    ensures { IfOk result (λ types. types.items ≡ map field_to_wasm fields.now) }
{
    fields.iter().map(FieldType::to_wasm).collect(alloc)
}

/// The final or open function type with this supertype, these parameters and these results.
pub fn func_sub_type(
    alloc: Global,
    finality: Finality,
    supertype: Option<&FuncName>,
    params: &[ValType],
    results: &[ValType],
) -> Result<WasmSubType, OutOfMemory>
    ensures { IfOk result (λ ty. ty ≡ func_sub_type_of finality (option_copied supertype.entry) params.now results.now) }
{
    let func = WasmFuncType {
        params: vals_to_wasm(alloc, params)?,
        results: vals_to_wasm(alloc, results)?,
    };
    Ok(WasmSubType {
        is_final: finality.is_final(),
        supertype: supertype.map(|name| EngineOrModuleTypeIndex::Engine(name.index)),
        composite_type: WasmCompositeInnerType::Func(func),
    })
}

/// The final or open struct type with this supertype and these fields.
pub fn struct_sub_type(
    alloc: Global,
    finality: Finality,
    supertype: Option<&StructName>,
    fields: &[FieldType],
) -> Result<WasmSubType, OutOfMemory>
    ensures { IfOk result (λ ty. ty ≡ struct_sub_type_of finality (option_copied supertype.entry) fields.now) }
{
    let shape = WasmStructType {
        fields: Seq::from_vec(all_fields_to_wasm(alloc, fields)?),
    };
    Ok(WasmSubType {
        is_final: finality.is_final(),
        supertype: supertype.map(|name| EngineOrModuleTypeIndex::Engine(name.index)),
        composite_type: WasmCompositeInnerType::Struct(shape),
    })
}

/// The final or open array type with this supertype, and elements of this field type. It takes no memory.
pub fn array_sub_type(
    finality: Finality,
    supertype: Option<&ArrayName>,
    field_type: &FieldType,
) -> WasmSubType
    ensures { result ≡ array_sub_type_of finality (option_copied supertype.entry) field_type.now }
{
    WasmSubType {
        is_final: finality.is_final(),
        supertype: supertype.map(|name| EngineOrModuleTypeIndex::Engine(name.index)),
        composite_type: WasmCompositeInnerType::Array(WasmArrayType(field_type.to_wasm())),
    }
}

/// The exception over the registered function type that has this index, which holds its parameters.
pub fn tag_sub_type(
    registry: &TypeRegistry,
    index: VMSharedTypeIndex,
) -> Result<WasmSubType, OutOfMemory>
    requires { IsOfKind registry.now.made kind.Func index }
    ensures value { IfOk result (λ ty. ty ≡ tag_sub_type_of registry.now.made index) }
    ensures host { IfOk result (λ ty. is_host_type (closed_tree registry.now.made) ty ≡ true) }
{
    match registry.tag_exception(index)? {
        Some(ty) => Ok(ty),
        None => unreachable!(),
    }
}
