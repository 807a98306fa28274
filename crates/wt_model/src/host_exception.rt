//! Exceptions of a host, and the function types that they are over (after wasmtime).

ghost use Rattle.std.specs.Prelude.{◌≡◌, map, IfOk};
ghost use Rattle.wt_rules.specs.TypeRules.{constant_field as constant_field_of};
ghost use Rattle.wt_model.specs.HostExceptions.{exception_function as function_over, exception_over as exception_of};

use std::alloc::{AllocError, Global};
use wt_env::memory::OutOfMemory;
use wt_env::seq::Seq;
use wt_env::types::{
    EngineOrModuleTypeIndex, WasmCompositeInnerType, WasmExnType, WasmFieldType, WasmFuncType,
    WasmStorageType, WasmSubType, WasmValType,
};

/// A constant field that holds a value of this type.
fn constant_field(value: &WasmValType) -> WasmFieldType
    ensures { result ≡ constant_field_of value.now }
{
    WasmFieldType {
        element_type: WasmStorageType::Val(*value),
        mutable: false,
    }
}

fn all_constant_fields(
    alloc: Global,
    values: &[WasmValType],
) -> Result<Vec<WasmFieldType>, AllocError>
    ensures { IfOk result (λ fields. fields.items ≡ map constant_field_of values.now) }
{
    values.iter().map(constant_field).collect(alloc)
}

fn all_values(alloc: Global, values: &[WasmValType]) -> Result<Vec<WasmValType>, AllocError>
    ensures { IfOk result (λ copies. copies.items ≡ values.now) }
{
    values.iter().copied().collect(alloc)
}

/// The final function type, with no supertype, that takes values of these types and gives none.
pub fn exception_function(alloc: Global, fields: &[WasmValType]) -> Result<WasmSubType, OutOfMemory>
    ensures { IfOk result (λ ty. ty ≡ function_over fields.now) }
{
    let func = WasmFuncType {
        params: Seq::from_vec(all_values(alloc, fields)?),
        results: Seq::new(alloc),
    };
    Ok(WasmSubType {
        is_final: true,
        supertype: None,
        composite_type: WasmCompositeInnerType::Func(func),
    })
}

/// The exception over the function type that has this index: final, with no supertype, and with constant fields of these
/// types.
pub fn exception_over(
    alloc: Global,
    function: EngineOrModuleTypeIndex,
    fields: &[WasmValType],
) -> Result<WasmSubType, OutOfMemory>
    ensures { IfOk result (λ ty. ty ≡ exception_of function fields.now) }
{
    let exn = WasmExnType {
        func_ty: function,
        fields: Seq::from_vec(all_constant_fields(alloc, fields)?),
    };
    Ok(WasmSubType {
        is_final: true,
        supertype: None,
        composite_type: WasmCompositeInnerType::Exn(exn),
    })
}
