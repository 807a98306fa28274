//! The test for the types that can be registered so far.

ghost use Rattle.std.specs.Prelude.{◌≡◌};
ghost use Rattle.std.specs.List.{list_all};
ghost use Rattle.wt_tree.specs.NumberFunction.{is_number as number_test, is_over_numbers as shape_test, is_number_function as sub_type_test};

use wt_env::types::{WasmCompositeInnerType, WasmSubType, WasmValType};

/// Whether a value type is a number or a vector.
pub fn is_number(ty: &WasmValType) -> bool
    ensures { result ≡ number_test ty.now }
{
    match ty {
        WasmValType::I32
        | WasmValType::I64
        | WasmValType::F32
        | WasmValType::F64
        | WasmValType::V128 => true,
        WasmValType::Ref(_) => false,
    }
}

fn are_numbers(types: &[WasmValType]) -> bool
    ensures { result ≡ list_all number_test types.now }
{
    types.iter().all(is_number)
}

fn is_over_numbers(shape: &WasmCompositeInnerType) -> bool
    ensures { result ≡ shape_test shape.now }
{
    match shape {
        WasmCompositeInnerType::Func(func) => {
            are_numbers(func.params.as_slice()) && are_numbers(func.results.as_slice())
        }
        _ => false,
    }
}

/// Whether a sub type is final, has no supertype, and is a function over numbers and vectors.
pub fn is_number_function(ty: &WasmSubType) -> bool
    ensures { result ≡ sub_type_test ty.now }
{
    ty.is_final && ty.supertype.is_none() && is_over_numbers(&ty.composite_type)
}
