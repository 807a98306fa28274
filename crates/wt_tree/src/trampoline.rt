//! The trampolines of function types, as members of groups.

ghost use Rattle.std.specs.Prelude.{◌≡◌, IfOk, Some, option_map};
ghost use Rattle.wt_tree.specs.Trampoline.{is_own_trampoline as own_test, is_erased_shape, other_trampoline as other_of};

use std::alloc::Global;
use wt_env::memory::OutOfMemory;
use wt_env::types::{WasmCompositeInnerType, WasmSubType};

fn is_erased_function(shape: &WasmCompositeInnerType) -> bool
    ensures { result ≡ is_erased_shape shape.now }
{
    match shape {
        WasmCompositeInnerType::Func(func) => func.is_trampoline_type(),
        _ => false,
    }
}

/// Whether a sub type is its own trampoline: a final function with no supertype, each of whose references is
/// the nullable top of its hierarchy.
pub fn is_own_trampoline(ty: &WasmSubType) -> bool
    ensures { result ≡ own_test ty.now }
{
    ty.is_final && ty.supertype.is_none() && is_erased_function(&ty.composite_type)
}

/// The trampoline of a function that isn't its own: final, with no supertype, and erased. `None` for what is its
/// own trampoline, and for what is no function. The only error is want of memory.
pub fn other_trampoline(alloc: Global, ty: &WasmSubType) -> Result<Option<WasmSubType>, OutOfMemory>
    ensures { IfOk result (λ other. other ≡ other_of ty.now) }
{
    if is_own_trampoline(ty) {
        return Ok(None);
    }
    match &ty.composite_type {
        WasmCompositeInnerType::Func(func) => Ok(Some(WasmSubType {
            is_final: true,
            supertype: None,
            composite_type: WasmCompositeInnerType::Func(func.trampoline_type(alloc)?),
        })),
        _ => Ok(None),
    }
}

#[cfg(test)]
mod tests;
