//! Erasure: the form of a function type by which a caller enters it that knows nothing of its references.
//! Each reference becomes the nullable top of its hierarchy (after wasmtime's environment).

ghost use Rattle.std.specs.Prelude.{◌≡◌, ◌↔◌, ◌&&◌, IsTrue, List, map, IfOk};
ghost use Rattle.std.specs.List.{list_all};
ghost use Rattle.wt_env.specs.Erasure.{top_of, erase_val, erase, is_top as top_test, is_erased_val, is_erased};

use crate::memory::OutOfMemory;
use crate::seq::Seq;
use crate::types::{WasmFuncType, WasmHeapType, WasmRefType, WasmValType};
use std::alloc::Global;

impl WasmHeapType {
    /// The top of the type's hierarchy (WebAssembly 3.0, "Heap Types").
    pub fn top(&self) -> WasmHeapType
        ensures { result ≡ top_of self.now }
    {
        match self {
            WasmHeapType::Extern | WasmHeapType::NoExtern => WasmHeapType::Extern,
            WasmHeapType::Func | WasmHeapType::ConcreteFunc(_) | WasmHeapType::NoFunc => {
                WasmHeapType::Func
            }
            WasmHeapType::Any
            | WasmHeapType::Eq
            | WasmHeapType::I31
            | WasmHeapType::Array
            | WasmHeapType::ConcreteArray(_)
            | WasmHeapType::Struct
            | WasmHeapType::ConcreteStruct(_)
            | WasmHeapType::None => WasmHeapType::Any,
            WasmHeapType::Exn | WasmHeapType::ConcreteExn(_) | WasmHeapType::NoExn => {
                WasmHeapType::Exn
            }
            WasmHeapType::Cont | WasmHeapType::ConcreteCont(_) | WasmHeapType::NoCont => {
                WasmHeapType::Cont
            }
        }
    }

    /// Whether the type is the top of its hierarchy.
    pub fn is_top(&self) -> bool
        ensures { result ≡ top_test self.now }
    {
        matches!(
            self,
            WasmHeapType::Extern
                | WasmHeapType::Func
                | WasmHeapType::Any
                | WasmHeapType::Exn
                | WasmHeapType::Cont
        )
    }
}

impl WasmValType {
    /// The erased form: a reference becomes the nullable top of its hierarchy.
    fn trampoline_type(&self) -> WasmValType
        ensures { result ≡ erase_val self.now }
    {
        match self {
            WasmValType::Ref(reference) => WasmValType::Ref(WasmRefType {
                nullable: true,
                heap_type: reference.heap_type.top(),
            }),
            _ => *self,
        }
    }

    /// Whether it is erased already.
    fn is_trampoline_type(&self) -> bool
        ensures { result ≡ is_erased_val self.now }
    {
        match self {
            WasmValType::Ref(reference) => reference.nullable && reference.heap_type.is_top(),
            _ => true,
        }
    }
}

/// Value types with their references erased.
fn erase_all(alloc: Global, types: &[WasmValType]) -> Result<Seq<WasmValType>, OutOfMemory>
    ensures { IfOk result (λ erased. erased ≡ map erase_val types.now) }
{
    let mut erased = Seq::new(alloc);
    for ty in types {
        erased.push(ty.trampoline_type())?;
    }
    Ok(erased)
}

fn are_erased(types: &[WasmValType]) -> bool
    ensures { result ≡ list_all is_erased_val types.now }
{
    types.iter().all(WasmValType::is_trampoline_type)
}

fn is_erased_func(func: &WasmFuncType) -> bool
    ensures { result ≡ is_erased func.now }
{
    are_erased(func.params.as_slice()) && are_erased(func.results.as_slice())
}

impl WasmFuncType {
    /// The function type by which a caller enters one of this type that knows nothing of its references: each
    /// of them becomes the nullable top of its hierarchy. That of an erased type is the type itself. The only
    /// error is want of memory.
    #[tactic(auto, using(crate::proofs::Erased::erased_once))]
    pub fn trampoline_type(&self, alloc: Global) -> Result<WasmFuncType, OutOfMemory>
        ensures erased { IfOk result (λ ty. ty ≡ erase self.now) }
        ensures once { IfOk result (λ ty. erase ty ≡ ty) }
    {
        Ok(WasmFuncType {
            params: erase_all(alloc, self.params.as_slice())?,
            results: erase_all(alloc, self.results.as_slice())?,
        })
    }

    /// Whether the type is its own erased form.
    pub fn is_trampoline_type(&self) -> bool
        ensures erased { IsTrue result ↔ (erase self.now ≡ self.now) }
        ensures test { result ≡ is_erased self.now }
    {
        is_erased_func(self)
    }
}

#[cfg(test)]
mod tests;
