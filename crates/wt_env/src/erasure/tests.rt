//! The hierarchies of heap types, and function types with their erased forms.

use super::*;
use crate::types::{EngineOrModuleTypeIndex, ModuleInternedTypeIndex};
use std::test::Fail;

fn index(index: u32) -> EngineOrModuleTypeIndex {
    EngineOrModuleTypeIndex::Module(ModuleInternedTypeIndex(index))
}

fn reference(nullable: bool, heap_type: WasmHeapType) -> WasmValType {
    WasmValType::Ref(WasmRefType {
        nullable,
        heap_type,
    })
}

fn func(
    alloc: Global,
    params: &[WasmValType],
    results: &[WasmValType],
) -> Result<WasmFuncType, OutOfMemory> {
    Ok(WasmFuncType {
        params: Seq::from_vec(Vec::from_slice(alloc, params)?),
        results: Seq::from_vec(Vec::from_slice(alloc, results)?),
    })
}

#[test]
fn tells_each_top(rt: HostRuntime) -> Result<(), Fail> {
    let rows = [
        (WasmHeapType::Extern, WasmHeapType::Extern),
        (WasmHeapType::NoExtern, WasmHeapType::Extern),
        (WasmHeapType::Func, WasmHeapType::Func),
        (WasmHeapType::NoFunc, WasmHeapType::Func),
        (WasmHeapType::ConcreteFunc(index(0)), WasmHeapType::Func),
        (WasmHeapType::Any, WasmHeapType::Any),
        (WasmHeapType::Eq, WasmHeapType::Any),
        (WasmHeapType::I31, WasmHeapType::Any),
        (WasmHeapType::Array, WasmHeapType::Any),
        (WasmHeapType::ConcreteArray(index(1)), WasmHeapType::Any),
        (WasmHeapType::Struct, WasmHeapType::Any),
        (WasmHeapType::ConcreteStruct(index(2)), WasmHeapType::Any),
        (WasmHeapType::None, WasmHeapType::Any),
        (WasmHeapType::Exn, WasmHeapType::Exn),
        (WasmHeapType::ConcreteExn(index(3)), WasmHeapType::Exn),
        (WasmHeapType::NoExn, WasmHeapType::Exn),
        (WasmHeapType::Cont, WasmHeapType::Cont),
        (WasmHeapType::ConcreteCont(index(4)), WasmHeapType::Cont),
        (WasmHeapType::NoCont, WasmHeapType::Cont),
    ];
    for (heap_type, top) in rows {
        assert_eq!(rt; heap_type.top(), top, "of {heap_type:?}");
    }
    Ok(())
}

#[test]
fn erases_each_reference(rt: HostRuntime) -> Result<(), Fail> {
    let alloc = rt.alloc();
    let ty = func(
        alloc,
        &[
            reference(false, WasmHeapType::ConcreteFunc(index(1))),
            WasmValType::I32,
            reference(true, WasmHeapType::NoExtern),
        ],
        &[
            reference(true, WasmHeapType::I31),
            reference(false, WasmHeapType::Exn),
        ],
    )?;
    let erased = func(
        alloc,
        &[
            reference(true, WasmHeapType::Func),
            WasmValType::I32,
            reference(true, WasmHeapType::Extern),
        ],
        &[
            reference(true, WasmHeapType::Any),
            reference(true, WasmHeapType::Exn),
        ],
    )?;
    assert!(rt; !ty.is_trampoline_type());
    assert_eq!(rt; ty.trampoline_type(alloc)?, erased);
    assert!(rt; erased.is_trampoline_type());
    assert_eq!(rt; erased.trampoline_type(alloc)?, erased);
    Ok(())
}

/// Neither a reference that isn't nullable nor one to a smaller type is erased.
#[test]
fn tells_what_is_erased(rt: HostRuntime) -> Result<(), Fail> {
    let alloc = rt.alloc();
    let rows = [
        (WasmValType::V128, true),
        (reference(true, WasmHeapType::Func), true),
        (reference(true, WasmHeapType::Cont), true),
        (reference(false, WasmHeapType::Func), false),
        (reference(true, WasmHeapType::NoFunc), false),
        (reference(true, WasmHeapType::Struct), false),
        (
            reference(true, WasmHeapType::ConcreteArray(index(0))),
            false,
        ),
    ];
    for (val, erased) in rows {
        let given = func(alloc, &[WasmValType::I64, val], &[])?;
        let returned = func(alloc, &[], &[val, WasmValType::F32])?;
        assert_eq!(rt; given.is_trampoline_type(), erased, "of {val:?}");
        assert_eq!(rt; returned.is_trampoline_type(), erased, "of {val:?}");
    }
    Ok(())
}
