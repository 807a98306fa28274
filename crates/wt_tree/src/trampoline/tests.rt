//! Which types are their own trampolines, and what the trampolines of others are.

use super::*;
use std::test::Fail;
use wt_env::seq::Seq;
use wt_env::types::{
    EngineOrModuleTypeIndex, ModuleInternedTypeIndex, WasmFuncType, WasmHeapType, WasmRefType,
    WasmStructType, WasmValType,
};

fn index(index: u32) -> EngineOrModuleTypeIndex {
    EngineOrModuleTypeIndex::Module(ModuleInternedTypeIndex(index))
}

fn reference(nullable: bool, heap_type: WasmHeapType) -> WasmValType {
    WasmValType::Ref(WasmRefType {
        nullable,
        heap_type,
    })
}

/// The function type from this value to an i64.
fn function(
    alloc: Global,
    is_final: bool,
    supertype: Option<EngineOrModuleTypeIndex>,
    param: WasmValType,
) -> Result<WasmSubType, OutOfMemory> {
    Ok(WasmSubType {
        is_final,
        supertype,
        composite_type: WasmCompositeInnerType::Func(WasmFuncType {
            params: Seq::one(alloc, param)?,
            results: Seq::one(alloc, WasmValType::I64)?,
        }),
    })
}

#[test]
fn erased_final_functions_are_their_own(rt: HostRuntime) -> Result<(), Fail> {
    let alloc = rt.alloc();
    for param in [WasmValType::I32, reference(true, WasmHeapType::Any)] {
        let ty = function(alloc, true, None, param)?;
        assert!(rt; is_own_trampoline(&ty), "of {param:?}");
        assert_eq!(rt; other_trampoline(alloc, &ty)?, None, "of {param:?}");
    }
    Ok(())
}

#[test]
fn other_functions_have_another(rt: HostRuntime) -> Result<(), Fail> {
    let alloc = rt.alloc();
    let func = reference(true, WasmHeapType::Func);
    let concrete = reference(true, WasmHeapType::ConcreteFunc(index(0)));
    let rows = [
        (false, None, func),
        (true, Some(index(3)), func),
        (true, None, reference(false, WasmHeapType::Func)),
        (true, None, concrete),
        (false, Some(index(3)), concrete),
    ];
    for (is_final, supertype, param) in rows {
        let ty = function(alloc, is_final, supertype, param)?;
        let other = function(alloc, true, None, func)?;
        assert!(rt; !is_own_trampoline(&ty), "of {param:?}");
        assert_eq!(rt; other_trampoline(alloc, &ty)?, Some(other), "of {param:?}");
    }
    Ok(())
}

#[test]
fn a_struct_has_none(rt: HostRuntime) -> Result<(), Fail> {
    let alloc = rt.alloc();
    let ty = WasmSubType {
        is_final: true,
        supertype: None,
        composite_type: WasmCompositeInnerType::Struct(WasmStructType {
            fields: Seq::new(alloc),
        }),
    };
    assert!(rt; !is_own_trampoline(&ty));
    assert_eq!(rt; other_trampoline(alloc, &ty)?, None);
    Ok(())
}
