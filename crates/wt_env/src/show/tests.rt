//! Rows of texts, as wasmtime prints types; of module indices, places and continuations, as the crate does.

use super::*;
use crate::memory::OutOfMemory;
use crate::seq::Seq;
use std::alloc::Global;
use std::test::Fail;

const REGISTERED: EngineOrModuleTypeIndex = EngineOrModuleTypeIndex::Engine(VMSharedTypeIndex(3));

const OF_THE_MODULE: EngineOrModuleTypeIndex = EngineOrModuleTypeIndex::Module(
    ModuleInternedTypeIndex(12),
);

const OF_THE_GROUP: EngineOrModuleTypeIndex = EngineOrModuleTypeIndex::RecGroup(0);

const NULLABLE_FUNC: WasmValType = WasmValType::Ref(WasmRefType {
    nullable: true,
    heap_type: WasmHeapType::Func,
});

const NON_NULL_STRUCT: WasmValType = WasmValType::Ref(WasmRefType {
    nullable: false,
    heap_type: WasmHeapType::ConcreteStruct(REGISTERED),
});

const PLAIN: WasmFieldType = WasmFieldType {
    element_type: WasmStorageType::Val(WasmValType::I32),
    mutable: false,
};

const VARIABLE: WasmFieldType = WasmFieldType {
    element_type: WasmStorageType::I8,
    mutable: true,
};

/// Two in order.
fn pair<T: Drop>(alloc: Global, first: T, second: T) -> Result<Seq<T>, OutOfMemory> {
    let mut items = Seq::one(alloc, first)?;
    items.push(second)?;
    Ok(items)
}

#[test]
fn tells_heap_types(rt: HostRuntime) -> Result<(), Fail> {
    let rows = [
        (WasmHeapType::Extern, "extern"),
        (WasmHeapType::NoExtern, "noextern"),
        (WasmHeapType::Func, "func"),
        (
            WasmHeapType::ConcreteFunc(REGISTERED),
            "(concrete func VMSharedTypeIndex(3))",
        ),
        (WasmHeapType::NoFunc, "nofunc"),
        (WasmHeapType::Any, "any"),
        (WasmHeapType::Eq, "eq"),
        (WasmHeapType::I31, "i31"),
        (WasmHeapType::Array, "array"),
        (
            WasmHeapType::ConcreteArray(OF_THE_MODULE),
            "(concrete array ModuleInternedTypeIndex(12))",
        ),
        (WasmHeapType::Struct, "struct"),
        (
            WasmHeapType::ConcreteStruct(OF_THE_GROUP),
            "(concrete struct RecGroup(0))",
        ),
        (WasmHeapType::Exn, "exn"),
        (
            WasmHeapType::ConcreteExn(REGISTERED),
            "(concrete exn VMSharedTypeIndex(3))",
        ),
        (
            WasmHeapType::ConcreteCont(REGISTERED),
            "(concrete cont VMSharedTypeIndex(3))",
        ),
        (WasmHeapType::Cont, "cont"),
        (WasmHeapType::NoCont, "nocont"),
        (WasmHeapType::None, "none"),
        (WasmHeapType::NoExn, "noexn"),
    ];
    for (heap_type, text) in rows {
        let told = format!(in rt.alloc(); "{heap_type}")?;
        assert_eq!(rt; told.as_str(), text);
    }
    Ok(())
}

#[test]
fn tells_values_and_fields(rt: HostRuntime) -> Result<(), Fail> {
    let rows = [
        (WasmValType::I32, "i32"),
        (WasmValType::I64, "i64"),
        (WasmValType::F32, "f32"),
        (WasmValType::F64, "f64"),
        (WasmValType::V128, "v128"),
        (NULLABLE_FUNC, "(ref null func)"),
        (
            NON_NULL_STRUCT,
            "(ref (concrete struct VMSharedTypeIndex(3)))",
        ),
    ];
    for (ty, text) in rows {
        let told = format!(in rt.alloc(); "{ty}")?;
        assert_eq!(rt; told.as_str(), text);
    }
    let packed = format!(in rt.alloc(); "{}", WasmStorageType::I16)?;
    assert_eq!(rt; packed.as_str(), "i16");
    let plain = format!(in rt.alloc(); "{PLAIN}")?;
    assert_eq!(rt; plain.as_str(), "i32");
    let variable = format!(in rt.alloc(); "{VARIABLE}")?;
    assert_eq!(rt; variable.as_str(), "(mut i8)");
    Ok(())
}

#[test]
fn tells_functions(rt: HostRuntime) -> Result<(), Fail> {
    let nothing = WasmFuncType {
        params: Seq::new(rt.alloc()),
        results: Seq::new(rt.alloc()),
    };
    let told = format!(in rt.alloc(); "{nothing}")?;
    assert_eq!(rt; told.as_str(), "(type (func))");

    let gives = WasmFuncType {
        params: Seq::new(rt.alloc()),
        results: Seq::one(rt.alloc(), WasmValType::F64)?,
    };
    let told = format!(in rt.alloc(); "{gives}")?;
    assert_eq!(rt; told.as_str(), "(type (func (result f64)))");

    let both = WasmFuncType {
        params: pair(rt.alloc(), WasmValType::I32, NULLABLE_FUNC)?,
        results: pair(rt.alloc(), WasmValType::I64, WasmValType::V128)?,
    };
    let told = format!(in rt.alloc(); "{both}")?;
    assert_eq!(rt;
        told.as_str(),
        "(type (func (param i32 (ref null func)) (result i64 v128)))"
    );
    Ok(())
}

#[test]
fn tells_shapes(rt: HostRuntime) -> Result<(), Fail> {
    let empty = WasmStructType {
        fields: Seq::new(rt.alloc()),
    };
    let told = format!(in rt.alloc(); "{empty}")?;
    assert_eq!(rt; told.as_str(), "(struct)");

    let fields = WasmStructType {
        fields: pair(rt.alloc(), PLAIN, VARIABLE)?,
    };
    let shape = WasmCompositeInnerType::Struct(fields);
    let told = format!(in rt.alloc(); "{shape}")?;
    assert_eq!(rt; told.as_str(), "(struct (field i32) (field (mut i8)))");

    let array = WasmCompositeInnerType::Array(WasmArrayType(VARIABLE));
    let told = format!(in rt.alloc(); "{array}")?;
    assert_eq!(rt; told.as_str(), "(array (field (mut i8)))");

    let exn = WasmCompositeInnerType::Exn(WasmExnType {
        func_ty: REGISTERED,
        fields: Seq::one(rt.alloc(), PLAIN)?,
    });
    let told = format!(in rt.alloc(); "{exn}")?;
    assert_eq!(rt; told.as_str(), "(exn VMSharedTypeIndex(3) (field i32))");
    Ok(())
}

#[test]
fn tells_no_supertype(rt: HostRuntime) -> Result<(), Fail> {
    let ty = WasmSubType {
        is_final: false,
        supertype: Some(OF_THE_GROUP),
        composite_type: WasmCompositeInnerType::Cont(WasmContType(REGISTERED)),
    };
    let told = format!(in rt.alloc(); "{ty}")?;
    assert_eq!(rt; told.as_str(), "(cont VMSharedTypeIndex(3))");
    Ok(())
}
