//! Tables of the standard, asked of abstract types and of two structs, of which one is the other's supertype.

ghost use Rattle.std.specs.Prelude.{◌≡◌, IsTrue, IfOk, Option, Some};
ghost use Rattle.wt_tree.specs.PlainTypes.{plain_types};
ghost use Rattle.wt_heap.specs.Engines.{heap_engine, AreOfOneEngine};
ghost use Rattle.wt_heap.specs.Matches.{HeapIsKnown};

use crate::field_type::FieldType;
use crate::heap_type::HeapType;
use crate::hierarchy::{HeapBottomType, HeapTopType};
use crate::mutability::{Finality, Mutability};
use crate::names::{ArrayName, ContName, ExnName, FuncName, StructName};
use crate::ref_type::RefType;
use crate::storage_type::StorageType;
use crate::val_type::{ValDefault, ValType};
use std::alloc::Global;
use std::test::Fail;
use wt_env::memory::OutOfMemory;
use wt_env::seq::Seq;
use wt_env::types::{
    EngineOrModuleTypeIndex, VMSharedTypeIndex, WasmCompositeInnerType, WasmFieldType,
    WasmHeapType, WasmRefType, WasmStorageType, WasmStructType, WasmSubType, WasmValType,
};
use wt_tree::plain_supers::PlainSupers;
use wt_tree::supers::Types;

const UPPER: VMSharedTypeIndex = VMSharedTypeIndex(0);

const LOWER: VMSharedTypeIndex = VMSharedTypeIndex(1);

/// A struct type, and a final one that declares it as its supertype.
fn two_structs(alloc: Global) -> Result<PlainSupers, OutOfMemory> {
    let upper = WasmSubType {
        is_final: false,
        supertype: None,
        composite_type: WasmCompositeInnerType::Struct(WasmStructType {
            fields: Seq::new(alloc),
        }),
    };
    let lower = WasmSubType {
        is_final: true,
        supertype: Some(EngineOrModuleTypeIndex::Engine(VMSharedTypeIndex(0))),
        composite_type: WasmCompositeInnerType::Struct(WasmStructType {
            fields: Seq::new(alloc),
        }),
    };
    let mut types = Seq::one(alloc, upper)?;
    types.push(lower)?;
    Ok(PlainSupers::new(types))
}

/// Whether what a heap type names is one of these.
#[tactic(auto, using(crate::proofs::KnownTypes::known_one, crate::proofs::KnownTypes::known_none))]
fn is_known(heap: &HeapType, supers: &PlainSupers) -> bool
    ensures { IsTrue result → HeapIsKnown (plain_types supers.now) heap.now }
{
    match heap {
        HeapType::ConcreteFunc(name) => supers.borrow(name.index).is_some(),
        HeapType::ConcreteArray(name) => supers.borrow(name.index).is_some(),
        HeapType::ConcreteStruct(name) => supers.borrow(name.index).is_some(),
        HeapType::ConcreteExn(name) => supers.borrow(name.index).is_some(),
        HeapType::ConcreteCont(name) => supers.borrow(name.index).is_some(),
        _ => true,
    }
}

/// The engine of the type that a heap type names.
fn engine_of(heap: &HeapType) -> Option<u64>
    ensures { result ≡ heap_engine heap.now }
{
    match heap {
        HeapType::ConcreteFunc(name) => Some(name.engine),
        HeapType::ConcreteArray(name) => Some(name.engine),
        HeapType::ConcreteStruct(name) => Some(name.engine),
        HeapType::ConcreteExn(name) => Some(name.engine),
        HeapType::ConcreteCont(name) => Some(name.engine),
        _ => None,
    }
}

fn is_of_one_engine(a: &HeapType, b: &HeapType) -> bool
    ensures { IsTrue result → AreOfOneEngine (heap_engine a.now) (heap_engine b.now) }
{
    match (engine_of(a), engine_of(b)) {
        (Some(a), Some(b)) => a == b,
        _ => true,
    }
}

/// Whether the two may be compared.
fn may_compare(a: &HeapType, b: &HeapType, supers: &PlainSupers) -> bool
    ensures a { IsTrue result → HeapIsKnown (plain_types supers.now) a.now }
    ensures b { IsTrue result → HeapIsKnown (plain_types supers.now) b.now }
    ensures one_engine { IsTrue result → AreOfOneEngine (heap_engine a.now) (heap_engine b.now) }
{
    is_known(a, supers) && is_known(b, supers) && is_of_one_engine(a, b)
}

/// Whether a heap type matches another, and whether they are one; `None` where they may not be compared.
fn asked(sub: &HeapType, sup: &HeapType, supers: &PlainSupers) -> Option<(bool, bool)> {
    if may_compare(sub, sup, supers) {
        Some((sub.matches(sup, supers), HeapType::eq(sub, sup, supers)))
    } else {
        None
    }
}

const FUNC: HeapType = HeapType::ConcreteFunc(FuncName {
    engine: 1,
    index: UPPER,
});

const ARRAY: HeapType = HeapType::ConcreteArray(ArrayName {
    engine: 1,
    index: UPPER,
});

const UPPER_STRUCT: HeapType = HeapType::ConcreteStruct(StructName {
    engine: 1,
    index: UPPER,
});

const LOWER_STRUCT: HeapType = HeapType::ConcreteStruct(StructName {
    engine: 1,
    index: LOWER,
});

const EXN: HeapType = HeapType::ConcreteExn(ExnName {
    engine: 1,
    index: UPPER,
});

const CONT: HeapType = HeapType::ConcreteCont(ContName {
    engine: 1,
    index: UPPER,
});

/// Each heap type, with the top and the bottom of its hierarchy (WebAssembly 3.0, "Heap Types"; continuations and
/// concrete exceptions after wasmtime). A name of another kind than the type's is known too, and matches by its kind.
const HEAP_TYPES: [(HeapType, HeapTopType, HeapBottomType); 20] = [
    (
        HeapType::Extern,
        HeapTopType::Extern,
        HeapBottomType::NoExtern,
    ),
    (
        HeapType::NoExtern,
        HeapTopType::Extern,
        HeapBottomType::NoExtern,
    ),
    (HeapType::Func, HeapTopType::Func, HeapBottomType::NoFunc),
    (FUNC, HeapTopType::Func, HeapBottomType::NoFunc),
    (HeapType::NoFunc, HeapTopType::Func, HeapBottomType::NoFunc),
    (HeapType::Any, HeapTopType::Any, HeapBottomType::None),
    (HeapType::Eq, HeapTopType::Any, HeapBottomType::None),
    (HeapType::I31, HeapTopType::Any, HeapBottomType::None),
    (HeapType::Array, HeapTopType::Any, HeapBottomType::None),
    (ARRAY, HeapTopType::Any, HeapBottomType::None),
    (HeapType::Struct, HeapTopType::Any, HeapBottomType::None),
    (UPPER_STRUCT, HeapTopType::Any, HeapBottomType::None),
    (LOWER_STRUCT, HeapTopType::Any, HeapBottomType::None),
    (HeapType::None, HeapTopType::Any, HeapBottomType::None),
    (HeapType::Exn, HeapTopType::Exn, HeapBottomType::NoExn),
    (EXN, HeapTopType::Exn, HeapBottomType::NoExn),
    (HeapType::NoExn, HeapTopType::Exn, HeapBottomType::NoExn),
    (HeapType::Cont, HeapTopType::Cont, HeapBottomType::NoCont),
    (CONT, HeapTopType::Cont, HeapBottomType::NoCont),
    (HeapType::NoCont, HeapTopType::Cont, HeapBottomType::NoCont),
];

/// What each heap type matches besides itself (WebAssembly 3.0, "Matching", "Heap Types"; continuations and concrete
/// exceptions after wasmtime).
const BELOW: [(HeapType, HeapType); 35] = [
    (HeapType::NoExtern, HeapType::Extern),
    (FUNC, HeapType::Func),
    (HeapType::NoFunc, FUNC),
    (HeapType::NoFunc, HeapType::Func),
    (HeapType::Eq, HeapType::Any),
    (HeapType::I31, HeapType::Eq),
    (HeapType::I31, HeapType::Any),
    (HeapType::Array, HeapType::Eq),
    (HeapType::Array, HeapType::Any),
    (HeapType::Struct, HeapType::Eq),
    (HeapType::Struct, HeapType::Any),
    (ARRAY, HeapType::Array),
    (ARRAY, HeapType::Eq),
    (ARRAY, HeapType::Any),
    (UPPER_STRUCT, HeapType::Struct),
    (UPPER_STRUCT, HeapType::Eq),
    (UPPER_STRUCT, HeapType::Any),
    (LOWER_STRUCT, UPPER_STRUCT),
    (LOWER_STRUCT, HeapType::Struct),
    (LOWER_STRUCT, HeapType::Eq),
    (LOWER_STRUCT, HeapType::Any),
    (HeapType::None, ARRAY),
    (HeapType::None, UPPER_STRUCT),
    (HeapType::None, LOWER_STRUCT),
    (HeapType::None, HeapType::Array),
    (HeapType::None, HeapType::Struct),
    (HeapType::None, HeapType::I31),
    (HeapType::None, HeapType::Eq),
    (HeapType::None, HeapType::Any),
    (CONT, HeapType::Cont),
    (HeapType::NoCont, CONT),
    (HeapType::NoCont, HeapType::Cont),
    (EXN, HeapType::Exn),
    (HeapType::NoExn, EXN),
    (HeapType::NoExn, HeapType::Exn),
];

#[test]
fn heap_types_are_ordered(rt: HostRuntime) -> Result<(), Fail> {
    let supers = two_structs(rt.alloc())?;
    for (sub, _, _) in HEAP_TYPES {
        for (sup, _, _) in HEAP_TYPES {
            let is_same = sub == sup;
            let matches = is_same || BELOW.contains(&(sub, sup));
            assert_eq!(rt; asked(&sub, &sup, &supers), Some((matches, is_same)));
        }
    }
    Ok(())
}

#[test]
fn hierarchies_have_tops_and_bottoms(rt: HostRuntime) -> Result<(), Fail> {
    for (heap, top, bottom) in HEAP_TYPES {
        assert_eq!(rt; heap.top(), top);
        assert_eq!(rt; heap.bottom(), bottom);
        assert_eq!(rt; heap.is_top(), heap == HeapType::from(top));
        assert_eq!(rt; heap.is_bottom(), heap == HeapType::from(bottom));
    }
    Ok(())
}

/// The nullable reference types to abstract heap types, by the words of the text format (WebAssembly 3.0, "Text Format",
/// "Reference Types"; continuations after wasmtime).
const ABSTRACT: [(RefType, ValType, HeapType); 14] = [
    (RefType::EXTERNREF, ValType::EXTERNREF, HeapType::Extern),
    (
        RefType::NULLEXTERNREF,
        ValType::NULLEXTERNREF,
        HeapType::NoExtern,
    ),
    (RefType::FUNCREF, ValType::FUNCREF, HeapType::Func),
    (RefType::NULLFUNCREF, ValType::NULLFUNCREF, HeapType::NoFunc),
    (RefType::ANYREF, ValType::ANYREF, HeapType::Any),
    (RefType::EQREF, ValType::EQREF, HeapType::Eq),
    (RefType::I31REF, ValType::I31REF, HeapType::I31),
    (RefType::ARRAYREF, ValType::ARRAYREF, HeapType::Array),
    (RefType::STRUCTREF, ValType::STRUCTREF, HeapType::Struct),
    (RefType::NULLREF, ValType::NULLREF, HeapType::None),
    (RefType::CONTREF, ValType::CONTREF, HeapType::Cont),
    (RefType::NULLCONTREF, ValType::NULLCONTREF, HeapType::NoCont),
    (RefType::EXNREF, ValType::EXNREF, HeapType::Exn),
    (RefType::NULLEXNREF, ValType::NULLEXNREF, HeapType::NoExn),
];

#[test]
fn constants_are_nullable(rt: HostRuntime) -> Result<(), Fail> {
    for (reference, value, heap) in ABSTRACT {
        assert!(rt; reference.is_nullable());
        assert_eq!(rt; *reference.heap_type(), heap);
        assert_eq!(rt; RefType::new(true, heap), reference);
        assert_eq!(rt; ValType::from(reference), value);
        assert_eq!(rt; value.as_ref(), Some(&reference));
        assert_eq!(rt; value.is_funcref(), heap == HeapType::Func);
        assert_eq!(rt; value.is_externref(), heap == HeapType::Extern);
        assert_eq!(rt; value.is_anyref(), heap == HeapType::Any);
        assert_eq!(rt; value.is_contref(), heap == HeapType::Cont);
        assert!(rt; value.is_ref() && !value.is_num() && !value.is_v128());
    }
    let func = ValType::from(RefType::new(false, HeapType::Func));
    assert!(rt; func.is_ref() && !func.is_funcref());
    Ok(())
}

#[test]
fn heap_types_are_told_apart(rt: HostRuntime) -> Result<(), Fail> {
    for (heap, _, _) in HEAP_TYPES {
        assert_eq!(rt; heap.is_extern(), heap == HeapType::Extern);
        assert_eq!(rt; heap.is_func(), heap == HeapType::Func);
        assert_eq!(rt; heap.is_no_func(), heap == HeapType::NoFunc);
        assert_eq!(rt; heap.is_any(), heap == HeapType::Any);
        assert_eq!(rt; heap.is_i31(), heap == HeapType::I31);
        assert_eq!(rt; heap.is_none(), heap == HeapType::None);
        assert_eq!(rt; heap.is_cont(), heap == HeapType::Cont);
        assert_eq!(rt; heap.is_exn(), heap == HeapType::Exn);
        assert_eq!(rt; heap.is_no_exn(), heap == HeapType::NoExn);
        assert_eq!(rt; heap.is_concrete(), engine_of(&heap) == Some(1));
        assert_eq!(rt; heap.is_abstract(), engine_of(&heap) == None);
        assert_eq!(rt; heap.is_concrete_func(), heap == FUNC);
        assert_eq!(rt; heap.is_concrete_array(), heap == ARRAY);
        assert_eq!(rt;
            heap.is_concrete_struct(),
            heap == UPPER_STRUCT || heap == LOWER_STRUCT
        );
        assert_eq!(rt; heap.is_concrete_cont(), heap == CONT);
        assert_eq!(rt; heap.is_concrete_exn(), heap == EXN);
    }
    Ok(())
}

#[test]
fn names_are_read_back(rt: HostRuntime) -> Result<(), Fail> {
    let (engine, index) = (1, UPPER);
    let func = FuncName { engine, index };
    let array = ArrayName { engine, index };
    let name = StructName { engine, index };
    let cont = ContName { engine, index };
    let exn = ExnName { engine, index };
    assert_eq!(rt; HeapType::from(func), FUNC);
    assert_eq!(rt; HeapType::from(array), ARRAY);
    assert_eq!(rt; HeapType::from(name), UPPER_STRUCT);
    assert_eq!(rt; HeapType::from(cont), CONT);
    assert_eq!(rt; HeapType::from(exn), EXN);
    assert_eq!(rt; HeapType::from(func).as_concrete_func(), Some(&func));
    assert_eq!(rt; HeapType::from(array).as_concrete_array(), Some(&array));
    assert_eq!(rt; HeapType::from(name).as_concrete_struct(), Some(&name));
    assert_eq!(rt; HeapType::from(cont).as_concrete_cont(), Some(&cont));
    assert_eq!(rt; HeapType::from(exn).as_concrete_exn(), Some(&exn));
    assert_eq!(rt; HeapType::Func.as_concrete_func(), None);
    assert_eq!(rt; *HeapType::from(func).unwrap_concrete_func(), func);
    assert_eq!(rt; *HeapType::from(array).unwrap_concrete_array(), array);
    assert_eq!(rt; *HeapType::from(name).unwrap_concrete_struct(), name);
    assert_eq!(rt; *HeapType::from(cont).unwrap_concrete_cont(), cont);
    Ok(())
}

#[test]
fn numbers_and_attributes_are_told_apart(rt: HostRuntime) -> Result<(), Fail> {
    let numbers = [ValType::I32, ValType::I64, ValType::F32, ValType::F64];
    for number in numbers {
        assert!(rt; number.is_num() && !number.is_ref() && number.as_ref() == None);
        assert_eq!(rt; number.is_i32(), number == ValType::I32);
        assert_eq!(rt; number.is_i64(), number == ValType::I64);
        assert_eq!(rt; number.is_f32(), number == ValType::F32);
        assert_eq!(rt; number.is_f64(), number == ValType::F64);
    }
    assert!(rt; ValType::V128.is_v128() && !ValType::V128.is_num());
    assert_eq!(rt; *ValType::ANYREF.unwrap_ref(), RefType::ANYREF);
    assert!(rt; Mutability::Const.is_const() && !Mutability::Const.is_var());
    assert!(rt; Mutability::Var.is_var() && !Mutability::Var.is_const());
    assert!(rt; Finality::Final.is_final() && !Finality::Final.is_non_final());
    assert!(rt; Finality::NonFinal.is_non_final() && !Finality::NonFinal.is_final());
    Ok(())
}

#[test]
fn storage_types_unpack(rt: HostRuntime) -> Result<(), Fail> {
    let value = StorageType::from(ValType::F64);
    assert!(rt; StorageType::I8.is_i8() && !StorageType::I8.is_i16());
    assert!(rt; StorageType::I16.is_i16() && !StorageType::I16.is_i8());
    assert!(rt; value.is_val_type() && !value.is_i8() && !value.is_i16());
    assert!(rt; !StorageType::I8.is_val_type() && !StorageType::I16.is_val_type());
    assert_eq!(rt; StorageType::I16.as_val_type(), None);
    assert_eq!(rt; value.as_val_type(), Some(&ValType::F64));
    assert_eq!(rt; *value.unwrap_val_type(), ValType::F64);
    assert_eq!(rt; *StorageType::I8.unpack(), ValType::I32);
    assert_eq!(rt; *StorageType::I16.unpack(), ValType::I32);
    assert_eq!(rt; *value.unpack(), ValType::F64);
    let reference = StorageType::from(RefType::EQREF);
    assert_eq!(rt; reference, StorageType::ValType(ValType::EQREF));
    let field = FieldType::new(Mutability::Var, reference);
    assert_eq!(rt; field.mutability(), Mutability::Var);
    assert_eq!(rt; *field.element_type(), reference);
    Ok(())
}

#[test]
fn defaults_are_zero_or_null(rt: HostRuntime) -> Result<(), Fail> {
    assert_eq!(rt; ValType::I32.default_value(), Some(ValDefault::I32));
    assert_eq!(rt; ValType::I64.default_value(), Some(ValDefault::I64));
    assert_eq!(rt; ValType::F32.default_value(), Some(ValDefault::F32));
    assert_eq!(rt; ValType::F64.default_value(), Some(ValDefault::F64));
    assert_eq!(rt; ValType::V128.default_value(), Some(ValDefault::V128));
    for (heap, top, _) in HEAP_TYPES {
        let nullable = ValType::from(RefType::new(true, heap));
        let non_nullable = ValType::from(RefType::new(false, heap));
        assert_eq!(rt; nullable.default_value(), Some(ValDefault::Null(top)));
        assert_eq!(rt; non_nullable.default_value(), None);
    }
    Ok(())
}

/// Whether a reference type matches another, where it does so as a value and as what is stored too.
fn references_match(sub: RefType, sup: RefType, supers: &PlainSupers) -> Option<bool> {
    if !may_compare(sub.heap_type(), sup.heap_type(), supers) {
        return None;
    }
    let reference = sub.matches(&sup, supers);
    let value = ValType::from(sub).matches(&ValType::from(sup), supers);
    let storage = StorageType::from(sub).matches(&StorageType::from(sup), supers);
    if reference == value && value == storage {
        Some(reference)
    } else {
        None
    }
}

/// Whether two reference types are one, where they are so as values and as what is stored too.
fn references_equal(a: RefType, b: RefType, supers: &PlainSupers) -> Option<bool> {
    if !may_compare(a.heap_type(), b.heap_type(), supers) {
        return None;
    }
    let reference = RefType::eq(&a, &b, supers);
    let value = ValType::eq(&ValType::from(a), &ValType::from(b), supers);
    let storage = StorageType::eq(&StorageType::from(a), &StorageType::from(b), supers);
    if reference == value && value == storage {
        Some(reference)
    } else {
        None
    }
}

/// Whether a field of references matches another, and whether they are one.
fn fields_asked(
    sub: (Mutability, RefType),
    sup: (Mutability, RefType),
    supers: &PlainSupers,
) -> Option<(bool, bool)> {
    if !may_compare(sub.1.heap_type(), sup.1.heap_type(), supers) {
        return None;
    }
    let sub = FieldType::new(sub.0, StorageType::from(sub.1));
    let sup = FieldType::new(sup.0, StorageType::from(sup.1));
    Some((sub.matches(&sup, supers), FieldType::eq(&sub, &sup, supers)))
}

#[test]
fn references_match_by_nullability(rt: HostRuntime) -> Result<(), Fail> {
    let supers = two_structs(rt.alloc())?;
    for sub_null in [false, true] {
        for sup_null in [false, true] {
            let lower = RefType::new(sub_null, LOWER_STRUCT);
            let upper = RefType::new(sup_null, UPPER_STRUCT);
            let func = RefType::new(sup_null, FUNC);
            let fits = !sub_null || sup_null;
            assert_eq!(rt; references_match(lower, upper, &supers), Some(fits));
            assert_eq!(rt; references_match(upper, lower, &supers), Some(false));
            assert_eq!(rt; references_match(lower, func, &supers), Some(false));
            assert_eq!(rt; references_equal(lower, upper, &supers), Some(false));
            let same = RefType::new(sup_null, LOWER_STRUCT);
            let is_same = sub_null == sup_null;
            assert_eq!(rt; references_equal(lower, same, &supers), Some(is_same));
        }
    }
    Ok(())
}

#[test]
fn variable_fields_are_invariant(rt: HostRuntime) -> Result<(), Fail> {
    let supers = two_structs(rt.alloc())?;
    let lower = RefType::new(false, LOWER_STRUCT);
    let upper = RefType::new(true, UPPER_STRUCT);
    let rows = [
        (
            (Mutability::Const, lower),
            (Mutability::Const, upper),
            (true, false),
        ),
        (
            (Mutability::Const, upper),
            (Mutability::Const, lower),
            (false, false),
        ),
        (
            (Mutability::Const, lower),
            (Mutability::Const, lower),
            (true, true),
        ),
        (
            (Mutability::Var, lower),
            (Mutability::Var, upper),
            (false, false),
        ),
        (
            (Mutability::Var, lower),
            (Mutability::Var, lower),
            (true, true),
        ),
        (
            (Mutability::Const, lower),
            (Mutability::Var, lower),
            (false, false),
        ),
        (
            (Mutability::Var, lower),
            (Mutability::Const, lower),
            (false, false),
        ),
    ];
    for (sub, sup, answers) in rows {
        assert_eq!(rt; fields_asked(sub, sup, &supers), Some(answers));
    }
    Ok(())
}

#[test]
#[tactic(auto, using(crate::proofs::KnownTypes::known_none))]
fn numbers_match_themselves(rt: HostRuntime) -> Result<(), Fail> {
    let supers = two_structs(rt.alloc())?;
    assert!(rt; ValType::I32.matches(&ValType::I32, &supers));
    assert!(rt; !ValType::I32.matches(&ValType::I64, &supers));
    assert!(rt; !ValType::F32.matches(&ValType::FUNCREF, &supers));
    assert!(rt; StorageType::I8.matches(&StorageType::I8, &supers));
    assert!(rt; !StorageType::I8.matches(&StorageType::I16, &supers));
    assert!(rt; !StorageType::I16.matches(&StorageType::ValType(ValType::I32), &supers));
    Ok(())
}

#[test]
fn type_data_goes_and_comes_back(rt: HostRuntime) -> Result<(), Fail> {
    let reference = RefType::new(true, LOWER_STRUCT);
    let field = FieldType::new(Mutability::Var, StorageType::from(reference));
    let data = WasmFieldType {
        element_type: WasmStorageType::Val(WasmValType::Ref(WasmRefType {
            nullable: true,
            heap_type: WasmHeapType::ConcreteStruct(EngineOrModuleTypeIndex::Engine(LOWER)),
        })),
        mutable: true,
    };
    assert_eq!(rt; field.to_wasm(), data);
    assert_eq!(rt; FieldType::from_wasm(1, &data), field);
    Ok(())
}
