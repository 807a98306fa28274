//! The kinds of types, and a test of the references that say one, over a whole shape. It rests on the data of core types
//! alone.

ghost use Rattle.std.specs.Prelude.{◌≡◌, Bool};
ghost use Rattle.std.specs.List.{list_any};
ghost use Rattle.wt_env.specs.declared.types.EngineOrModuleTypeIndex.{EngineOrModuleTypeIndex as Index};
ghost use Rattle.wt_env.specs.declared.types.Kind.{Kind as KindOfType};
ghost use Rattle.wt_tree.specs.Kinds as kinded;

use wt_env::types::{
    EngineOrModuleTypeIndex, Kind, WasmCompositeInnerType, WasmFieldType, WasmHeapType,
    WasmStorageType, WasmValType,
};

/// The kind of a shape.
pub fn kind_of(shape: &WasmCompositeInnerType) -> Kind
    ensures { result ≡ kinded.kind_of shape.now }
{
    match shape {
        WasmCompositeInnerType::Func(_) => Kind::Func,
        WasmCompositeInnerType::Struct(_) => Kind::Struct,
        WasmCompositeInnerType::Array(_) => Kind::Array,
        WasmCompositeInnerType::Exn(_) => Kind::Exn,
        WasmCompositeInnerType::Cont(_) => Kind::Cont,
    }
}

/// Whether the two kinds are one.
pub fn is_same_kind(wanted: Kind, found: Kind) -> bool
    ensures { result ≡ kinded.kind_eq wanted found }
{
    wanted == found
}

/// A test of the references that say a kind.
pub trait ReferenceTest {
    ghost breaks: { Self → KindOfType → Index → Bool };

    fn is_broken_by(&self, wanted: Kind, index: EngineOrModuleTypeIndex) -> bool
        ensures { result ≡ breaks self.now wanted index };
}

fn any_of_heap<T: ReferenceTest>(test: &T, heap: WasmHeapType) -> bool
    ensures { result ≡ list_any (λ r. T.breaks test.now r.0 r.1) (kinded.kinded_heap heap) }
{
    match heap {
        WasmHeapType::ConcreteFunc(index) => test.is_broken_by(Kind::Func, index),
        WasmHeapType::ConcreteArray(index) => test.is_broken_by(Kind::Array, index),
        WasmHeapType::ConcreteStruct(index) => test.is_broken_by(Kind::Struct, index),
        WasmHeapType::ConcreteExn(index) => test.is_broken_by(Kind::Exn, index),
        WasmHeapType::ConcreteCont(index) => test.is_broken_by(Kind::Cont, index),
        _ => false,
    }
}

fn any_of_val<T: ReferenceTest>(test: &T, ty: WasmValType) -> bool
    ensures { result ≡ list_any (λ r. T.breaks test.now r.0 r.1) (kinded.kinded_val ty) }
{
    match ty {
        WasmValType::Ref(reference) => any_of_heap(test, reference.heap_type),
        _ => false,
    }
}

fn any_of_field<T: ReferenceTest>(test: &T, field: WasmFieldType) -> bool
    ensures { result ≡ list_any (λ r. T.breaks test.now r.0 r.1) (kinded.kinded_field field) }
{
    match field.element_type {
        WasmStorageType::Val(value) => any_of_val(test, value),
        _ => false,
    }
}

#[tactic(auto, using(crate::proofs::Referring::any_flat_map))]
fn any_of_vals<T: ReferenceTest>(test: &T, types: &[WasmValType]) -> bool
    ensures { result ≡ list_any (λ r. T.breaks test.now r.0 r.1) (kinded.kinded_vals types.now) }
{
    for ty in types {
        if any_of_val(test, *ty) {
            return true;
        }
    }
    false
}

#[tactic(auto, using(crate::proofs::Referring::any_flat_map))]
fn any_of_fields<T: ReferenceTest>(test: &T, fields: &[WasmFieldType]) -> bool
    ensures { result ≡ list_any (λ r. T.breaks test.now r.0 r.1) (kinded.kinded_fields fields.now) }
{
    for field in fields {
        if any_of_field(test, *field) {
            return true;
        }
    }
    false
}

/// Whether a reference in a shape breaks the test.
pub fn any_of_shape<T: ReferenceTest>(test: &T, shape: &WasmCompositeInnerType) -> bool
    ensures { result ≡ list_any (λ r. T.breaks test.now r.0 r.1) (kinded.kinded_shape shape.now) }
{
    match shape {
        WasmCompositeInnerType::Func(func) => {
            any_of_vals(test, func.params.as_slice()) || any_of_vals(test, func.results.as_slice())
        }
        WasmCompositeInnerType::Struct(fields) => any_of_fields(test, fields.fields.as_slice()),
        WasmCompositeInnerType::Array(array) => any_of_field(test, array.0),
        WasmCompositeInnerType::Exn(exn) => {
            test.is_broken_by(Kind::Func, exn.func_ty) || any_of_fields(test, exn.fields.as_slice())
        }
        WasmCompositeInnerType::Cont(cont) => test.is_broken_by(Kind::Func, cont.0),
    }
}
