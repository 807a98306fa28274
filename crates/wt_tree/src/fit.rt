//! When one type matches another, and so may stand for it (WebAssembly 3.0, "Matching"; exceptions and continuations after wasmtime), by
//! the engine indices in them. It rests on `Supers` for the types that those name. Nothing here takes memory.

ghost use Rattle.std.specs.Prelude.{◌≡◌, ◌&&◌, List, [], ◌∷◌};
ghost use Rattle.wt_tree.specs.Subtyping.{is_sub, closed_tree_eq};
ghost use Rattle.wt_tree.specs.Kinds as kinded;
ghost use Rattle.wt_tree.specs.Kinds.{indices_of};
ghost use Rattle.wt_tree.specs.Fit as fits;
ghost use Rattle.wt_tree.specs.Fit.{named_by, IsKnown, AreKnown};

use crate::supers::Supers;
use wt_env::types::{
    EngineOrModuleTypeIndex, WasmCompositeInnerType, WasmFieldType, WasmHeapType, WasmRefType,
    WasmStorageType, WasmValType,
};

/// Whether declared steps lead from the type that the first index names to the second's.
fn steps_lead<S: Supers>(a: EngineOrModuleTypeIndex, b: EngineOrModuleTypeIndex, supers: &S) -> bool
    requires sub { IsKnown (S.types supers.now) a }
    requires sup { IsKnown (S.types supers.now) b }
    ensures { result ≡ is_sub (named_by (S.types supers.now) a) (named_by (S.types supers.now) b) }
{
    match (a, b) {
        (EngineOrModuleTypeIndex::Engine(a), EngineOrModuleTypeIndex::Engine(b)) => {
            supers.is_subtype(a, b)
        }
        _ => unreachable!(),
    }
}

/// Whether the two indices name one closed tree.
fn is_same<S: Supers>(a: EngineOrModuleTypeIndex, b: EngineOrModuleTypeIndex, supers: &S) -> bool
    requires a { IsKnown (S.types supers.now) a }
    requires b { IsKnown (S.types supers.now) b }
    ensures { result ≡ closed_tree_eq (named_by (S.types supers.now) a) (named_by (S.types supers.now) b) }
{
    steps_lead(a, b, supers) && steps_lead(b, a, supers)
}

fn is_bottom(heap: WasmHeapType) -> bool
    ensures { result ≡ fits.is_bottom heap }
{
    matches!(
        heap,
        WasmHeapType::NoExtern
            | WasmHeapType::NoFunc
            | WasmHeapType::None
            | WasmHeapType::NoCont
            | WasmHeapType::NoExn
    )
}

/// The order of the heap types that are neither top nor bottom.
fn inner_fits<S: Supers>(a: WasmHeapType, b: WasmHeapType, supers: &S) -> bool
    requires a { AreKnown (S.types supers.now) (indices_of (kinded.kinded_heap a)) }
    requires b { AreKnown (S.types supers.now) (indices_of (kinded.kinded_heap b)) }
    ensures { result ≡ fits.inner_fits (named_by (S.types supers.now)) (named_by (S.types supers.now)) a b }
{
    match (a, b) {
        (WasmHeapType::ConcreteFunc(a), WasmHeapType::ConcreteFunc(b))
        | (WasmHeapType::ConcreteArray(a), WasmHeapType::ConcreteArray(b))
        | (WasmHeapType::ConcreteStruct(a), WasmHeapType::ConcreteStruct(b))
        | (WasmHeapType::ConcreteExn(a), WasmHeapType::ConcreteExn(b))
        | (WasmHeapType::ConcreteCont(a), WasmHeapType::ConcreteCont(b)) => {
            steps_lead(a, b, supers)
        }
        (
            WasmHeapType::Eq
            | WasmHeapType::I31
            | WasmHeapType::Array
            | WasmHeapType::ConcreteArray(_)
            | WasmHeapType::Struct
            | WasmHeapType::ConcreteStruct(_),
            WasmHeapType::Eq,
        ) => true,
        (WasmHeapType::I31, WasmHeapType::I31) => true,
        (WasmHeapType::Array | WasmHeapType::ConcreteArray(_), WasmHeapType::Array) => true,
        (WasmHeapType::Struct | WasmHeapType::ConcreteStruct(_), WasmHeapType::Struct) => true,
        _ => false,
    }
}

fn heap_fits<S: Supers>(a: WasmHeapType, b: WasmHeapType, supers: &S) -> bool
    requires a { AreKnown (S.types supers.now) (indices_of (kinded.kinded_heap a)) }
    requires b { AreKnown (S.types supers.now) (indices_of (kinded.kinded_heap b)) }
    ensures { result ≡ fits.heap_fits (named_by (S.types supers.now)) (named_by (S.types supers.now)) a b }
{
    a.top() == b.top() && (is_bottom(a) || b.is_top() || inner_fits(a, b, supers))
}

/// Whether a reference type matches another: it isn't nullable, or the other is, and its heap type is the other's or
/// below it. Every type index in the two is an engine index that has a closed tree.
pub fn fit_ref<S: Supers>(a: &WasmRefType, b: &WasmRefType, supers: &S) -> bool
    requires a { AreKnown (S.types supers.now) (indices_of (kinded.kinded_heap a.now.heap_type)) }
    requires b { AreKnown (S.types supers.now) (indices_of (kinded.kinded_heap b.now.heap_type)) }
    ensures { result ≡ fits.ref_fits (named_by (S.types supers.now)) (named_by (S.types supers.now)) a.now b.now }
{
    (!a.nullable || b.nullable) && heap_fits(a.heap_type, b.heap_type, supers)
}

/// Whether a value type matches another: a number or a vector itself alone, a reference by `fit_ref`. Every type index
/// in the two is an engine index that has a closed tree.
pub fn fit_val<S: Supers>(a: &WasmValType, b: &WasmValType, supers: &S) -> bool
    requires a { AreKnown (S.types supers.now) (indices_of (kinded.kinded_val a.now)) }
    requires b { AreKnown (S.types supers.now) (indices_of (kinded.kinded_val b.now)) }
    ensures { result ≡ fits.val_fits (named_by (S.types supers.now)) (named_by (S.types supers.now)) a.now b.now }
{
    match (a, b) {
        (WasmValType::I32, WasmValType::I32)
        | (WasmValType::I64, WasmValType::I64)
        | (WasmValType::F32, WasmValType::F32)
        | (WasmValType::F64, WasmValType::F64)
        | (WasmValType::V128, WasmValType::V128) => true,
        (WasmValType::Ref(a), WasmValType::Ref(b)) => fit_ref(a, b, supers),
        _ => false,
    }
}

fn vals_fit<S: Supers>(a: &[WasmValType], b: &[WasmValType], supers: &S) -> bool
    requires a { AreKnown (S.types supers.now) (indices_of (kinded.kinded_vals a.now)) }
    requires b { AreKnown (S.types supers.now) (indices_of (kinded.kinded_vals b.now)) }
    ensures { result ≡ fits.vals_fit (named_by (S.types supers.now)) (named_by (S.types supers.now)) a.now b.now }
{
    if a.len() != b.len() {
        return false;
    }
    for place in 0..a.len() {
        if !fit_val(&a[place], &b[place], supers) {
            return false;
        }
    }
    true
}

/// Whether a storage type matches another: a packed number itself alone, a value type by `fit_val`. Every type index in
/// the two is an engine index that has a closed tree.
pub fn fit_storage<S: Supers>(a: &WasmStorageType, b: &WasmStorageType, supers: &S) -> bool
    requires a { AreKnown (S.types supers.now) (indices_of (kinded.kinded_storage a.now)) }
    requires b { AreKnown (S.types supers.now) (indices_of (kinded.kinded_storage b.now)) }
    ensures { result ≡ fits.storage_fits (named_by (S.types supers.now)) (named_by (S.types supers.now)) a.now b.now }
{
    match (a, b) {
        (WasmStorageType::I8, WasmStorageType::I8) | (WasmStorageType::I16, WasmStorageType::I16) =>
            true,
        (WasmStorageType::Val(a), WasmStorageType::Val(b)) => fit_val(a, b, supers),
        _ => false,
    }
}

/// Whether a field type matches another: both are constant, and its storage type matches the other's; or both are
/// variable, and the storage types are equal, so that each matches the other. Every type index in the two is an engine
/// index that has a closed tree.
pub fn fit_field<S: Supers>(a: &WasmFieldType, b: &WasmFieldType, supers: &S) -> bool
    requires a { AreKnown (S.types supers.now) (indices_of (kinded.kinded_field a.now)) }
    requires b { AreKnown (S.types supers.now) (indices_of (kinded.kinded_field b.now)) }
    ensures { result ≡ fits.field_fits (named_by (S.types supers.now)) (named_by (S.types supers.now)) a.now b.now }
{
    match (a.mutable, b.mutable) {
        (false, false) => fit_storage(&a.element_type, &b.element_type, supers),
        (true, true) => {
            fit_storage(&a.element_type, &b.element_type, supers)
                && fit_storage(&b.element_type, &a.element_type, supers)
        }
        _ => false,
    }
}

fn fields_equal<S: Supers>(a: &[WasmFieldType], b: &[WasmFieldType], supers: &S) -> bool
    requires a { AreKnown (S.types supers.now) (indices_of (kinded.kinded_fields a.now)) }
    requires b { AreKnown (S.types supers.now) (indices_of (kinded.kinded_fields b.now)) }
    ensures { result ≡ fits.fields_equal (named_by (S.types supers.now)) (named_by (S.types supers.now)) a.now b.now }
{
    if a.len() != b.len() {
        return false;
    }
    for place in 0..a.len() {
        if !(fit_field(&a[place], &b[place], supers) && fit_field(&b[place], &a[place], supers)) {
            return false;
        }
    }
    true
}

fn fields_fit<S: Supers>(a: &[WasmFieldType], b: &[WasmFieldType], supers: &S) -> bool
    requires a { AreKnown (S.types supers.now) (indices_of (kinded.kinded_fields a.now)) }
    requires b { AreKnown (S.types supers.now) (indices_of (kinded.kinded_fields b.now)) }
    ensures { result ≡ fits.fields_fit (named_by (S.types supers.now)) (named_by (S.types supers.now)) a.now b.now }
{
    if a.len() < b.len() {
        return false;
    }
    for place in 0..b.len() {
        if !fit_field(&a[place], &b[place], supers) {
            return false;
        }
    }
    true
}

/// Whether a shape matches another. A struct has at least as many fields as the other, and its field at the place of
/// each of the other's matches that; so does an array's. A function has as many parameters and results as the other;
/// each of the other's parameters matches the function's, and each of its results matches the other's. An exception
/// has the same function type and equal fields. A continuation has a function type that declared steps lead from to the
/// other's. Shapes of two kinds never match. Every type index in the two is an engine index that has a closed tree.
pub fn fit_shape<S: Supers>(
    a: &WasmCompositeInnerType,
    b: &WasmCompositeInnerType,
    supers: &S,
) -> bool
    requires a { AreKnown (S.types supers.now) (indices_of (kinded.kinded_shape a.now)) }
    requires b { AreKnown (S.types supers.now) (indices_of (kinded.kinded_shape b.now)) }
    ensures { result ≡ fits.shape_fits (named_by (S.types supers.now)) (named_by (S.types supers.now)) a.now b.now }
{
    match (a, b) {
        (WasmCompositeInnerType::Func(a), WasmCompositeInnerType::Func(b)) => {
            vals_fit(b.params.as_slice(), a.params.as_slice(), supers)
                && vals_fit(a.results.as_slice(), b.results.as_slice(), supers)
        }
        (WasmCompositeInnerType::Struct(a), WasmCompositeInnerType::Struct(b)) => {
            fields_fit(a.fields.as_slice(), b.fields.as_slice(), supers)
        }
        (WasmCompositeInnerType::Array(a), WasmCompositeInnerType::Array(b)) => {
            fit_field(&a.0, &b.0, supers)
        }
        (WasmCompositeInnerType::Exn(a), WasmCompositeInnerType::Exn(b)) => {
            is_same(a.func_ty, b.func_ty, supers)
                && fields_equal(a.fields.as_slice(), b.fields.as_slice(), supers)
        }
        (WasmCompositeInnerType::Cont(a), WasmCompositeInnerType::Cont(b)) => {
            steps_lead(a.0, b.0, supers)
        }
        _ => false,
    }
}

#[cfg(test)]
mod tests;
