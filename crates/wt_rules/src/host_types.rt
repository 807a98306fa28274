//! Types of a host: which may be registered, and why one of them is refused. It rests on `type_rules` and on `Types` for the
//! sub types of indices. Nothing here takes memory.

ghost use Rattle.std.specs.Prelude.{◌≡◌, ◌&&◌, true, not, length, nat_lt, if◌then◌else◌, Some, None, option_to_list};
ghost use Rattle.std.specs.List.{list_any};
ghost use Rattle.wt_tree.specs.Kinds as kinded;
ghost use Rattle.wt_tree.specs.Kinds.{indices_of, type_indices};
ghost use Rattle.wt_env.specs.declared.types.WasmCompositeInnerType.TheVariants as shape;
ghost use Rattle.wt_tree.specs.Fit.{named_by, AreKnown};
ghost use Rattle.wt_rules.specs.TypeRules as rules;
ghost use Rattle.wt_rules.specs.HostTypes as stated;
ghost use Rattle.wt_rules.specs.declared.host_types.HostBreach.TheVariants as breach;

use crate::kinds::{ReferenceTest, any_of_shape, is_same_kind, kind_of};
use crate::type_rules::{are_params, breaks_kind, is_open, names_other, type_at};
use wt_env::types::{
    EngineOrModuleTypeIndex, Kind, VMSharedTypeIndex, WasmCompositeInnerType, WasmExnType,
    WasmFieldType, WasmSubType,
};
use wt_tree::fit::fit_shape;
use wt_tree::supers::{Types, declared_index};

/// Why a type of a host is refused.
#[derive(Clone, Copy, Debug, PartialEq, Eq)]
pub enum HostBreach {
    /// The supertype is final (WebAssembly 3.0, "Recursive Types"). It has this index.
    FinalSupertype(VMSharedTypeIndex),
    /// The shape, of this kind, doesn't match the supertype's (WebAssembly 3.0, "Matching").
    SupertypeMismatch(Kind),
    /// A struct has so many fields, which are more than 10,000 (after wasmtime).
    TooManyFields(u64),
    /// The function of an exception has so many results (after wasmtime).
    TagHasResults(u64),
}

/// Whether this is no index that has a closed tree.
fn is_unknown<T: Types>(types: &T, named: EngineOrModuleTypeIndex) -> bool
    ensures { result ≡ not (stated.is_known (T.types types.now) named) }
{
    match named {
        EngineOrModuleTypeIndex::Engine(index) => types.borrow(index).is_none(),
        _ => true,
    }
}

/// Whether a reference names nothing that has a closed tree.
#[derive(Drop)]
struct IsUnknown<'a, T> {
    types: &'a T,
}

impl<'a, T: Types> ReferenceTest for IsUnknown<'a, T> {
    ghost use Rattle.std.specs.Prelude.{not};

    ghost breaks = { λ test wanted index. not (stated.is_known (T.types test.types.now) index) };

    fn is_broken_by(&self, _wanted: Kind, index: EngineOrModuleTypeIndex) -> bool {
        is_unknown(self.types, index)
    }
}

fn supertype_is_unknown<T: Types>(types: &T, supertype: Option<EngineOrModuleTypeIndex>) -> bool
    ensures { result ≡ list_any (λ i. not (stated.is_known (T.types types.now) i)) (option_to_list supertype) }
{
    match supertype {
        Some(index) => is_unknown(types, index),
        None => false,
    }
}

fn has_unknown<T: Types>(types: &T, ty: &WasmSubType) -> bool
    ensures { result ≡ stated.has_unknown (T.types types.now) ty.now }
{
    supertype_is_unknown(types, ty.supertype)
        || any_of_shape(&IsUnknown { types }, &ty.composite_type)
}

/// Whether a type declares a supertype of another kind.
fn has_other_supertype<T: Types>(types: &T, ty: &WasmSubType) -> bool
    ensures { result ≡ stated.has_other_supertype (named_by (T.types types.now)) ty.now }
{
    match ty.supertype {
        Some(supertype) => names_other(types, kind_of(&ty.composite_type), supertype),
        None => false,
    }
}

/// Whether these fields hold the parameters of the function that a type index names.
fn holds_params<T: Types>(types: &T, exn: &WasmExnType) -> bool
    requires { AreKnown (T.types types.now) (indices_of (kinded.kinded_fields exn.now.fields)) }
    ensures { result ≡ rules.are_params (named_by (T.types types.now)) exn.now.fields (named_by (T.types types.now) exn.now.func_ty) }
{
    let Some(function) = type_at(types, exn.func_ty) else {
        return false;
    };
    match &function.composite_type {
        WasmCompositeInnerType::Func(func) => {
            are_params(types, exn.fields.as_slice(), func.params.as_slice())
        }
        _ => false,
    }
}

/// Whether an exception may have subtypes or has a supertype, or doesn't hold its function's parameters.
fn is_bad_exception<T: Types>(types: &T, ty: &WasmSubType) -> bool
    requires { AreKnown (T.types types.now) (indices_of (kinded.kinded_shape ty.now.composite_type)) }
    ensures { result ≡ stated.is_bad_exception (named_by (T.types types.now)) ty.now }
{
    match &ty.composite_type {
        WasmCompositeInnerType::Exn(exn) => is_open(ty) || !holds_params(types, exn),
        _ => false,
    }
}

fn is_continuation(shape: &WasmCompositeInnerType) -> bool
    ensures { result ≡ stated.is_continuation shape.now }
{
    matches!(shape, WasmCompositeInnerType::Cont(_))
}

/// Whether what a type names, all of which has a closed tree, is of the kinds that its places need, and the type is none
/// that a host can't have.
fn names_its_kinds<T: Types>(types: &T, ty: &WasmSubType) -> bool
    requires { AreKnown (T.types types.now) (type_indices ty.now) }
    ensures { result ≡ (not (rules.breaks_kind (named_by (T.types types.now)) ty.now) && (not (stated.has_other_supertype (named_by (T.types types.now)) ty.now) && (not (stated.is_bad_exception (named_by (T.types types.now)) ty.now) && not (stated.is_continuation ty.now.composite_type)))) }
{
    !breaks_kind(types, ty)
        && !has_other_supertype(types, ty)
        && !is_bad_exception(types, ty)
        && !is_continuation(&ty.composite_type)
}

/// Whether a host may register this type: each type index in it, its supertype included, is an engine index that has a
/// closed tree, and names a type of the kind that its place needs; an exception is final with no supertype, and its
/// constant fields hold its function's parameters; and it is no continuation.
pub fn is_host_type<T: Types>(types: &T, ty: &WasmSubType) -> bool
    ensures { result ≡ stated.is_host_type (T.types types.now) ty.now }
{
    if has_unknown(types, ty) {
        return false;
    }
    names_its_kinds(types, ty)
}

/// The first cause below the supertype that has this index.
fn breach_below<T: Types>(
    types: &T,
    ty: &WasmSubType,
    supertype: VMSharedTypeIndex,
) -> Option<HostBreach>
    requires { AreKnown (T.types types.now) (indices_of (kinded.kinded_shape ty.now.composite_type)) }
    ensures { result ≡ stated.breach_below (T.types types.now) ty.now supertype }
{
    let mismatch = HostBreach::SupertypeMismatch(kind_of(&ty.composite_type));
    let Some(other) = type_at(types, EngineOrModuleTypeIndex::Engine(supertype)) else {
        return Some(mismatch);
    };
    if other.is_final {
        Some(HostBreach::FinalSupertype(supertype))
    } else if fit_shape(&ty.composite_type, &other.composite_type, types) {
        None
    } else {
        Some(mismatch)
    }
}

fn supertype_breach<T: Types>(types: &T, ty: &WasmSubType) -> Option<HostBreach>
    requires { AreKnown (T.types types.now) (type_indices ty.now) }
    ensures { result ≡ stated.supertype_breach (T.types types.now) ty.now }
{
    match declared_index(ty) {
        Some(supertype) => breach_below(types, ty, supertype),
        None => None,
    }
}

/// Whether a struct has too many fields.
fn fields_breach(fields: &[WasmFieldType]) -> Option<HostBreach>
    ensures { result ≡ (if nat_lt 10000 (length fields.now) then Some (breach.TooManyFields (length fields.now)) else None) }
{
    if fields.len() > 10000 {
        Some(HostBreach::TooManyFields(fields.len() as u64))
    } else {
        None
    }
}

/// How many results the function has that a type index names.
fn result_count<T: Types>(types: &T, named: EngineOrModuleTypeIndex) -> u64
    ensures { result ≡ stated.result_count (named_by (T.types types.now) named) }
{
    let Some(function) = type_at(types, named) else {
        return 0;
    };
    match &function.composite_type {
        WasmCompositeInnerType::Func(func) => func.results.len() as u64,
        _ => 0,
    }
}

/// Whether the function of an exception has results.
fn results_breach<T: Types>(types: &T, exn: &WasmExnType) -> Option<HostBreach>
    ensures { result ≡ stated.results_breach (named_by (T.types types.now)) (shape.Exn exn.now) }
{
    let results = result_count(types, exn.func_ty);
    if results > 0 {
        Some(HostBreach::TagHasResults(results))
    } else {
        None
    }
}

/// The first cause for which a type of a host is refused: its supertype is final, its shape doesn't match its
/// supertype's, it is a struct of more than 10,000 fields, or an exception of a function with results (WebAssembly 3.0,
/// "Recursive Types" and "Matching"; the limit and exceptions after wasmtime). `None` where there is no cause.
pub fn host_breach<T: Types>(types: &T, ty: &WasmSubType) -> Option<HostBreach>
    requires { stated.is_host_type (T.types types.now) ty.now ≡ true }
    ensures { result ≡ stated.host_breach (T.types types.now) ty.now }
{
    if let Some(breach) = supertype_breach(types, ty) {
        return Some(breach);
    }
    match &ty.composite_type {
        WasmCompositeInnerType::Struct(fields) => fields_breach(fields.fields.as_slice()),
        WasmCompositeInnerType::Exn(exn) => results_breach(types, exn),
        _ => None,
    }
}
