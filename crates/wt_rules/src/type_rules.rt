//! The rules on what a type names, where its group is in order: its references, its supertype, and the function of an
//! exception. It rests on `Types` for the sub types of indices. Nothing here takes memory.

ghost use Rattle.std.specs.Prelude.{◌≡◌, ◌<◌, ◌^◌, List, map, length, Option, None, IfSome};
ghost use Rattle.wt_env.specs.declared.types.EngineOrModuleTypeIndex.TheVariants as type_index;
ghost use Rattle.wt_tree.specs.Kinds as kinded;
ghost use Rattle.wt_tree.specs.Kinds.{indices_of, type_indices};
ghost use Rattle.wt_tree.specs.Tree.{ClosedTree};
ghost use Rattle.wt_tree.specs.Subtyping.{member_at};
ghost use Rattle.wt_tree.specs.Fit as fits;
ghost use Rattle.wt_tree.specs.Fit.{named_by, AreKnown, Shows};
ghost use Rattle.wt_rules.specs.TypeRules as stated;
ghost use Rattle.wt_rules.specs.TypeRules.{kind_of_tree, constant_field as constant};
ghost use Rattle.wt_rules.specs.Rules as walk;

use crate::kinds::{ReferenceTest, any_of_shape, is_same_kind, kind_of};
use crate::place::Rule;
use wt_env::types::{
    EngineOrModuleTypeIndex, Kind, VMSharedTypeIndex, WasmCompositeInnerType, WasmExnType,
    WasmFieldType, WasmStorageType, WasmSubType, WasmValType,
};
use wt_tree::fit::{fit_field, fit_shape};
use wt_tree::supers::Types;

/// The sub type that a type index names.
pub(crate) fn type_at<T: Types>(types: &T, named: EngineOrModuleTypeIndex) -> Option<&WasmSubType>
    ensures shows { IfSome result (λ ty. Shows (T.types types.now) (named_by (T.types types.now) named) ty.now) }
    ensures none { result ≡ None → member_at (named_by (T.types types.now) named) ≡ None }
{
    match named {
        EngineOrModuleTypeIndex::Engine(index) => types.borrow(index),
        _ => None,
    }
}

/// The kind of the type that a type index names.
fn kind_at<T: Types>(types: &T, named: EngineOrModuleTypeIndex) -> Option<Kind>
    ensures { result ≡ kind_of_tree (named_by (T.types types.now) named) }
{
    match type_at(types, named) {
        Some(ty) => Some(kind_of(&ty.composite_type)),
        None => None,
    }
}

/// Whether a type index names a type of another kind than this, or none.
pub(crate) fn names_other<T: Types>(types: &T, wanted: Kind, named: EngineOrModuleTypeIndex) -> bool
    ensures { result ≡ stated.names_other (named_by (T.types types.now)) wanted named }
{
    match kind_at(types, named) {
        Some(found) => !is_same_kind(wanted, found),
        None => true,
    }
}

/// Whether a reference names a type of another kind than it says.
#[derive(Drop)]
struct NamesOther<'a, T> {
    types: &'a T,
}

impl<'a, T: Types> ReferenceTest for NamesOther<'a, T> {
    ghost breaks = { λ test. stated.names_other (named_by (T.types test.types.now)) };

    fn is_broken_by(&self, wanted: Kind, index: EngineOrModuleTypeIndex) -> bool {
        names_other(self.types, wanted, index)
    }
}

pub(crate) fn breaks_kind<T: Types>(types: &T, ty: &WasmSubType) -> bool
    ensures { result ≡ stated.breaks_kind (named_by (T.types types.now)) ty.now }
{
    any_of_shape(&NamesOther { types }, &ty.composite_type)
}

/// The first rule that a type breaks below the one that this type index names.
fn broken_below<T: Types>(
    types: &T,
    ty: &WasmSubType,
    supertype: EngineOrModuleTypeIndex,
) -> Option<Rule>
    requires { AreKnown (T.types types.now) (indices_of (kinded.kinded_shape ty.now.composite_type)) }
    ensures { result ≡ stated.broken_below (named_by (T.types types.now)) ty.now (named_by (T.types types.now) supertype) }
{
    let Some(other) = type_at(types, supertype) else {
        return Some(Rule::SuperKind);
    };
    if other.is_final {
        Some(Rule::SuperFinal)
    } else if !is_same_kind(kind_of(&ty.composite_type), kind_of(&other.composite_type)) {
        Some(Rule::SuperKind)
    } else if fit_shape(&ty.composite_type, &other.composite_type, types) {
        None
    } else {
        Some(Rule::SuperMismatch)
    }
}

fn broken_supertype<T: Types>(types: &T, ty: &WasmSubType) -> Option<Rule>
    requires { AreKnown (T.types types.now) (indices_of (kinded.kinded_shape ty.now.composite_type)) }
    ensures { result ≡ stated.broken_supertype (named_by (T.types types.now)) ty.now }
{
    match ty.supertype {
        Some(supertype) => broken_below(types, ty, supertype),
        None => None,
    }
}

/// The field that holds a value of this type and never changes.
fn constant_field(value: WasmValType) -> WasmFieldType
    ensures { result ≡ constant value }
{
    WasmFieldType {
        element_type: WasmStorageType::Val(value),
        mutable: false,
    }
}

/// Whether a field holds a parameter of this type.
fn is_param<T: Types>(types: &T, field: &WasmFieldType, param: WasmValType) -> bool
    requires field { AreKnown (T.types types.now) (indices_of (kinded.kinded_field field.now)) }
    requires param { AreKnown (T.types types.now) (indices_of (kinded.kinded_val param)) }
    ensures { result ≡ fits.field_equal (named_by (T.types types.now)) (named_by (T.types types.now)) field.now (constant param) }
{
    let constant = constant_field(param);
    fit_field(field, &constant, types) && fit_field(&constant, field, types)
}

/// Whether these fields are those that hold parameters of these types.
pub(crate) fn are_params<T: Types>(
    types: &T,
    fields: &[WasmFieldType],
    params: &[WasmValType],
) -> bool
    requires fields { AreKnown (T.types types.now) (indices_of (kinded.kinded_fields fields.now)) }
    requires params { AreKnown (T.types types.now) (indices_of (kinded.kinded_vals params.now)) }
    ensures { result ≡ fits.fields_equal (named_by (T.types types.now)) (named_by (T.types types.now)) fields.now (map constant params.now) }
{
    if fields.len() != params.len() {
        return false;
    }
    for place in 0..fields.len() {
        if !is_param(types, &fields[place], params[place]) {
            return false;
        }
    }
    true
}

/// The first rule that the fields of an exception break, where this is its function.
fn broken_by_function<T: Types>(
    types: &T,
    fields: &[WasmFieldType],
    function: &WasmSubType,
) -> Option<Rule>
    requires fields { AreKnown (T.types types.now) (indices_of (kinded.kinded_fields fields.now)) }
    requires function { AreKnown (T.types types.now) (indices_of (kinded.kinded_shape function.now.composite_type)) }
    ensures { (t : ClosedTree) → Shows (T.types types.now) t function.now → result ≡ stated.broken_by_function (named_by (T.types types.now)) fields.now t }
{
    let WasmCompositeInnerType::Func(func) = &function.composite_type else {
        return Some(Rule::ExnFields);
    };
    if func.results.len() > 0 {
        Some(Rule::ExnResults)
    } else if are_params(types, fields, func.params.as_slice()) {
        None
    } else {
        Some(Rule::ExnFields)
    }
}

/// Whether a type may have subtypes, or has a supertype.
pub(crate) fn is_open(ty: &WasmSubType) -> bool
    ensures { result ≡ stated.is_open ty.now }
{
    !ty.is_final || ty.supertype.is_some()
}

/// The first rule on exceptions that one breaks.
fn broken_exception<T: Types>(types: &T, is_open: bool, exn: &WasmExnType) -> Option<Rule>
    requires { AreKnown (T.types types.now) (indices_of (kinded.kinded_fields exn.now.fields)) }
    ensures { result ≡ stated.broken_exception (named_by (T.types types.now)) is_open exn.now }
{
    if is_open {
        return Some(Rule::ExnOpen);
    }
    match type_at(types, exn.func_ty) {
        Some(function) => broken_by_function(types, exn.fields.as_slice(), function),
        None => Some(Rule::ExnFields),
    }
}

fn broken_as_exception<T: Types>(types: &T, ty: &WasmSubType) -> Option<Rule>
    requires { AreKnown (T.types types.now) (indices_of (kinded.kinded_shape ty.now.composite_type)) }
    ensures { result ≡ stated.broken_as_exception (named_by (T.types types.now)) ty.now }
{
    match &ty.composite_type {
        WasmCompositeInnerType::Exn(exn) => broken_exception(types, is_open(ty), exn),
        _ => None,
    }
}

/// The first rule on what it names that a sub type breaks.
fn broken_by<T: Types>(types: &T, ty: &WasmSubType) -> Option<Rule>
    requires { AreKnown (T.types types.now) (type_indices ty.now) }
    ensures { result ≡ stated.broken_by (named_by (T.types types.now)) ty.now }
{
    if breaks_kind(types, ty) {
        return Some(Rule::Kind);
    }
    match broken_supertype(types, ty) {
        None => broken_as_exception(types, ty),
        broken => broken,
    }
}

/// The first rule on what it names that the type with this index breaks: each reference names a type of the kind that it
/// says; the supertype isn't final, is of the type's kind, and is one that the type's shape matches; and an exception is
/// final with no supertype, of a function without results, whose parameters its constant fields hold (WebAssembly 3.0,
/// "Heap Types", "Recursive Types" and "Matching"; exceptions after wasmtime). `None` where it breaks none.
pub fn broken_type<T: Types>(types: &T, index: VMSharedTypeIndex) -> Option<Rule>
    ensures { result ≡ stated.broken_type (named_by (T.types types.now) (type_index.Engine index)) }
{
    match types.borrow(index) {
        Some(ty) => broken_by(types, ty),
        None => None,
    }
}

/// The first of the types with these indices that breaks a rule on what it names, by its place among them, and which.
pub fn first_misnamed<T: Types>(types: &T, indices: &[VMSharedTypeIndex]) -> Option<(u32, Rule)>
    requires { length indices.now < 2 ^ 32 }
    ensures { result ≡ walk.first_misnamed (map (λ i. named_by (T.types types.now) (type_index.Engine i)) indices.now) }
{
    for (place, index) in indices.iter().enumerate() {
        if let Some(rule) = broken_type(types, *index) {
            return Some((place as u32, rule));
        }
    }
    None
}
