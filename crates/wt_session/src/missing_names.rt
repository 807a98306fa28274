//! The names in what a host describes: which is the first that names nothing, or nothing of the kind that its place needs.
//! Nothing here takes memory.

ghost use Rattle.std.specs.Prelude.{◌≡◌, ◌∷◌, [], Option, Some};
ghost use Rattle.wt_session.specs.HostTypes.{type_named, names_in_heap, names_in_val, names_in_vals, names_in_field, names_in_fields, names_in_shape, names_in_super, kind_of_shape, is_missing, first_missing, missing_name};
ghost use Rattle.wt_session.specs.Run.{missing_in_vals};

use crate::handle::Handle;
use crate::named_types::type_named;
use wt_commands::command::NamedType;
use wt_commands::host_type::{HostField, HostHeap, HostShape, HostStorage, HostSub, HostVal};
use wt_env::types::Kind;
use wt_registry::registry::TypeRegistry;

/// Whether a name names nothing, or nothing of this kind.
fn is_missing_of(registry: &TypeRegistry, row: &[Handle], wanted: Kind, name: NamedType) -> bool
    ensures { result ≡ is_missing (Some wanted) (type_named registry.now.made row.now name) }
{
    match type_named(registry, row, name) {
        Some((found, _)) => wanted != found,
        None => true,
    }
}

/// A name that has to name something of this kind, where it is missing.
fn missing_of(
    registry: &TypeRegistry,
    row: &[Handle],
    wanted: Kind,
    name: NamedType,
) -> Option<NamedType>
    ensures { result ≡ first_missing (type_named registry.now.made row.now) ((Some wanted, name) ∷ []) }
{
    if is_missing_of(registry, row, wanted, name) {
        Some(name)
    } else {
        None
    }
}

fn missing_in_heap(registry: &TypeRegistry, row: &[Handle], heap: HostHeap) -> Option<NamedType>
    ensures { result ≡ first_missing (type_named registry.now.made row.now) (names_in_heap heap) }
{
    let HostHeap::Named(name) = heap else {
        return None;
    };
    match type_named(registry, row, name) {
        Some(_) => None,
        None => Some(name),
    }
}

fn missing_in_val(registry: &TypeRegistry, row: &[Handle], val: HostVal) -> Option<NamedType>
    ensures { result ≡ first_missing (type_named registry.now.made row.now) (names_in_val val) }
{
    match val {
        HostVal::Ref(reference) => missing_in_heap(registry, row, reference.heap),
        _ => None,
    }
}

/// The first name that is missing in one value type, and else in another.
pub(crate) fn missing_in_two(
    registry: &TypeRegistry,
    row: &[Handle],
    a: HostVal,
    b: HostVal,
) -> Option<NamedType>
    ensures { result ≡ missing_in_vals registry.now row.now a b }
{
    match missing_in_val(registry, row, a) {
        Some(name) => Some(name),
        None => missing_in_val(registry, row, b),
    }
}

fn missing_in_vals(registry: &TypeRegistry, row: &[Handle], vals: &[HostVal]) -> Option<NamedType>
    ensures { result ≡ first_missing (type_named registry.now.made row.now) (names_in_vals vals.now) }
{
    for val in vals {
        if let Some(name) = missing_in_val(registry, row, *val) {
            return Some(name);
        }
    }
    None
}

fn missing_in_field(registry: &TypeRegistry, row: &[Handle], field: HostField) -> Option<NamedType>
    ensures { result ≡ first_missing (type_named registry.now.made row.now) (names_in_field field) }
{
    match field.element {
        HostStorage::Val(val) => missing_in_val(registry, row, val),
        _ => None,
    }
}

fn missing_in_fields(
    registry: &TypeRegistry,
    row: &[Handle],
    fields: &[HostField],
) -> Option<NamedType>
    ensures { result ≡ first_missing (type_named registry.now.made row.now) (names_in_fields fields.now) }
{
    for field in fields {
        if let Some(name) = missing_in_field(registry, row, *field) {
            return Some(name);
        }
    }
    None
}

/// The kind of a shape.
fn kind_of(shape: &HostShape) -> Kind
    ensures { result ≡ kind_of_shape shape.now }
{
    match shape {
        HostShape::Func { .. } => Kind::Func,
        HostShape::Struct { .. } => Kind::Struct,
        HostShape::Array(_) => Kind::Array,
    }
}

fn missing_in_super(
    registry: &TypeRegistry,
    row: &[Handle],
    wanted: Kind,
    supertype: Option<NamedType>,
) -> Option<NamedType>
    ensures { result ≡ first_missing (type_named registry.now.made row.now) (names_in_super wanted supertype) }
{
    match supertype {
        Some(name) => missing_of(registry, row, wanted, name),
        None => None,
    }
}

fn missing_in_shape(registry: &TypeRegistry, row: &[Handle], shape: &HostShape) -> Option<NamedType>
    ensures { result ≡ first_missing (type_named registry.now.made row.now) (names_in_shape shape.now) }
{
    match shape {
        HostShape::Func { params, results } => {
            match missing_in_vals(registry, row, params.as_slice()) {
                Some(name) => Some(name),
                None => missing_in_vals(registry, row, results.as_slice()),
            }
        }
        HostShape::Struct { fields } => missing_in_fields(registry, row, fields.as_slice()),
        HostShape::Array(field) => missing_in_field(registry, row, *field),
    }
}

/// The first name that is missing in what a host describes: its supertype's, which is of its own kind, then those of its
/// shape from left to right; of a tag the function's.
pub(crate) fn missing_name(
    registry: &TypeRegistry,
    row: &[Handle],
    sub: &HostSub,
) -> Option<NamedType>
    ensures { result ≡ missing_name registry.now.made row.now sub.now }
{
    match sub {
        HostSub::Declared {
            is_final: _,
            supertype,
            shape,
        } => match missing_in_super(registry, row, kind_of(shape), *supertype) {
            Some(name) => Some(name),
            None => missing_in_shape(registry, row, shape),
        },
        HostSub::Exception { fields } => missing_in_vals(registry, row, fields.as_slice()),
        HostSub::Tag(name) => missing_of(registry, row, Kind::Func, *name),
    }
}
