//! Types that commands name by handles of their party, and what is told of them.

ghost use Rattle.std.specs.Prelude.{◌≡◌, IfOk, option_and_then};
ghost use Rattle.wt_tree.specs.Kinds.{member_kind};
ghost use Rattle.wt_model.specs.Trampolines.{trampoline_index};
ghost use Rattle.wt_types.specs.CoreTexts.{text_at};
ghost use Rattle.wt_session.specs.World.{index_named};
ghost use Rattle.wt_session.specs.HostTypes.{type_with, type_named};
ghost use Rattle.wt_session.specs.Run.{no_such_type, trampoline_told, subtype_told, missing_in_vals, matches_described, matches_told, text_told};
ghost use Rattle.wt_session.specs.Session.{AreHandles};

use crate::handle::Handle;
use crate::host::val_type;
use crate::missing_names::missing_in_two;
use crate::module_handles::find_module;
use crate::reply::{HandleKind, Refusal, Reply};
use crate::type_handles::{find_type, no_such_handle};
use std::alloc::Global;
use wt_commands::command::NamedType;
use wt_commands::host_type::HostVal;
use wt_env::memory::OutOfMemory;
use wt_env::text::Text;
use wt_env::types::{
    Kind, ModuleInternedTypeIndex, VMSharedTypeIndex, WasmCompositeInnerType, WasmSubType,
};
use wt_registry::registered_type::PartyNumber;
use wt_registry::registry::TypeRegistry;
use wt_tree::fit::fit_val;
use wt_types::show::{Shown, show_index};

/// How a command is refused that names no type, or none that fits.
pub(crate) fn no_such_type(party: u32, ty: NamedType) -> Refusal
    ensures { result ≡ no_such_type party ty }
{
    match ty {
        NamedType::Handle(handle) => no_such_handle(party, HandleKind::Type, handle),
        NamedType::OfModule { handle, ty } => Refusal::NoSuchType { party, handle, ty },
    }
}

/// The index of the type that a party names by its handles; `None` where there is none.
fn index_of_type(row: &[Handle], ty: NamedType) -> Option<VMSharedTypeIndex>
    ensures { result ≡ index_named row.now ty }
{
    match ty {
        NamedType::Handle(handle) => match find_type(row, handle) {
            Some(hold) => Some(hold.index()),
            None => None,
        },
        NamedType::OfModule { handle, ty } => match find_module(row, handle) {
            Some(types) => types.shared_type(ModuleInternedTypeIndex(ty)),
            None => None,
        },
    }
}

/// The kind of a type.
fn kind_of(ty: &WasmSubType) -> Kind
    ensures { result ≡ member_kind ty.now }
{
    match &ty.composite_type {
        WasmCompositeInnerType::Func(_) => Kind::Func,
        WasmCompositeInnerType::Struct(_) => Kind::Struct,
        WasmCompositeInnerType::Array(_) => Kind::Array,
        WasmCompositeInnerType::Exn(_) => Kind::Exn,
        WasmCompositeInnerType::Cont(_) => Kind::Cont,
    }
}

/// A registered type with this index: its kind, and the index.
fn type_with(registry: &TypeRegistry, index: VMSharedTypeIndex) -> Option<(Kind, VMSharedTypeIndex)>
    ensures { result ≡ type_with registry.now.made index }
{
    match registry.borrow(index) {
        Some(ty) => Some((kind_of(ty), index)),
        None => None,
    }
}

/// The kind and the index of the registered type that a party names by its handles; `None` where there is none.
pub(crate) fn type_named(
    registry: &TypeRegistry,
    row: &[Handle],
    name: NamedType,
) -> Option<(Kind, VMSharedTypeIndex)>
    ensures { result ≡ type_named registry.now.made row.now name }
{
    match index_of_type(row, name) {
        Some(index) => type_with(registry, index),
        None => None,
    }
}

/// The index of the trampoline of a type; `None` exactly where it is no registered function type.
fn trampoline_of(registry: &TypeRegistry, index: VMSharedTypeIndex) -> Option<VMSharedTypeIndex>
    ensures { result ≡ trampoline_index registry.now.made index }
{
    if registry.is_function_index(index) {
        Some(registry.trampoline_type(index))
    } else {
        None
    }
}

/// The index of the trampoline of the type that a party names; `None` where it names no registered function type.
fn trampoline_named(
    registry: &TypeRegistry,
    row: &[Handle],
    ty: NamedType,
) -> Option<VMSharedTypeIndex>
    ensures { result ≡ option_and_then (trampoline_index registry.now.made) (index_named row.now ty) }
{
    match index_of_type(row, ty) {
        Some(index) => trampoline_of(registry, index),
        None => None,
    }
}

/// Tells the index of the trampoline of the function type that a party names. It changes nothing, and takes no
/// memory.
pub(crate) fn trampoline_of_type(
    registry: &TypeRegistry,
    party: &PartyNumber,
    row: &[Handle],
    ty: NamedType,
) -> Reply
    ensures { trampoline_told registry.now row.now party.now ty (option_and_then (trampoline_index registry.now.made) (index_named row.now ty))
        ≡ record { reply = result; registry = registry.now; row = row.now } }
{
    match trampoline_named(registry, row, ty) {
        Some(index) => Reply::Index(index.bits()),
        None => Reply::Refused(no_such_type(party.number(), ty)),
    }
}

/// Tells whether zero or more declared supertype steps lead from one type that a party names to another (WebAssembly
/// 3.0, "Matching"). It changes nothing, and takes no memory.
pub(crate) fn subtype_of_types(
    registry: &TypeRegistry,
    party: &PartyNumber,
    row: &[Handle],
    sub: NamedType,
    sup: NamedType,
) -> Reply
    requires handles { AreHandles registry.now party.now row.now }
    ensures { subtype_told registry.now row.now party.now sub sup (index_named row.now sub) (index_named row.now sup)
        ≡ record { reply = result; registry = registry.now; row = row.now } }
{
    let Some(lower) = index_of_type(row, sub) else {
        return Reply::Refused(no_such_type(party.number(), sub));
    };
    let Some(upper) = index_of_type(row, sup) else {
        return Reply::Refused(no_such_type(party.number(), sup));
    };
    Reply::Answer(registry.is_subtype(lower, upper))
}

/// Whether a value of one type may stand where one of another is wanted, of two types that name registered types alone
/// (WebAssembly 3.0, "Matching").
fn vals_match(registry: &TypeRegistry, row: &[Handle], a: HostVal, b: HostVal) -> bool
    requires { missing_in_vals registry.now row.now a b ≡ None }
    ensures { result ≡ matches_described registry.now row.now a b }
{
    registry.tell_invariant();
    let first = val_type(registry, row, a);
    let second = val_type(registry, row, b);
    fit_val(&first, &second, registry)
}

/// Tells whether one value type matches another. It changes nothing, and takes no memory.
pub(crate) fn match_types(
    registry: &TypeRegistry,
    party: u32,
    row: &[Handle],
    a: HostVal,
    b: HostVal,
) -> Reply
    ensures { matches_told registry.now row.now party a b (missing_in_vals registry.now row.now a b)
        ≡ record { reply = result; registry = registry.now; row = row.now } }
{
    match missing_in_two(registry, row, a, b) {
        Some(name) => Reply::Refused(no_such_type(party, name)),
        None => Reply::Answer(vals_match(registry, row, a, b)),
    }
}

/// The registered type that a party names by its handles, to be written.
fn shown_of_name<'r>(
    registry: &'r TypeRegistry,
    row: &[Handle],
    name: NamedType,
) -> Option<Shown<'r>>
    ensures { result ≡ option_and_then (text_at registry.now.made) (index_named row.now name) }
{
    match index_of_type(row, name) {
        Some(index) => show_index(registry, index),
        None => None,
    }
}

/// Tells the text of the type that a party names. It changes nothing.
pub(crate) fn show_type(
    alloc: Global,
    registry: &TypeRegistry,
    party: &PartyNumber,
    row: &[Handle],
    name: NamedType,
) -> Result<Reply, OutOfMemory>
    ensures { IfOk result (λ reply. text_told registry.now row.now party.now name (option_and_then (text_at registry.now.made) (index_named row.now name))
        ≡ record { reply = reply; registry = registry.now; row = row.now }) }
{
    match shown_of_name(registry, row, name) {
        Some(shown) => {
            let text = format!(in alloc; "{shown}")?;
            Ok(Reply::Show {
                text: Text::from_string(text),
            })
        }
        None => Ok(Reply::Refused(no_such_type(party.number(), name))),
    }
}
