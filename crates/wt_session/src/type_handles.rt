//! A party's handles on types: how they are made, dropped and swept.

ghost use Rattle.std.specs.Prelude.{◌≡◌, ◌≢◌, ◌<◌, ◌⊎◌, ◌++◌, ◌∷◌, [], length, map, IfOk, IfErr, OnErr, Ok, Err, None, Some, slice_get, slice_set, vec_len, vec_capacity};
ghost use Rattle.std.specs.Option.{option_copied};
ghost use Rattle.wt_registry.specs.Holds.{root as rooted};
ghost use Rattle.wt_registry.specs.Holds.{IsHeld};
ghost use Rattle.wt_registry.specs.Registration.{register_one, trees_of};
ghost use Rattle.wt_registry.specs.Changes.{HoldChanges};
ghost use Rattle.wt_registry.specs.Indices.{closed_tree};
ghost use Rattle.wt_registry.specs.Sound.{IsSound};
ghost use Rattle.wt_session.specs.World.{type_at, debt_at};
ghost use Rattle.wt_session.specs.HostTypes.{described, missing_name};
ghost use Rattle.wt_session.specs.Run.{type_described, refusal_of, type_made, clone_made, root_made, type_dropped, debt_swept};
ghost use Rattle.wt_session.specs.Answered.{NamesTrees};
ghost use Rattle.wt_session.specs.Session.{AreHandles, Keeps};

use crate::handle::Handle;
use crate::host::{sub_type, tag_type, val_types};
use crate::missing_names::missing_name;
use crate::named_types::no_such_type;
use crate::reply::{HandleKind, Refusal, Reply};
use std::alloc::Global;
use std::mem;
use wt_commands::host_type::HostSub;
use wt_env::memory::OutOfMemory;
use wt_env::types::VMSharedTypeIndex;
use wt_registry::refusal::BuildRefusal;
use wt_registry::registered_type::{PartyNumber, RegisteredType};
use wt_registry::registry::TypeRegistry;

/// How a command is refused that names a handle of this kind under a number where its party has none.
pub(crate) fn no_such_handle(party: u32, kind: HandleKind, handle: u32) -> Refusal
    ensures { result ≡ Refusal.NoSuchHandle party kind handle }
{
    Refusal::NoSuchHandle {
        party,
        kind,
        handle,
    }
}

/// The reply to a registration that is refused; want of memory is handed on.
pub(crate) fn refuse(why: BuildRefusal) -> Result<Reply, OutOfMemory>
    ensures { IfOk result (λ reply. (reply ≡ Reply.Refused (refusal_of why)) × (why ≢ BuildRefusal.OutOfMemory)) }
{
    let refusal = match why {
        BuildRefusal::InvalidModule { place, rule } => Refusal::InvalidModule { place, rule },
        BuildRefusal::FinalSupertype { supertype } => Refusal::FinalSupertype { supertype },
        BuildRefusal::SupertypeMismatch { kind } => Refusal::SupertypeMismatch { kind },
        BuildRefusal::TooManyFields { fields } => Refusal::TooManyFields { fields },
        BuildRefusal::TagHasResults { results } => Refusal::TagHasResults { results },
        BuildRefusal::NoGc => Refusal::NoGc,
        BuildRefusal::Full(full) => Refusal::Full(full),
        BuildRefusal::OutOfMemory => return Err(OutOfMemory),
    };
    Ok(Reply::Refused(refusal))
}

/// Puts a handle after the others, and replies with its number.
fn push_type(row: &mut Vec<Handle>, hold: RegisteredType) -> Reply
    requires { vec_len row.old < vec_capacity row.old }
    ensures reply { result ≡ Reply.TypeMade (length row.old.items) hold.index.0 }
    ensures row { row.new.items ≡ row.old.items ++ Handle.Type hold ∷ [] }
{
    let reply = Reply::TypeMade {
        handle: row.len() as u64,
        index: hold.index().bits(),
    };
    row.push_reserved(Handle::Type(hold));
    reply
}

/// Registers what a host describes for a party, which names registered types alone, each of the kind that its place needs.
fn register_described(
    alloc: Global,
    registry: &mut TypeRegistry,
    party: &mut PartyNumber,
    row: &[Handle],
    sub: &HostSub,
) -> Result<RegisteredType, BuildRefusal>
    requires named { missing_name registry.old.made row.now sub.now ≡ None }
    requires party { party.old < registry.old.engine.limits.parties }
    ensures ok { IfOk result (λ hold. register_one registry.old party.old (described registry.old.made row.now sub.now) ≡ Ok (hold, registry.new)) }
    ensures refused { IfErr result (λ why. (why ≡ BuildRefusal.OutOfMemory) ⊎ (register_one registry.old party.old (described registry.old.made row.now sub.now) ≡ Err why)) }
    ensures named { IfOk result (λ hold. closed_tree registry.new.made hold.index ∷ [] ≡ map Some (trees_of registry.old.made (described registry.old.made row.now sub.now))) }
    ensures err { OnErr result (registry.new ≡ registry.old) }
    ensures party { party.new ≡ party.old }
    ensures changes { IfOk result (λ hold. HoldChanges registry.old registry.new party.old (hold.number ∷ [])) }
    ensures owner { IfOk result (λ hold. hold.party ≡ party.old) }
    ensures held { IfOk result (λ hold. IsHeld registry.new hold) }
    ensures sound { IsSound registry.new }
{
    registry.tell_invariant();
    match sub {
        HostSub::Declared {
            is_final,
            supertype,
            shape,
        } => {
            let ty = sub_type(alloc, registry, row, *is_final, *supertype, shape)?;
            RegisteredType::new(registry, party, ty)
        }
        HostSub::Exception { fields } => {
            let fields = val_types(alloc, registry, row, fields.as_slice())?;
            RegisteredType::new_exn(registry, party, fields.as_slice())
        }
        HostSub::Tag(name) => {
            let ty = tag_type(registry, row, *name)?;
            RegisteredType::new(registry, party, ty)
        }
    }
}

/// Registers a type for a party, and gives the party a handle on it. The first name that is missing is refused before
/// anything else.
pub(crate) fn register_type(
    alloc: Global,
    registry: &mut TypeRegistry,
    party: &mut PartyNumber,
    row: &mut Vec<Handle>,
    sub: &HostSub,
) -> Result<Reply, OutOfMemory>
    requires below { party.old < registry.old.engine.limits.parties }
    requires handles { AreHandles registry.old party.old row.old.items }
    ensures ok { IfOk result (λ reply. type_described registry.old row.old.items party.old sub.now (missing_name registry.old.made row.old.items sub.now)
        ≡ record { reply = reply; registry = registry.new; row = row.new.items }) }
    ensures named { IfOk result (λ reply. NamesTrees registry.new.made reply (Some (trees_of registry.old.made (described registry.old.made row.old.items sub.now)))) }
    ensures err { OnErr result ((registry.new ≡ registry.old) × (row.new.items ≡ row.old.items)) }
    ensures party { party.new ≡ party.old }
    ensures keeps { Keeps registry.old registry.new party.old row.new.items }
{
    row.reserve(1)?;
    if let Some(name) = missing_name(registry, row.as_slice(), sub) {
        return Ok(Reply::Refused(no_such_type(party.number(), name)));
    }
    match register_described(alloc, registry, party, row.as_slice(), sub) {
        Ok(hold) => Ok(push_type(row, hold)),
        Err(why) => refuse(why),
    }
}

/// The hold of a type handle.
pub(crate) fn find_type(row: &[Handle], handle: u32) -> Option<&RegisteredType>
    ensures { option_copied result ≡ type_at row.now handle }
{
    match row.get(handle as usize) {
        Some(Handle::Type(hold)) => Some(hold),
        _ => None,
    }
}

/// Gives a party one handle more on the type of a handle.
pub(crate) fn clone_type(
    registry: &mut TypeRegistry,
    party: &mut PartyNumber,
    row: &mut Vec<Handle>,
    handle: u32,
) -> Result<Reply, OutOfMemory>
    requires below { party.old < registry.old.engine.limits.parties }
    requires handles { AreHandles registry.old party.old row.old.items }
    ensures ok { IfOk result (λ reply. clone_made registry.old row.old.items party.old handle (type_at row.old.items handle)
        ≡ record { reply = reply; registry = registry.new; row = row.new.items }) }
    ensures err { OnErr result ((registry.new ≡ registry.old) × (row.new.items ≡ row.old.items)) }
    ensures party { party.new ≡ party.old }
    ensures keeps { Keeps registry.old registry.new party.old row.new.items }
{
    row.reserve(1)?;
    match find_type(row.as_slice(), handle) {
        Some(hold) => match hold.try_clone(registry, party) {
            Ok(copy) => Ok(push_type(row, copy)),
            Err(full) => Ok(Reply::Refused(Refusal::Full(full))),
        },
        None => Ok(Reply::Refused(no_such_handle(party.number(), HandleKind::Type, handle))),
    }
}

/// Gives a party a handle on the type that has this index.
pub(crate) fn root_type(
    registry: &mut TypeRegistry,
    party: &mut PartyNumber,
    row: &mut Vec<Handle>,
    index: u32,
) -> Result<Reply, OutOfMemory>
    requires below { party.old < registry.old.engine.limits.parties }
    requires handles { AreHandles registry.old party.old row.old.items }
    ensures ok { IfOk result (λ reply. root_made registry.old row.old.items (rooted registry.old party.old (record { 0 = index }))
        ≡ record { reply = reply; registry = registry.new; row = row.new.items }) }
    ensures err { OnErr result ((registry.new ≡ registry.old) × (row.new.items ≡ row.old.items)) }
    ensures party { party.new ≡ party.old }
    ensures keeps { Keeps registry.old registry.new party.old row.new.items }
{
    row.reserve(1)?;
    match RegisteredType::try_root(registry, party, VMSharedTypeIndex::new(index)) {
        Ok(Some(hold)) => Ok(push_type(row, hold)),
        Ok(None) => Ok(Reply::NoneFound),
        Err(full) => Ok(Reply::Refused(Refusal::Full(full))),
    }
}

/// Takes what stands at a place, and leaves an ended handle there.
pub(crate) fn take(row: &mut Vec<Handle>, place: usize) -> Handle
    requires { place < length row.old.items }
    ensures taken { slice_get row.old.items place ≡ Some result }
    ensures row { row.new.items ≡ slice_set row.old.items place Handle.Ended }
{
    mem::replace(&mut row[place], Handle::Ended)
}

/// Puts a handle at a place of which the handle was taken.
pub(crate) fn put(row: &mut Vec<Handle>, place: usize, handle: Handle)
    requires { place < length row.old.items }
    ensures { row.new.items ≡ slice_set row.old.items place handle }
{
    mem::replace(&mut row[place], handle).forget();
}

/// Ends a party's handle on a type. Where no hold and no waiting group reaches the type's group any more, the
/// handle is a debt now. It takes no memory.
pub(crate) fn drop_type(
    registry: &mut TypeRegistry,
    party: &mut PartyNumber,
    row: &mut Vec<Handle>,
    handle: u32,
) -> Reply
    requires below { party.old < registry.old.engine.limits.parties }
    requires handles { AreHandles registry.old party.old row.old.items }
    ensures done { type_dropped registry.old row.old.items party.old handle (type_at row.old.items handle)
        ≡ record { reply = result; registry = registry.new; row = row.new.items } }
    ensures party { party.new ≡ party.old }
    ensures keeps { Keeps registry.old registry.new party.old row.new.items }
{
    let place = handle as usize;
    if place >= row.len() {
        return Reply::Refused(no_such_handle(party.number(), HandleKind::Type, handle));
    }
    match take(row, place) {
        Handle::Type(hold) => match hold.decref(registry, party) {
            Some(debt) => {
                put(row, place, Handle::Owed(debt));
                Reply::Owed
            }
            None => Reply::Dropped,
        },
        other => {
            put(row, place, other);
            Reply::Refused(no_such_handle(party.number(), HandleKind::Type, handle))
        }
    }
}

/// Sweeps the group of a party's debt, which ends with it. It takes no memory.
pub(crate) fn sweep_debt(
    registry: &mut TypeRegistry,
    party: &mut PartyNumber,
    row: &mut Vec<Handle>,
    handle: u32,
) -> Reply
    requires { AreHandles registry.old party.old row.old.items }
    ensures done { debt_swept registry.old row.old.items party.old handle (debt_at row.old.items handle)
        ≡ record { reply = result; registry = registry.new; row = row.new.items } }
    ensures party { party.new ≡ party.old }
    ensures keeps { Keeps registry.old registry.new party.old row.new.items }
{
    let place = handle as usize;
    if place >= row.len() {
        return Reply::Refused(no_such_handle(party.number(), HandleKind::Debt, handle));
    }
    match take(row, place) {
        Handle::Owed(debt) => Reply::Swept(registry.sweep(debt)),
        other => {
            put(row, place, other);
            Reply::Refused(no_such_handle(party.number(), HandleKind::Debt, handle))
        }
    }
}
