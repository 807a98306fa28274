//! The lists of the declared supertypes of the members of a new group, each behind the list of the supertype that the
//! member declares.

ghost use Rattle.std.specs.Prelude.{◌≡◌, ℕ, ◌<◌, ◌≤◌, ◌++◌, length, slice_get, Some, IfOk, IsSome};
ghost use Rattle.wt_env.specs.declared.types.VMSharedTypeIndex.{VMSharedTypeIndex as Shared};
ghost use Rattle.wt_model.specs.Indices.{locate};
ghost use Rattle.wt_keys.specs.Entries.{made_by};
ghost use Rattle.wt_keys.specs.Keys.{AreKeys, KeyNamesTypes};
ghost use Rattle.wt_keys.specs.SupertypeChains.{list_of, IsListBehind, FollowsSupertype, FollowSupertypes};
ghost use Rattle.wt_plan.specs.Planned.{AreResolved, HasList};

use std::alloc::Global;
use wt_env::memory::OutOfMemory;
use wt_env::seq::Seq;
use wt_env::types::{EngineOrModuleTypeIndex, VMSharedTypeIndex, WasmSubType};
use wt_keys::entries::RecGroupEntries;
use wt_keys::supertypes::{SupertypeList, supertypes_of};

/// The list of a type that declares a registered or planned supertype.
fn behind_registered(
    alloc: Global,
    entries: &RecGroupEntries,
    added: &RecGroupEntries,
    supertype: VMSharedTypeIndex,
) -> Result<SupertypeList, OutOfMemory>
    requires keys { (top : ℕ) × AreKeys (entries.now ++ added.now) top }
    requires registered { IsSome (locate (made_by (entries.now ++ added.now)) supertype) }
    ensures { IfOk result (λ list. IsListBehind (list_of (entries.now ++ added.now) supertype) supertype list) }
{
    match supertypes_of(entries, added, supertype) {
        Some(supertypes) => SupertypeList::behind(alloc, supertypes, supertype),
        None => unreachable!(),
    }
}

/// The list of a member that declares an earlier member of its key.
fn behind_member(
    alloc: Global,
    indices: &[VMSharedTypeIndex],
    lists: &[SupertypeList],
    place: usize,
) -> Result<SupertypeList, OutOfMemory>
    requires index { place < length indices.now }
    requires list { place < length lists.now }
    ensures { IfOk result (λ list. (i : Shared) × (slice_get indices.now place ≡ Some i) × IsListBehind (slice_get lists.now place) i list) }
{
    SupertypeList::behind(alloc, &lists[place], indices[place])
}

/// The list of a member that declares this supertype.
fn behind_declared(
    alloc: Global,
    entries: &RecGroupEntries,
    added: &RecGroupEntries,
    indices: &[VMSharedTypeIndex],
    lists: &[SupertypeList],
    supertype: EngineOrModuleTypeIndex,
) -> Result<SupertypeList, OutOfMemory>
    requires keys { (top : ℕ) × AreKeys (entries.now ++ added.now) top }
    requires declared { HasList (made_by (entries.now ++ added.now)) (length lists.now) (Some supertype) }
    requires indices { length lists.now ≤ length indices.now }
    ensures { IfOk result (λ list. FollowsSupertype (entries.now ++ added.now) indices.now lists.now (Some supertype) list) }
{
    match supertype {
        EngineOrModuleTypeIndex::Engine(index) => behind_registered(alloc, entries, added, index),
        EngineOrModuleTypeIndex::RecGroup(place) => {
            behind_member(alloc, indices, lists, place as usize)
        }
        EngineOrModuleTypeIndex::Module(_) => unreachable!(),
    }
}

/// The list of a member, behind those of earlier ones.
fn list_of_member(
    alloc: Global,
    entries: &RecGroupEntries,
    added: &RecGroupEntries,
    indices: &[VMSharedTypeIndex],
    lists: &[SupertypeList],
    member: &WasmSubType,
) -> Result<SupertypeList, OutOfMemory>
    requires keys { (top : ℕ) × AreKeys (entries.now ++ added.now) top }
    requires declared { HasList (made_by (entries.now ++ added.now)) (length lists.now) member.now.supertype }
    requires indices { length lists.now ≤ length indices.now }
    ensures { IfOk result (λ list. FollowsSupertype (entries.now ++ added.now) indices.now lists.now member.now.supertype list) }
{
    match member.supertype {
        Some(supertype) => { behind_declared(alloc, entries, added, indices, lists, supertype) }
        None => Ok(SupertypeList::none(alloc)),
    }
}

/// The list of each member of a key, where the members have these indices.
pub fn supertypes_of_key(
    alloc: Global,
    entries: &RecGroupEntries,
    added: &RecGroupEntries,
    indices: &[VMSharedTypeIndex],
    types: &[WasmSubType],
) -> Result<Seq<SupertypeList>, OutOfMemory>
    requires keys { (top : ℕ) × AreKeys (entries.now ++ added.now) top }
    requires named { AreResolved (made_by (entries.now ++ added.now)) types.now }
    requires slots { KeyNamesTypes types.now }
    requires indices { length indices.now ≡ length types.now }
    ensures { IfOk result (λ lists. FollowSupertypes (entries.now ++ added.now) indices.now types.now lists) }
{
    let mut lists = Seq::new(alloc);
    for member in types {
        let earlier = lists.as_slice();
        let list = list_of_member(alloc, entries, added, indices, earlier, member)?;
        lists.push(list)?;
    }
    Ok(lists)
}
