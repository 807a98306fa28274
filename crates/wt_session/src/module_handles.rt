//! A party's handles on modules: how they are made and released.

ghost use Rattle.std.specs.Prelude.{◌≡◌, ◌+◌, ◌^◌, ◌<◌, ◌≤◌, ◌++◌, ◌∷◌, [], length, map, IfOk, OnErr, Some, slice_get, vec_len, vec_capacity};
ghost use Rattle.std.specs.Option.{option_copied};
ghost use Rattle.wt_registry.specs.Rules.{AreCountable, AreModuleTypes, total_members};
ghost use Rattle.wt_registry.specs.Registration.{register_groups, module_groups, trees_of};
ghost use Rattle.wt_session.specs.World.{module_at};
ghost use Rattle.wt_session.specs.Run.{module_made, module_released};
ghost use Rattle.wt_session.specs.Answered.{NamesTrees};
ghost use Rattle.wt_session.specs.Session.{AreHandles, Keeps};

use crate::handle::Handle;
use crate::reply::{HandleKind, Reply};
use crate::type_handles::{no_such_handle, put, refuse, take};
use std::alloc::Global;
use wt_env::memory::OutOfMemory;
use wt_env::seq::Seq;
use wt_env::types::{ModuleTypes, VMSharedTypeIndex, WasmRecGroup};
use wt_registry::collection::TypeCollection;
use wt_registry::registered_type::PartyNumber;
use wt_registry::registry::TypeRegistry;

/// How many types the groups have.
fn type_count(groups: &[WasmRecGroup]) -> usize
    requires { total_members groups.now < 2 ^ 32 }
    ensures { result ≡ total_members groups.now }
{
    let mut count: usize = 0;
    for group in groups {
        count += group.types.len();
    }
    count
}

/// Adds the numbers of indices to a list that has room for them.
fn fill(numbers: &mut Vec<u32>, indices: &[VMSharedTypeIndex])
    requires { vec_len numbers.old + length indices.now ≤ vec_capacity numbers.old }
    ensures { numbers.new.items ≡ numbers.old.items ++ map (λ i. i.0) indices.now }
{
    for index in indices {
        numbers.push_reserved(index.bits());
    }
}

/// Puts a handle on a module after the others, and replies with its number and the types' indices.
fn push_module(row: &mut Vec<Handle>, numbers: Vec<u32>, types: TypeCollection) -> Reply
    requires row { vec_len row.old < vec_capacity row.old }
    requires empty { numbers.items ≡ [] }
    requires room { vec_len numbers + length types.map ≤ vec_capacity numbers }
    ensures reply { result ≡ Reply.Module (length row.old.items) (map (λ i. i.0) types.map) }
    ensures row { row.new.items ≡ row.old.items ++ Handle.Module types ∷ [] }
{
    let mut numbers = numbers;
    fill(&mut numbers, types.as_module_map());
    let reply = Reply::Module {
        handle: row.len() as u64,
        indices: Seq::from_vec(numbers),
    };
    row.push_reserved(Handle::Module(types));
    reply
}

/// Registers the groups of a module for a party, and gives the party a handle on its types. The room for the
/// handle and the reply is taken first.
pub(crate) fn register_module(
    alloc: Global,
    registry: &mut TypeRegistry,
    party: &mut PartyNumber,
    row: &mut Vec<Handle>,
    groups: &ModuleTypes,
) -> Result<Reply, OutOfMemory>
    requires countable { AreCountable groups.now.groups }
    requires named { AreModuleTypes groups.now.groups }
    requires below { party.old < registry.old.engine.limits.parties }
    requires handles { AreHandles registry.old party.old row.old.items }
    ensures ok { IfOk result (λ reply. module_made registry.old row.old.items (register_groups registry.old party.old groups.now.groups)
        ≡ record { reply = reply; registry = registry.new; row = row.new.items }) }
    ensures named { IfOk result (λ reply. NamesTrees registry.new.made reply (Some (trees_of registry.old.made (module_groups groups.now.groups)))) }
    ensures err { OnErr result ((registry.new ≡ registry.old) × (row.new.items ≡ row.old.items)) }
    ensures party { party.new ≡ party.old }
    ensures keeps { Keeps registry.old registry.new party.old row.new.items }
{
    row.reserve(1)?;
    let mut numbers = Vec::new(alloc);
    numbers.reserve(type_count(groups.groups.as_slice()))?;
    match registry.register_module(party, groups) {
        Ok(types) => Ok(push_module(row, numbers, types)),
        Err(why) => refuse(why),
    }
}

/// The types of a module handle.
pub(crate) fn find_module(row: &[Handle], handle: u32) -> Option<&TypeCollection>
    ensures { option_copied result ≡ module_at row.now handle }
{
    match row.get(handle as usize) {
        Some(Handle::Module(types)) => Some(types),
        _ => None,
    }
}

/// Releases a party's module: its holds end, and what isn't reached any more is removed. It takes no memory.
pub(crate) fn release_module(
    registry: &mut TypeRegistry,
    party: &mut PartyNumber,
    row: &mut Vec<Handle>,
    handle: u32,
) -> Reply
    requires below { party.old < registry.old.engine.limits.parties }
    requires handles { AreHandles registry.old party.old row.old.items }
    ensures done { module_released registry.old row.old.items party.old handle (module_at row.old.items handle)
        ≡ record { reply = result; registry = registry.new; row = row.new.items } }
    ensures party { party.new ≡ party.old }
    ensures keeps { Keeps registry.old registry.new party.old row.new.items }
{
    let place = handle as usize;
    if place >= row.len() {
        return Reply::Refused(no_such_handle(party.number(), HandleKind::Module, handle));
    }
    match take(row, place) {
        Handle::Module(types) => {
            registry.release(party, types);
            Reply::Released
        }
        other => {
            put(row, place, other);
            Reply::Refused(no_such_handle(party.number(), HandleKind::Module, handle))
        }
    }
}
