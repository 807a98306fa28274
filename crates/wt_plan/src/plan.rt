//! Plans of registrations: which groups are new, with their numbers and indices, before anything is changed.
//! What stands and what was planned before are searched as one list.

ghost use Rattle.std.specs.Prelude.{◌≡◌, ◌+◌, List, ◌++◌, ◌∷◌, [], length, map, false, Some, None, IfOk, OnOk, ◌==◌, true, count_by, is_some};
ghost use Rattle.std.specs.List.{find, list_any};
ghost use Rattle.std.specs.Option.{option_copied};
ghost use Rattle.wt_env.specs.Equality.{rec_group_eq};
ghost use Rattle.wt_tree.specs.MapRefs.{map_group_refs as group_over};
ghost use Rattle.wt_model.specs.Indices.{used, is_used as is_used_number, assign_shared_type_indices as free_indices_of, locate};
ghost use Rattle.wt_model.specs.Describe.{describe};
ghost use Rattle.wt_model.specs.Reach.{edges};
ghost use Rattle.wt_model.specs.Trampolines.{trampoline_numbers, TellTrampolines};
ghost use Rattle.wt_tree.specs.References.{number_group};
ghost use Rattle.wt_tree.specs.Trampoline.{is_own_trampoline as own_test, other_trampoline as other_of};
ghost use Rattle.wt_keys.specs.Entries.{made_of, made_by};
ghost use Rattle.wt_keys.specs.Filed.{AreApart};
ghost use Rattle.wt_keys.specs.Keys.{ResolvesTo, named_at, KeyNamesTypes, AreKeys, IsNewKey, own_shown};
ghost use Rattle.wt_model.specs.Plan.{with_new, plan_trampoline as plan_trampoline_of, plan_trampolines as plan_trampolines_of, plan_key as plan_key_of};
ghost use Rattle.wt_plan.specs.Planned.{plan_of, AreResolved, PlansAlone, PlansTold, PlansTrampolines, PlansOne, AreFreeFor};
ghost use Rattle.wt_indices.specs.Free.{AreSameBefore};

use crate::supertypes::supertypes_of_key;
use std::alloc::Global;
use wt_env::memory::OutOfMemory;
use wt_env::seq::Seq;
use wt_env::types::{EngineOrModuleTypeIndex, VMSharedTypeIndex, WasmRecGroup, WasmSubType};
use wt_indices::free_indices::FreeIndices;
use wt_keys::entries::RecGroupEntries;
use wt_keys::entry::RecGroupEntry;
use wt_keys::search::locate_index;
use wt_model::ever::EverRegistered;
use wt_tree::map_refs::{IndexChange, map_group_refs};
use wt_tree::refs::leaving_refs;
use wt_tree::trampoline::other_trampoline;

/// What a registration of groups comes to, before any limit is tested.
#[derive(Debug, Drop)]
pub struct Plan {
    /// The groups that are new, in order.
    pub added: RecGroupEntries,
    /// How much was ever registered, with these.
    pub given: EverRegistered,
    /// The registration number of each group that occurs, in order.
    pub numbers: Vec<u64>,
    /// The index of each type so far.
    pub map: Vec<VMSharedTypeIndex>,
}

impl Plan {
    /// A plan of nothing, where so much was registered.
    pub fn new(alloc: Global, given: EverRegistered) -> Plan
        ensures added { result.added ≡ [] }
        ensures given { result.given ≡ given }
        ensures numbers { result.numbers.items ≡ [] }
        ensures map { result.map.items ≡ [] }
    {
        Plan {
            added: RecGroupEntries::new(alloc),
            given,
            numbers: Vec::new(alloc),
            map: Vec::new(alloc),
        }
    }
}

/// The entry that has this key.
fn find_planned<'a>(
    entries: &'a RecGroupEntries,
    added: &'a RecGroupEntries,
    key: &WasmRecGroup,
) -> Option<&'a RecGroupEntry>
    ensures { option_copied result ≡ find (λ entry. rec_group_eq entry.hash_consing_key key.now) (entries.now ++ added.now) }
{
    match entries.find_group(key) {
        Some(entry) => Some(entry),
        None => added.find_group(key),
    }
}

/// The registration number and place of the type that has this index.
fn locate_in(
    entries: &RecGroupEntries,
    index: VMSharedTypeIndex,
) -> Result<Option<(u64, u32)>, OutOfMemory>
    ensures { IfOk result (λ at. at ≡ locate (made_by entries.now) index) }
{
    match locate_index(entries, index) {
        Some((number, place)) => match u32::try_from(place) {
            Ok(place) => Ok(Some((number, place))),
            Err(_) => Err(OutOfMemory),
        },
        None => Ok(None),
    }
}

/// The registration number and place that a reference of a key names.
fn named_planned(
    entries: &RecGroupEntries,
    added: &RecGroupEntries,
    reference: &EngineOrModuleTypeIndex,
) -> Result<Option<(u64, u32)>, OutOfMemory>
    ensures { IfOk result (λ at. at ≡ named_at (made_by (entries.now ++ added.now)) reference.now) }
{
    let EngineOrModuleTypeIndex::Engine(index) = reference else {
        return Ok(None);
    };
    match locate_in(entries, *index)? {
        Some(at) => Ok(Some(at)),
        None => locate_in(added, *index),
    }
}

/// What the references of a key name, in order; each names a registered or planned type.
fn outer_of(
    alloc: Global,
    entries: &RecGroupEntries,
    added: &RecGroupEntries,
    types: &[WasmSubType],
) -> Result<Seq<(u64, u32)>, OutOfMemory>
    requires { AreResolved (made_by (entries.now ++ added.now)) types.now }
    ensures { IfOk result (λ outer. ResolvesTo (made_by (entries.now ++ added.now)) types.now outer) }
{
    let refs = leaving_refs(alloc, types)?;
    let mut outer = Seq::new(alloc);
    for reference in refs.as_slice() {
        if let Some(at) = named_planned(entries, added, reference)? {
            outer.push(at)?;
        }
    }
    Ok(outer)
}

/// The change of a key's references to its own members into their indices.
#[derive(Drop)]
struct OwnShown<'a> {
    indices: &'a [VMSharedTypeIndex],
}

impl<'a> IndexChange for OwnShown<'a> {
    ghost changed = { λ own. own_shown own.indices.now };

    fn change(&self, index: EngineOrModuleTypeIndex) -> EngineOrModuleTypeIndex {
        match index {
            EngineOrModuleTypeIndex::RecGroup(place) => match self.indices.get(place as usize) {
                Some(own) => EngineOrModuleTypeIndex::Engine(*own),
                None => index,
            },
            _ => index,
        }
    }
}

/// The members of a key with every reference as an index.
fn shown_members(
    alloc: Global,
    indices: &[VMSharedTypeIndex],
    types: &[WasmSubType],
) -> Result<Seq<WasmSubType>, OutOfMemory>
    ensures { IfOk result (λ members. members ≡ group_over (own_shown indices.now) types.now) }
{
    map_group_refs(alloc, &OwnShown { indices }, types)
}

/// The entry of a group whose key no entry has, with the next number and the smallest free indices, where this is
/// told of the trampolines of its members.
fn new_entry(
    alloc: Global,
    entries: &RecGroupEntries,
    free: &mut FreeIndices,
    added: &RecGroupEntries,
    numbers: u64,
    key: WasmRecGroup,
    trampolines: Seq<Option<u64>>,
) -> Result<RecGroupEntry, OutOfMemory>
    requires free { AreFreeFor entries.now added.now free.old }
    requires keys { AreKeys (entries.now ++ added.now) numbers }
    requires named { AreResolved (made_by (entries.now ++ added.now)) key.types }
    requires slots { KeyNamesTypes key.types }
    requires new { find (λ entry. rec_group_eq entry.hash_consing_key key) (entries.now ++ added.now) ≡ None }
    requires tell { TellTrampolines (made_by (entries.now ++ added.now)) key.types trampolines }
    ensures key { IfOk result (λ entry. IsNewKey (entries.now ++ added.now) numbers entry) }
    ensures made { IfOk result (λ entry. made_of entry ≡ record {
      number = numbers + 1;
      description = describe (made_by (entries.now ++ added.now)) key.types;
      trampolines = trampoline_numbers (made_by (entries.now ++ added.now)) (number_group key.types);
      indices = free_indices_of (length key.types) (used (made_by (entries.now ++ added.now)));
    }) }
    ensures group { IfOk result (λ entry. entry.hash_consing_key ≡ key) }
    ensures trampolines { IfOk result (λ entry. entry.trampolines ≡ trampolines) }
    ensures shown { IfOk result (λ entry. entry.runtime_types ≡ group_over (own_shown entry.shared_type_indices) entry.hash_consing_key.types) }
    ensures free { IfOk result (λ entry. AreFreeFor entries.now (added.now ++ entry ∷ []) free.new) }
    ensures before { AreSameBefore free.old free.new }
{
    let number = numbers.checked_add(1).ok_or(OutOfMemory)?;
    let outer = outer_of(alloc, entries, added, key.types.as_slice())?;
    let indices = free.assign_shared_type_indices(alloc, key.types.len())?;
    let shown = shown_members(alloc, indices.as_slice(), key.types.as_slice())?;
    let own = indices.as_slice();
    let supertypes = supertypes_of_key(alloc, entries, added, own, key.types.as_slice())?;
    Ok(RecGroupEntry {
        number,
        hash_consing_key: key,
        runtime_types: shown,
        outer,
        trampolines,
        supertypes,
        shared_type_indices: indices,
    })
}

/// How many trampolines are told.
fn told_count(trampolines: &[Option<u64>]) -> usize
    ensures { result ≡ count_by (λ told. is_some told) trampolines.now }
{
    trampolines.iter().filter(|told| told.is_some()).count()
}

/// How many edges the group has, each occurrence counted.
pub fn edge_count(entry: &RecGroupEntry) -> Result<u64, OutOfMemory>
    ensures { IfOk result (λ count. count ≡ length (edges (made_of entry.now))) }
{
    let references = entry.outer.len() as u64;
    let trampolines = told_count(entry.trampolines.as_slice()) as u64;
    let count = references.checked_add(trampolines).ok_or(OutOfMemory)?;
    Ok(count)
}

/// One more group that was ever registered, with so many types and references.
fn one_more(
    given: EverRegistered,
    types: usize,
    references: u64,
) -> Result<EverRegistered, OutOfMemory>
    ensures { IfOk result (λ more. more ≡ record { numbers = given.numbers + 1; types = given.types + types; references = given.references + references }) }
{
    Ok(EverRegistered {
        numbers: given.numbers.checked_add(1).ok_or(OutOfMemory)?,
        types: given.types.checked_add(types as u64).ok_or(OutOfMemory)?,
        references: given.references.checked_add(references).ok_or(OutOfMemory)?,
    })
}

/// One more group that is new, and no occurrence of it.
fn add_entry(plan: &mut Plan, entry: RecGroupEntry) -> Result<(), OutOfMemory>
    requires { AreApart (plan.old.added ++ entry ∷ []) }
    ensures added { OnOk result (plan.new.added ≡ plan.old.added ++ entry ∷ []) }
    ensures given { OnOk result (plan.new.given ≡ record {
      numbers = plan.old.given.numbers + 1;
      types = plan.old.given.types + length entry.shared_type_indices;
      references = plan.old.given.references + length (edges (made_of entry));
    }) }
    ensures numbers { OnOk result (plan.new.numbers.items ≡ plan.old.numbers.items) }
    ensures map { OnOk result (plan.new.map.items ≡ plan.old.map.items) }
{
    let edges = edge_count(&entry)?;
    plan.given = one_more(plan.given, entry.shared_type_indices.len(), edges)?;
    plan.added.push(entry)?;
    Ok(())
}

/// Plans the group of this trampoline alone, which may be there already. Answers its registration number.
fn plan_alone(
    alloc: Global,
    entries: &RecGroupEntries,
    free: &mut FreeIndices,
    plan: &mut Plan,
    member: WasmSubType,
) -> Result<u64, OutOfMemory>
    requires free { AreFreeFor entries.now plan.old.added free.old }
    requires own { own_test member ≡ true }
    requires keys { AreKeys (entries.now ++ plan.old.added) plan.old.given.numbers }
    ensures ok { OnOk result (plan_trampoline_of (plan_of entries.now plan.old) (Some member) ≡ plan_of entries.now plan.new) }
    ensures keys { OnOk result (AreKeys (entries.now ++ plan.new.added) plan.new.given.numbers) }
    ensures alone { IfOk result (λ number. PlansAlone entries.now plan.old plan.new member number) }
    ensures free { OnOk result (AreFreeFor entries.now plan.new.added free.new) }
    ensures before { AreSameBefore free.old free.new }
{
    let key = WasmRecGroup::alone(alloc, member)?;
    if let Some(alone) = find_planned(entries, &plan.added, &key) {
        return Ok(alone.number);
    }
    let told = Seq::one(alloc, None)?;
    let added = &plan.added;
    let entry = new_entry(alloc, entries, free, added, plan.given.numbers, key, told)?;
    let number = entry.number;
    add_entry(plan, entry)?;
    Ok(number)
}

/// Plans the trampoline of a member, where it isn't the member itself. Answers the registration number of its
/// group.
fn plan_trampoline(
    alloc: Global,
    entries: &RecGroupEntries,
    free: &mut FreeIndices,
    plan: &mut Plan,
    ty: &WasmSubType,
) -> Result<Option<u64>, OutOfMemory>
    requires free { AreFreeFor entries.now plan.old.added free.old }
    requires keys { AreKeys (entries.now ++ plan.old.added) plan.old.given.numbers }
    ensures ok { OnOk result (plan_trampoline_of (plan_of entries.now plan.old) (other_of ty.now) ≡ plan_of entries.now plan.new) }
    ensures keys { OnOk result (AreKeys (entries.now ++ plan.new.added) plan.new.given.numbers) }
    ensures told { IfOk result (λ told. PlansTold entries.now plan.old plan.new (other_of ty.now) told) }
    ensures free { OnOk result (AreFreeFor entries.now plan.new.added free.new) }
    ensures before { AreSameBefore free.old free.new }
{
    match other_trampoline(alloc, ty)? {
        Some(member) => Ok(Some(plan_alone(alloc, entries, free, plan, member)?)),
        None => Ok(None),
    }
}

/// Plans the trampolines of members, in order. Answers what is told of them.
fn plan_trampolines(
    alloc: Global,
    entries: &RecGroupEntries,
    free: &mut FreeIndices,
    plan: &mut Plan,
    types: &[WasmSubType],
) -> Result<Seq<Option<u64>>, OutOfMemory>
    requires free { AreFreeFor entries.now plan.old.added free.old }
    requires keys { AreKeys (entries.now ++ plan.old.added) plan.old.given.numbers }
    ensures planned { IfOk result (λ told. PlansTrampolines entries.now plan.old plan.new types.now told) }
    ensures free { OnOk result (AreFreeFor entries.now plan.new.added free.new) }
    ensures before { AreSameBefore free.old free.new }
{
    let mut told = Seq::new(alloc);
    for ty in types {
        told.push(plan_trampoline(alloc, entries, free, plan, ty)?)?;
    }
    Ok(told)
}

/// One more occurrence of a group.
fn add_occurrence(
    numbers: &mut Vec<u64>,
    map: &mut Vec<VMSharedTypeIndex>,
    entry: &RecGroupEntry,
) -> Result<(), OutOfMemory>
    ensures numbers { OnOk result (numbers.new.items ≡ numbers.old.items ++ entry.now.number ∷ []) }
    ensures map { OnOk result (map.new.items ≡ map.old.items ++ entry.now.shared_type_indices) }
{
    numbers.push(entry.number)?;
    map.extend_from_slice(entry.shared_type_indices.as_slice())?;
    Ok(())
}

/// Plans one more group that is new, behind the trampolines of its members.
fn plan_new(
    alloc: Global,
    entries: &RecGroupEntries,
    free: &mut FreeIndices,
    plan: &mut Plan,
    key: WasmRecGroup,
) -> Result<(), OutOfMemory>
    requires free { AreFreeFor entries.now plan.old.added free.old }
    requires keys { AreKeys (entries.now ++ plan.old.added) plan.old.given.numbers }
    requires named { AreResolved (made_by (entries.now ++ plan.old.added)) key.types }
    requires slots { KeyNamesTypes key.types }
    requires new { find (λ entry. rec_group_eq entry.hash_consing_key key) (entries.now ++ plan.old.added) ≡ None }
    ensures ok { OnOk result (with_new (plan_trampolines_of (plan_of entries.now plan.old) key.types) key.types ≡ plan_of entries.now plan.new) }
    ensures keys { OnOk result (AreKeys (entries.now ++ plan.new.added) plan.new.given.numbers) }
    ensures one { OnOk result (PlansOne entries.now plan.old plan.new key.types) }
    ensures free { OnOk result (AreFreeFor entries.now plan.new.added free.new) }
    ensures before { AreSameBefore free.old free.new }
{
    let told = plan_trampolines(alloc, entries, free, plan, key.types.as_slice())?;
    let added = &plan.added;
    let entry = new_entry(alloc, entries, free, added, plan.given.numbers, key, told)?;
    add_occurrence(&mut plan.numbers, &mut plan.map, &entry)?;
    add_entry(plan, entry)?;
    Ok(())
}

/// Plans one more group, whose references that leave it are indices of what stands or was planned. Each other reference
/// is a place of its own, and each supertype is before the type that declares it.
pub fn plan_key(
    alloc: Global,
    entries: &RecGroupEntries,
    free: &mut FreeIndices,
    plan: &mut Plan,
    key: WasmRecGroup,
) -> Result<(), OutOfMemory>
    requires free { AreFreeFor entries.now plan.old.added free.old }
    requires keys { AreKeys (entries.now ++ plan.old.added) plan.old.given.numbers }
    requires named { AreResolved (made_by (entries.now ++ plan.old.added)) key.types }
    requires slots { KeyNamesTypes key.types }
    ensures ok { OnOk result (plan_key_of (plan_of entries.now plan.old) key.types ≡ plan_of entries.now plan.new) }
    ensures keys { OnOk result (AreKeys (entries.now ++ plan.new.added) plan.new.given.numbers) }
    ensures one { OnOk result (PlansOne entries.now plan.old plan.new key.types) }
    ensures free { OnOk result (AreFreeFor entries.now plan.new.added free.new) }
    ensures before { AreSameBefore free.old free.new }
{
    if let Some(entry) = find_planned(entries, &plan.added, &key) {
        return add_occurrence(&mut plan.numbers, &mut plan.map, entry);
    }
    plan_new(alloc, entries, free, plan, key)
}
