//! What is asked of the registered groups by index and by number, over their searches.

ghost use Rattle.std.specs.Prelude.{◌≡◌, ℕ, ◌^◌, ◌<◌, [], ◌∷◌, ◌++◌, length, false, IfOk, OnErr, ◌==◌, position, map, option_map, option_and_then, slice_get, unwrap_or, Some, is_some};
ghost use Rattle.std.specs.List.{find, list_any, AllByRecursion};
ghost use Rattle.std.specs.Option.{option_copied};
ghost use Rattle.wt_env.specs.Among.{Among};
ghost use Rattle.wt_env.specs.Equality.{rec_group_eq};
ghost use Rattle.wt_tree.specs.Trampoline.{is_own_trampoline as own_test};
ghost use Rattle.wt_model.specs.Trampolines.{trampoline_index};
ghost use Rattle.wt_model.specs.Indices.{used, is_used as is_used_number, place_in, locate};
ghost use Rattle.wt_model.specs.Shown.{sub_type_at};
ghost use Rattle.wt_keys.specs.Keys.{AreKeys};
ghost use Rattle.wt_keys.specs.Keys.{AreShown, shown_in as shown_in_entry, at_entry};
ghost use Rattle.wt_keys.specs.Entries.{made_by};
ghost use Rattle.wt_model.specs.Live.{live_of};

use crate::entries::RecGroupEntries;
use crate::entry::RecGroupEntry;
use std::alloc::Global;
use wt_env::memory::OutOfMemory;
use wt_env::seq::Seq;
use wt_env::types::{VMSharedTypeIndex, WasmRecGroup, WasmSubType};
use wt_model::live::LiveGroup;
use wt_tree::trampoline::is_own_trampoline;

fn position_of(indices: &[VMSharedTypeIndex], index: VMSharedTypeIndex) -> Option<usize>
    ensures { result ≡ position (λ at. at.0 == index.0) indices.now }
{
    indices.iter().position(|at| at.bits() == index.bits())
}

pub fn place_of(indices: &[VMSharedTypeIndex], index: VMSharedTypeIndex) -> Option<usize>
    ensures { result ≡ place_in index indices.now }
{
    position_of(indices, index)
}

/// The entry of the type that has this index, in one list or behind it in another.
pub fn joined_entry<'a>(
    entries: &'a RecGroupEntries,
    added: &'a RecGroupEntries,
    index: VMSharedTypeIndex,
) -> Option<&'a RecGroupEntry>
    ensures { option_copied result ≡ find (λ entry. is_some (place_in index entry.shared_type_indices)) (entries.now ++ added.now) }
{
    match entries.find_index(index) {
        Some(entry) => Some(entry),
        None => added.find_index(index),
    }
}

/// What the entry shows at the place of this index.
fn shown_in(entry: &RecGroupEntry, index: VMSharedTypeIndex) -> Option<&WasmSubType>
    ensures { option_copied result ≡ shown_in_entry index (Some entry.now) }
{
    match place_of(entry.shared_type_indices.as_slice(), index) {
        Some(place) => entry.runtime_types.get(place),
        None => None,
    }
}

/// The sub type that has this index, in one list of entries or behind it in another.
pub fn borrow_joined<'a>(
    entries: &'a RecGroupEntries,
    added: &'a RecGroupEntries,
    index: VMSharedTypeIndex,
) -> Option<&'a WasmSubType>
    requires keys { (top : ℕ) × AreKeys (entries.now ++ added.now) top }
    requires shown { AreShown (entries.now ++ added.now) }
    ensures { option_copied result ≡ sub_type_at (made_by (entries.now ++ added.now)) index }
{
    match joined_entry(entries, added, index) {
        Some(entry) => shown_in(entry, index),
        None => None,
    }
}

/// The sub type that has this index.
pub fn borrow_from(entries: &RecGroupEntries, index: VMSharedTypeIndex) -> Option<&WasmSubType>
    requires keys { (top : ℕ) × AreKeys entries.now top }
    requires shown { AreShown entries.now }
    ensures { option_copied result ≡ sub_type_at (made_by entries.now) index }
{
    match entries.find_index(index) {
        Some(entry) => shown_in(entry, index),
        None => None,
    }
}

fn index_bits(alloc: Global, indices: &[VMSharedTypeIndex]) -> Result<Seq<u32>, OutOfMemory>
    ensures { IfOk result (λ bits. bits ≡ map (λ i. i.0) indices.now) }
{
    let bits = indices.iter().map(|index| index.bits()).collect(alloc)?;
    Ok(Seq::from_vec(bits))
}

/// Each entry as it is told, in order.
pub fn live_groups(alloc: Global, entries: &RecGroupEntries) -> Result<Seq<LiveGroup>, OutOfMemory>
    ensures { IfOk result (λ groups. groups ≡ live_of (made_by entries.now)) }
{
    let mut groups = Seq::new(alloc);
    for entry in entries.as_slice() {
        let indices = index_bits(alloc, entry.shared_type_indices.as_slice())?;
        groups.push(LiveGroup {
            number: entry.number,
            indices,
        })?;
    }
    Ok(groups)
}

/// The number of an entry, and the place of the type that has this index in it.
fn locate_in_entry(entry: &RecGroupEntry, index: VMSharedTypeIndex) -> Option<(u64, usize)>
    ensures { result ≡ at_entry index entry.now }
{
    match place_of(entry.shared_type_indices.as_slice(), index) {
        Some(place) => Some((entry.number, place)),
        None => None,
    }
}

/// The registration number and the place of the type that has this index.
pub fn locate_index(entries: &RecGroupEntries, index: VMSharedTypeIndex) -> Option<(u64, usize)>
    ensures { result ≡ locate (made_by entries.now) index }
{
    match entries.find_index(index) {
        Some(entry) => locate_in_entry(entry, index),
        None => None,
    }
}

/// The registration number of the group of the type that has this index.
pub fn number_at(entries: &RecGroupEntries, index: VMSharedTypeIndex) -> Option<u64>
    ensures { result ≡ option_map (λ at. at.0) (locate (made_by entries.now) index) }
{
    match locate_index(entries, index) {
        Some((number, _)) => Some(number),
        None => None,
    }
}

/// The first index of the entry that has this registration number.
fn first_index(entries: &RecGroupEntries, number: u64) -> Option<VMSharedTypeIndex>
    ensures { result ≡ option_and_then (λ entry. slice_get entry.shared_type_indices 0) (find (λ entry. entry.number == number) entries.now) }
{
    match entries.find_number(number) {
        Some(entry) => entry.shared_type_indices.get(0).copied(),
        None => None,
    }
}

/// Whether the type at this place is its own trampoline.
fn is_own_at(types: &Seq<WasmSubType>, place: usize) -> bool
    ensures { result ≡ unwrap_or (option_map own_test (slice_get types.now place)) false }
{
    match types.get(place) {
        Some(ty) => is_own_trampoline(ty),
        None => false,
    }
}

/// The number of another group that is told at this place.
fn told_at(trampolines: &Seq<Option<u64>>, place: usize) -> Option<u64>
    ensures { result ≡ option_and_then (λ told. told) (slice_get trampolines.now place) }
{
    match trampolines.get(place) {
        Some(told) => *told,
        None => None,
    }
}

/// The index of the trampoline of the type that has this index, at this place of its entry.
fn trampoline_at(
    entries: &RecGroupEntries,
    entry: &RecGroupEntry,
    place: usize,
    index: VMSharedTypeIndex,
) -> Option<VMSharedTypeIndex>
    requires keys { (top : ℕ) × AreKeys entries.now top }
    requires among { Among entry.now entries.now }
    requires located { locate (made_by entries.now) index ≡ Some (entry.now.number, place) }
    ensures { result ≡ trampoline_index (made_by entries.now) index }
{
    if is_own_at(&entry.hash_consing_key.types, place) {
        return Some(index);
    }
    match told_at(&entry.trampolines, place) {
        Some(number) => first_index(entries, number),
        None => None,
    }
}

/// The index of the trampoline of the function type that has this index; `None` where the index names no
/// registered function type.
pub fn trampoline_of(
    entries: &RecGroupEntries,
    index: VMSharedTypeIndex,
) -> Option<VMSharedTypeIndex>
    requires keys { (top : ℕ) × AreKeys entries.now top }
    ensures { result ≡ trampoline_index (made_by entries.now) index }
{
    let Some(entry) = entries.find_index(index) else {
        return None;
    };
    match place_of(entry.shared_type_indices.as_slice(), index) {
        Some(place) => trampoline_at(entries, entry, place, index),
        None => None,
    }
}
