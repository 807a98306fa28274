//! The registered groups as one list, from the oldest on, that is searched by key, by type index and by registration
//! number. Contracts see the list alone.

ghost use Rattle.std.specs.Prelude.{◌≡◌, [], ◌∷◌, ◌++◌, ◌==◌, ◌<◌, ◌≤◌, length, not, drop, slice_get, option_and_then, IfSome, OnOk, OnErr, is_some};
ghost use Rattle.std.specs.List.{find, filter};
ghost use Rattle.std.specs.Option.{option_copied};
ghost use Rattle.wt_env.specs.Equality.{rec_group_eq};
ghost use Rattle.wt_model.specs.Indices.{place_in, used, is_used as is_used_number};
ghost use Rattle.wt_keys.specs.Entries.{made_by};
ghost use Rattle.wt_keys.specs.Filed.{NumbersRise, AreApart, passing};
ghost use Rattle.wt_keys.specs.Marks.{marked_items};

use crate::entry::RecGroupEntry;
use crate::files::{GroupFiles, file, file_each, unfile, unfile_unmarked};
use crate::marking::remove_unmarked;
use crate::search::place_of;
use std::alloc::Global;
use std::collections::HashMap;
use std::marker::Model;
use wt_env::memory::OutOfMemory;
use wt_env::types::{VMSharedTypeIndex, WasmRecGroup};

/// Whether one of the entry's types has this index.
fn has_index(entry: &RecGroupEntry, index: VMSharedTypeIndex) -> bool
    ensures { result ≡ is_some (place_in index entry.now.shared_type_indices) }
{
    place_of(entry.shared_type_indices.as_slice(), index).is_some()
}

/// Where the entry with this number stands.
fn place_of_number(entries: &[RecGroupEntry], number: u64) -> Option<usize>
    requires { NumbersRise 0 entries.now }
    ensures found { option_and_then (slice_get entries.now) result ≡ find (λ entry. entry.number == number) entries.now }
    ensures within { IfSome result (λ place. place < length entries.now) }
{
    match entries.binary_search_by_key(&number, |entry| entry.number) {
        Ok(place) => Some(place),
        Err(_) => None,
    }
}

/// The entry with this number.
fn entry_with_number(entries: &[RecGroupEntry], number: u64) -> Option<&RecGroupEntry>
    requires { NumbersRise 0 entries.now }
    ensures { option_copied result ≡ find (λ entry. entry.number == number) entries.now }
{
    match place_of_number(entries, number) {
        Some(place) => entries.get(place),
        None => None,
    }
}

/// The entry with this number, if it has this key.
fn entry_with_key<'a>(
    entries: &'a [RecGroupEntry],
    number: u64,
    key: &WasmRecGroup,
) -> Option<&'a RecGroupEntry>
    requires { NumbersRise 0 entries.now }
    ensures { option_copied result ≡ passing (λ entry. rec_group_eq entry.hash_consing_key key.now) (find (λ entry. entry.number == number) entries.now) }
{
    match entry_with_number(entries, number) {
        Some(entry) if entry.hash_consing_key == *key => Some(entry),
        _ => None,
    }
}

/// The entry with this number, if one of its types has this index.
fn entry_with_index(
    entries: &[RecGroupEntry],
    number: u64,
    index: VMSharedTypeIndex,
) -> Option<&RecGroupEntry>
    requires { NumbersRise 0 entries.now }
    ensures { option_copied result ≡ passing (λ entry. is_some (place_in index entry.shared_type_indices)) (find (λ entry. entry.number == number) entries.now) }
{
    match entry_with_number(entries, number) {
        Some(entry) if has_index(entry, index) => Some(entry),
        _ => None,
    }
}

/// Registered groups, from the oldest on. A group is found by its key or by an index through its number, and by its number
/// by a binary search.
#[derive(Debug, Drop)]
pub struct RecGroupEntries {
    entries: Vec<RecGroupEntry>,
    files: GroupFiles,
}

impl Model for RecGroupEntries {
    ghost use Rattle.std.specs.Prelude.{List, nat_eq};
    ghost use Rattle.std.specs.HashMap.{get};
    ghost use Rattle.wt_env.specs.Equality.{rec_group_eq};
    ghost use Rattle.wt_keys.specs.declared.entry.RecGroupEntry.{RecGroupEntry as Entry};
    ghost use Rattle.wt_keys.specs.Filed.{AreApart, AreFiled};

    ghost Value = { List Entry };

    ghost view = { λ groups. groups.entries.items };

    ghost invariant = { λ groups. AreApart groups.entries.items × AreFiled (get rec_group_eq groups.files.by_key) (get nat_eq groups.files.by_index) groups.entries.items };
}

impl RecGroupEntries {
    /// No groups, which takes no memory.
    pub fn new(alloc: Global) -> RecGroupEntries
        ensures { result ≡ [] }
    {
        RecGroupEntries {
            entries: Vec::new(alloc),
            files: GroupFiles {
                by_key: HashMap::new(alloc),
                by_index: HashMap::new(alloc),
            },
        }
    }

    /// The groups in order.
    pub fn as_slice(&self) -> &[RecGroupEntry]
        ensures { result.now ≡ self.now }
    {
        self.entries.as_slice()
    }

    /// The groups from this place on.
    pub fn behind(&self, place: usize) -> &[RecGroupEntry]
        requires { place ≤ length self.now }
        ensures { result.now ≡ drop place self.now }
    {
        &self.entries.as_slice()[place..]
    }

    /// How many groups there are.
    pub fn len(&self) -> usize
        ensures { result ≡ length self.now }
    {
        self.entries.len()
    }

    /// One more group, behind the others.
    pub fn push(&mut self, entry: RecGroupEntry) -> Result<(), OutOfMemory>
        requires { AreApart (self.old ++ entry ∷ []) }
        ensures ok { OnOk result (self.new ≡ self.old ++ entry ∷ []) }
        ensures err { OnErr result (self.new ≡ self.old) }
    {
        file(&mut self.files, &entry)?;
        self.entries.push(entry)?;
        Ok(())
    }

    /// More groups, behind the others: all of them, or none where there is no room.
    pub fn append(&mut self, added: RecGroupEntries) -> Result<(), OutOfMemory>
        requires { AreApart (self.old ++ added) }
        ensures ok { OnOk result (self.new ≡ self.old ++ added) }
        ensures err { OnErr result (self.new ≡ self.old) }
    {
        let RecGroupEntries {
            mut entries,
            files: _,
        } = added;
        file_each(&mut self.files, entries.as_slice())?;
        self.entries.append(&mut entries)?;
        Ok(())
    }

    /// The group that has this key.
    pub fn find_group(&self, key: &WasmRecGroup) -> Option<&RecGroupEntry>
        ensures { option_copied result ≡ find (λ entry. rec_group_eq entry.hash_consing_key key.now) self.now }
    {
        match self.files.by_key.get(key) {
            Some(number) => entry_with_key(self.entries.as_slice(), *number, key),
            None => None,
        }
    }

    /// The group of the type that has this index.
    pub fn find_index(&self, index: VMSharedTypeIndex) -> Option<&RecGroupEntry>
        ensures { option_copied result ≡ find (λ entry. is_some (place_in index entry.shared_type_indices)) self.now }
    {
        match self.files.by_index.get(&index.bits()) {
            Some(number) => entry_with_index(self.entries.as_slice(), *number, index),
            None => None,
        }
    }

    /// The group that has this registration number.
    pub fn find_number(&self, number: u64) -> Option<&RecGroupEntry>
        ensures { option_copied result ≡ find (λ entry. entry.number == number) self.now }
    {
        entry_with_number(self.entries.as_slice(), number)
    }

    /// Whether a type has this index.
    pub fn is_used(&self, candidate: u32) -> bool
        ensures { result ≡ is_used_number (used (made_by self.now)) candidate }
    {
        self.find_index(VMSharedTypeIndex::new(candidate)).is_some()
    }

    /// Takes the group with this registration number away, if it is registered. It takes no memory.
    pub fn remove(&mut self, number: u64) -> Option<RecGroupEntry>
        ensures removed { result ≡ find (λ entry. entry.number == number) self.old }
        ensures left { self.new ≡ filter (λ entry. not (entry.number == number)) self.old }
    {
        match place_of_number(self.entries.as_slice(), number) {
            Some(place) => {
                unfile(&mut self.files, &self.entries[place]);
                Some(self.entries.remove(place))
            }
            None => None,
        }
    }

    /// Takes away the groups that aren't marked. It takes no memory.
    pub fn remove_unmarked(&mut self, marks: &[bool])
        requires { length marks.now ≡ length self.old }
        ensures { self.new ≡ marked_items marks.now self.old }
    {
        unfile_unmarked(&mut self.files, self.entries.as_slice(), marks);
        remove_unmarked(&mut self.entries, marks);
    }
}
