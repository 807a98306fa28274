//! Where groups are found: the registration number of each, by its key and by the indices of its types.

ghost use Rattle.std.specs.Prelude.{◌≡◌, ℕ, ◌≢◌, false, Some, length, IfOk, OnOk, nat_eq};
ghost use Rattle.std.specs.HashMap.{get};
ghost use Rattle.wt_env.specs.Among.{Among};
ghost use Rattle.wt_env.specs.Equality.{rec_group_eq};
ghost use Rattle.wt_env.specs.declared.types.VMSharedTypeIndex.{VMSharedTypeIndex as Index};
ghost use Rattle.wt_keys.specs.declared.entry.RecGroupEntry.{RecGroupEntry as Entry};
ghost use Rattle.wt_keys.specs.Filed.{Agree, IsFiled, AreFiled, AreApart};
ghost use Rattle.wt_keys.specs.Marks.{marked_items};

use crate::entry::RecGroupEntry;
use std::collections::HashMap;
use wt_env::memory::OutOfMemory;
use wt_env::types::{VMSharedTypeIndex, WasmRecGroup};

/// The registration numbers of groups. A number may be told that no group has: whoever asks looks whether it does.
#[derive(Debug, Drop)]
pub struct GroupFiles {
    pub by_key: HashMap<WasmRecGroup, u64>,
    pub by_index: HashMap<u32, u64>,
}

/// Tells a group's number at one of its indices.
fn file_index(
    by_index: &mut HashMap<u32, u64>,
    index: VMSharedTypeIndex,
    number: u64,
) -> Result<(), OutOfMemory>
    ensures kept { (i : Index) (n : ℕ) → (i ≡ index → n ≡ number) → get nat_eq by_index.old i.0 ≡ Some n → get nat_eq by_index.new i.0 ≡ Some n }
    ensures told { OnOk result (get nat_eq by_index.new index.0 ≡ Some number) }
{
    by_index.insert(index.bits(), number)?;
    Ok(())
}

/// Tells a group's number at each of its indices.
fn file_indices(
    by_index: &mut HashMap<u32, u64>,
    indices: &[VMSharedTypeIndex],
    number: u64,
) -> Result<(), OutOfMemory>
    ensures kept { (i : Index) (n : ℕ) → (Among i indices.now → n ≡ number) → get nat_eq by_index.old i.0 ≡ Some n → get nat_eq by_index.new i.0 ≡ Some n }
    ensures told { OnOk result ((i : Index) → Among i indices.now → get nat_eq by_index.new i.0 ≡ Some number) }
{
    for index in indices {
        file_index(by_index, *index, number)?;
    }
    Ok(())
}

/// Tells nothing any more at these indices.
fn unfile_indices(by_index: &mut HashMap<u32, u64>, indices: &[VMSharedTypeIndex])
    ensures { (i : Index) (n : ℕ) → (Among i indices.now → ⊥) → get nat_eq by_index.old i.0 ≡ Some n → get nat_eq by_index.new i.0 ≡ Some n }
{
    for index in indices {
        by_index.remove(&index.bits());
    }
}

/// A copy of a key.
fn copy_of(key: &WasmRecGroup) -> Result<WasmRecGroup, OutOfMemory>
    ensures { IfOk result (λ copy. copy ≡ key.now) }
{
    Ok(key.clone()?)
}

/// Tells a group's number at its key and at each of its indices. What is told of others that agree with it stays.
pub fn file(files: &mut GroupFiles, entry: &RecGroupEntry) -> Result<(), OutOfMemory>
    ensures kept { (e : Entry) → Agree e entry.now → IsFiled (get rec_group_eq files.old.by_key) (get nat_eq files.old.by_index) e
        → IsFiled (get rec_group_eq files.new.by_key) (get nat_eq files.new.by_index) e }
    ensures told { OnOk result (IsFiled (get rec_group_eq files.new.by_key) (get nat_eq files.new.by_index) entry.now) }
{
    let key = copy_of(&entry.hash_consing_key)?;
    files.by_key.insert(key, entry.number)?;
    file_indices(
        &mut files.by_index,
        entry.shared_type_indices.as_slice(),
        entry.number,
    )
}

/// Tells nothing any more of a group. What is told of others that agree with it stays.
pub fn unfile(files: &mut GroupFiles, entry: &RecGroupEntry)
    ensures { (e : Entry) → Agree e entry.now → e.number ≢ entry.now.number → IsFiled (get rec_group_eq files.old.by_key) (get nat_eq files.old.by_index) e
        → IsFiled (get rec_group_eq files.new.by_key) (get nat_eq files.new.by_index) e }
{
    files.by_key.remove(&entry.hash_consing_key);
    unfile_indices(&mut files.by_index, entry.shared_type_indices.as_slice());
}

/// Tells the numbers of groups that agree with each other. What is told of others that agree with them stays.
pub fn file_each(files: &mut GroupFiles, entries: &[RecGroupEntry]) -> Result<(), OutOfMemory>
    requires { (a b : Entry) → Among a entries.now → Among b entries.now → Agree a b }
    ensures kept { (e : Entry) → ((x : Entry) → Among x entries.now → Agree e x) → IsFiled (get rec_group_eq files.old.by_key) (get nat_eq files.old.by_index) e
        → IsFiled (get rec_group_eq files.new.by_key) (get nat_eq files.new.by_index) e }
    ensures told { OnOk result (AreFiled (get rec_group_eq files.new.by_key) (get nat_eq files.new.by_index) entries.now) }
{
    for entry in entries {
        file(files, entry)?;
    }
    Ok(())
}

/// Tells nothing any more of a group that isn't marked.
fn unfile_unless(files: &mut GroupFiles, entry: &RecGroupEntry, marked: bool)
    ensures { (e : Entry) → (marked ≡ false → Agree e entry.now × (e.number ≢ entry.now.number)) → IsFiled (get rec_group_eq files.old.by_key) (get nat_eq files.old.by_index) e
        → IsFiled (get rec_group_eq files.new.by_key) (get nat_eq files.new.by_index) e }
{
    if !marked {
        unfile(files, entry);
    }
}

/// Tells nothing any more of the groups that aren't marked.
pub fn unfile_unmarked(files: &mut GroupFiles, entries: &[RecGroupEntry], marks: &[bool])
    requires apart { AreApart entries.now }
    requires marks { length marks.now ≡ length entries.now }
    ensures { (e : Entry) → Among e (marked_items marks.now entries.now) → IsFiled (get rec_group_eq files.old.by_key) (get nat_eq files.old.by_index) e
        → IsFiled (get rec_group_eq files.new.by_key) (get nat_eq files.new.by_index) e }
{
    for (place, entry) in entries.iter().enumerate() {
        unfile_unless(files, entry, marks[place]);
    }
}
