//! The declared supertypes of a type as a list that is kept, so that a subtype test reads one place of it.

ghost use Rattle.std.specs.Prelude.{◌≡◌, ◌+◌, [], ◌∷◌, ◌++◌, length, slice_get, Some, is_some, IfOk};
ghost use Rattle.std.specs.List.{find};
ghost use Rattle.std.specs.Option.{option_copied};
ghost use Rattle.wt_model.specs.Indices.{place_in};
ghost use Rattle.wt_keys.specs.SupertypeChains.{list_in, list_of as list_of_index};

use crate::entries::RecGroupEntries;
use crate::entry::RecGroupEntry;
use crate::search::{joined_entry, place_of};
use crate::steps::Steps;
use std::alloc::Global;
use std::marker::Model;
use std::sync::ledger::Ledger;
use wt_env::memory::OutOfMemory;
use wt_env::seq::Seq;
use wt_env::types::VMSharedTypeIndex;

/// The indices of the declared supertypes of a type, from the one that has none down to the direct one. Its places are
/// read by `at` alone, which counts a step.
#[derive(Debug, Drop)]
pub struct SupertypeList {
    indices: Seq<VMSharedTypeIndex>,
}

impl Model for SupertypeList {
    ghost use Rattle.std.specs.Prelude.{List};
    ghost use Rattle.wt_env.specs.declared.types.VMSharedTypeIndex.{VMSharedTypeIndex as Shared};

    ghost Value = { List Shared };

    ghost view = { λ list. list.indices };
}

impl SupertypeList {
    /// The list of a type with no supertype, which takes no memory.
    pub fn none(alloc: Global) -> SupertypeList
        ensures { result ≡ [] }
    {
        SupertypeList {
            indices: Seq::new(alloc),
        }
    }

    /// The list of a type whose direct supertype has this index, and this list.
    pub fn behind(
        alloc: Global,
        supertypes: &SupertypeList,
        supertype: VMSharedTypeIndex,
    ) -> Result<SupertypeList, OutOfMemory>
        ensures { IfOk result (λ list. list ≡ supertypes.now ++ supertype ∷ []) }
    {
        let above = supertypes.indices.as_slice();
        let length = above.len().checked_add(1).ok_or(OutOfMemory)?;
        let mut indices = Vec::with_capacity(alloc, length)?;
        indices.extend_from_slice(above)?;
        indices.push(supertype)?;
        Ok(SupertypeList {
            indices: Seq::from_vec(indices),
        })
    }

    /// How many supertypes there are.
    pub fn len(&self) -> usize
        ensures { result ≡ length self.now }
    {
        self.indices.len()
    }

    /// The supertype at a place, counted from the one that has none. It counts a step.
    pub fn at<L: Ledger>(&self, place: usize, steps: &mut Steps<L>) -> Option<VMSharedTypeIndex>
        ensures value { result ≡ slice_get self.now place }
        ensures cost { steps.new ≡ steps.old + 1 }
    {
        steps.tick();
        self.indices.get(place).copied()
    }
}

/// What the entry keeps of the type that has this index.
fn list_at(entry: &RecGroupEntry, index: VMSharedTypeIndex) -> Option<&SupertypeList>
    ensures { option_copied result ≡ list_in index (Some entry.now) }
{
    match place_of(entry.shared_type_indices.as_slice(), index) {
        Some(place) => entry.supertypes.get(place),
        None => None,
    }
}

/// The supertypes of the type that has this index, in one list of entries or behind it in another.
pub fn supertypes_of<'a>(
    entries: &'a RecGroupEntries,
    added: &'a RecGroupEntries,
    index: VMSharedTypeIndex,
) -> Option<&'a SupertypeList>
    ensures { option_copied result ≡ list_of_index (entries.now ++ added.now) index }
{
    match joined_entry(entries, added, index) {
        Some(entry) => list_at(entry, index),
        None => None,
    }
}
