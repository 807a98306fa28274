//! The end of holds, sweeps, and the removal of what isn't reached any more: each group that is removed lowers the counts
//! of what it leads to, and what falls so is removed next.

ghost use Rattle.std.specs.Prelude.{◌≡◌, ◌^◌, ℕ, ◌+◌, ◌∷◌, [], ◌++◌, ◌==◌, ◌&&◌, not, Bool, true, ◌<◌, ◌≤◌, List, length, map, vec_capacity};
ghost use Rattle.std.specs.List.{filter_map};
ghost use Rattle.std.specs.Option.{option_to_list};
ghost use Rattle.wt_env.specs.Limits.{EngineParts};
ghost use Rattle.wt_env.specs.Among.{Among};
ghost use Rattle.wt_model.specs.Registered.{RegisteredGroup};
ghost use Rattle.wt_model.specs.Reach.{edges};
ghost use Rattle.wt_model.specs.Holds.{held_at, times, is_registered};
ghost use Rattle.wt_holds.specs.declared.hold_counts.HoldCounts.{HoldCounts as CountOf};
ghost use Rattle.wt_model.specs.Removal.{drop_hold, sweep_debt, release_holds, fewer_of, is_root, is_reached, reached_part, kept_standings};
ghost use Rattle.wt_holds.specs.Counts.{standings_of, references_at, AreTotals};
ghost use Rattle.wt_holds.specs.References.{pushed_if, Cascading};
ghost use Rattle.wt_keys.specs.Entries.{made_of, made_by};
ghost use Rattle.wt_holds.specs.Kept.{registry_at, Falling, AreRemoving, AreKept, IsReady};
ghost use Rattle.wt_holds.specs.Marks.{kept_entries};
ghost use Rattle.wt_holds.specs.GivenBack.{AreSeparate, HasFree};

use crate::giving_back::give_back_indices;
use crate::hold_counts::{
    HoldCounts, has_number, is_loose, lose, lower_reference, remove_row, set_waits, waits,
};
use crate::inner::TypeRegistryInner;
use wt_env::limits::Engine;
use wt_indices::free_indices::FreeIndices;
use wt_keys::entry::RecGroupEntry;
use wt_model::swept::Swept;

/// Pushes a group that nothing keeps any more. There is room for it.
fn push_if_loose(counts: &[HoldCounts], stack: &mut Vec<u64>, number: u64)
    requires totals { AreTotals counts.now }
    requires room { length (stack.old.items ++ pushed_if ((references_at counts.now number == 0) && not (is_root (standings_of counts.now) number)) number) ≤ vec_capacity stack.old }
    ensures items { stack.new.items ≡ stack.old.items ++ pushed_if ((references_at counts.now number == 0) && not (is_root (standings_of counts.now) number)) number }
    ensures capacity { vec_capacity stack.new ≡ vec_capacity stack.old }
{
    if is_loose(counts, number) {
        stack.push_reserved(number);
    }
}

/// One reference to a group less, which is pushed where nothing keeps it then.
fn lower(counts: &mut Vec<HoldCounts>, stack: &mut Vec<u64>, number: u64)
    requires { (made : List RegisteredGroup) × (rest : List ℕ) × Falling made counts.old.items stack.old.items (vec_capacity stack.old) (number ∷ rest) }
    ensures standings { standings_of counts.new.items ≡ standings_of counts.old.items }
    ensures falls { (made : List RegisteredGroup) (rest : List ℕ) → Falling made counts.old.items stack.old.items (vec_capacity stack.old) (number ∷ rest)
        → Falling made counts.new.items stack.new.items (vec_capacity stack.new) rest }
    ensures capacity { vec_capacity stack.new ≡ vec_capacity stack.old }
{
    lower_reference(counts, number);
    push_if_loose(counts.as_slice(), stack, number);
}

/// One reference less to each group that these name.
fn lower_named(counts: &mut Vec<HoldCounts>, stack: &mut Vec<u64>, references: &[(u64, u32)])
    requires { (made : List RegisteredGroup) × (rest : List ℕ)
        × Falling made counts.old.items stack.old.items (vec_capacity stack.old) (map (λ reference. reference.0) references.now ++ rest) }
    ensures standings { standings_of counts.new.items ≡ standings_of counts.old.items }
    ensures falls { (made : List RegisteredGroup) (rest : List ℕ)
        → Falling made counts.old.items stack.old.items (vec_capacity stack.old) (map (λ reference. reference.0) references.now ++ rest)
        → Falling made counts.new.items stack.new.items (vec_capacity stack.new) rest }
    ensures capacity { vec_capacity stack.new ≡ vec_capacity stack.old }
{
    for reference in references {
        lower(counts, stack, reference.0);
    }
}

/// One reference less to the trampoline of a member, where one is told.
fn lower_told(counts: &mut Vec<HoldCounts>, stack: &mut Vec<u64>, told: Option<u64>)
    requires { (made : List RegisteredGroup) × (rest : List ℕ) × Falling made counts.old.items stack.old.items (vec_capacity stack.old) (option_to_list told ++ rest) }
    ensures standings { standings_of counts.new.items ≡ standings_of counts.old.items }
    ensures falls { (made : List RegisteredGroup) (rest : List ℕ) → Falling made counts.old.items stack.old.items (vec_capacity stack.old) (option_to_list told ++ rest)
        → Falling made counts.new.items stack.new.items (vec_capacity stack.new) rest }
    ensures capacity { vec_capacity stack.new ≡ vec_capacity stack.old }
{
    if let Some(number) = told {
        lower(counts, stack, number);
    }
}

/// One reference less to each trampoline that is told.
fn lower_trampolines(
    counts: &mut Vec<HoldCounts>,
    stack: &mut Vec<u64>,
    trampolines: &[Option<u64>],
)
    requires { (made : List RegisteredGroup) × (rest : List ℕ)
        × Falling made counts.old.items stack.old.items (vec_capacity stack.old) (filter_map (λ told. told) trampolines.now ++ rest) }
    ensures standings { standings_of counts.new.items ≡ standings_of counts.old.items }
    ensures falls { (made : List RegisteredGroup) (rest : List ℕ)
        → Falling made counts.old.items stack.old.items (vec_capacity stack.old) (filter_map (λ told. told) trampolines.now ++ rest)
        → Falling made counts.new.items stack.new.items (vec_capacity stack.new) rest }
    ensures capacity { vec_capacity stack.new ≡ vec_capacity stack.old }
{
    for told in trampolines {
        lower_told(counts, stack, *told);
    }
}

/// One reference less for each edge of a group that was removed.
fn lower_edges(counts: &mut Vec<HoldCounts>, stack: &mut Vec<u64>, entry: &RecGroupEntry)
    requires { (made : List RegisteredGroup) × Falling made counts.old.items stack.old.items (vec_capacity stack.old) (edges (made_of entry.now)) }
    ensures standings { standings_of counts.new.items ≡ standings_of counts.old.items }
    ensures falls { (made : List RegisteredGroup) → Falling made counts.old.items stack.old.items (vec_capacity stack.old) (edges (made_of entry.now))
        → Falling made counts.new.items stack.new.items (vec_capacity stack.new) [] }
    ensures capacity { vec_capacity stack.new ≡ vec_capacity stack.old }
{
    lower_named(counts, stack, entry.outer.as_slice());
    lower_trampolines(counts, stack, entry.trampolines.as_slice());
}

/// Removes a group that was on the stack.
fn remove_group(groups: &mut TypeRegistryInner, free: &mut FreeIndices, number: u64)
    requires removing { AreRemoving groups.old (groups.old.stack.items ++ number ∷ []) }
    requires separate { AreSeparate groups.old.entries }
    requires free { HasFree (made_by groups.old.entries) free.old }
    ensures separate { AreSeparate groups.new.entries }
    ensures free { HasFree (made_by groups.new.entries) free.new }
    ensures removing { AreRemoving groups.new groups.new.stack.items }
    ensures shorter { length groups.new.entries + 1 ≡ length groups.old.entries }
    ensures entries { kept_entries (is_reached (made_by groups.new.entries) (is_root (standings_of groups.new.counts.items))) groups.new.entries
        ≡ kept_entries (is_reached (made_by groups.old.entries) (is_root (standings_of groups.old.counts.items))) groups.old.entries }
    ensures standings { kept_standings (is_reached (made_by groups.new.entries) (is_root (standings_of groups.new.counts.items))) (standings_of groups.new.counts.items)
        ≡ kept_standings (is_reached (made_by groups.old.entries) (is_root (standings_of groups.old.counts.items))) (standings_of groups.old.counts.items) }
    ensures given { groups.new.given ≡ groups.old.given }
{
    remove_row(&mut groups.counts, number);
    match groups.entries.remove(number) {
        Some(entry) => {
            lower_edges(&mut groups.counts, &mut groups.stack, &entry);
            give_back_indices(free, entry.shared_type_indices.as_slice());
        }
        None => unreachable!(),
    }
}

/// Removes the groups on the stack, and all that nothing keeps then. It takes no memory.
fn remove_pushed(groups: &mut TypeRegistryInner, free: &mut FreeIndices)
    requires removing { AreRemoving groups.old groups.old.stack.items }
    requires separate { AreSeparate groups.old.entries }
    requires free { HasFree (made_by groups.old.entries) free.old }
    ensures free { HasFree (made_by groups.new.entries) free.new }
    ensures part { (engine : EngineParts) → reached_part (registry_at engine groups.old) ≡ registry_at engine groups.new }
    ensures entries { groups.new.entries ≡ kept_entries (is_reached (made_by groups.old.entries) (is_root (standings_of groups.old.counts.items))) groups.old.entries }
    ensures removing { AreRemoving groups.new [] }
    ensures stack { groups.new.stack.items ≡ [] }
{
    while let Some(number) = groups.stack.pop() {
        remove_group(groups, free, number);
    }
}

/// Ends a hold of a party on a group. Where the group is reached by nothing any more, it waits, and its number
/// is answered: the party owes a sweep of it. It takes no memory.
pub fn end_hold(
    engine: &Engine,
    groups: &mut TypeRegistryInner,
    party: u32,
    number: u64,
) -> Option<u64>
    requires kept { AreKept engine.now groups.old }
    requires party { party < engine.now.limits.parties }
    requires held { 1 ≤ held_at (standings_of groups.old.counts.items) party number }
    ensures dropped { drop_hold (registry_at engine.now groups.old) party number ≡ (result, registry_at engine.now groups.new) }
    ensures kept { AreKept engine.now groups.new }
{
    lose(&mut groups.counts, party, number);
    if !is_loose(groups.counts.as_slice(), number) {
        return None;
    }
    set_waits(&mut groups.counts, number, true);
    Some(number)
}

/// Sweeps the group of a debt: where it waits, it is removed with all that only it reached. It takes no memory.
pub fn sweep_group(groups: &mut TypeRegistryInner, free: &mut FreeIndices, number: u64) -> Swept
    requires few { length groups.old.entries < 2 ^ 32 }
    requires ready { IsReady groups.old }
    requires separate { AreSeparate groups.old.entries }
    requires free { HasFree (made_by groups.old.entries) free.old }
    ensures free { HasFree (made_by groups.new.entries) free.new }
    ensures swept { (engine : EngineParts) → sweep_debt (registry_at engine groups.old) number ≡ (result, registry_at engine groups.new) }
    ensures kept { (engine : EngineParts) → AreKept engine groups.old → AreKept engine groups.new }
{
    if waits(groups.counts.as_slice(), number) {
        let before = groups.entries.len();
        set_waits(&mut groups.counts, number, false);
        push_if_loose(groups.counts.as_slice(), &mut groups.stack, number);
        remove_pushed(groups, free);
        return Swept::Removed((before - groups.entries.len()) as u32);
    }
    if has_number(groups.entries.as_slice(), number) {
        Swept::Kept
    } else {
        Swept::Gone
    }
}

/// One hold of a party on a group less, which is pushed where nothing keeps it then.
fn lose_one(counts: &mut Vec<HoldCounts>, stack: &mut Vec<u64>, party: u32, number: u64)
    requires parties { (count : CountOf) → Among count counts.old.items → party < length count.holds.items }
    requires held { 1 ≤ held_at (standings_of counts.old.items) party number }
    requires falling { (made : List RegisteredGroup) × Falling made counts.old.items stack.old.items (vec_capacity stack.old) [] }
    ensures standings { standings_of counts.new.items ≡ fewer_of party (number ∷ []) (standings_of counts.old.items) }
    ensures falls { (made : List RegisteredGroup) → Falling made counts.old.items stack.old.items (vec_capacity stack.old) []
        → Falling made counts.new.items stack.new.items (vec_capacity stack.new) [] }
    ensures capacity { vec_capacity stack.new ≡ vec_capacity stack.old }
{
    lose(counts, party, number);
    push_if_loose(counts.as_slice(), stack, number);
}

/// One hold of a party less on each of these groups, in turn: those that nothing keeps then are pushed.
fn lose_each(counts: &mut Vec<HoldCounts>, stack: &mut Vec<u64>, party: u32, numbers: &[u64])
    requires parties { (count : CountOf) → Among count counts.old.items → party < length count.holds.items }
    requires held { (number : ℕ) → times number numbers.now ≤ held_at (standings_of counts.old.items) party number }
    requires falling { (made : List RegisteredGroup) × Falling made counts.old.items stack.old.items (vec_capacity stack.old) [] }
    ensures standings { standings_of counts.new.items ≡ fewer_of party numbers.now (standings_of counts.old.items) }
    ensures falls { (made : List RegisteredGroup) → Falling made counts.old.items stack.old.items (vec_capacity stack.old) []
        → Falling made counts.new.items stack.new.items (vec_capacity stack.new) [] }
    ensures capacity { vec_capacity stack.new ≡ vec_capacity stack.old }
{
    for number in numbers {
        lose_one(counts, stack, party, *number);
    }
}

/// Ends holds of a party, and removes what isn't reached any more. It takes no memory.
pub fn release_groups(
    engine: &Engine,
    groups: &mut TypeRegistryInner,
    free: &mut FreeIndices,
    party: u32,
    numbers: &[u64],
)
    requires kept { AreKept engine.now groups.old }
    requires party { party < engine.now.limits.parties }
    requires held { (number : ℕ) → times number numbers.now ≤ held_at (standings_of groups.old.counts.items) party number }
    requires free { HasFree (made_by groups.old.entries) free.old }
    ensures free { HasFree (made_by groups.new.entries) free.new }
    ensures released { release_holds (registry_at engine.now groups.old) party numbers.now ≡ registry_at engine.now groups.new }
    ensures kept { AreKept engine.now groups.new }
{
    lose_each(&mut groups.counts, &mut groups.stack, party, numbers);
    remove_pushed(groups, free);
}
