//! Registrations that were planned: their limits, the room for them, and then the change.

ghost use Rattle.std.specs.Prelude.{◌≡◌, ℕ, [], ◌∷◌, ◌+◌, ◌^◌, ◌<◌, ◌≤◌, ◌++◌, length, map, false, None, Ok, Err, IfOk, IfErr, OnOk, OnErr, List, option_map, vec_len, vec_capacity};
ghost use Rattle.std.specs.List.{flat_map};
ghost use Rattle.std.specs.Option.{option_to_list};
ghost use Rattle.wt_env.specs.Among.{Among};
ghost use Rattle.wt_env.specs.Limits.{EngineParts};
ghost use Rattle.wt_model.specs.declared.ever.EverRegistered.{EverRegistered as EverOf};
ghost use Rattle.wt_model.specs.Trampolines.{trampolines_of};
ghost use Rattle.wt_model.specs.Reach.{edges};
ghost use Rattle.wt_model.specs.Holds.{held_at, change, gained, hold, times, hold_each as held_each};
ghost use Rattle.wt_model.specs.Plan.{Occurs};
ghost use Rattle.wt_model.specs.Limits.{passed_limit as limit_passed};
ghost use Rattle.wt_model.specs.Registration.{new_holds, stop_waiting_each as none_waits, carried_out, IsRefusal};
ghost use Rattle.wt_model.specs.Sound.{AreCounted, KeepRules};
ghost use Rattle.wt_model.specs.Changes.{HoldChanges};
ghost use Rattle.wt_keys.specs.declared.entry.RecGroupEntry.{RecGroupEntry as EntryOf};
ghost use Rattle.wt_keys.specs.Entries.{made_of, made_by};
ghost use Rattle.wt_keys.specs.Filed.{AreApart};
ghost use Rattle.wt_keys.specs.Keys.{AreKeys, AreShown};
ghost use Rattle.wt_plan.specs.Planned.{plan_of, AreNewBelow};
ghost use Rattle.wt_holds.specs.declared.hold_counts.HoldCounts.{HoldCounts as CountsOf};
ghost use Rattle.wt_holds.specs.Counts.{standings_of, references_at, total_at, AreTotals};
ghost use Rattle.wt_holds.specs.References.{references};
ghost use Rattle.wt_registry.specs.LeadsTo.{IsFresh, CanLead, LeadsTo};
ghost use Rattle.wt_holds.specs.Kept.{AreKept, registry_of, registry_at};

use crate::wanted::passed_limit;
use std::alloc::Global;
use wt_env::limits::{Engine, Limit};
use wt_env::memory::OutOfMemory;
use wt_env::types::VMSharedTypeIndex;
use wt_holds::hold_counts::{HoldCounts, gain, held_by, no_holds, raise_reference, set_waits};
use wt_holds::inner::TypeRegistryInner;
use wt_keys::entries::RecGroupEntries;
use wt_keys::entry::RecGroupEntry;
use wt_keys::search::trampoline_of;
use wt_model::refusal::{BuildRefusal, Full};
use wt_plan::plan::Plan;

/// The counts of groups that are new.
fn new_counts(
    alloc: Global,
    parties: u64,
    added: &[RecGroupEntry],
) -> Result<Vec<HoldCounts>, OutOfMemory>
    requires { parties ≤ 1024 }
    ensures counts { IfOk result (λ counts. (engine : EngineParts) → engine.limits.parties ≡ parties
        → standings_of counts.items ≡ map (new_holds engine) (made_by added.now)) }
    ensures fresh { IfOk result (λ counts. (count : CountsOf) → Among count counts.items → IsFresh count) }
    ensures len { IfOk result (λ counts. vec_len counts ≡ length added.now) }
{
    let mut counts = Vec::new(alloc);
    for entry in added {
        counts.push(HoldCounts {
            number: entry.number,
            references: 0,
            total: 0,
            holds: no_holds(alloc, parties)?,
            waits: false,
        })?;
    }
    Ok(counts)
}

/// One more reference to a group, which doesn't wait then.
fn lead_to(counts: &mut Vec<HoldCounts>, number: u64)
    requires { CanLead counts.old.items (number ∷ []) }
    ensures { LeadsTo counts.old.items counts.new.items (number ∷ []) }
{
    set_waits(counts, number, false);
    raise_reference(counts, number);
}

/// One more reference to each group that these name.
fn lead_to_named(counts: &mut Vec<HoldCounts>, references: &[(u64, u32)])
    requires { CanLead counts.old.items (flat_map (λ reference. reference.0 ∷ []) references.now) }
    ensures { LeadsTo counts.old.items counts.new.items (flat_map (λ reference. reference.0 ∷ []) references.now) }
{
    for reference in references {
        lead_to(counts, reference.0);
    }
}

/// One more reference to the trampoline of a member, where one is told.
fn lead_to_told(counts: &mut Vec<HoldCounts>, told: Option<u64>)
    requires { CanLead counts.old.items (option_to_list told) }
    ensures { LeadsTo counts.old.items counts.new.items (option_to_list told) }
{
    if let Some(number) = told {
        lead_to(counts, number);
    }
}

/// One more reference to each trampoline that is told.
fn lead_to_trampolines(counts: &mut Vec<HoldCounts>, trampolines: &[Option<u64>])
    requires { CanLead counts.old.items (flat_map (λ told. option_to_list told) trampolines.now) }
    ensures { LeadsTo counts.old.items counts.new.items (flat_map (λ told. option_to_list told) trampolines.now) }
{
    for told in trampolines {
        lead_to_told(counts, *told);
    }
}

/// One more reference for each edge of a group.
fn lead_to_edges(counts: &mut Vec<HoldCounts>, entry: &RecGroupEntry)
    requires { CanLead counts.old.items (edges (made_of entry.now)) }
    ensures { LeadsTo counts.old.items counts.new.items (edges (made_of entry.now)) }
{
    lead_to_named(counts, entry.outer.as_slice());
    lead_to_trampolines(counts, entry.trampolines.as_slice());
}

/// One more reference for each edge of the new groups. What they lead to doesn't wait.
fn lead_to_each(counts: &mut Vec<HoldCounts>, added: &[RecGroupEntry])
    requires { CanLead counts.old.items (flat_map (λ entry. edges (made_of entry)) added.now) }
    ensures { LeadsTo counts.old.items counts.new.items (flat_map (λ entry. edges (made_of entry)) added.now) }
{
    for entry in added {
        lead_to_edges(counts, entry);
    }
}

/// One more hold of a party for each time that a group occurs.
fn hold_each(counts: &mut Vec<HoldCounts>, party: u32, numbers: &[u64])
    requires parties { (count : CountsOf) → Among count counts.old.items → party < length count.holds.items }
    requires room { (number : ℕ) → held_at (standings_of counts.old.items) party number + times number numbers.now < 2 ^ 64 }
    requires total { (number : ℕ) → total_at counts.old.items number + times number numbers.now < 2 ^ 64 }
    ensures standings { standings_of counts.new.items ≡ held_each party numbers.now (standings_of counts.old.items) }
    ensures references { (n : ℕ) → references_at counts.new.items n ≡ references_at counts.old.items n }
    ensures totals { AreTotals counts.old.items → AreTotals counts.new.items }
{
    for number in numbers {
        gain(counts, party, *number);
    }
}

/// Room for the counts of so many groups more, and for all groups on the drop stack.
fn reserve_counts(groups: &mut TypeRegistryInner, more: usize) -> Result<(), OutOfMemory>
    requires { length groups.old.entries + more < 2 ^ 64 }
    ensures entries { groups.new.entries ≡ groups.old.entries }
    ensures counts { groups.new.counts.items ≡ groups.old.counts.items }
    ensures stack { groups.new.stack.items ≡ groups.old.stack.items }
    ensures given { groups.new.given ≡ groups.old.given }
    ensures capacity { vec_capacity groups.old.stack ≤ vec_capacity groups.new.stack }
    ensures counts_room { OnOk result (vec_len groups.new.counts + more ≤ vec_capacity groups.new.counts) }
    ensures stack_room { OnOk result (length groups.old.entries + more ≤ vec_capacity groups.new.stack) }
{
    let all = groups.entries.len() + more;
    groups.counts.reserve(more)?;
    groups.stack.reserve(all)?;
    Ok(())
}

/// Moves the items of one list behind those of another that has room for them.
fn move_all<T: Drop>(items: &mut Vec<T>, mut more: Vec<T>)
    requires { vec_len items.old + vec_len more ≤ vec_capacity items.old }
    ensures { items.new.items ≡ items.old.items ++ more.items }
{
    match items.append(&mut more) {
        Ok(()) => {}
        Err(_) => unreachable!(),
    }
}

/// The change: the new groups stand, and the party has its holds. Where there is no room for the groups, nothing changes.
fn insert_entries(
    groups: &mut TypeRegistryInner,
    party: u32,
    plan: Plan,
    rows: Vec<HoldCounts>,
) -> Result<(Vec<u64>, Vec<VMSharedTypeIndex>), OutOfMemory>
    requires apart { AreApart (groups.old.entries ++ plan.added) }
    requires counts_room { vec_len groups.old.counts + vec_len rows ≤ vec_capacity groups.old.counts }
    requires fresh { (count : CountsOf) → Among count rows.items → IsFresh count }
    requires leads { CanLead (groups.old.counts.items ++ rows.items) (flat_map (λ entry. edges (made_of entry)) plan.added) }
    requires total { (number : ℕ) → total_at (groups.old.counts.items ++ rows.items) number + times number plan.numbers.items < 2 ^ 64 }
    requires calm { (count : CountsOf) → Among count rows.items → count.waits ≡ false }
    requires parties { (count : CountsOf) → Among count (groups.old.counts.items ++ rows.items) → party < length count.holds.items }
    requires room { (number : ℕ) → held_at (none_waits (made_by plan.added) (standings_of groups.old.counts.items) ++ standings_of rows.items) party number + times number plan.numbers.items < 2 ^ 64 }
    ensures entries { OnOk result (groups.new.entries ≡ groups.old.entries ++ plan.added) }
    ensures counts { OnOk result (standings_of groups.new.counts.items ≡ held_each party plan.numbers.items (none_waits (made_by plan.added) (standings_of groups.old.counts.items) ++ standings_of rows.items)) }
    ensures references { OnOk result ((n : ℕ) → references_at groups.new.counts.items n ≡ references_at (groups.old.counts.items ++ rows.items) n + references (made_by plan.added) n) }
    ensures totals { OnOk result (AreTotals groups.old.counts.items → AreTotals groups.new.counts.items) }
    ensures stack { OnOk result (groups.new.stack ≡ groups.old.stack) }
    ensures given { OnOk result (groups.new.given ≡ plan.given) }
    ensures numbers { IfOk result (λ held. held.0.items ≡ plan.numbers.items) }
    ensures map { IfOk result (λ held. held.1.items ≡ plan.map.items) }
    ensures err { OnErr result (groups.new ≡ groups.old) }
{
    let Plan {
        added,
        given,
        numbers,
        map,
    } = plan;
    let before = groups.entries.len();
    groups.entries.append(added)?;
    move_all(&mut groups.counts, rows);
    lead_to_each(&mut groups.counts, groups.entries.behind(before));
    groups.given = given;
    hold_each(&mut groups.counts, party, numbers.as_slice());
    Ok((numbers, map))
}

/// Tests the limits, takes all room, and carries a plan out for a party; or tells the first limit that it would
/// pass. Answers the group of each occurrence and the index of each type.
pub(crate) fn check_and_commit(
    alloc: Global,
    engine: &Engine,
    groups: &mut TypeRegistryInner,
    party: u32,
    plan: Plan,
) -> Result<(Vec<u64>, Vec<VMSharedTypeIndex>), BuildRefusal>
    requires kept { AreKept engine.now groups.old }
    requires party { party < engine.now.limits.parties }
    requires keys { AreKeys (groups.old.entries ++ plan.added) plan.given.numbers }
    requires shown { AreShown plan.added }
    requires rules { KeepRules (made_by (groups.old.entries ++ plan.added)) }
    requires below { AreNewBelow groups.old.entries plan.added }
    requires occurs { Occurs (plan_of groups.old.entries plan) }
    ensures accepted { OnOk result (limit_passed (registry_at engine.now groups.old) party (plan_of groups.old.entries plan) ≡ None) }
    ensures ok { OnOk result (carried_out (registry_at engine.now groups.old) party (plan_of groups.old.entries plan) ≡ registry_at engine.now groups.new) }
    ensures numbers { IfOk result (λ held. held.0.items ≡ plan.numbers.items) }
    ensures map { IfOk result (λ held. held.1.items ≡ plan.map.items) }
    ensures changes { IfOk result (λ held. HoldChanges (registry_at engine.now groups.old) (registry_at engine.now groups.new) party held.0.items) }
    ensures refused { IfErr result (λ why. IsRefusal (option_map BuildRefusal.Full (limit_passed (registry_at engine.now groups.old) party (plan_of groups.old.entries plan))) why) }
    ensures err { OnErr result (registry_at engine.now groups.new ≡ registry_at engine.now groups.old) }
    ensures kept { AreKept engine.now groups.new }
{
    let found = passed_limit(
        engine,
        groups.entries.as_slice(),
        groups.counts.as_slice(),
        party,
        &plan,
    )?;
    if let Some(full) = found {
        return Err(BuildRefusal::Full(full));
    }
    let rows = new_counts(alloc, engine.limits().parties, plan.added.as_slice())?;
    reserve_counts(groups, plan.added.len())?;
    Ok(insert_entries(groups, party, plan, rows)?)
}

/// What was found, behind what is there. There is room for it.
fn push_found(indices: &mut Vec<VMSharedTypeIndex>, found: Option<VMSharedTypeIndex>)
    requires { vec_len indices.old < vec_capacity indices.old }
    ensures items { indices.new.items ≡ indices.old.items ++ option_to_list found }
    ensures len { vec_len indices.new ≤ vec_len indices.old + 1 }
    ensures capacity { vec_capacity indices.new ≡ vec_capacity indices.old }
{
    if let Some(index) = found {
        indices.push_reserved(index);
    }
}

/// The index of the trampoline of each function type among these, behind what is there. There is room for them.
pub(crate) fn fill_trampolines(
    entries: &RecGroupEntries,
    indices: &[VMSharedTypeIndex],
    trampolines: &mut Vec<VMSharedTypeIndex>,
)
    requires keys { (top : ℕ) × AreKeys entries.now top }
    requires room { vec_len trampolines.old + length indices.now ≤ vec_capacity trampolines.old }
    ensures { trampolines.new.items ≡ trampolines.old.items ++ trampolines_of (made_by entries.now) indices.now }
{
    for index in indices {
        push_found(trampolines, trampoline_of(entries, *index));
    }
}

/// One more hold of a party on a registered group. It takes no memory.
pub(crate) fn hold_one(
    engine: &Engine,
    counts: &mut Vec<HoldCounts>,
    party: u32,
    number: u64,
) -> Result<(), Full>
    requires party { party < engine.now.limits.parties }
    requires counted { AreCounted engine.now (standings_of counts.old.items) }
    requires totals { AreTotals counts.old.items }
    ensures ok { OnOk result ((entries : List EntryOf) (given : EverOf)
        → hold (registry_of engine.now entries given (standings_of counts.old.items)) party number
        ≡ Ok (registry_of engine.now entries given (standings_of counts.new.items))) }
    ensures allowed { OnOk result ((held_at (standings_of counts.old.items) party number + 1 ≤ engine.now.limits.holds)
        × (standings_of counts.new.items ≡ change number (gained party) (standings_of counts.old.items))) }
    ensures full { (full : _) → result ≡ Err full → (entries : List EntryOf) (given : EverOf)
        → hold (registry_of engine.now entries given (standings_of counts.old.items)) party number ≡ Err full }
    ensures err { OnErr result (counts.new.items ≡ counts.old.items) }
    ensures references { (n : ℕ) → references_at counts.new.items n ≡ references_at counts.old.items n }
    ensures totals { AreTotals counts.new.items }
{
    let bound = engine.limits().holds;
    let wanted = held_by(counts.as_slice(), party, number) + 1;
    if bound < wanted {
        return Err(Full {
            limit: Limit::Holds,
            bound,
            wanted,
        });
    }
    gain(counts, party, number);
    Ok(())
}
