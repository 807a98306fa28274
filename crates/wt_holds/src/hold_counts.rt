//! The holds that the parties have of each registered group.

ghost use Rattle.std.specs.Prelude.{◌≡◌, ℕ, ◌+◌, ◌-◌, ◌<◌, ◌≤◌, ◌^◌, ◌==◌, ◌&&◌, not, length, map, sum, IfOk, slice_index, slice_set, replicate, if◌then◌else◌};
ghost use Rattle.std.specs.List.{position_from};
ghost use Rattle.wt_model.specs.Holds as held;
ghost use Rattle.wt_env.specs.Among.{Among};
ghost use Rattle.wt_model.specs.Holds.{held_at, waits_at, change, gained, is_registered};
ghost use Rattle.wt_model.specs.Removal.{fewer, is_rooted, is_root, kept_standings};
ghost use Rattle.wt_holds.specs.Counts.{standing_of, standings_of, references_at, total_at, AreTotals};
ghost use Rattle.wt_model.proofs.holds.Rooted.{RiseAbove};
ghost use Rattle.wt_keys.specs.Entries.{made_by};

use std::alloc::Global;
use wt_env::memory::OutOfMemory;
use wt_keys::entry::RecGroupEntry;

/// How many holds each party has of one registered group.
#[derive(Debug, Drop)]
pub struct HoldCounts {
    /// The group's registration number.
    pub number: u64,
    /// How many references of registered groups lead to it, each occurrence counted.
    pub references: u64,
    /// How many holds the parties have together.
    pub total: u64,
    /// How many holds each party has, by the party's number.
    pub holds: Vec<u64>,
    /// Whether the group waits for a sweep.
    pub waits: bool,
}

/// Whether any party has a hold.
pub fn is_held(holds: &[u64]) -> bool
    ensures { result ≡ held.is_held holds.now }
{
    holds.iter().any(|count| 0 < *count)
}

/// Where the count of a group stands.
fn count_place(counts: &[HoldCounts], number: u64) -> Option<usize>
    ensures { result ≡ position_from (λ count. count.number == number) 0 counts.now }
{
    counts.iter().position(|count| count.number == number)
}

/// How many holds a party has.
fn holds_of(count: &HoldCounts, party: u32) -> u64
    requires { party < length count.now.holds.items }
    ensures { result ≡ slice_index count.now.holds.items party }
{
    count.holds[party as usize]
}

/// How many holds of a group a party has.
pub fn held_by(counts: &[HoldCounts], party: u32, number: u64) -> u64
    requires parties { (count : HoldCounts) → Among count counts.now → party < length count.holds.items }
    ensures { result ≡ held_at (standings_of counts.now) party number }
{
    match count_place(counts, number) {
        Some(place) => holds_of(&counts[place], party),
        None => 0,
    }
}

/// Whether a group waits for a sweep.
pub fn waits(counts: &[HoldCounts], number: u64) -> bool
    ensures { result ≡ waits_at (standings_of counts.now) number }
{
    match count_place(counts, number) {
        Some(place) => counts[place].waits,
        None => false,
    }
}

/// One more hold of a party.
fn raise(count: &mut HoldCounts, party: u32)
    requires within { party < length count.old.holds.items }
    requires room { slice_index count.old.holds.items party + 1 < 2 ^ 64 }
    requires total { count.old.total + 1 < 2 ^ 64 }
    ensures standing { standing_of count.new ≡ gained party (standing_of count.old) }
    ensures references { count.new.references ≡ count.old.references }
    ensures total { count.new.total ≡ count.old.total + 1 }
{
    count.holds[party as usize] += 1;
    count.total += 1;
    count.waits = false;
}

/// One hold of a party less.
fn lower(count: &mut HoldCounts, party: u32)
    requires within { party < length count.old.holds.items }
    requires held { 1 ≤ slice_index count.old.holds.items party }
    requires total { 1 ≤ count.old.total }
    ensures standing { standing_of count.new ≡ fewer party (standing_of count.old) }
    ensures references { count.new.references ≡ count.old.references }
    ensures total { count.new.total ≡ count.old.total - 1 }
{
    count.holds[party as usize] -= 1;
    count.total -= 1;
    count.waits = false;
}

/// One more hold of a party on a group.
pub fn gain(counts: &mut Vec<HoldCounts>, party: u32, number: u64)
    requires parties { (count : HoldCounts) → Among count counts.old.items → party < length count.holds.items }
    requires room { held_at (standings_of counts.old.items) party number + 1 < 2 ^ 64 }
    requires total { total_at counts.old.items number + 1 < 2 ^ 64 }
    ensures standings { standings_of counts.new.items ≡ change number (gained party) (standings_of counts.old.items) }
    ensures references { (n : ℕ) → references_at counts.new.items n ≡ references_at counts.old.items n }
    ensures more { (n : ℕ) → total_at counts.new.items n ≤ total_at counts.old.items n + (if number == n then 1 else 0) }
    ensures totals { AreTotals counts.old.items → AreTotals counts.new.items }
{
    if let Some(place) = count_place(counts, number) {
        raise(&mut counts[place], party);
    }
}

/// A group waits now, or doesn't any longer.
pub fn set_waits(counts: &mut Vec<HoldCounts>, number: u64, waits: bool)
    ensures standings { standings_of counts.new.items ≡ change number (λ standing. record standing { waits = waits }) (standings_of counts.old.items) }
    ensures references { (n : ℕ) → references_at counts.new.items n ≡ references_at counts.old.items n }
    ensures more { (n : ℕ) → total_at counts.new.items n ≡ total_at counts.old.items n }
    ensures totals { AreTotals counts.old.items → AreTotals counts.new.items }
{
    if let Some(place) = count_place(counts, number) {
        counts[place].waits = waits;
    }
}

/// One hold of a party on a group less.
pub fn lose(counts: &mut Vec<HoldCounts>, party: u32, number: u64)
    requires parties { (count : HoldCounts) → Among count counts.old.items → party < length count.holds.items }
    requires held { 1 ≤ held_at (standings_of counts.old.items) party number }
    requires totals { AreTotals counts.old.items }
    ensures standings { standings_of counts.new.items ≡ change number (fewer party) (standings_of counts.old.items) }
    ensures references { (n : ℕ) → references_at counts.new.items n ≡ references_at counts.old.items n }
    ensures totals { AreTotals counts.new.items }
{
    if let Some(place) = count_place(counts, number) {
        lower(&mut counts[place], party);
    }
}

/// One more reference to a group.
pub fn raise_reference(counts: &mut Vec<HoldCounts>, number: u64)
    requires stands { Among number (map (λ s. s.number) (standings_of counts.old.items)) }
    requires room { references_at counts.old.items number + 1 < 2 ^ 64 }
    ensures standings { standings_of counts.new.items ≡ standings_of counts.old.items }
    ensures references { (n : ℕ) → references_at counts.new.items n ≡ (if number == n then references_at counts.old.items n + 1 else references_at counts.old.items n) }
    ensures more { (n : ℕ) → total_at counts.new.items n ≡ total_at counts.old.items n }
    ensures totals { AreTotals counts.old.items → AreTotals counts.new.items }
{
    if let Some(place) = count_place(counts, number) {
        counts[place].references += 1;
    }
}

/// One reference to a group less.
pub fn lower_reference(counts: &mut Vec<HoldCounts>, number: u64)
    requires { 1 ≤ references_at counts.old.items number }
    ensures standings { standings_of counts.new.items ≡ standings_of counts.old.items }
    ensures references { (n : ℕ) → references_at counts.new.items n ≡ (if number == n then references_at counts.old.items n - 1 else references_at counts.old.items n) }
    ensures totals { AreTotals counts.old.items → AreTotals counts.new.items }
{
    if let Some(place) = count_place(counts, number) {
        counts[place].references -= 1;
    }
}

/// Takes the counts of a group away.
pub fn remove_row(counts: &mut Vec<HoldCounts>, number: u64)
    requires { RiseAbove 0 (map (λ s. s.number) (standings_of counts.old.items)) }
    ensures standings { standings_of counts.new.items ≡ kept_standings (λ n. not (n == number)) (standings_of counts.old.items) }
    ensures references { (n : ℕ) → references_at counts.new.items n ≡ (if number == n then 0 else references_at counts.old.items n) }
    ensures totals { AreTotals counts.old.items → AreTotals counts.new.items }
{
    if let Some(place) = count_place(counts, number) {
        counts.remove(place);
    }
}

/// Whether no reference leads to a group and nothing else keeps it.
fn row_is_loose(count: &HoldCounts) -> bool
    requires { count.now.total ≡ sum count.now.holds.items }
    ensures { result ≡ ((count.now.references == 0) && not (is_rooted (standing_of count.now))) }
{
    count.references == 0 && count.total == 0 && !count.waits
}

/// Whether no reference leads to the group with this number and nothing else keeps it.
pub fn is_loose(counts: &[HoldCounts], number: u64) -> bool
    requires { AreTotals counts.now }
    ensures { result ≡ ((references_at counts.now number == 0) && not (is_root (standings_of counts.now) number)) }
{
    match count_place(counts, number) {
        Some(place) => row_is_loose(&counts[place]),
        None => true,
    }
}

/// Where the entry of a group stands.
pub fn entry_place(entries: &[RecGroupEntry], number: u64) -> Option<usize>
    ensures { result ≡ position_from (λ entry. entry.number == number) 0 entries.now }
{
    entries.iter().position(|entry| entry.number == number)
}

/// Whether a group with this number is registered.
pub fn has_number(entries: &[RecGroupEntry], number: u64) -> bool
    ensures { result ≡ is_registered (made_by entries.now) number }
{
    entry_place(entries, number).is_some()
}

/// The holds of a group that nobody holds.
pub fn no_holds(alloc: Global, parties: u64) -> Result<Vec<u64>, OutOfMemory>
    requires { parties ≤ 1024 }
    ensures { IfOk result (λ holds. holds.items ≡ replicate parties 0) }
{
    Ok(vec![in alloc; 0; parties as usize]?)
}
