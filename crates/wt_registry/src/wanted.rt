//! Which limit a plan would pass, if any: what it wants of each, in the order in which they are tested.

ghost use Rattle.std.specs.Prelude.{◌≡◌, ℕ, ◌+◌, ◌<◌, ◌++◌, length, IfOk};
ghost use Rattle.std.specs.Option.{option_copied};
ghost use Rattle.wt_env.specs.Among.{Among};
ghost use Rattle.wt_model.specs.Indices.{used};
ghost use Rattle.wt_model.specs.Holds.{times as times_in};
ghost use Rattle.wt_model.specs.Limits.{first_full, references_of as references_in, wanted_of, holds_wanted, passed_limit as limit_passed};
ghost use Rattle.wt_keys.specs.Entries.{made_by};
ghost use Rattle.wt_plan.specs.Planned.{plan_of};
ghost use Rattle.wt_holds.specs.declared.hold_counts.HoldCounts.{HoldCounts as CountsOf};
ghost use Rattle.wt_holds.specs.Counts.{standings_of};
ghost use Rattle.wt_holds.specs.Kept.{registry_of};

use wt_env::limits::{Engine, EngineLimits, Limit};
use wt_env::memory::OutOfMemory;
use wt_holds::hold_counts::{HoldCounts, held_by};
use wt_keys::entry::RecGroupEntry;
use wt_model::refusal::Full;
use wt_plan::plan::{Plan, edge_count};

/// How many types the entries have.
fn types_of(entries: &[RecGroupEntry]) -> Result<u64, OutOfMemory>
    ensures { IfOk result (λ count. count ≡ length (used (made_by entries.now))) }
{
    let mut count: u64 = 0;
    for entry in entries {
        count = count
            .checked_add(entry.shared_type_indices.len() as u64)
            .ok_or(OutOfMemory)?;
    }
    Ok(count)
}

/// The sum of two counts.
fn checked_sum(first: u64, second: u64) -> Result<u64, OutOfMemory>
    ensures { IfOk result (λ sum. sum ≡ first + second) }
{
    first.checked_add(second).ok_or(OutOfMemory)
}

/// How many edges the entries' groups have, each occurrence counted.
fn references_of(entries: &[RecGroupEntry]) -> Result<u64, OutOfMemory>
    ensures { IfOk result (λ count. count ≡ references_in (made_by entries.now)) }
{
    let mut count: u64 = 0;
    for entry in entries {
        count = checked_sum(count, edge_count(entry)?)?;
    }
    Ok(count)
}

fn find_above(wanted: &[Full]) -> Option<&Full>
    ensures { option_copied result ≡ first_full wanted.now }
{
    wanted.iter().find(|full| full.bound < full.wanted)
}

fn first_above(wanted: &[Full]) -> Option<Full>
    ensures { result ≡ first_full wanted.now }
{
    find_above(wanted).copied()
}

/// The first limit that what stands would pass with what was planned, but for those on holds, where so many
/// registration numbers are given then.
fn passed_count(
    limits: EngineLimits,
    entries: &[RecGroupEntry],
    added: &[RecGroupEntry],
    numbers: u64,
) -> Result<Option<Full>, OutOfMemory>
    ensures { IfOk result (λ full. full ≡ first_full (wanted_of limits (made_by (entries.now ++ added.now)) numbers)) }
{
    let wanted = [
        Full {
            limit: Limit::Groups,
            bound: limits.groups,
            wanted: checked_sum(entries.len() as u64, added.len() as u64)?,
        },
        Full {
            limit: Limit::Types,
            bound: limits.types,
            wanted: checked_sum(types_of(entries)?, types_of(added)?)?,
        },
        Full {
            limit: Limit::References,
            bound: limits.references,
            wanted: checked_sum(references_of(entries)?, references_of(added)?)?,
        },
        Full {
            limit: Limit::Ever,
            bound: limits.ever,
            wanted: numbers,
        },
    ];
    Ok(first_above(&wanted))
}

/// How often a number occurs.
fn times(numbers: &[u64], number: u64) -> u64
    ensures { result ≡ times_in number numbers.now }
{
    let mut count: u64 = 0;
    for at in numbers {
        if *at == number {
            count += 1;
        }
    }
    count
}

/// The first limit on holds that a party would pass with one more hold for each time that a group occurs.
fn passed_hold(
    limits: EngineLimits,
    counts: &[HoldCounts],
    party: u32,
    numbers: &[u64],
) -> Result<Option<Full>, OutOfMemory>
    requires parties { (count : CountsOf) → Among count counts.now → party < length count.holds.items }
    ensures { IfOk result (λ full. full ≡ first_full (holds_wanted limits (standings_of counts.now) party numbers.now numbers.now)) }
{
    let bound = limits.holds;
    for number in numbers {
        let wanted = checked_sum(held_by(counts, party, *number), times(numbers, *number))?;
        if bound < wanted {
            return Ok(Some(Full {
                limit: Limit::Holds,
                bound,
                wanted,
            }));
        }
    }
    Ok(None)
}

/// The first limit that what stands would pass with a plan, carried out for a party.
pub(crate) fn passed_limit(
    engine: &Engine,
    entries: &[RecGroupEntry],
    counts: &[HoldCounts],
    party: u32,
    plan: &Plan,
) -> Result<Option<Full>, OutOfMemory>
    requires parties { (count : CountsOf) → Among count counts.now → party < length count.holds.items }
    ensures { IfOk result (λ full. full
        ≡ limit_passed (registry_of engine.now entries.now plan.now.given (standings_of counts.now)) party (plan_of entries.now plan.now)) }
{
    let limits = engine.limits();
    let added = plan.added.as_slice();
    match passed_count(limits, entries, added, plan.given.numbers)? {
        Some(full) => Ok(Some(full)),
        None => passed_hold(limits, counts, party, plan.numbers.as_slice()),
    }
}
