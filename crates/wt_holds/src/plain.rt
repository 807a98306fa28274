//! The plain, slow search of what is reached: one pass over all groups. Tests compare what counts remove with what it
//! leaves unmarked.

ghost use Rattle.std.specs.Prelude.{◌≡◌, ◌==◌, ℕ, Bool, length, map};
ghost use Rattle.std.specs.List.{list_any};
ghost use Rattle.std.specs.Option.{option_to_list};
ghost use Rattle.wt_keys.specs.Entries.{made_of, made_by};
ghost use Rattle.wt_model.specs.Reach.{leads_to as has_edge};
ghost use Rattle.wt_model.specs.Removal.{is_rooted, is_reached};
ghost use Rattle.wt_holds.specs.Counts.{standings_of};
ghost use Rattle.wt_holds.specs.Marks.{marked, marked_leads};
ghost use Rattle.wt_model.specs.Sound.{IsRising, NamesOlder};

use crate::hold_counts::{HoldCounts, is_held};
use wt_keys::entry::RecGroupEntry;

fn names_number(references: &[(u64, u32)], number: u64) -> bool
    ensures { result ≡ list_any (λ reference. reference.0 == number) references.now }
{
    references.iter().any(|reference| reference.0 == number)
}

fn is_number(told: Option<u64>, number: u64) -> bool
    ensures { result ≡ list_any (λ n. n == number) (option_to_list told) }
{
    match told {
        Some(trampoline) => trampoline == number,
        None => false,
    }
}

fn tells_number(trampolines: &[Option<u64>], number: u64) -> bool
    ensures { result ≡ list_any (λ told. list_any (λ n. n == number) (option_to_list told)) trampolines.now }
{
    trampolines.iter().any(|told| is_number(*told, number))
}

/// Whether an edge leads from the group to the one with this number.
fn leads_to(entry: &RecGroupEntry, number: u64) -> bool
    ensures { result ≡ has_edge (made_of entry.now) number }
{
    names_number(entry.outer.as_slice(), number)
        || tells_number(entry.trampolines.as_slice(), number)
}

/// Whether an edge leads from a group that is marked to the one with this number.
fn any_leads_to(entries: &[RecGroupEntry], marks: &[bool], number: u64) -> bool
    requires { length marks.now ≡ length entries.now }
    ensures { result ≡ marked_leads (made_by entries.now) marks.now number }
{
    for (place, entry) in entries.iter().enumerate() {
        if marks[place] && leads_to(entry, number) {
            return true;
        }
    }
    false
}

/// Whether each group is held or waits, in order.
pub fn mark_roots(counts: &[HoldCounts], marks: &mut [bool])
    requires { length marks.old ≡ length counts.now }
    ensures { marks.new ≡ map is_rooted (standings_of counts.now) }
{
    for (place, count) in counts.iter().enumerate() {
        marks[place] = is_held(&count.holds) || count.waits;
    }
}

/// Where the roots are marked, marks all that is reached from them. Edges lead to older groups alone, so
/// one pass from the newest on does. It takes no memory.
pub fn mark_reached(entries: &[RecGroupEntry], marks: &mut [bool])
    requires { length marks.old ≡ length entries.now }
    ensures length { length marks.new ≡ length marks.old }
    ensures reached { (top : ℕ) (root : ℕ → Bool) → IsRising 0 (made_by entries.now) top → NamesOlder (made_by entries.now)
        → marks.old ≡ marked root (made_by entries.now)
        → marks.new ≡ marked (is_reached (made_by entries.now) root) (made_by entries.now) }
{
    let mut place = entries.len();
    while 0 < place {
        place -= 1;
        if !marks[place] {
            let number = entries[place].number;
            marks[place] = any_leads_to(&entries[place + 1..], &marks[place + 1..], number);
        }
    }
}
