//! Whether declared supertype steps lead from one registered type to another, by the lists that are kept of their
//! supertypes: where the other is among them, it stands at the place that is the length of its own list. Nothing here
//! takes memory.

ghost use Rattle.std.specs.Prelude.{◌≡◌, ℕ, ◌+◌, ◌<◌, ◌≤◌, ◌++◌, IsSome, slice_get};
ghost use Rattle.wt_model.specs.Indices.{locate, closed_tree};
ghost use Rattle.wt_model.specs.Subtyping.{is_subtype_index};
ghost use Rattle.wt_keys.specs.Keys.{AreKeys, AreShown};
ghost use Rattle.wt_keys.specs.Entries.{made_by};
ghost use Rattle.wt_keys.specs.SupertypeChains.{is_index};

use crate::entries::RecGroupEntries;
use crate::search::borrow_joined;
use crate::steps::Steps;
use crate::supertypes::{SupertypeList, supertypes_of};
use std::alloc::Global;
use std::marker::{Brand, Model};
use std::sync::ledger::{Blank, Ledger};
use wt_env::types::{VMSharedTypeIndex, WasmSubType};
use wt_tree::supers::{Supers, Types};

/// Whether this index stands at this place of a list of supertypes.
fn stands_at<L: Ledger>(
    list: &SupertypeList,
    place: usize,
    index: VMSharedTypeIndex,
    steps: &mut Steps<L>,
) -> bool
    ensures value { result ≡ is_index (slice_get list.now place) index }
    ensures cost { steps.new ≡ steps.old + 1 }
{
    match list.at(place, steps) {
        Some(supertype) => supertype.bits() == index.bits(),
        None => false,
    }
}

/// Whether zero or more declared supertype steps lead from `sub` to `sup`, both registered. A step is one read of a
/// place of a list.
fn leads<L: Ledger>(
    entries: &RecGroupEntries,
    added: &RecGroupEntries,
    sub: VMSharedTypeIndex,
    sup: VMSharedTypeIndex,
    steps: &mut Steps<L>,
) -> bool
    requires keys { (top : ℕ) × AreKeys (entries.now ++ added.now) top }
    requires sub { IsSome (locate (made_by (entries.now ++ added.now)) sub) }
    requires sup { IsSome (locate (made_by (entries.now ++ added.now)) sup) }
    ensures value { result ≡ is_subtype_index (made_by (entries.now ++ added.now)) sub sup }
    ensures rises { steps.old ≤ steps.new }
    ensures cost { steps.new ≤ steps.old + 1 }
{
    if sub.bits() == sup.bits() {
        return true;
    }
    let Some(above) = supertypes_of(entries, added, sup) else {
        return false;
    };
    match supertypes_of(entries, added, sub) {
        Some(supertypes) => stands_at(supertypes, above.len(), sup, steps),
        None => false,
    }
}

/// The same, where nobody counts.
fn leads_uncounted<L: Ledger>(
    entries: &RecGroupEntries,
    added: &RecGroupEntries,
    sub: VMSharedTypeIndex,
    sup: VMSharedTypeIndex,
    blank: Blank,
) -> bool
    requires keys { (top : ℕ) × AreKeys (entries.now ++ added.now) top }
    requires sub { IsSome (locate (made_by (entries.now ++ added.now)) sub) }
    requires sup { IsSome (locate (made_by (entries.now ++ added.now)) sup) }
    requires blank { (blank.name ≡ L.name) × (blank.parts ≡ L.parts) × (0 < L.parts) }
    ensures { result ≡ is_subtype_index (made_by (entries.now ++ added.now)) sub sup }
{
    let mut steps = Steps::<L>::new(blank);
    leads(entries, added, sub, sup, &mut steps)
}

/// Whether zero or more declared supertype steps lead from `sub` to `sup`, both registered. A step that is counted is
/// one read of a place of a list of supertypes.
pub fn is_subtype_counted_of<L: Ledger>(
    alloc: Global,
    entries: &RecGroupEntries,
    sub: VMSharedTypeIndex,
    sup: VMSharedTypeIndex,
    steps: &mut Steps<L>,
) -> bool
    requires keys { (top : ℕ) × AreKeys entries.now top }
    requires sub { IsSome (locate (made_by entries.now) sub) }
    requires sup { IsSome (locate (made_by entries.now) sup) }
    ensures value { result ≡ is_subtype_index (made_by entries.now) sub sup }
    ensures rises { steps.old ≤ steps.new }
    ensures cost { steps.new ≤ steps.old + 1 }
{
    let none = RecGroupEntries::new(alloc);
    leads(entries, &none, sub, sup, steps)
}

/// Whether zero or more declared supertype steps lead from `sub` to `sup`, both registered.
pub fn is_subtype_of(
    alloc: Global,
    entries: &RecGroupEntries,
    sub: VMSharedTypeIndex,
    sup: VMSharedTypeIndex,
) -> bool
    requires keys { (top : ℕ) × AreKeys entries.now top }
    requires sub { IsSome (locate (made_by entries.now) sub) }
    requires sup { IsSome (locate (made_by entries.now) sup) }
    ensures { result ≡ is_subtype_index (made_by entries.now) sub sup }
{
    let none = RecGroupEntries::new(alloc);
    leads_uncounted::<Brand>(entries, &none, sub, sup, Blank::new(1))
}

/// Entries as what compares their types by index: those that are registered, and behind them others that are planned.
#[derive(Drop)]
pub struct RegisteredTypes<'a> {
    entries: &'a RecGroupEntries,
    added: &'a RecGroupEntries,
}

impl<'a> Model for RegisteredTypes<'a> {
    ghost use Rattle.std.specs.Prelude.{List, ◌++◌, ℕ};
    ghost use Rattle.wt_keys.specs.declared.entry.RecGroupEntry.{RecGroupEntry as Entry};
    ghost use Rattle.wt_keys.specs.Keys.{AreKeys, AreShown};

    ghost Value = { List Entry };

    ghost view = { λ types. types.entries.now ++ types.added.now };

    ghost invariant = { λ types. (top : ℕ) × AreKeys (types.entries.now ++ types.added.now) top × AreShown (types.entries.now ++ types.added.now) };
}

impl<'a> RegisteredTypes<'a> {
    /// The types of these entries, where those behind are planned on those before.
    pub fn new(entries: &'a RecGroupEntries, added: &'a RecGroupEntries) -> RegisteredTypes<'a>
        requires keys { (top : ℕ) × AreKeys (entries.now ++ added.now) top }
        requires shown { AreShown (entries.now ++ added.now) }
        ensures { result ≡ entries.now ++ added.now }
    {
        RegisteredTypes { entries, added }
    }
}

impl<'a> Supers for RegisteredTypes<'a> {
    ghost types = { λ entries. closed_tree (made_by entries) };

    fn is_subtype(&self, sub: VMSharedTypeIndex, sup: VMSharedTypeIndex) -> bool {
        leads_uncounted::<Brand>(self.entries, self.added, sub, sup, Blank::new(1))
    }
}

impl<'a> Types for RegisteredTypes<'a> {
    fn borrow(&self, index: VMSharedTypeIndex) -> Option<&WasmSubType> {
        borrow_joined(self.entries, self.added, index)
    }
}
