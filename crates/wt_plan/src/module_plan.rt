//! Plans of a module's groups, in order. Each group is tested before the next is looked at: its order first, then, where it
//! is new, what its types name, with the indices that they would have. It rests on `plan` and on the rules of `wt_rules`.

ghost use Rattle.std.specs.Prelude.{◌≡◌, ℕ, ◌+◌, ◌<◌, ◌≤◌, ◌^◌, List, ◌++◌, ◌∷◌, [], length, map, drop, None, IfOk, OnOk};
ghost use Rattle.wt_env.specs.declared.types.EngineOrModuleTypeIndex.TheVariants as type_index;
ghost use Rattle.wt_tree.specs.Tree.{ClosedTree};
ghost use Rattle.wt_tree.specs.Fit.{named_by};
ghost use Rattle.wt_rules.specs.Rules.{AreModuleTypes, AreCountable, first_disorder as first_disorder_of, first_misnamed as first_misnamed_of, group_trees, broken_in, placed_in, first_broken};
ghost use Rattle.wt_model.specs.Indices.{closed_tree};
ghost use Rattle.wt_model.specs.Sound.{KeepRules};
ghost use Rattle.wt_model.specs.Plan.{plan_group as plan_group_of};
ghost use Rattle.wt_keys.specs.Entries.{made_by};
ghost use Rattle.wt_keys.specs.Keys.{KeyNamesTypes, AreKeys, AreShown};
ghost use Rattle.wt_plan.specs.Planned.{plan_of, AreResolved, PlansOne, key_of, PlansGroup, AreNamed, PlansModule, AreFreeFor};
ghost use Rattle.wt_indices.specs.Free.{AreSameBefore};

use crate::plan::{Plan, plan_key};
use std::alloc::Global;
use wt_env::memory::OutOfMemory;
use wt_env::types::WasmRecGroup;
use wt_indices::free_indices::FreeIndices;
use wt_keys::entries::RecGroupEntries;
use wt_keys::subtyping::RegisteredTypes;
use wt_rules::place::{Place, Rule};
use wt_rules::rules::first_disorder;
use wt_rules::type_rules::first_misnamed;
use wt_tree::map_refs::canonical_group;

/// Plans one more group of a module, whose types count from behind those so far.
fn plan_group(
    alloc: Global,
    entries: &RecGroupEntries,
    free: &mut FreeIndices,
    plan: &mut Plan,
    start: u32,
    group: &WasmRecGroup,
) -> Result<(), OutOfMemory>
    requires free { AreFreeFor entries.now plan.old.added free.old }
    requires start { start ≡ length plan.old.map.items }
    requires keys { AreKeys (entries.now ++ plan.old.added) plan.old.given.numbers }
    requires named { AreResolved (made_by (entries.now ++ plan.old.added)) (key_of plan.old group.now) }
    requires slots { KeyNamesTypes (key_of plan.old group.now) }
    ensures ok { OnOk result (plan_group_of (plan_of entries.now plan.old) group.now ≡ plan_of entries.now plan.new) }
    ensures keys { OnOk result (AreKeys (entries.now ++ plan.new.added) plan.new.given.numbers) }
    ensures one { OnOk result (PlansOne entries.now plan.old plan.new (key_of plan.old group.now)) }
    ensures free { OnOk result (AreFreeFor entries.now plan.new.added free.new) }
    ensures before { AreSameBefore free.old free.new }
{
    let types = canonical_group(alloc, start, plan.map.as_slice(), group.types.as_slice())?;
    plan_key(alloc, entries, free, plan, WasmRecGroup { types })
}

/// The first of the types from this place of the plan on that breaks a rule on what it names, by its place behind there.
fn first_misnamed_from(entries: &RecGroupEntries, plan: &Plan, start: u32) -> Option<(u32, Rule)>
    requires keys { AreKeys (entries.now ++ plan.now.added) plan.now.given.numbers }
    requires shown { AreShown (entries.now ++ plan.now.added) }
    requires start { start ≤ length plan.now.map.items }
    requires few { length plan.now.map.items < 2 ^ 32 }
    ensures { result ≡ first_misnamed_of (map (λ i. named_by (closed_tree (made_by (entries.now ++ plan.now.added))) (type_index.Engine i)) (drop start plan.now.map.items)) }
{
    let types = RegisteredTypes::new(entries, &plan.added);
    first_misnamed(&types, &plan.map.as_slice()[start as usize..])
}

/// Plans one more group of a module, whose types keep the order, and tests what they name where the group wasn't there
/// before. Answers the first that breaks a rule, by its place in the group.
fn plan_tested(
    alloc: Global,
    entries: &RecGroupEntries,
    free: &mut FreeIndices,
    plan: &mut Plan,
    start: u32,
    group: &WasmRecGroup,
) -> Result<Option<(u32, Rule)>, OutOfMemory>
    requires free { AreFreeFor entries.now plan.old.added free.old }
    requires start { start ≡ length plan.old.map.items }
    requires few { length plan.old.map.items + length group.now.types < 2 ^ 32 }
    requires keys { AreKeys (entries.now ++ plan.old.added) plan.old.given.numbers }
    requires shown { AreShown (entries.now ++ plan.old.added) }
    requires rules { KeepRules (made_by (entries.now ++ plan.old.added)) }
    requires named { (known : List ClosedTree) × AreNamed entries.now plan.old known }
    requires only { AreModuleTypes (group.now ∷ []) }
    requires ordered { first_disorder_of (length plan.old.map.items) group.now.types ≡ None }
    ensures planned { IfOk result (λ broken. broken ≡ None → PlansGroup entries.now plan.old plan.new group.now) }
    ensures broken { IfOk result (λ broken. (known : List ClosedTree) → AreNamed entries.now plan.old known → broken ≡ first_misnamed_of (group_trees known group.now)) }
    ensures free { OnOk result (AreFreeFor entries.now plan.new.added free.new) }
    ensures before { AreSameBefore free.old free.new }
{
    let before = plan.added.len();
    plan_group(alloc, entries, free, plan, start, group)?;
    if plan.added.len() == before {
        return Ok(None);
    }
    Ok(first_misnamed_from(entries, plan, start))
}

/// Plans one more group of a module, unless one of its types breaks a rule. Answers the first that does, by its place in
/// the group: the order of the whole group is tested before what its types name.
fn plan_checked(
    alloc: Global,
    entries: &RecGroupEntries,
    free: &mut FreeIndices,
    plan: &mut Plan,
    group: &WasmRecGroup,
) -> Result<Option<(u32, Rule)>, OutOfMemory>
    requires free { AreFreeFor entries.now plan.old.added free.old }
    requires few { length plan.old.map.items + length group.now.types < 2 ^ 32 }
    requires keys { AreKeys (entries.now ++ plan.old.added) plan.old.given.numbers }
    requires shown { AreShown (entries.now ++ plan.old.added) }
    requires rules { KeepRules (made_by (entries.now ++ plan.old.added)) }
    requires named { (known : List ClosedTree) × AreNamed entries.now plan.old known }
    requires only { AreModuleTypes (group.now ∷ []) }
    ensures planned { IfOk result (λ broken. broken ≡ None → PlansGroup entries.now plan.old plan.new group.now) }
    ensures broken { IfOk result (λ broken. (known : List ClosedTree) → AreNamed entries.now plan.old known → broken ≡ broken_in known group.now) }
    ensures free { OnOk result (AreFreeFor entries.now plan.new.added free.new) }
    ensures before { AreSameBefore free.old free.new }
{
    let start = plan.map.as_slice().len() as u32;
    match first_disorder(start, group.types.as_slice()) {
        None => plan_tested(alloc, entries, free, plan, start, group),
        disorder => Ok(disorder),
    }
}

/// Where a member of this group breaks a rule, and which.
fn misplaced(group: usize, broken: (u32, Rule)) -> (Place, Rule)
    requires { group < 2 ^ 32 }
    ensures { result ≡ placed_in group broken }
{
    let (member, rule) = broken;
    let place = Place::Member {
        group: group as u32,
        member,
    };
    (place, rule)
}

/// Plans the groups of a module in order, unless one of its types breaks a rule: the first that does is answered, with the
/// rule (WebAssembly 3.0, "Recursive Types", "Heap Types" and "Matching"; exceptions and continuations after wasmtime).
pub fn plan_groups(
    alloc: Global,
    entries: &RecGroupEntries,
    free: &mut FreeIndices,
    plan: &mut Plan,
    groups: &[WasmRecGroup],
) -> Result<Option<(Place, Rule)>, OutOfMemory>
    requires free { AreFreeFor entries.now plan.old.added free.old }
    requires empty { (plan.old.added ≡ []) × (plan.old.numbers.items ≡ []) × (plan.old.map.items ≡ []) }
    requires keys { AreKeys entries.now plan.old.given.numbers }
    requires shown { AreShown entries.now }
    requires rules { KeepRules (made_by entries.now) }
    requires countable { AreCountable groups.now }
    requires named { AreModuleTypes groups.now }
    ensures broken { IfOk result (λ broken. broken ≡ first_broken groups.now) }
    ensures planned { IfOk result (λ broken. broken ≡ None → PlansModule entries.now plan.old plan.new groups.now) }
    ensures free { OnOk result (AreFreeFor entries.now plan.new.added free.new) }
    ensures before { AreSameBefore free.old free.new }
{
    for (number, group) in groups.iter().enumerate() {
        if let Some(broken) = plan_checked(alloc, entries, free, plan, group)? {
            return Ok(Some(misplaced(number, broken)));
        }
    }
    Ok(None)
}
