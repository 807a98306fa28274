//! Rows of declared supertypes: a long chain, where each answer reads one place of a list, and all pairs of a small tree,
//! where the lists and the walk along declared steps answer alike.

ghost use Rattle.std.specs.Prelude.{◌≡◌, ◌+◌, ◌≤◌, ◌<◌, IsSome};
ghost use Rattle.wt_model.specs.Indices.{locate};

use super::*;
use std::marker::Brand;
use std::sync::ledger::Blank;
use wt_keys::plain::is_subtype_by_steps;

const LENGTH: u32 = 60;

/// Open structs, each below the one before it.
fn long_chain(alloc: Global) -> Result<ModuleTypes, OutOfMemory> {
    let mut groups = Seq::new(alloc);
    for place in 0..LENGTH {
        let ty = struct_below(alloc, false, place.checked_sub(1));
        groups.push(WasmRecGroup::alone(alloc, ty)?)?;
    }
    Ok(ModuleTypes { groups })
}

/// A struct; below it a group of a struct and one below that; another struct below the first; and a function.
fn small_tree(alloc: Global) -> Result<ModuleTypes, OutOfMemory> {
    let root = struct_below(alloc, false, None);
    let mut groups = Seq::one(alloc, WasmRecGroup::alone(alloc, root)?)?;
    let middle = struct_below(alloc, false, Some(0));
    let lowest = struct_below(alloc, true, Some(1));
    groups.push(pair(alloc, middle, lowest)?)?;
    groups.push(WasmRecGroup::alone(alloc, struct_below(alloc, true, Some(0)))?)?;
    groups.push(WasmRecGroup::alone(alloc, function(alloc))?)?;
    Ok(ModuleTypes { groups })
}

/// Whether the first type is below the second, which reads at most one place.
fn is_below_counted<L: Ledger>(
    rt: &impl Abort,
    registry: &TypeRegistry,
    sub: u32,
    sup: u32,
    steps: &mut Steps<L>,
) -> bool
    ensures { steps.new ≤ steps.old + 1 }
{
    let sub = VMSharedTypeIndex::new(sub);
    let sup = VMSharedTypeIndex::new(sup);
    assert!(rt; registry.contains(sub) && registry.contains(sup));
    registry.is_subtype_counted(sub, sup, steps)
}

/// Whether a type is below each of the first so many, which reads at most so many places.
fn is_below_each<L: Ledger>(
    rt: &impl Abort,
    registry: &TypeRegistry,
    sub: u32,
    count: u32,
    steps: &mut Steps<L>,
) -> bool
    ensures { steps.new ≤ steps.old + count }
{
    for sup in 0..count {
        if !is_below_counted(rt, registry, sub, sup, steps) {
            return false;
        }
    }
    true
}

/// Whether the last of a chain is below each of it.
fn last_is_below_each<L: Ledger>(rt: &impl Abort, registry: &TypeRegistry, blank: Blank) -> bool
    requires { (blank.name ≡ L.name) × (blank.parts ≡ L.parts) × (0 < L.parts) }
{
    let mut steps = Steps::<L>::new(blank);
    is_below_each(rt, registry, LENGTH - 1, LENGTH, &mut steps)
}

/// What the walk along declared steps answers.
fn walks(registry: &TypeRegistry, sub: VMSharedTypeIndex, sup: VMSharedTypeIndex) -> bool
    requires sub { IsSome (locate registry.now.made sub) }
    requires sup { IsSome (locate registry.now.made sup) }
{
    is_subtype_by_steps(&registry.groups.entries, sub, sup)
}

/// The lists and the walk answer these, for one type and each from the first on.
fn answers(rt: &impl Abort, registry: &TypeRegistry, sub: u32, expected: &[bool]) {
    let mut index: u32 = 0;
    for is_below in expected {
        let sub = VMSharedTypeIndex::new(sub);
        let sup = VMSharedTypeIndex::new(index);
        assert!(rt; registry.contains(sub) && registry.contains(sup));
        assert_eq!(rt; registry.is_subtype(sub, sup), *is_below);
        assert_eq!(rt; walks(registry, sub, sup), *is_below);
        index = index.wrapping_add(1);
    }
}

#[test]
fn one_place_of_a_list_is_read(rt: HostRuntime) -> Result<(), Fail> {
    let alloc = rt.alloc();
    let chain = long_chain(alloc)?;
    assert!(rt; are_countable(&chain) && are_module_types(&chain));
    assert!(rt; EngineLimits::USUAL.valid());
    let engine = Engine::new(1, EngineLimits::USUAL, true);
    let mut registry = TypeRegistry::new(alloc, &engine);
    let mut party = PartyNumber::new(0);
    let structs = registry
        .register_module(&mut party, &chain)
        .expect(&rt, "a chain of structs");
    assert!(rt; last_is_below_each::<Brand>(&rt, &registry, Blank::new(1)));
    for sub in 0..LENGTH - 1 {
        assert!(rt; !is_below(&rt, &registry, sub, LENGTH - 1));
    }
    structs.forget();
    Ok(())
}

#[test]
fn lists_and_the_walk_answer_alike(rt: HostRuntime) -> Result<(), Fail> {
    let alloc = rt.alloc();
    let tree = small_tree(alloc)?;
    assert!(rt; are_countable(&tree) && are_module_types(&tree));
    assert!(rt; EngineLimits::USUAL.valid());
    let engine = Engine::new(1, EngineLimits::USUAL, true);
    let mut registry = TypeRegistry::new(alloc, &engine);
    let mut party = PartyNumber::new(0);
    let types = registry
        .register_module(&mut party, &tree)
        .expect(&rt, "four structs and a function");
    has_indices(&rt, &types, &[0, 1, 2, 3, 4]);
    answers(&rt, &registry, 0, &[true, false, false, false, false]);
    answers(&rt, &registry, 1, &[true, true, false, false, false]);
    answers(&rt, &registry, 2, &[true, true, true, false, false]);
    answers(&rt, &registry, 3, &[true, false, false, true, false]);
    answers(&rt, &registry, 4, &[false, false, false, false, true]);
    types.forget();
    Ok(())
}
