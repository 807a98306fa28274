//! What counts leave of a registry is what the plain search marks.

ghost use Rattle.std.specs.Prelude.{◌≡◌, ◌<◌};
ghost use Rattle.wt_model.specs.Holds.{IsHeld};

use super::*;
use wt_holds::hold_counts::HoldCounts;
use wt_holds::plain::{mark_reached, mark_roots};
use wt_keys::entry::RecGroupEntry;

/// Which groups the plain search reaches, in order.
fn searched(
    rt: &impl Abort,
    alloc: Global,
    entries: &[RecGroupEntry],
    counts: &[HoldCounts],
) -> Result<Vec<bool>, OutOfMemory> {
    let mut marks = vec![in alloc; false; entries.len()]?;
    assert_eq!(rt; counts.len(), marks.len());
    mark_roots(counts, marks.as_mut_slice());
    mark_reached(entries, marks.as_mut_slice());
    Ok(marks)
}

/// These groups are left, and the plain search reaches each.
fn leaves(rt: &impl Abort, registry: &TypeRegistry, numbers: &[u64]) {
    has_groups(rt, registry, numbers);
    let groups = &registry.groups;
    let marks = searched(
        rt,
        registry.alloc,
        groups.entries.as_slice(),
        groups.counts.as_slice(),
    )
    .expect(rt, "memory is left");
    assert_eq!(rt; marks.len(), numbers.len());
    assert!(rt; marks.iter().all(|mark| *mark));
}

/// A hold of the type with this index.
fn rooted(
    rt: &impl Abort,
    registry: &mut TypeRegistry,
    party: &mut PartyNumber,
    index: u32,
) -> RegisteredType
    requires { party.old < registry.old.engine.limits.parties }
    ensures engine { registry.new.engine ≡ registry.old.engine }
    ensures party { party.new ≡ party.old }
    ensures owner { result.party ≡ party.new }
    ensures held { IsHeld registry.new result }
{
    let found = RegisteredType::try_root(registry, party, VMSharedTypeIndex::new(index));
    found.expect(rt, "no limit").expect(rt, "it is registered")
}

#[test]
fn what_is_left_is_reached(rt: HostRuntime) -> Result<(), Fail> {
    let alloc = rt.alloc();
    let first = WasmRecGroup::alone(alloc, structure(alloc, false, 0)?)?;
    let second = WasmRecGroup::alone(alloc, structure(alloc, false, 0)?)?;
    let types = two_groups(alloc, first, second)?;
    assert!(rt; are_countable(&types) && are_module_types(&types));
    assert!(rt; EngineLimits::USUAL.valid());
    let engine = Engine::new(1, EngineLimits::USUAL, true);
    let mut registry = TypeRegistry::new(alloc, &engine);
    let mut party = PartyNumber::new(0);
    let mut other = PartyNumber::new(1);
    let module = registry
        .register_module(&mut party, &types)
        .expect(&rt, "two groups");
    leaves(&rt, &registry, &[1, 2]);
    registry.release(&mut party, module);
    leaves(&rt, &registry, &[]);
    let module = registry
        .register_module(&mut party, &types)
        .expect(&rt, "two groups again");
    leaves(&rt, &registry, &[3, 4]);
    module.forget();
    let hold = rooted(&rt, &mut registry, &mut other, 1);
    match hold.decref(&mut registry, &mut other) {
        None => {}
        Some(debt) => {
            registry.sweep(debt);
            assert!(rt; false, "the module holds it");
        }
    }
    leaves(&rt, &registry, &[3, 4]);
    Ok(())
}
