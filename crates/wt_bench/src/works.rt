//! The works: each registers a module into a new registry, and reports the time of each of its steps.

use crate::modules::{chained_groups, chained_subtypes, groups_of_eight};
use anyhow::anyhow;
use std::io;
use std::time::{Duration, Instant};
use wt_env::limits::{Engine, EngineLimits};
use wt_env::types::{ModuleTypes, VMSharedTypeIndex};
use wt_registry::registered_type::{PartyNumber, RegisteredType};
use wt_registry::registry::TypeRegistry;
use wt_registry::rules::{are_countable, are_module_types};

/// How often a step is repeated that takes little time.
const REPEATED: u32 = 1000;

/// Writes how many operations a step was, and how long each took.
fn report(rt: &HostRuntime, step: &str, operations: u32, taken: Duration) -> io::Result<()> {
    let each = taken.as_nanos() / u128::from(operations.max(1));
    println!(rt; "{step}: {operations} operations, {each} ns each")
}

/// The time since a start.
fn since(rt: &HostRuntime, start: io::Result<Instant>) -> io::Result<Duration> {
    start?.elapsed(rt)
}

/// The greatest limits, for 16 parties.
const LIMITS: EngineLimits = EngineLimits {
    parties: 16,
    groups: 1 << 24,
    types: 1 << 28,
    references: 1 << 30,
    ever: 1 << 24,
    holds: 1 << 30,
};

/// An empty registry.
fn new_registry(rt: &HostRuntime) -> TypeRegistry {
    TypeRegistry::new(rt.alloc(), &Engine::new(1, LIMITS, true))
}

/// Registers a module for the first party, and reports the time for each group.
fn register(
    rt: &HostRuntime,
    registry: &mut TypeRegistry,
    types: &ModuleTypes,
    step: &str,
) -> anyhow::Result<()> {
    if !are_countable(types)
        || !are_module_types(types)
        || registry.engine().limits().parties == 0
    {
        return Err(anyhow!("a module of too many types"));
    }
    let mut party = PartyNumber::new(0);
    let start = Instant::now(rt);
    let module = registry.register_module(&mut party, types)?;
    let taken = since(rt, start);
    module.forget();
    report(rt, step, types.groups.len() as u32, taken?)?;
    Ok(())
}

/// Registers a module into a new registry and releases it, and reports the time of the release for each group.
fn remove(rt: &HostRuntime, types: &ModuleTypes) -> anyhow::Result<()> {
    let mut registry = new_registry(rt);
    if !are_countable(types)
        || !are_module_types(types)
        || registry.engine().limits().parties == 0
    {
        return Err(anyhow!("a module of too many types"));
    }
    let mut party = PartyNumber::new(0);
    let module = registry.register_module(&mut party, types)?;
    let start = Instant::now(rt);
    registry.release(&mut party, module);
    report(rt, "remove", types.groups.len() as u32, since(rt, start)?)?;
    Ok(())
}

/// Takes one more hold of a type and ends it. Whether there was one to end.
fn root_and_drop(registry: &mut TypeRegistry, index: VMSharedTypeIndex) -> bool {
    if registry.engine().limits().parties == 0 {
        return false;
    }
    let mut party = PartyNumber::new(0);
    match RegisteredType::try_root(registry, &mut party, index) {
        Ok(Some(hold)) => {
            if let Some(debt) = hold.decref(registry, &mut party) {
                registry.sweep(debt);
            }
            true
        }
        _ => false,
    }
}

/// Roots and drops a type again and again, and reports the time of each.
fn root_and_drop_often(
    rt: &HostRuntime,
    registry: &mut TypeRegistry,
    index: VMSharedTypeIndex,
) -> anyhow::Result<()> {
    let start = Instant::now(rt);
    let mut done: u32 = 0;
    for _ in 0..REPEATED {
        if root_and_drop(registry, index) {
            done = done.saturating_add(1);
        }
    }
    report(rt, "root and drop", done, since(rt, start)?)?;
    Ok(())
}

/// Groups of which each names the one before.
pub(crate) fn chain(rt: &HostRuntime, count: u32) -> anyhow::Result<()> {
    let types = chained_groups(rt.alloc(), count)?;
    let mut registry = new_registry(rt);
    register(rt, &mut registry, &types, "register")?;
    root_and_drop_often(rt, &mut registry, VMSharedTypeIndex::new(0))?;
    remove(rt, &types)
}

/// Groups of 8 structs.
pub(crate) fn groups(rt: &HostRuntime, count: u32) -> anyhow::Result<()> {
    let types = groups_of_eight(rt.alloc(), count)?;
    let mut registry = new_registry(rt);
    register(rt, &mut registry, &types, "register")?;
    register(rt, &mut registry, &types, "register again")?;
    remove(rt, &types)
}

/// Whether the last of a chain of subtypes is below the first.
pub(crate) fn subtypes(rt: &HostRuntime, count: u32) -> anyhow::Result<()> {
    let types = chained_subtypes(rt.alloc(), count)?;
    let mut registry = new_registry(rt);
    register(rt, &mut registry, &types, "register")?;
    let first = VMSharedTypeIndex::new(0);
    let last = VMSharedTypeIndex::new(count.saturating_sub(1));
    let start = Instant::now(rt);
    let mut below: u32 = 0;
    if registry.contains(first) && registry.contains(last) {
        for _ in 0..REPEATED {
            if registry.is_subtype(last, first) {
                below = below.saturating_add(1);
            }
        }
    }
    report(rt, "is_subtype", below, since(rt, start)?)?;
    Ok(())
}
