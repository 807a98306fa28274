//! Rows of modules: what their registration answers, and what a release leaves.

use super::*;
use crate::registered_type::RegisteredType;
use std::process::Abort;
use std::test::Fail;
use wt_env::limits::{EngineLimits, Limit};
use wt_env::types::{
    EngineOrModuleTypeIndex, ModuleInternedTypeIndex, WasmCompositeInnerType, WasmFieldType,
    WasmFuncType, WasmHeapType, WasmRecGroup, WasmRefType, WasmStorageType, WasmStructType,
    WasmValType,
};
use wt_rules::place::{Place, Rule};
use wt_rules::rules::{are_countable, are_module_types};
use wt_tree::laws::{BothWays, antisymmetric};
use wt_tree::supers::Types;

mod hosts;
mod removals;
mod rules;
mod supertypes;

/// The final type of this shape, below none.
fn final_type(composite_type: WasmCompositeInnerType) -> WasmSubType {
    WasmSubType {
        is_final: true,
        supertype: None,
        composite_type,
    }
}

/// The final struct of one field, a reference to a struct of the module.
fn structure(alloc: Global, mutable: bool, index: u32) -> Result<WasmSubType, OutOfMemory> {
    let named = EngineOrModuleTypeIndex::Module(ModuleInternedTypeIndex(index));
    let field = WasmFieldType {
        element_type: WasmStorageType::Val(WasmValType::Ref(WasmRefType {
            nullable: false,
            heap_type: WasmHeapType::ConcreteStruct(named),
        })),
        mutable,
    };
    Ok(WasmSubType {
        is_final: true,
        supertype: None,
        composite_type: WasmCompositeInnerType::Struct(WasmStructType {
            fields: Seq::one(alloc, field)?,
        }),
    })
}

/// The final function without parameters and results.
fn function(alloc: Global) -> WasmSubType {
    WasmSubType {
        is_final: true,
        supertype: None,
        composite_type: WasmCompositeInnerType::Func(WasmFuncType {
            params: Seq::new(alloc),
            results: Seq::new(alloc),
        }),
    }
}

/// A group of two types.
fn pair(
    alloc: Global,
    first: WasmSubType,
    second: WasmSubType,
) -> Result<WasmRecGroup, OutOfMemory> {
    let mut types = Seq::one(alloc, first)?;
    types.push(second)?;
    Ok(WasmRecGroup { types })
}

/// A module of one group.
fn one_group(alloc: Global, group: WasmRecGroup) -> Result<ModuleTypes, OutOfMemory> {
    Ok(ModuleTypes {
        groups: Seq::one(alloc, group)?,
    })
}

/// A module of two groups.
fn two_groups(
    alloc: Global,
    first: WasmRecGroup,
    second: WasmRecGroup,
) -> Result<ModuleTypes, OutOfMemory> {
    let mut groups = Seq::one(alloc, first)?;
    groups.push(second)?;
    Ok(ModuleTypes { groups })
}

fn has_indices(rt: &impl Abort, types: &TypeCollection, indices: &[u32]) {
    let map = types.as_module_map();
    assert_eq!(rt; map.len(), indices.len());
    for (place, index) in indices.iter().enumerate() {
        assert_eq!(rt; map[place].bits(), *index, "at {place}");
    }
}

fn has_groups(rt: &impl Abort, registry: &TypeRegistry, numbers: &[u64]) {
    let live = registry.live().expect(rt, "memory is left");
    assert_eq!(rt; live.len(), numbers.len());
    for (place, number) in numbers.iter().enumerate() {
        assert_eq!(rt; live.as_slice()[place].number, *number, "at {place}");
    }
}

#[test]
fn mutual_groups_meet(rt: HostRuntime) -> Result<(), Fail> {
    let alloc = rt.alloc();
    let group = pair(
        alloc,
        structure(alloc, false, 1)?,
        structure(alloc, true, 0)?,
    )?;
    let types = one_group(alloc, group)?;
    assert!(rt; are_countable(&types) && are_module_types(&types));
    assert!(rt; EngineLimits::USUAL.valid());
    let engine = Engine::new(1, EngineLimits::USUAL, true);
    let mut registry = TypeRegistry::new(alloc, &engine);
    let mut party = PartyNumber::new(0);
    let first = registry
        .register_module(&mut party, &types)
        .expect(&rt, "a new group");
    let again = registry
        .register_module(&mut party, &types)
        .expect(&rt, "the same group");
    has_indices(&rt, &first, &[0, 1]);
    has_indices(&rt, &again, &[0, 1]);
    assert_eq!(rt;
        again.shared_type(ModuleInternedTypeIndex(1)),
        Some(VMSharedTypeIndex::new(1))
    );
    assert_eq!(rt; again.shared_type(ModuleInternedTypeIndex(2)), None);
    has_groups(&rt, &registry, &[1]);
    registry.release(&mut party, again);
    has_groups(&rt, &registry, &[1]);
    first.forget();
    Ok(())
}

#[test]
fn what_is_reached_stays(rt: HostRuntime) -> Result<(), Fail> {
    let alloc = rt.alloc();
    let first = WasmRecGroup::alone(alloc, structure(alloc, false, 0)?)?;
    let second = WasmRecGroup::alone(alloc, structure(alloc, false, 0)?)?;
    let types = two_groups(alloc, first, second)?;
    assert!(rt; are_countable(&types) && are_module_types(&types));
    assert!(rt; EngineLimits::USUAL.valid());
    let engine = Engine::new(1, EngineLimits::USUAL, true);
    let mut registry = TypeRegistry::new(alloc, &engine);
    let mut party = PartyNumber::new(0);
    let mut other = PartyNumber::new(1);
    let module = registry
        .register_module(&mut party, &types)
        .expect(&rt, "two groups");
    has_indices(&rt, &module, &[0, 1]);
    let hold = RegisteredType::try_root(&mut registry, &mut other, VMSharedTypeIndex::new(1))
        .expect(&rt, "no limit")
        .expect(&rt, "it is registered");
    let again = registry
        .register_module(&mut party, &types)
        .expect(&rt, "the same groups");
    registry.release(&mut party, again);
    has_groups(&rt, &registry, &[1, 2]);
    hold.forget();
    module.forget();
    Ok(())
}

#[test]
fn a_release_removes_at_once(rt: HostRuntime) -> Result<(), Fail> {
    let alloc = rt.alloc();
    let equal = two_groups(
        alloc,
        WasmRecGroup::alone(alloc, function(alloc))?,
        WasmRecGroup::alone(alloc, function(alloc))?,
    )?;
    let members = one_group(alloc, pair(alloc, function(alloc), function(alloc))?)?;
    assert!(rt; are_countable(&equal) && are_module_types(&equal));
    assert!(rt; are_countable(&members) && are_module_types(&members));
    assert!(rt; EngineLimits::USUAL.valid());
    let engine = Engine::new(1, EngineLimits::USUAL, true);
    let mut registry = TypeRegistry::new(alloc, &engine);
    let mut party = PartyNumber::new(0);
    let module = registry
        .register_module(&mut party, &equal)
        .expect(&rt, "one group twice");
    has_indices(&rt, &module, &[0, 0]);
    has_groups(&rt, &registry, &[1]);
    registry.release(&mut party, module);
    has_groups(&rt, &registry, &[]);
    let module = registry
        .register_module(&mut party, &members)
        .expect(&rt, "one group of two types");
    has_indices(&rt, &module, &[0, 1]);
    has_groups(&rt, &registry, &[2]);
    module.forget();
    Ok(())
}

fn is_refused(
    rt: &impl Abort,
    answer: Result<TypeCollection, BuildRefusal>,
    refusal: BuildRefusal,
) {
    match answer {
        Ok(module) => {
            module.forget();
            assert!(rt; false, "it was taken");
        }
        Err(told) => assert_eq!(rt; told, refusal),
    }
}

#[test]
fn modules_are_refused(rt: HostRuntime) -> Result<(), Fail> {
    let alloc = rt.alloc();
    let later = one_group(
        alloc,
        WasmRecGroup::alone(alloc, structure(alloc, false, 1)?)?,
    )?;
    let first = WasmRecGroup::alone(alloc, structure(alloc, false, 0)?)?;
    let second = WasmRecGroup::alone(alloc, structure(alloc, false, 0)?)?;
    let types = two_groups(alloc, first, second)?;
    assert!(rt; are_countable(&later) && are_module_types(&later));
    assert!(rt; are_countable(&types) && are_module_types(&types));
    let limits = EngineLimits {
        references: 0,
        ..EngineLimits::USUAL
    };
    assert!(rt; limits.valid());
    let mut party = PartyNumber::new(0);
    let mut registry = TypeRegistry::new(alloc, &Engine::new(1, limits, true));
    let broken = BuildRefusal::InvalidModule {
        place: Place::Member {
            group: 0,
            member: 0,
        },
        rule: Rule::Forward,
    };
    is_refused(&rt, registry.register_module(&mut party, &later), broken);
    let full = BuildRefusal::Full(Full {
        limit: Limit::References,
        bound: 0,
        wanted: 1,
    });
    is_refused(&rt, registry.register_module(&mut party, &types), full);
    has_groups(&rt, &registry, &[]);
    let mut without = TypeRegistry::new(alloc, &Engine::new(2, limits, false));
    is_refused(
        &rt,
        without.register_module(&mut party, &types),
        BuildRefusal::NoGc,
    );
    Ok(())
}

#[test]
fn a_trampoline_is_told(rt: HostRuntime) -> Result<(), Fail> {
    let alloc = rt.alloc();
    let subtype = WasmSubType {
        is_final: false,
        ..function(alloc)
    };
    let types = two_groups(
        alloc,
        WasmRecGroup::alone(alloc, subtype)?,
        WasmRecGroup::alone(alloc, function(alloc))?,
    )?;
    assert!(rt; are_countable(&types) && are_module_types(&types));
    assert!(rt; EngineLimits::USUAL.valid());
    let engine = Engine::new(1, EngineLimits::USUAL, true);
    let mut registry = TypeRegistry::new(alloc, &engine);
    let mut party = PartyNumber::new(0);
    let module = registry
        .register_module(&mut party, &types)
        .expect(&rt, "a trampoline and another function");
    has_indices(&rt, &module, &[1, 0]);
    has_groups(&rt, &registry, &[1, 2]);
    let index = VMSharedTypeIndex::new(1);
    assert!(rt; registry.is_function_index(index));
    assert_eq!(rt; registry.trampoline_type(index), VMSharedTypeIndex::new(0));
    assert_eq!(rt;
        module.trampoline_type(VMSharedTypeIndex::new(0)),
        Some(ModuleInternedTypeIndex(1))
    );
    assert_eq!(rt; module.trampoline_type(index), None);
    module.forget();
    Ok(())
}

/// A struct without fields, below a type of the module or below none.
fn struct_below(alloc: Global, is_final: bool, supertype: Option<u32>) -> WasmSubType {
    let supertype = match supertype {
        Some(index) => Some(EngineOrModuleTypeIndex::Module(ModuleInternedTypeIndex(index))),
        None => None,
    };
    WasmSubType {
        is_final,
        supertype,
        composite_type: WasmCompositeInnerType::Struct(WasmStructType {
            fields: Seq::new(alloc),
        }),
    }
}

/// An open struct, an open one below it, and a final one below that.
fn chain(alloc: Global) -> Result<ModuleTypes, OutOfMemory> {
    let mut groups = Seq::one(
        alloc,
        WasmRecGroup::alone(alloc, struct_below(alloc, false, None))?,
    )?;
    groups.push(WasmRecGroup::alone(alloc, struct_below(alloc, false, Some(0)))?)?;
    groups.push(WasmRecGroup::alone(alloc, struct_below(alloc, true, Some(1)))?)?;
    Ok(ModuleTypes { groups })
}

fn is_below(rt: &impl Abort, registry: &TypeRegistry, sub: u32, sup: u32) -> bool {
    let sub = VMSharedTypeIndex::new(sub);
    let sup = VMSharedTypeIndex::new(sup);
    assert!(rt; registry.contains(sub) && registry.contains(sup));
    registry.is_subtype(sub, sup)
}

/// The same both ways, as whatever compares types answers it.
fn both_ways(rt: &impl Abort, registry: &TypeRegistry, sub: u32, sup: u32) -> BothWays {
    let sub = VMSharedTypeIndex::new(sub);
    let sup = VMSharedTypeIndex::new(sup);
    assert!(rt; registry.contains(sub) && registry.contains(sup));
    antisymmetric(registry, sub, sup)
}

fn has_type<T: Types>(types: &T, index: u32) -> bool {
    types.borrow(VMSharedTypeIndex::new(index)).is_some()
}

#[test]
fn declared_supertypes_lead_on(rt: HostRuntime) -> Result<(), Fail> {
    let alloc = rt.alloc();
    let chain = chain(alloc)?;
    let members = one_group(alloc, pair(alloc, function(alloc), function(alloc))?)?;
    assert!(rt; are_countable(&chain) && are_module_types(&chain));
    assert!(rt; are_countable(&members) && are_module_types(&members));
    assert!(rt; EngineLimits::USUAL.valid());
    let engine = Engine::new(1, EngineLimits::USUAL, true);
    let mut registry = TypeRegistry::new(alloc, &engine);
    let mut party = PartyNumber::new(0);
    let structs = registry
        .register_module(&mut party, &chain)
        .expect(&rt, "three structs");
    let functions = registry
        .register_module(&mut party, &members)
        .expect(&rt, "one group of two functions");
    has_indices(&rt, &structs, &[0, 1, 2]);
    has_indices(&rt, &functions, &[3, 4]);
    assert!(rt; is_below(&rt, &registry, 2, 0));
    assert!(rt; !is_below(&rt, &registry, 0, 2));
    assert!(rt; is_below(&rt, &registry, 2, 2));
    let neither = BothWays {
        there: false,
        back: false,
    };
    assert_eq!(rt; both_ways(&rt, &registry, 3, 4), neither);
    assert!(rt; has_type(&registry, 4) && !has_type(&registry, 5));
    structs.forget();
    functions.forget();
    Ok(())
}
