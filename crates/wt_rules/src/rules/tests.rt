//! Tests of the rules that need nothing but the module itself.

use super::*;
use std::alloc::Global;
use std::process::Abort;
use std::test::Fail;
use wt_env::memory::OutOfMemory;
use wt_env::seq::Seq;
use wt_env::types::{
    ModuleInternedTypeIndex, VMSharedTypeIndex, WasmCompositeInnerType, WasmContType, WasmExnType,
    WasmFieldType, WasmFuncType, WasmHeapType, WasmRefType, WasmStorageType, WasmStructType,
    WasmValType,
};

fn of_module(index: u32) -> EngineOrModuleTypeIndex {
    EngineOrModuleTypeIndex::Module(ModuleInternedTypeIndex(index))
}

fn value(heap_type: WasmHeapType) -> WasmValType {
    WasmValType::Ref(WasmRefType {
        nullable: true,
        heap_type,
    })
}

fn field(heap_type: WasmHeapType) -> WasmFieldType {
    WasmFieldType {
        element_type: WasmStorageType::Val(value(heap_type)),
        mutable: false,
    }
}

fn open(composite_type: WasmCompositeInnerType) -> WasmSubType {
    WasmSubType {
        is_final: false,
        supertype: None,
        composite_type,
    }
}

/// A function with one parameter that refers to this.
fn function(alloc: Global, heap_type: WasmHeapType) -> Result<WasmSubType, OutOfMemory> {
    let func = WasmFuncType {
        params: Seq::one(alloc, value(heap_type))?,
        results: Seq::new(alloc),
    };
    Ok(open(WasmCompositeInnerType::Func(func)))
}

/// A struct with one field that refers to this.
fn structure(alloc: Global, heap_type: WasmHeapType) -> Result<WasmSubType, OutOfMemory> {
    let fields = Seq::one(alloc, field(heap_type))?;
    Ok(open(WasmCompositeInnerType::Struct(WasmStructType { fields })))
}

/// A struct with one field of 31 bits, whose supertype is this type of the module.
fn below(alloc: Global, index: u32) -> Result<WasmSubType, OutOfMemory> {
    let mut lower = structure(alloc, WasmHeapType::I31)?;
    lower.supertype = Some(of_module(index));
    Ok(lower)
}

/// A struct with one field that refers to this struct of the module.
fn structure_of(alloc: Global, index: u32) -> Result<WasmSubType, OutOfMemory> {
    structure(alloc, WasmHeapType::ConcreteStruct(of_module(index)))
}

fn two(
    alloc: Global,
    first: WasmSubType,
    second: WasmSubType,
) -> Result<WasmRecGroup, OutOfMemory> {
    let mut types = Seq::one(alloc, first)?;
    types.push(second)?;
    Ok(WasmRecGroup { types })
}

fn module(
    alloc: Global,
    first: WasmRecGroup,
    second: WasmRecGroup,
) -> Result<ModuleTypes, OutOfMemory> {
    let mut groups = Seq::one(alloc, first)?;
    groups.push(second)?;
    Ok(ModuleTypes { groups })
}

/// What is told of a small group, which comes behind so many types of the module.
fn told(rt: &impl Abort, start: u32, group: &WasmRecGroup) -> Option<(u32, Rule)> {
    let members = group.types.as_slice();
    assert!(rt; start < 1000 && members.len() < 1000);
    first_disorder(start, members)
}

#[test]
fn a_later_group_is_named(rt: HostRuntime) -> Result<(), Fail> {
    let alloc = rt.alloc();
    // the third member of the module names the fourth, which is of a later group
    let group = two(alloc, structure_of(alloc, 2)?, structure_of(alloc, 3)?)?;
    assert_eq!(rt; told(&rt, 1, &group), Some((1, Rule::Forward)));
    assert_eq!(rt; told(&rt, 2, &group), None);
    Ok(())
}

#[test]
fn a_supertype_is_in_a_later_group(rt: HostRuntime) -> Result<(), Fail> {
    let alloc = rt.alloc();
    let mut lower = function(alloc, WasmHeapType::ConcreteFunc(of_module(0)))?;
    lower.supertype = Some(of_module(1));
    let group = WasmRecGroup::alone(alloc, lower)?;
    assert_eq!(rt; told(&rt, 0, &group), Some((0, Rule::Forward)));
    Ok(())
}

#[test]
fn a_supertype_is_declared_before(rt: HostRuntime) -> Result<(), Fail> {
    let alloc = rt.alloc();
    let upper = structure(alloc, WasmHeapType::I31)?;
    let good = two(alloc, upper, below(alloc, 0)?)?;
    assert_eq!(rt; told(&rt, 0, &good), None);
    let later = two(alloc, below(alloc, 0)?, below(alloc, 2)?)?;
    assert_eq!(rt; told(&rt, 2, &later), None);
    // the second member is its own supertype
    let own = two(
        alloc,
        structure(alloc, WasmHeapType::I31)?,
        below(alloc, 1)?,
    )?;
    assert_eq!(rt; told(&rt, 0, &own), Some((1, Rule::SuperOrder)));
    Ok(())
}

#[test]
fn the_order_is_told_member_by_member(rt: HostRuntime) -> Result<(), Fail> {
    let alloc = rt.alloc();
    // the second is its own supertype, and the third names what is after the group
    let mut group = two(
        alloc,
        structure(alloc, WasmHeapType::I31)?,
        below(alloc, 1)?,
    )?;
    group.types.push(structure_of(alloc, 3)?)?;
    assert_eq!(rt; told(&rt, 0, &group), Some((1, Rule::SuperOrder)));
    Ok(())
}

#[test]
fn members_of_a_group_name_each_other(rt: HostRuntime) -> Result<(), Fail> {
    let alloc = rt.alloc();
    let exception = open(WasmCompositeInnerType::Exn(WasmExnType {
        func_ty: of_module(3),
        fields: Seq::one(alloc, field(WasmHeapType::ConcreteCont(of_module(4))))?,
    }));
    let thrower = function(alloc, WasmHeapType::ConcreteExn(of_module(2)))?;
    let mut group = two(alloc, exception, thrower)?;
    group.types.push(open(WasmCompositeInnerType::Cont(WasmContType(of_module(3)))))?;
    assert_eq!(rt; told(&rt, 2, &group), None);
    Ok(())
}

#[test]
fn functions_are_told_over_all_groups(rt: HostRuntime) -> Result<(), Fail> {
    let alloc = rt.alloc();
    let first = WasmRecGroup::alone(alloc, function(alloc, WasmHeapType::Any)?)?;
    let second = two(
        alloc,
        function(alloc, WasmHeapType::Any)?,
        structure_of(alloc, 2)?,
    )?;
    let types = module(alloc, first.clone()?, second)?;
    assert!(rt; are_countable(&types));
    assert!(rt; !are_functions(&types));
    let types = module(alloc, first.clone()?, first)?;
    assert!(rt; are_countable(&types));
    assert!(rt; are_functions(&types));
    Ok(())
}

fn of_engine(index: u32) -> EngineOrModuleTypeIndex {
    EngineOrModuleTypeIndex::Engine(VMSharedTypeIndex::new(index))
}

#[test]
fn a_field_names_an_engine_index(rt: HostRuntime) -> Result<(), Fail> {
    let alloc = rt.alloc();
    let good = two(alloc, structure_of(alloc, 1)?, structure_of(alloc, 0)?)?;
    let bad = structure(alloc, WasmHeapType::ConcreteStruct(of_engine(0)))?;
    let mut types = module(
        alloc,
        good,
        WasmRecGroup::alone(alloc, structure_of(alloc, 0)?)?,
    )?;
    assert!(rt; are_module_types(&types));
    types.groups.push(WasmRecGroup::alone(alloc, bad)?)?;
    assert!(rt; !are_module_types(&types));
    Ok(())
}

#[test]
fn a_supertype_is_an_engine_index(rt: HostRuntime) -> Result<(), Fail> {
    let alloc = rt.alloc();
    let mut lower = function(alloc, WasmHeapType::NoFunc)?;
    lower.supertype = Some(of_engine(0));
    let first = WasmRecGroup::alone(alloc, function(alloc, WasmHeapType::NoFunc)?)?;
    let types = module(alloc, first, WasmRecGroup::alone(alloc, lower)?)?;
    assert!(rt; !are_module_types(&types));
    Ok(())
}

#[test]
fn a_supertype_is_a_place_in_the_group(rt: HostRuntime) -> Result<(), Fail> {
    let alloc = rt.alloc();
    let mut lower = function(alloc, WasmHeapType::NoFunc)?;
    lower.supertype = Some(EngineOrModuleTypeIndex::RecGroup(0));
    let first = WasmRecGroup::alone(alloc, function(alloc, WasmHeapType::NoFunc)?)?;
    let types = module(alloc, first, WasmRecGroup::alone(alloc, lower)?)?;
    assert!(rt; !are_module_types(&types));
    Ok(())
}

#[test]
fn a_place_in_the_group_is_no_module_index(rt: HostRuntime) -> Result<(), Fail> {
    let alloc = rt.alloc();
    let own = EngineOrModuleTypeIndex::RecGroup(0);
    let first = WasmRecGroup::alone(alloc, structure(alloc, WasmHeapType::ConcreteStruct(own))?)?;
    let types = module(
        alloc,
        first,
        WasmRecGroup::alone(alloc, structure_of(alloc, 0)?)?,
    )?;
    assert!(rt; !are_module_types(&types));
    Ok(())
}
