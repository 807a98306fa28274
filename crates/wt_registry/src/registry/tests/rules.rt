//! Rows of the rules on what types name: which types of a module are refused, with which rule, and which are taken
//! (WebAssembly 3.0, "Recursive Types" and "Matching"; exceptions and continuations after wasmtime).

use super::*;
use wt_env::types::{WasmContType, WasmExnType};
use wt_tree::laws::{StepsAndFit, subtype_fits};

const ANY_REF: WasmValType = WasmValType::Ref(WasmRefType {
    nullable: true,
    heap_type: WasmHeapType::Any,
});

const EQ_REF: WasmValType = WasmValType::Ref(WasmRefType {
    nullable: true,
    heap_type: WasmHeapType::Eq,
});

/// The first type of a module.
fn first_type() -> EngineOrModuleTypeIndex {
    EngineOrModuleTypeIndex::Module(ModuleInternedTypeIndex(0))
}

/// The open type of this shape, below this type of the module or none.
fn open_type(supertype: Option<u32>, composite_type: WasmCompositeInnerType) -> WasmSubType {
    let supertype = supertype.map(|index| EngineOrModuleTypeIndex::Module(ModuleInternedTypeIndex(
        index,
    )));
    WasmSubType {
        is_final: false,
        supertype,
        composite_type,
    }
}

/// Constant fields that hold values of these types.
fn constants(alloc: Global, types: &[WasmValType]) -> Result<Seq<WasmFieldType>, OutOfMemory> {
    let mut fields = Seq::new(alloc);
    for ty in types {
        fields.push(WasmFieldType {
            element_type: WasmStorageType::Val(*ty),
            mutable: false,
        })?;
    }
    Ok(fields)
}

fn structure_of(
    alloc: Global,
    types: &[WasmValType],
) -> Result<WasmCompositeInnerType, OutOfMemory> {
    let fields = constants(alloc, types)?;
    Ok(WasmCompositeInnerType::Struct(WasmStructType { fields }))
}

/// The function that takes values of these types and gives those.
fn function_of(
    alloc: Global,
    params: &[WasmValType],
    results: &[WasmValType],
) -> Result<WasmCompositeInnerType, OutOfMemory> {
    Ok(WasmCompositeInnerType::Func(WasmFuncType {
        params: Seq::from_vec(Vec::from_slice(alloc, params)?),
        results: Seq::from_vec(Vec::from_slice(alloc, results)?),
    }))
}

/// The exception of the module's first type, with constant fields of these types.
fn exception_of(
    alloc: Global,
    types: &[WasmValType],
) -> Result<WasmCompositeInnerType, OutOfMemory> {
    Ok(WasmCompositeInnerType::Exn(WasmExnType {
        func_ty: first_type(),
        fields: constants(alloc, types)?,
    }))
}

/// A module of two types, each in a group of its own.
fn module_of(
    alloc: Global,
    first: WasmSubType,
    second: WasmSubType,
) -> Result<ModuleTypes, OutOfMemory> {
    let first = WasmRecGroup::alone(alloc, first)?;
    let second = WasmRecGroup::alone(alloc, second)?;
    two_groups(alloc, first, second)
}

/// That a module is refused since the type of its second group breaks this rule, and that then nothing is registered.
fn breaks(rt: &impl Abort, alloc: Global, types: &ModuleTypes, rule: Rule) {
    assert!(rt; are_countable(types) && are_module_types(types));
    assert!(rt; EngineLimits::USUAL.valid());
    let mut registry = TypeRegistry::new(alloc, &Engine::new(1, EngineLimits::USUAL, true));
    let mut party = PartyNumber::new(0);
    let place = Place::Member {
        group: 1,
        member: 0,
    };
    let broken = BuildRefusal::InvalidModule { place, rule };
    is_refused(rt, registry.register_module(&mut party, types), broken);
    has_groups(rt, &registry, &[]);
}

#[test]
fn a_supertype_is_open_and_of_the_kind(rt: HostRuntime) -> Result<(), Fail> {
    let alloc = rt.alloc();
    let supertype = final_type(structure_of(alloc, &[])?);
    let subtype = open_type(Some(0), structure_of(alloc, &[])?);
    let types = module_of(alloc, supertype, subtype)?;
    breaks(&rt, alloc, &types, Rule::SuperFinal);
    let supertype = open_type(None, function_of(alloc, &[EQ_REF], &[])?);
    let subtype = open_type(Some(0), structure_of(alloc, &[EQ_REF])?);
    let types = module_of(alloc, supertype, subtype)?;
    breaks(&rt, alloc, &types, Rule::SuperKind);
    Ok(())
}

#[test]
fn a_shape_matches_that_of_the_supertype(rt: HostRuntime) -> Result<(), Fail> {
    let alloc = rt.alloc();
    let supertype = open_type(None, structure_of(alloc, &[EQ_REF])?);
    let subtype = open_type(Some(0), structure_of(alloc, &[ANY_REF])?);
    let types = module_of(alloc, supertype, subtype)?;
    breaks(&rt, alloc, &types, Rule::SuperMismatch);
    let supertype = open_type(None, function_of(alloc, &[ANY_REF], &[])?);
    let subtype = open_type(Some(0), function_of(alloc, &[EQ_REF], &[])?);
    let types = module_of(alloc, supertype, subtype)?;
    breaks(&rt, alloc, &types, Rule::SuperMismatch);
    Ok(())
}

#[test]
fn an_exception_is_final(rt: HostRuntime) -> Result<(), Fail> {
    let alloc = rt.alloc();
    let function = final_type(function_of(alloc, &[WasmValType::I32], &[])?);
    let exception = open_type(None, exception_of(alloc, &[WasmValType::I32])?);
    let types = module_of(alloc, function, exception)?;
    breaks(&rt, alloc, &types, Rule::ExnOpen);
    Ok(())
}

#[test]
fn an_exception_holds_the_parameters_of_its_function(rt: HostRuntime) -> Result<(), Fail> {
    let alloc = rt.alloc();
    let function = final_type(function_of(alloc, &[], &[WasmValType::I32])?);
    let exception = final_type(exception_of(alloc, &[])?);
    let types = module_of(alloc, function, exception)?;
    breaks(&rt, alloc, &types, Rule::ExnResults);
    let function = final_type(function_of(alloc, &[WasmValType::I32], &[])?);
    let exception = final_type(exception_of(alloc, &[WasmValType::I64])?);
    let types = module_of(alloc, function, exception)?;
    breaks(&rt, alloc, &types, Rule::ExnFields);
    Ok(())
}

#[test]
fn an_exception_and_a_continuation_are_taken(rt: HostRuntime) -> Result<(), Fail> {
    let alloc = rt.alloc();
    let function = final_type(function_of(alloc, &[WasmValType::I32], &[])?);
    let exception = final_type(exception_of(alloc, &[WasmValType::I32])?);
    let mut types = module_of(alloc, function, exception)?;
    let continuation = WasmCompositeInnerType::Cont(WasmContType(first_type()));
    let continuation = WasmRecGroup::alone(alloc, final_type(continuation))?;
    types.groups.push(continuation)?;
    assert!(rt; are_countable(&types) && are_module_types(&types));
    assert!(rt; EngineLimits::USUAL.valid());
    let mut registry = TypeRegistry::new(alloc, &Engine::new(1, EngineLimits::USUAL, true));
    let mut party = PartyNumber::new(0);
    let module = registry
        .register_module(&mut party, &types)
        .expect(&rt, "an exception and a continuation of a function");
    has_indices(&rt, &module, &[0, 1, 2]);
    module.forget();
    Ok(())
}

/// Three open structs in a chain: the second has a field of a lower type, and the third one field more.
fn deeper_and_wider(alloc: Global) -> Result<ModuleTypes, OutOfMemory> {
    let first = open_type(None, structure_of(alloc, &[ANY_REF])?);
    let second = open_type(Some(0), structure_of(alloc, &[EQ_REF])?);
    let third = open_type(Some(1), structure_of(alloc, &[EQ_REF, WasmValType::I32])?);
    let mut types = module_of(alloc, first, second)?;
    types.groups.push(WasmRecGroup::alone(alloc, third)?)?;
    Ok(types)
}

/// Whether a registered type is below another, and whether its shape may stand for the other's.
fn steps_and_fit(rt: &impl Abort, registry: &TypeRegistry, sub: u32, sup: u32) -> StepsAndFit {
    let sub = VMSharedTypeIndex::new(sub);
    let sup = VMSharedTypeIndex::new(sup);
    assert!(rt; registry.contains(sub) && registry.contains(sup));
    registry.tell_invariant();
    subtype_fits(registry, sub, sup)
}

#[test]
fn the_shape_of_a_subtype_fits(rt: HostRuntime) -> Result<(), Fail> {
    let alloc = rt.alloc();
    let types = deeper_and_wider(alloc)?;
    assert!(rt; are_countable(&types) && are_module_types(&types));
    assert!(rt; EngineLimits::USUAL.valid());
    let mut registry = TypeRegistry::new(alloc, &Engine::new(1, EngineLimits::USUAL, true));
    let mut party = PartyNumber::new(0);
    let module = registry
        .register_module(&mut party, &types)
        .expect(&rt, "three structs");
    has_indices(&rt, &module, &[0, 1, 2]);
    let both = StepsAndFit {
        steps: true,
        fits: true,
    };
    let neither = StepsAndFit {
        steps: false,
        fits: false,
    };
    assert_eq!(rt; steps_and_fit(&rt, &registry, 2, 0), both);
    assert_eq!(rt; steps_and_fit(&rt, &registry, 0, 2), neither);
    module.forget();
    Ok(())
}
