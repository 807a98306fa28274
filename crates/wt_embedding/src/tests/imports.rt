//! What fits an import, where the types that both name are registered: functions and constant globals of references by
//! declared supertypes, variable globals and tables by equal types.

use std::alloc::Global as Memories;
use std::process::Abort;
use std::test::Fail;
use wt_env::limits::{Engine, EngineLimits};
use wt_env::memory::OutOfMemory;
use wt_env::seq::Seq;
use wt_env::types::{
    EngineOrModuleTypeIndex, ModuleInternedTypeIndex, ModuleTypes, VMSharedTypeIndex,
    WasmCompositeInnerType, WasmFuncType, WasmHeapType, WasmRecGroup, WasmRefType, WasmStructType,
    WasmSubType, WasmValType,
};
use wt_extern::entity::{EntityType, Global, IndexType, Limits, Table};
use wt_matching::definition::DefinitionType;
use wt_matching::known::{is_known_definition, is_known_entity};
use wt_matching::matching::{MatchCx, entity_ty};
use wt_registry::collection::TypeCollection;
use wt_registry::registered_type::PartyNumber;
use wt_registry::registry::TypeRegistry;
use wt_rules::rules::{are_countable, are_module_types};

/// Nothing is below a final type.
const OPEN: bool = false;

const FINAL: bool = true;

/// A function that takes a number.
fn function(
    alloc: Memories,
    is_final: bool,
    supertype: Option<EngineOrModuleTypeIndex>,
) -> Result<WasmRecGroup, OutOfMemory> {
    let ty = WasmSubType {
        is_final,
        supertype,
        composite_type: WasmCompositeInnerType::Func(WasmFuncType {
            params: Seq::one(alloc, WasmValType::I32)?,
            results: Seq::new(alloc),
        }),
    };
    WasmRecGroup::alone(alloc, ty)
}

/// A struct of no fields.
fn structure(
    alloc: Memories,
    is_final: bool,
    supertype: Option<EngineOrModuleTypeIndex>,
) -> Result<WasmRecGroup, OutOfMemory> {
    let ty = WasmSubType {
        is_final,
        supertype,
        composite_type: WasmCompositeInnerType::Struct(WasmStructType {
            fields: Seq::new(alloc),
        }),
    };
    WasmRecGroup::alone(alloc, ty)
}

/// A struct and one below it, then a function, one below it, and one of the same shape that is below none.
fn module_types(alloc: Memories) -> Result<ModuleTypes, OutOfMemory> {
    let first = EngineOrModuleTypeIndex::Module(ModuleInternedTypeIndex(0));
    let third = EngineOrModuleTypeIndex::Module(ModuleInternedTypeIndex(2));
    let mut groups = Seq::one(alloc, structure(alloc, OPEN, None)?)?;
    groups.push(structure(alloc, FINAL, Some(first))?)?;
    groups.push(function(alloc, OPEN, None)?)?;
    groups.push(function(alloc, FINAL, Some(third))?)?;
    groups.push(function(alloc, FINAL, None)?)?;
    Ok(ModuleTypes { groups })
}

/// What is declared, and the same as a definition.
type Item = (EntityType, DefinitionType);

fn func(index: VMSharedTypeIndex) -> Item {
    (
        EntityType::Function(EngineOrModuleTypeIndex::Engine(index)),
        DefinitionType::Func(index),
    )
}

/// References to a struct, null among them.
fn reference(index: VMSharedTypeIndex) -> WasmRefType {
    WasmRefType {
        nullable: true,
        heap_type: WasmHeapType::ConcreteStruct(EngineOrModuleTypeIndex::Engine(index)),
    }
}

fn global(index: VMSharedTypeIndex, mutability: bool) -> Item {
    let global = Global {
        wasm_ty: WasmValType::Ref(reference(index)),
        mutability,
    };
    (EntityType::Global(global), DefinitionType::Global(global))
}

fn table(index: VMSharedTypeIndex) -> Item {
    let table = Table {
        ref_type: reference(index),
        idx_type: IndexType::I32,
        limits: Limits { min: 1, max: None },
    };
    (EntityType::Table(table), DefinitionType::Table(table, 1))
}

/// Declared and defined, it is answered by this text; by none where it fits.
fn tells(
    rt: &impl Abort,
    alloc: Memories,
    registry: &TypeRegistry,
    expected: Item,
    actual: Item,
    text: &str,
) {
    assert!(rt; is_known_entity(registry, &expected.0));
    assert!(rt; is_known_entity(registry, &actual.0) && is_known_definition(registry, &actual.1));
    let declared = entity_ty(registry, &expected.0, &actual.0);
    let defined = MatchCx::new(registry).definition(&expected.0, &actual.1);
    assert!(rt; declared == defined);
    let told = match declared {
        Ok(()) => String::new(alloc),
        Err(unfit) => format!(in alloc; "{}", unfit.show(registry)).expect(rt, "memory"),
    };
    assert_eq!(rt; told.as_str(), text, "{expected:?} of {actual:?}");
}

/// The index of one of a module's types.
fn index_of(rt: &impl Abort, module: &TypeCollection, place: u32) -> VMSharedTypeIndex {
    let index = module.shared_type(ModuleInternedTypeIndex(place));
    index.expect(rt, "a type of the module")
}

#[test]
fn registered_functions_are_matched(rt: HostRuntime) -> Result<(), Fail> {
    let alloc = rt.alloc();
    let types = module_types(alloc)?;
    assert!(rt; are_countable(&types) && are_module_types(&types));
    let mut registry = TypeRegistry::new(alloc, &Engine::new(1, EngineLimits::USUAL, true));
    let mut party = PartyNumber::new(0);
    let module = registry.register_module(&mut party, &types);
    let module = module.expect(&rt, "new groups");
    let upper = func(index_of(&rt, &module, 2));
    let lower = func(index_of(&rt, &module, 3));
    let alone = func(index_of(&rt, &module, 4));
    let unfit =
        "types incompatible: expected type `(type (func (param i32)))`, found type `(type (func (param i32)))`";
    tells(&rt, alloc, &registry, upper, upper, "");
    tells(&rt, alloc, &registry, upper, lower, "");
    tells(&rt, alloc, &registry, lower, upper, unfit);
    tells(&rt, alloc, &registry, upper, alone, unfit);
    tells(&rt, alloc, &registry, alone, upper, unfit);
    module.forget();
    Ok(())
}

#[test]
fn registered_references_are_matched(rt: HostRuntime) -> Result<(), Fail> {
    let alloc = rt.alloc();
    let types = module_types(alloc)?;
    assert!(rt; are_countable(&types) && are_module_types(&types));
    let mut registry = TypeRegistry::new(alloc, &Engine::new(1, EngineLimits::USUAL, true));
    let mut party = PartyNumber::new(0);
    let module = registry.register_module(&mut party, &types);
    let module = module.expect(&rt, "new groups");
    let upper = index_of(&rt, &module, 0);
    let lower = index_of(&rt, &module, 1);
    assert_eq!(rt; (upper.bits(), lower.bits()), (0, 1));
    let rows = [
        (global(upper, false), global(lower, false), ""),
        (
            global(lower, false),
            global(upper, false),
            "global types incompatible: expected global of type `(concrete struct VMSharedTypeIndex(1))`, found global of type `(concrete struct VMSharedTypeIndex(0))`",
        ),
        (global(lower, true), global(lower, true), ""),
        (
            global(upper, true),
            global(lower, true),
            "global types incompatible: expected global of type `(ref null (concrete struct VMSharedTypeIndex(0)))`, found global of type `(ref null (concrete struct VMSharedTypeIndex(1)))`",
        ),
        (table(lower), table(lower), ""),
        (
            table(upper),
            table(lower),
            "table types incompatible: expected table of type `(ref null (concrete struct VMSharedTypeIndex(0)))`, found table of type `(ref null (concrete struct VMSharedTypeIndex(1)))`",
        ),
    ];
    for (expected, actual, text) in rows {
        tells(&rt, alloc, &registry, expected, actual, text);
    }
    module.forget();
    Ok(())
}
