//! The rows of import checks over types that a plain list knows, and the text of each cause.

use crate::definition::DefinitionType;
use crate::known::{is_known_definition, is_known_entity};
use crate::laws;
use crate::matching::{MatchCx, entity_ty};
use crate::unfit::Unfit;
use std::alloc::Global as Memories;
use std::process::Abort;
use std::test::Fail;
use wt_env::memory::OutOfMemory;
use wt_env::seq::Seq;
use wt_env::types::{
    EngineOrModuleTypeIndex, VMSharedTypeIndex, WasmCompositeInnerType, WasmFuncType, WasmSubType,
    WasmValType,
};
use wt_extern::entity::{EntityType, Global};
use wt_heap::heap_type::HeapType;
use wt_tree::plain_supers::PlainSupers;

mod rows;

const UPPER: EngineOrModuleTypeIndex = EngineOrModuleTypeIndex::Engine(VMSharedTypeIndex(0));

const LOWER: EngineOrModuleTypeIndex = EngineOrModuleTypeIndex::Engine(VMSharedTypeIndex(1));

const OTHER: EngineOrModuleTypeIndex = EngineOrModuleTypeIndex::Engine(VMSharedTypeIndex(2));

/// A function type, a final one that declares it as its supertype, and one that takes two numbers.
fn functions(alloc: Memories) -> Result<PlainSupers, OutOfMemory> {
    let upper = WasmSubType {
        is_final: false,
        supertype: None,
        composite_type: WasmCompositeInnerType::Func(WasmFuncType {
            params: Seq::new(alloc),
            results: Seq::new(alloc),
        }),
    };
    let lower = WasmSubType {
        is_final: true,
        supertype: Some(UPPER),
        composite_type: WasmCompositeInnerType::Func(WasmFuncType {
            params: Seq::new(alloc),
            results: Seq::new(alloc),
        }),
    };
    let mut params = Seq::one(alloc, WasmValType::I32)?;
    params.push(WasmValType::I64)?;
    let other = WasmSubType {
        is_final: true,
        supertype: None,
        composite_type: WasmCompositeInnerType::Func(WasmFuncType {
            params,
            results: Seq::new(alloc),
        }),
    };
    let mut types = Seq::one(alloc, upper)?;
    types.push(lower)?;
    types.push(other)?;
    Ok(PlainSupers::new(types))
}

/// The text of an answer; none where it fits.
fn text_of(
    alloc: Memories,
    types: &PlainSupers,
    answer: Result<(), Unfit>,
) -> Result<String, OutOfMemory> {
    match answer {
        Ok(()) => Ok(String::new(alloc)),
        Err(unfit) => Ok(format!(in alloc; "{}", unfit.show(types))?),
    }
}

/// What is declared is answered by this text.
fn declares(
    rt: &impl Abort,
    alloc: Memories,
    types: &PlainSupers,
    expected: &EntityType,
    actual: &EntityType,
    text: &str,
) {
    assert!(rt; is_known_entity(types, expected) && is_known_entity(types, actual));
    let answer = entity_ty(types, expected, actual);
    let told = text_of(alloc, types, answer).expect(rt, "memory");
    assert_eq!(rt; told.as_str(), text, "{expected:?} of {actual:?}");
}

/// What is defined is answered by this text.
fn defines(
    rt: &impl Abort,
    alloc: Memories,
    types: &PlainSupers,
    expected: &EntityType,
    actual: &DefinitionType,
    text: &str,
) {
    assert!(rt; is_known_entity(types, expected) && is_known_definition(types, actual));
    let answer = MatchCx::new(types).definition(expected, actual);
    let told = text_of(alloc, types, answer).expect(rt, "memory");
    assert_eq!(rt; told.as_str(), text, "{expected:?} of {actual:?}");
}

/// What a declared type defines; a table or a memory has its minimum as its size.
fn defined(entity: EntityType) -> DefinitionType {
    match entity {
        EntityType::Function(EngineOrModuleTypeIndex::Engine(index)) => DefinitionType::Func(index),
        EntityType::Function(_) => DefinitionType::Func(VMSharedTypeIndex(0)),
        EntityType::Global(global) => DefinitionType::Global(global),
        EntityType::Table(table) => DefinitionType::Table(table, table.limits.min),
        EntityType::Memory(memory) => DefinitionType::Memory(memory, memory.limits.min),
        EntityType::Tag(tag) => DefinitionType::Tag(tag),
    }
}

/// Declared and defined, it is answered by this text.
fn tells(
    rt: &impl Abort,
    alloc: Memories,
    types: &PlainSupers,
    expected: EntityType,
    actual: EntityType,
    text: &str,
) {
    declares(rt, alloc, types, &expected, &actual, text);
    defines(rt, alloc, types, &expected, &defined(actual), text);
}

fn global(row: rows::GlobalRow) -> EntityType {
    EntityType::Global(Global {
        wasm_ty: row.0,
        mutability: row.1,
    })
}

#[test]
fn functions_globals_and_tags_are_matched(rt: HostRuntime) -> Result<(), Fail> {
    let types = functions(rt.alloc())?;
    for (expected, actual, text) in rows::FUNCTIONS_AND_TAGS {
        tells(&rt, rt.alloc(), &types, expected, actual, text);
    }
    for (expected, actual, text) in rows::GLOBALS {
        tells(
            &rt,
            rt.alloc(),
            &types,
            global(expected),
            global(actual),
            text,
        );
    }
    Ok(())
}

#[test]
fn tables_are_matched(rt: HostRuntime) -> Result<(), Fail> {
    let types = functions(rt.alloc())?;
    for (expected, actual, text) in rows::TABLES {
        let (expected, actual) = (EntityType::Table(expected), EntityType::Table(actual));
        tells(&rt, rt.alloc(), &types, expected, actual, text);
    }
    for (expected, actual, size, text) in rows::SIZED_TABLES {
        let actual = DefinitionType::Table(actual, size);
        defines(
            &rt,
            rt.alloc(),
            &types,
            &EntityType::Table(expected),
            &actual,
            text,
        );
    }
    Ok(())
}

#[test]
fn memories_are_matched(rt: HostRuntime) -> Result<(), Fail> {
    let types = functions(rt.alloc())?;
    for (expected, actual, text) in rows::MEMORIES {
        let (expected, actual) = (EntityType::Memory(expected), EntityType::Memory(actual));
        tells(&rt, rt.alloc(), &types, expected, actual, text);
    }
    for (expected, actual, size, text) in rows::SIZED_MEMORIES {
        let actual = DefinitionType::Memory(actual, size);
        defines(
            &rt,
            rt.alloc(),
            &types,
            &EntityType::Memory(expected),
            &actual,
            text,
        );
    }
    Ok(())
}

/// Where the kinds differ, both are told.
fn tells_kinds(
    rt: &impl Abort,
    alloc: Memories,
    types: &PlainSupers,
    expected: &rows::KindRow,
    actual: &rows::KindRow,
) -> Result<(), OutOfMemory> {
    let declared = format!(in alloc; "expected {} found {}", expected.word, actual.word)?;
    declares(
        rt,
        alloc,
        types,
        &expected.entity,
        &actual.entity,
        &declared,
    );
    let told = format!(in alloc; "expected {}, but found {}", expected.word, actual.found)?;
    defines(
        rt,
        alloc,
        types,
        &expected.entity,
        &defined(actual.entity),
        &told,
    );
    Ok(())
}

#[test]
fn kinds_are_matched(rt: HostRuntime) -> Result<(), Fail> {
    let alloc = rt.alloc();
    let types = functions(alloc)?;
    for expected in &rows::KINDS {
        for actual in &rows::KINDS {
            if expected.word != actual.word {
                tells_kinds(&rt, alloc, &types, expected, actual)?;
            }
        }
    }
    Ok(())
}

#[test]
fn causes_are_told_without_types(rt: HostRuntime) -> Result<(), Fail> {
    for (cause, text) in rows::CAUSES {
        let told = format!(in rt.alloc(); "{cause}")?;
        assert_eq!(rt; told.as_str(), text);
    }
    Ok(())
}

#[test]
fn heap_types_have_one_order(rt: HostRuntime) {
    let supers = PlainSupers::new(Seq::new(rt.alloc()));
    let fitting = laws::one_heap_order(&supers, &HeapType::Any, &HeapType::Eq);
    assert!(rt; fitting.fits && fitting.matches);
    let unfit = laws::one_heap_order(&supers, &HeapType::Eq, &HeapType::Any);
    assert!(rt; !unfit.fits && !unfit.matches);
}
