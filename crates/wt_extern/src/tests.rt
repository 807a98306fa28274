//! Each public call on globals, tables, tags and external types once, and rows of data with the external types that they
//! are, by the standard's forms and limits.

use crate::entity::{EntityType, Global, IndexType, Limits, Memory, Table, Tag};
use crate::entity_rules::{has_memory_type, is_engine_entity, obeys_limits, table_obeys_limits};
use crate::extern_type::ExternType;
use crate::global_type::GlobalType;
use crate::laws;
use crate::memory_type::MemoryType;
use crate::table_type::TableType;
use crate::tag_type::TagType;
use std::test::Fail;
use wt_env::types::{
    EngineOrModuleTypeIndex, ModuleInternedTypeIndex, VMSharedTypeIndex, WasmHeapType, WasmRefType,
    WasmValType,
};
use wt_heap::heap_type::HeapType;
use wt_heap::mutability::Mutability;
use wt_heap::names::FuncName;
use wt_heap::ref_type::RefType;
use wt_heap::val_type::ValType;

const NAME: FuncName = FuncName {
    engine: 7,
    index: VMSharedTypeIndex(3),
};

/// The index that the name has in data.
const INDEX: EngineOrModuleTypeIndex = EngineOrModuleTypeIndex::Engine(VMSharedTypeIndex(3));

const OF_MODULE: EngineOrModuleTypeIndex = EngineOrModuleTypeIndex::Module(ModuleInternedTypeIndex(
    3,
));

/// `funcref` as data.
const FUNCREF: WasmRefType = WasmRefType {
    nullable: true,
    heap_type: WasmHeapType::Func,
};

/// A reference to a function of the type at this index, as data.
fn reference(index: EngineOrModuleTypeIndex) -> WasmRefType {
    WasmRefType {
        nullable: false,
        heap_type: WasmHeapType::ConcreteFunc(index),
    }
}

/// The external type of engine 7 that this data is, where it meets the conditions.
fn read(entity: &EntityType) -> Option<ExternType> {
    if is_engine_entity(entity) && has_memory_type(entity) && obeys_limits(entity) {
        Some(ExternType::from_entity(7, entity))
    } else {
        None
    }
}

fn table(idx_type: IndexType, min: u64, max: Option<u64>) -> Table {
    Table {
        ref_type: FUNCREF,
        idx_type,
        limits: Limits { min, max },
    }
}

fn memory(idx_type: IndexType, min: u64, max: Option<u64>, page_size_log2: u8) -> Memory {
    Memory {
        idx_type,
        limits: Limits { min, max },
        shared: false,
        page_size_log2,
    }
}

#[test]
fn tells_what_was_given(rt: HostRuntime) {
    let global = GlobalType::new(ValType::I64, Mutability::Var);
    assert_eq!(rt; *global.content(), ValType::I64);
    assert_eq!(rt; global.mutability(), Mutability::Var);

    assert_eq!(rt; *TagType::new(NAME).ty(), NAME);

    let narrow = TableType::new(RefType::FUNCREF, 1, Some(2));
    assert!(rt; !narrow.is_64());
    assert_eq!(rt; *narrow.element(), RefType::FUNCREF);
    assert_eq!(rt; narrow.minimum(), 1);
    assert_eq!(rt; narrow.maximum(), Some(2));

    let wide = TableType::new64(RefType::EXTERNREF, 1 << 32, None);
    assert!(rt; wide.is_64());
    assert_eq!(rt; *wide.element(), RefType::EXTERNREF);
    assert_eq!(rt; wide.minimum(), 1 << 32);
    assert_eq!(rt; wide.maximum(), None);
}

#[test]
fn takes_out_its_form(rt: HostRuntime) -> Result<(), Fail> {
    let func = ExternType::from(NAME);
    assert_eq!(rt; *func.unwrap_func(), NAME);
    assert!(rt; func.tag().is_none());

    let global = GlobalType::new(ValType::F32, Mutability::Const);
    let of_global = ExternType::from(global);
    assert_eq!(rt; *of_global.unwrap_global(), global);
    assert!(rt; of_global.func().is_none());

    let table = TableType::new(RefType::FUNCREF, 0, None);
    let of_table = ExternType::from(table);
    assert_eq!(rt; *of_table.unwrap_table(), table);
    assert!(rt; of_table.memory().is_none());

    let memory = MemoryType::new(1, None)?;
    let of_memory = ExternType::from(memory);
    assert_eq!(rt; *of_memory.unwrap_memory(), memory);
    assert!(rt; of_memory.table().is_none());

    let tag = TagType::new(NAME);
    let of_tag = ExternType::from(tag);
    assert_eq!(rt; *of_tag.unwrap_tag(), tag);
    assert!(rt; of_tag.global().is_none());
    assert_eq!(rt; of_tag.clone()?, of_tag);
    Ok(())
}

/// Each form of external type, and its data.
#[test]
fn goes_to_data_and_comes_back(rt: HostRuntime) -> Result<(), Fail> {
    let element = RefType::new(false, HeapType::ConcreteFunc(NAME));
    let rows = [
        (ExternType::Func(NAME), EntityType::Function(INDEX)),
        (
            ExternType::Global(GlobalType::new(ValType::Ref(element), Mutability::Var)),
            EntityType::Global(Global {
                wasm_ty: WasmValType::Ref(reference(INDEX)),
                mutability: true,
            }),
        ),
        (
            ExternType::Table(TableType::new(RefType::FUNCREF, 1, Some(2))),
            EntityType::Table(table(IndexType::I32, 1, Some(2))),
        ),
        (
            ExternType::Table(TableType::new64(RefType::FUNCREF, 1 << 32, None)),
            EntityType::Table(table(IndexType::I64, 1 << 32, None)),
        ),
        (
            ExternType::Memory(MemoryType::new64(1, Some(2))?),
            EntityType::Memory(memory(IndexType::I64, 1, Some(2), 16)),
        ),
        (
            ExternType::Tag(TagType::new(NAME)),
            EntityType::Tag(Tag { signature: INDEX }),
        ),
    ];
    for (ty, entity) in rows {
        assert_eq!(rt; ty.to_entity(), entity);
        assert_eq!(rt; read(&entity), Some(ty));
    }
    assert_eq!(rt;
        laws::extern_comes_back(7, &ExternType::Func(NAME)),
        ExternType::Func(NAME)
    );
    Ok(())
}

/// Data that name a type by another index than an engine's, and numbers that no memory or table has.
#[test]
fn tells_what_is_none(rt: HostRuntime) {
    let unnamed = [
        EntityType::Function(OF_MODULE),
        EntityType::Global(Global {
            wasm_ty: WasmValType::Ref(reference(OF_MODULE)),
            mutability: false,
        }),
        EntityType::Tag(Tag {
            signature: OF_MODULE,
        }),
    ];
    for entity in unnamed {
        assert!(rt;
            !is_engine_entity(&entity) && has_memory_type(&entity) && obeys_limits(&entity)
        );
        assert_eq!(rt; read(&entity), None);
    }

    let memories = [
        memory(IndexType::I32, 2, Some(1), 16),
        memory(IndexType::I64, 2, None, 3),
        memory(IndexType::I32, 65_537, None, 16),
    ];
    for memory in memories {
        assert!(rt; !MemoryType::accepts(&memory));
        assert_eq!(rt; read(&EntityType::Memory(memory)), None);
    }

    let tables = [
        table(IndexType::I32, 2, Some(1)),
        table(IndexType::I64, 2, Some(1)),
        table(IndexType::I32, 1 << 32, None),
        table(IndexType::I32, 0, Some(1 << 32)),
    ];
    for table in tables {
        assert!(rt; !table_obeys_limits(&table));
        assert_eq!(rt; read(&EntityType::Table(table)), None);
    }
    assert!(rt; table_obeys_limits(&table(IndexType::I32, u32::MAX as u64, Some(u32::MAX as u64))));
    assert!(rt; table_obeys_limits(&table(IndexType::I64, u64::MAX, Some(u64::MAX))));
}
