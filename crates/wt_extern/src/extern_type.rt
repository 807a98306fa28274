//! External types: the type of what a module imports or exports, whatever it is.

ghost use Rattle.std.specs.Prelude.{◌≡◌, IsTrue, IsSome, Some};
ghost use Rattle.std.specs.Option.{option_copied};
ghost use Rattle.wt_heap.specs.Engines.{IsOfEngine, AreEngineIndices};
ghost use Rattle.wt_extern.specs.declared.extern_type.ExternType.{ExternType as Typed};
ghost use Rattle.wt_extern.specs.declared.extern_type.ExternType.TheVariants as extern;
ghost use Rattle.wt_extern.specs.Entities.{extern_to_entity, extern_engine};
ghost use Rattle.wt_extern.specs.EntityRules.{entity_indices, has_memory_type, obeys_limits};
ghost use Rattle.wt_extern.specs.Parts.{extern_func, extern_global, extern_table, extern_memory, extern_tag};

use crate::entity::EntityType;
use crate::global_type::GlobalType;
use crate::memory_type::MemoryType;
use crate::table_type::TableType;
use crate::tag_type::{TagType, name_of};
use wt_env::types::EngineOrModuleTypeIndex;
use wt_heap::names::FuncName;

/// The type of what a module imports or exports (WebAssembly 3.0, "External Types").
///
/// `==` compares contents.
#[derive(Clone, Copy, Debug, PartialEq, Eq)]
pub enum ExternType {
    /// The type of a function.
    Func(FuncName),
    /// The type of a global.
    Global(GlobalType),
    /// The type of a table.
    Table(TableType),
    /// The type of a memory.
    Memory(MemoryType),
    /// The type of a tag.
    Tag(TagType),
}

impl From<FuncName> for ExternType {
    ghost from_gives = { λ name typed. typed ≡ extern.Func name };

    fn from(name: FuncName) -> ExternType {
        ExternType::Func(name)
    }
}

impl From<GlobalType> for ExternType {
    ghost from_gives = { λ global typed. typed ≡ extern.Global global };

    fn from(global: GlobalType) -> ExternType {
        ExternType::Global(global)
    }
}

impl From<MemoryType> for ExternType {
    ghost from_gives = { λ memory typed. typed ≡ extern.Memory memory };

    fn from(memory: MemoryType) -> ExternType {
        ExternType::Memory(memory)
    }
}

impl From<TableType> for ExternType {
    ghost from_gives = { λ table typed. typed ≡ extern.Table table };

    fn from(table: TableType) -> ExternType {
        ExternType::Table(table)
    }
}

impl From<TagType> for ExternType {
    ghost from_gives = { λ tag typed. typed ≡ extern.Tag tag };

    fn from(tag: TagType) -> ExternType {
        ExternType::Tag(tag)
    }
}

impl ExternType {
    /// The function type that it is, if it is one.
    pub fn func(&self) -> Option<&FuncName>
        ensures { option_copied result ≡ extern_func self.now }
    {
        match self {
            ExternType::Func(name) => Some(name),
            _ => None,
        }
    }

    /// The function type that it is.
    pub fn unwrap_func(&self) -> &FuncName
        requires { IsSome (extern_func self.now) }
        ensures { Some result.now ≡ extern_func self.now }
    {
        self.func().unwrap()
    }

    /// The global type that it is, if it is one.
    pub fn global(&self) -> Option<&GlobalType>
        ensures { option_copied result ≡ extern_global self.now }
    {
        match self {
            ExternType::Global(global) => Some(global),
            _ => None,
        }
    }

    /// The global type that it is.
    pub fn unwrap_global(&self) -> &GlobalType
        requires { IsSome (extern_global self.now) }
        ensures { Some result.now ≡ extern_global self.now }
    {
        self.global().unwrap()
    }

    /// The table type that it is, if it is one.
    pub fn table(&self) -> Option<&TableType>
        ensures { option_copied result ≡ extern_table self.now }
    {
        match self {
            ExternType::Table(table) => Some(table),
            _ => None,
        }
    }

    /// The table type that it is.
    pub fn unwrap_table(&self) -> &TableType
        requires { IsSome (extern_table self.now) }
        ensures { Some result.now ≡ extern_table self.now }
    {
        self.table().unwrap()
    }

    /// The memory type that it is, if it is one.
    pub fn memory(&self) -> Option<&MemoryType>
        ensures { option_copied result ≡ extern_memory self.now }
    {
        match self {
            ExternType::Memory(memory) => Some(memory),
            _ => None,
        }
    }

    /// The memory type that it is.
    pub fn unwrap_memory(&self) -> &MemoryType
        requires { IsSome (extern_memory self.now) }
        ensures { Some result.now ≡ extern_memory self.now }
    {
        self.memory().unwrap()
    }

    /// The tag type that it is, if it is one.
    pub fn tag(&self) -> Option<&TagType>
        ensures { option_copied result ≡ extern_tag self.now }
    {
        match self {
            ExternType::Tag(tag) => Some(tag),
            _ => None,
        }
    }

    /// The tag type that it is.
    pub fn unwrap_tag(&self) -> &TagType
        requires { IsSome (extern_tag self.now) }
        ensures { Some result.now ≡ extern_tag self.now }
    {
        self.tag().unwrap()
    }

    /// The same as data, with a registered type by its index. It names types by engine indices alone, and a memory is one
    /// that a builder accepts.
    pub fn to_entity(&self) -> EntityType
        ensures entity { result ≡ extern_to_entity self.now }
        ensures indices { AreEngineIndices (entity_indices result) }
        ensures memory { IsTrue (has_memory_type result) }
    {
        match self {
            ExternType::Func(name) => {
                EntityType::Function(EngineOrModuleTypeIndex::Engine(name.index))
            }
            ExternType::Global(global) => EntityType::Global(global.to_wasm()),
            ExternType::Table(table) => EntityType::Table(table.to_wasm()),
            ExternType::Memory(memory) => EntityType::Memory(memory.to_wasm()),
            ExternType::Tag(tag) => EntityType::Tag(tag.to_wasm()),
        }
    }

    /// The type that is this data, where the registered type that it names, if any, is one of the engine with this
    /// number. Its indices are engine indices (`is_engine_entity` tells this), `MemoryTypeBuilder::build` accepts what it
    /// says of a memory (`has_memory_type`), and a table's minimum isn't above its maximum, and both are at most 2^32 - 1
    /// where the table is addressed by 32 bits (`obeys_limits`).
    pub fn from_entity(engine: u64, entity: &EntityType) -> ExternType
        requires indices { AreEngineIndices (entity_indices entity.now) }
        requires memory { IsTrue (has_memory_type entity.now) }
        requires limits { IsTrue (obeys_limits entity.now) }
        ensures entity { extern_to_entity result ≡ entity.now }
        ensures engine { IsOfEngine engine (extern_engine result) }
        ensures only { (e : Typed) → extern_to_entity e ≡ entity.now → IsOfEngine engine (extern_engine e) → result ≡ e }
    {
        match entity {
            EntityType::Function(index) => name_of(engine, *index).into(),
            EntityType::Global(global) => GlobalType::from_wasm(engine, global).into(),
            EntityType::Table(table) => TableType::from_wasm(engine, table).into(),
            EntityType::Memory(memory) => MemoryType::from_wasm(memory).into(),
            EntityType::Tag(tag) => TagType::from_wasm(engine, tag).into(),
        }
    }
}
