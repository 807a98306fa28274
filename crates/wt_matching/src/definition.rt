//! What is given for an import, and the kinds of what is imported.

ghost use Rattle.std.specs.Prelude.{◌≡◌};
ghost use Rattle.wt_matching.specs.Import as import;

use wt_env::types::VMSharedTypeIndex;
use wt_extern::entity::{EntityType, Global, Memory, Table, Tag};

/// What is given for an import: a definition, with the size that a table or a memory has by now.
#[derive(Clone, Copy, Debug, PartialEq, Eq, Hash)]
pub enum DefinitionType {
    /// A function, by its type.
    Func(VMSharedTypeIndex),
    Global(Global),
    /// A table, and its size in elements.
    Table(Table, u64),
    /// A memory, and its size in pages.
    Memory(Memory, u64),
    Tag(Tag),
}

impl DefinitionType {
    /// Which kind it is of.
    pub fn kind(&self) -> EntityKind
        ensures { result ≡ import.definition_kind self.now }
    {
        match self {
            DefinitionType::Func(_) => EntityKind::Func,
            DefinitionType::Global(_) => EntityKind::Global,
            DefinitionType::Table(_, _) => EntityKind::Table,
            DefinitionType::Memory(_, _) => EntityKind::Memory,
            DefinitionType::Tag(_) => EntityKind::Tag,
        }
    }
}

/// The kinds of what a module imports and exports (WebAssembly 3.0, "External Types").
#[derive(Clone, Copy, Debug, PartialEq, Eq, Hash)]
pub enum EntityKind {
    Func,
    Global,
    Table,
    Memory,
    Tag,
}

impl EntityKind {
    /// The kind of what is imported or exported.
    pub fn of(entity: &EntityType) -> EntityKind
        ensures { result ≡ import.entity_kind entity.now }
    {
        match entity {
            EntityType::Function(_) => EntityKind::Func,
            EntityType::Global(_) => EntityKind::Global,
            EntityType::Table(_) => EntityKind::Table,
            EntityType::Memory(_) => EntityKind::Memory,
            EntityType::Tag(_) => EntityKind::Tag,
        }
    }
}

/// The kinds of what has a size.
#[derive(Clone, Copy, Debug, PartialEq, Eq, Hash)]
pub enum SizedKind {
    Table,
    Memory,
}
