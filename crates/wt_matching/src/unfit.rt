//! Why what is given for an import doesn't fit it.

use crate::definition::{EntityKind, SizedKind};
use wt_env::types::{EngineOrModuleTypeIndex, WasmRefType, WasmValType};
use wt_extern::entity::{IndexType, Limits};

/// Why what is given for an import doesn't fit it, with what is expected and what is given. Where several causes hold,
/// the first within the kind is told (after wasmtime).
#[derive(Clone, Copy, Debug, PartialEq, Eq, Hash)]
pub enum Unfit {
    /// A definition is of another kind.
    DefinitionKind {
        expected: EntityKind,
        actual: EntityKind,
    },
    /// What another module exports, or is to import, is of another kind.
    EntityKind {
        expected: EntityKind,
        actual: EntityKind,
    },
    /// No declared supertype steps lead from the function's type to the expected one.
    Function {
        expected: EngineOrModuleTypeIndex,
        actual: EngineOrModuleTypeIndex,
    },
    /// The value types of globals aren't equal, and one of the globals can change.
    VariableContent {
        expected: WasmValType,
        actual: WasmValType,
    },
    /// The value type of a constant global doesn't match that of another.
    ConstantContent {
        expected: WasmValType,
        actual: WasmValType,
    },
    /// Of two globals one can change, and the other can't: whether each can.
    Mutability {
        expected: bool,
        actual: bool,
    },
    /// The types of the elements of tables aren't equal.
    Element {
        expected: WasmRefType,
        actual: WasmRefType,
    },
    /// Of two tables or memories one is addressed by 64 bits, and the other by 32.
    IndexType {
        kind: SizedKind,
        expected: IndexType,
        actual: IndexType,
    },
    /// The size is below the expected minimum, or the maximum is above the expected one. What is given has its size, or
    /// where none is known its own minimum, as its minimum here.
    Limits {
        kind: SizedKind,
        expected: Limits,
        actual: Limits,
    },
    /// Of two memories one is shared by threads, and the other isn't: whether each is.
    Sharing {
        expected: bool,
        actual: bool,
    },
    /// The pages of memories have different sizes, by their logarithms to base 2.
    PageSize {
        expected: u8,
        actual: u8,
    },
    /// The function types of tags aren't the same.
    Tag {
        expected: EngineOrModuleTypeIndex,
        actual: EngineOrModuleTypeIndex,
    },
}
