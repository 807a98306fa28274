//! Names of registered types, one for each kind. A name holds nothing: whoever uses it sees to it that the type stays.

use wt_env::types::VMSharedTypeIndex;

/// The name of a function type.
#[derive(Clone, Copy, Debug, PartialEq, Eq, Hash)]
pub struct FuncName {
    /// The number of the engine that has the type.
    pub engine: u64,
    /// The index of the type in that engine.
    pub index: VMSharedTypeIndex,
}

/// The name of an array type.
#[derive(Clone, Copy, Debug, PartialEq, Eq, Hash)]
pub struct ArrayName {
    /// The number of the engine that has the type.
    pub engine: u64,
    /// The index of the type in that engine.
    pub index: VMSharedTypeIndex,
}

/// The name of a struct type.
#[derive(Clone, Copy, Debug, PartialEq, Eq, Hash)]
pub struct StructName {
    /// The number of the engine that has the type.
    pub engine: u64,
    /// The index of the type in that engine.
    pub index: VMSharedTypeIndex,
}

/// The name of a continuation type.
#[derive(Clone, Copy, Debug, PartialEq, Eq, Hash)]
pub struct ContName {
    /// The number of the engine that has the type.
    pub engine: u64,
    /// The index of the type in that engine.
    pub index: VMSharedTypeIndex,
}

/// The name of an exception type.
#[derive(Clone, Copy, Debug, PartialEq, Eq, Hash)]
pub struct ExnName {
    /// The number of the engine that has the type.
    pub engine: u64,
    /// The index of the type in that engine.
    pub index: VMSharedTypeIndex,
}
