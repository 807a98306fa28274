//! Types as commands of a host describe them. What is registered is named by handles of the command's party.

use crate::command::NamedType;
use wt_env::seq::Seq;

/// A heap type: an abstract one, or a registered type of this name, whose kind is that of the type
/// (WebAssembly 3.0, "Heap Types"; continuations and exceptions after wasmtime).
#[derive(Clone, Copy, Debug, PartialEq, Eq)]
pub enum HostHeap {
    Extern,
    NoExtern,
    Func,
    NoFunc,
    Any,
    Eq,
    I31,
    Array,
    Struct,
    None,
    Cont,
    NoCont,
    Exn,
    NoExn,
    Named(NamedType),
}

/// A reference type.
#[derive(Clone, Copy, Debug, PartialEq, Eq)]
pub struct HostRef {
    pub nullable: bool,
    pub heap: HostHeap,
}

/// A value type.
#[derive(Clone, Copy, Debug, PartialEq, Eq)]
pub enum HostVal {
    I32,
    I64,
    F32,
    F64,
    V128,
    Ref(HostRef),
}

/// A storage type.
#[derive(Clone, Copy, Debug, PartialEq, Eq)]
pub enum HostStorage {
    I8,
    I16,
    Val(HostVal),
}

/// A field type.
#[derive(Clone, Copy, Debug, PartialEq, Eq)]
pub struct HostField {
    pub element: HostStorage,
    pub mutable: bool,
}

/// What a type is, besides its finality and its supertype.
#[derive(Debug, PartialEq, Eq, Drop)]
pub enum HostShape {
    Func {
        params: Seq<HostVal>,
        results: Seq<HostVal>,
    },
    Struct {
        fields: Seq<HostField>,
    },
    Array(HostField),
}

/// A type as a command of the host describes it.
#[derive(Debug, PartialEq, Eq, Drop)]
pub enum HostSub {
    /// A function, struct or array.
    Declared {
        is_final: bool,
        supertype: Option<NamedType>,
        shape: HostShape,
    },
    /// An exception that holds these values, over the function type that has them as its parameters.
    Exception {
        fields: Seq<HostVal>,
    },
    /// The exception over the function type of this name, which holds its parameters.
    Tag(NamedType),
}
