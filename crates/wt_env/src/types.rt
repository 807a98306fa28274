//! The data of core types, as WebAssembly 3.0 has them (section "Types"), with the names of
//! wasmtime's environment. Everything here is compared and hashed by its contents.

ghost use Rattle.std.specs.Prelude.{◌≡◌, ◌↔◌, [], ◌∷◌, IsTrue, IfOk};

use crate::memory::OutOfMemory;
use crate::seq::Seq;
use std::alloc::Global;

/// The index of a type that an engine has registered.
#[derive(Clone, Copy, Debug, PartialEq, Eq, Hash)]
pub struct VMSharedTypeIndex(pub u32);

impl VMSharedTypeIndex {
    /// The index with these bits.
    pub fn new(bits: u32) -> VMSharedTypeIndex
        ensures { result.0 ≡ bits }
    {
        VMSharedTypeIndex(bits)
    }

    /// The index as a number.
    pub fn bits(&self) -> u32
        ensures { result ≡ self.now.0 }
    {
        self.0
    }

    /// Whether it is the index that no type ever has, 2^32 - 1.
    pub fn is_reserved_value(&self) -> bool
        ensures { IsTrue result ↔ (self.now.0 ≡ 4294967295) }
    {
        self.0 == u32::MAX
    }
}

/// The index of a type within its module, over all members of all its groups, from 0.
#[derive(Clone, Copy, Debug, PartialEq, Eq, Hash)]
pub struct ModuleInternedTypeIndex(pub u32);

/// A reference to a type: one that is registered, one of the module, or one of the same group.
#[derive(Clone, Copy, Debug, PartialEq, Eq, Hash)]
pub enum EngineOrModuleTypeIndex {
    /// A registered type.
    Engine(VMSharedTypeIndex),
    /// A type of the module that is spoken of.
    Module(ModuleInternedTypeIndex),
    /// The place of a member in the same recursion group.
    RecGroup(u32),
}

/// What a reference refers to (WebAssembly 3.0, "Heap Types"; continuations after wasmtime).
#[derive(Clone, Copy, Debug, PartialEq, Eq, Hash)]
pub enum WasmHeapType {
    Extern,
    NoExtern,
    Func,
    ConcreteFunc(EngineOrModuleTypeIndex),
    NoFunc,
    Any,
    Eq,
    I31,
    Array,
    ConcreteArray(EngineOrModuleTypeIndex),
    Struct,
    ConcreteStruct(EngineOrModuleTypeIndex),
    Exn,
    ConcreteExn(EngineOrModuleTypeIndex),
    ConcreteCont(EngineOrModuleTypeIndex),
    Cont,
    NoCont,
    None,
    NoExn,
}

/// A reference type (WebAssembly 3.0, "Reference Types").
#[derive(Clone, Copy, Debug, PartialEq, Eq, Hash)]
pub struct WasmRefType {
    pub nullable: bool,
    pub heap_type: WasmHeapType,
}

/// A value type (WebAssembly 3.0, "Value Types").
#[derive(Clone, Copy, Debug, PartialEq, Eq, Hash)]
pub enum WasmValType {
    I32,
    I64,
    F32,
    F64,
    V128,
    Ref(WasmRefType),
}

/// What a field stores: a value or a packed number (WebAssembly 3.0, "Storage Types").
#[derive(Clone, Copy, Debug, PartialEq, Eq, Hash)]
pub enum WasmStorageType {
    I8,
    I16,
    Val(WasmValType),
}

/// A field of a struct or an array (WebAssembly 3.0, "Field Types").
#[derive(Clone, Copy, Debug, PartialEq, Eq, Hash)]
pub struct WasmFieldType {
    pub element_type: WasmStorageType,
    pub mutable: bool,
}

/// A function type (WebAssembly 3.0, "Function Types").
#[derive(Clone, Debug, PartialEq, Eq, Hash, Drop)]
pub struct WasmFuncType {
    pub params: Seq<WasmValType>,
    pub results: Seq<WasmValType>,
}

/// A struct type (WebAssembly 3.0, "Struct Types").
#[derive(Clone, Debug, PartialEq, Eq, Hash, Drop)]
pub struct WasmStructType {
    pub fields: Seq<WasmFieldType>,
}

/// An array type (WebAssembly 3.0, "Array Types").
#[derive(Clone, Copy, Debug, PartialEq, Eq, Hash)]
pub struct WasmArrayType(pub WasmFieldType);

/// An exception type: its function type, and its fields (after wasmtime).
#[derive(Clone, Debug, PartialEq, Eq, Hash, Drop)]
pub struct WasmExnType {
    pub func_ty: EngineOrModuleTypeIndex,
    pub fields: Seq<WasmFieldType>,
}

/// A continuation type, of a function type (after wasmtime).
#[derive(Clone, Copy, Debug, PartialEq, Eq, Hash)]
pub struct WasmContType(pub EngineOrModuleTypeIndex);

/// The kind of a shape, or of a type that a reference names (WebAssembly 3.0, "Composite Types";
/// exceptions and continuations after wasmtime).
#[derive(Clone, Copy, Debug, PartialEq, Eq, Hash)]
pub enum Kind {
    Func,
    Struct,
    Array,
    Exn,
    Cont,
}

/// The shape of a type (WebAssembly 3.0, "Composite Types"; exceptions and continuations after
/// wasmtime).
#[derive(Clone, Debug, PartialEq, Eq, Hash, Drop)]
pub enum WasmCompositeInnerType {
    Func(WasmFuncType),
    Struct(WasmStructType),
    Array(WasmArrayType),
    Exn(WasmExnType),
    Cont(WasmContType),
}

/// A sub type: whether it is final, its declared supertype, and its shape (WebAssembly 3.0,
/// "Recursive Types").
#[derive(Clone, Debug, PartialEq, Eq, Hash, Drop)]
pub struct WasmSubType {
    pub is_final: bool,
    pub supertype: Option<EngineOrModuleTypeIndex>,
    pub composite_type: WasmCompositeInnerType,
}

/// A recursion group: types that may refer to each other by their places (WebAssembly 3.0,
/// "Recursive Types").
#[derive(Clone, Debug, PartialEq, Eq, Hash, Drop)]
pub struct WasmRecGroup {
    pub types: Seq<WasmSubType>,
}

impl WasmRecGroup {
    /// The group of one type.
    pub fn alone(alloc: Global, ty: WasmSubType) -> Result<WasmRecGroup, OutOfMemory>
        ensures { IfOk result (λ group. group.types ≡ ty ∷ []) }
    {
        Ok(WasmRecGroup {
            types: Seq::one(alloc, ty)?,
        })
    }

    /// Whether the two are the same group, member by member. `==` answers the same.
    #[tactic(auto, using(crate::specs::Equality::equality))]
    pub fn is_same(&self, other: &WasmRecGroup) -> bool
        ensures { IsTrue result ↔ (self.now ≡ other.now) }
    {
        self == other
    }
}

/// The recursion groups of a module, in order (WebAssembly 3.0, "Types" and "Recursive Types"). Their
/// references are Module indices, which count the members of all groups from 0.
#[derive(Clone, Debug, PartialEq, Eq, Hash, Drop)]
pub struct ModuleTypes {
    pub groups: Seq<WasmRecGroup>,
}

#[cfg(test)]
mod tests {
    use super::*;
    use std::collections::HashMap;
    use std::test::Fail;

    /// The group of one final function type.
    fn function(
        alloc: Global,
        given: WasmValType,
        returned: WasmValType,
    ) -> Result<WasmRecGroup, OutOfMemory> {
        let func = WasmFuncType {
            params: Seq::one(alloc, given)?,
            results: Seq::one(alloc, returned)?,
        };
        let ty = WasmSubType {
            is_final: true,
            supertype: None,
            composite_type: WasmCompositeInnerType::Func(func),
        };
        WasmRecGroup::alone(alloc, ty)
    }

    #[test]
    fn groups_are_keys(rt: HostRuntime) -> Result<(), Fail> {
        let group = function(rt.alloc(), WasmValType::I32, WasmValType::I64)?;
        let copy = group.clone()?;
        let other = function(rt.alloc(), WasmValType::I64, WasmValType::I32)?;
        assert!(rt; group == copy);
        assert!(rt; group.is_same(&copy));
        assert!(rt; group != other);
        assert!(rt; !group.is_same(&other));

        let mut numbers = HashMap::new(rt.alloc());
        numbers.insert(group, 7u32)?;
        assert_eq!(rt; numbers.get(&copy).copied(), Some(7u32));
        assert_eq!(rt; numbers.get(&other).copied(), None);
        Ok(())
    }
}
