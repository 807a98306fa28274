//! Heap types: what a reference refers to. Where one matches another is the fit of `wt_tree`, asked of its type data.

ghost use Rattle.std.specs.Prelude.{◌≡◌, ◌↔◌, IsTrue, IsSome, Some, is_some, not, ℕ};
ghost use Rattle.std.specs.Option.{option_copied};
ghost use Rattle.wt_tree.specs.Kinds.{kinded_heap, indices_of};
ghost use Rattle.wt_env.specs.declared.types.EngineOrModuleTypeIndex.TheVariants as type_index;
ghost use Rattle.wt_heap.specs.declared.heap_type.HeapType.{HeapType as Heap};
ghost use Rattle.wt_heap.specs.declared.heap_type.HeapType.TheVariants as heap;
ghost use Rattle.wt_heap.specs.Engines as engines;
ghost use Rattle.wt_heap.specs.Engines.{heap_engine, IsOfEngine, AreOfOneEngine, AreEngineIndices};
ghost use Rattle.wt_heap.specs.Matches.{HeapIsKnown, heap_matches, both_ways};
ghost use Rattle.wt_heap.specs.Parts.{concrete_func, concrete_array, concrete_struct, concrete_cont, concrete_exn};
ghost use Rattle.wt_heap.specs.ToWasm.{heap_to_wasm};

use crate::names::{ArrayName, ContName, ExnName, FuncName, StructName};
use wt_env::types::{EngineOrModuleTypeIndex, VMSharedTypeIndex, WasmHeapType, WasmRefType};
use wt_tree::fit::fit_ref;
use wt_tree::supers::Supers;

/// What a reference refers to (WebAssembly 3.0, "Heap Types"; continuations, and concrete exceptions, after wasmtime).
/// There are five hierarchies, each with a top that is above all of it and a bottom that is below: `extern` and
/// `noextern`, `func` and `nofunc`, `any` and `none`, `exn` and `noexn`, `cont` and `nocont`.
///
/// `==` compares contents. Whether two are one type is asked by `HeapType::eq`, and whether one may stand for the
/// other by `HeapType::matches`.
#[derive(Clone, Copy, Debug, PartialEq, Eq, Hash)]
pub enum HeapType {
    /// All references of the host.
    Extern,
    /// The null reference of the host.
    NoExtern,
    /// All functions.
    Func,
    /// The functions of a registered type.
    ConcreteFunc(FuncName),
    /// The null reference to a function.
    NoFunc,
    /// All internal references: what can be compared, and references of the host made internal.
    Any,
    /// All references that can be compared: `i31`, arrays and structs.
    Eq,
    /// Numbers of 31 bits, unboxed.
    I31,
    /// All arrays.
    Array,
    /// The arrays of a registered type.
    ConcreteArray(ArrayName),
    /// All structs.
    Struct,
    /// The structs of a registered type.
    ConcreteStruct(StructName),
    /// All exceptions.
    Exn,
    /// The exceptions of a registered type.
    ConcreteExn(ExnName),
    /// The continuations of a registered type.
    ConcreteCont(ContName),
    /// All continuations.
    Cont,
    /// The null reference to a continuation.
    NoCont,
    /// The null internal reference.
    None,
    /// The null reference to an exception.
    NoExn,
}

/// The registered type that an engine index names.
fn shared(index: EngineOrModuleTypeIndex) -> VMSharedTypeIndex
    requires { engines.IsEngineIndex index }
    ensures { index ≡ type_index.Engine result }
{
    match index {
        EngineOrModuleTypeIndex::Engine(index) => index,
        _ => unreachable!(),
    }
}

impl From<FuncName> for HeapType {
    ghost from_gives = { λ name named. named ≡ heap.ConcreteFunc name };

    fn from(name: FuncName) -> HeapType {
        HeapType::ConcreteFunc(name)
    }
}

impl From<ArrayName> for HeapType {
    ghost from_gives = { λ name named. named ≡ heap.ConcreteArray name };

    fn from(name: ArrayName) -> HeapType {
        HeapType::ConcreteArray(name)
    }
}

impl From<StructName> for HeapType {
    ghost from_gives = { λ name named. named ≡ heap.ConcreteStruct name };

    fn from(name: StructName) -> HeapType {
        HeapType::ConcreteStruct(name)
    }
}

impl From<ExnName> for HeapType {
    ghost from_gives = { λ name named. named ≡ heap.ConcreteExn name };

    fn from(name: ExnName) -> HeapType {
        HeapType::ConcreteExn(name)
    }
}

impl From<ContName> for HeapType {
    ghost from_gives = { λ name named. named ≡ heap.ConcreteCont name };

    fn from(name: ContName) -> HeapType {
        HeapType::ConcreteCont(name)
    }
}

impl HeapType {
    /// Whether it is `extern`.
    pub fn is_extern(&self) -> bool
        ensures { IsTrue result ↔ (self.now ≡ heap.Extern) }
    {
        matches!(self, HeapType::Extern)
    }

    /// Whether it is `func`.
    pub fn is_func(&self) -> bool
        ensures { IsTrue result ↔ (self.now ≡ heap.Func) }
    {
        matches!(self, HeapType::Func)
    }

    /// Whether it is `nofunc`.
    pub fn is_no_func(&self) -> bool
        ensures { IsTrue result ↔ (self.now ≡ heap.NoFunc) }
    {
        matches!(self, HeapType::NoFunc)
    }

    /// Whether it is `any`.
    pub fn is_any(&self) -> bool
        ensures { IsTrue result ↔ (self.now ≡ heap.Any) }
    {
        matches!(self, HeapType::Any)
    }

    /// Whether it is `i31`.
    pub fn is_i31(&self) -> bool
        ensures { IsTrue result ↔ (self.now ≡ heap.I31) }
    {
        matches!(self, HeapType::I31)
    }

    /// Whether it is `none`.
    pub fn is_none(&self) -> bool
        ensures { IsTrue result ↔ (self.now ≡ heap.None) }
    {
        matches!(self, HeapType::None)
    }

    /// Whether it is `cont`.
    pub fn is_cont(&self) -> bool
        ensures { IsTrue result ↔ (self.now ≡ heap.Cont) }
    {
        matches!(self, HeapType::Cont)
    }

    /// Whether it is `exn`.
    pub fn is_exn(&self) -> bool
        ensures { IsTrue result ↔ (self.now ≡ heap.Exn) }
    {
        matches!(self, HeapType::Exn)
    }

    /// Whether it is `noexn`.
    pub fn is_no_exn(&self) -> bool
        ensures { IsTrue result ↔ (self.now ≡ heap.NoExn) }
    {
        matches!(self, HeapType::NoExn)
    }

    /// Whether it names no registered type.
    pub fn is_abstract(&self) -> bool
        ensures { result ≡ not (is_some (heap_engine self.now)) }
    {
        !self.is_concrete()
    }

    /// Whether it names a registered type.
    pub fn is_concrete(&self) -> bool
        ensures { result ≡ is_some (heap_engine self.now) }
    {
        matches!(
            self,
            HeapType::ConcreteFunc(_)
                | HeapType::ConcreteArray(_)
                | HeapType::ConcreteStruct(_)
                | HeapType::ConcreteCont(_)
                | HeapType::ConcreteExn(_)
        )
    }

    /// Whether it names a function type.
    pub fn is_concrete_func(&self) -> bool
        ensures { result ≡ is_some (concrete_func self.now) }
    {
        matches!(self, HeapType::ConcreteFunc(_))
    }

    /// The name of a function type, if it is one.
    pub fn as_concrete_func(&self) -> Option<&FuncName>
        ensures { option_copied result ≡ concrete_func self.now }
    {
        match self {
            HeapType::ConcreteFunc(name) => Some(name),
            _ => None,
        }
    }

    /// The name of a function type, which it is.
    pub fn unwrap_concrete_func(&self) -> &FuncName
        requires { IsSome (concrete_func self.now) }
        ensures { Some result.now ≡ concrete_func self.now }
    {
        self.as_concrete_func().unwrap()
    }

    /// Whether it names an array type.
    pub fn is_concrete_array(&self) -> bool
        ensures { result ≡ is_some (concrete_array self.now) }
    {
        matches!(self, HeapType::ConcreteArray(_))
    }

    /// The name of an array type, if it is one.
    pub fn as_concrete_array(&self) -> Option<&ArrayName>
        ensures { option_copied result ≡ concrete_array self.now }
    {
        match self {
            HeapType::ConcreteArray(name) => Some(name),
            _ => None,
        }
    }

    /// The name of an array type, which it is.
    pub fn unwrap_concrete_array(&self) -> &ArrayName
        requires { IsSome (concrete_array self.now) }
        ensures { Some result.now ≡ concrete_array self.now }
    {
        self.as_concrete_array().unwrap()
    }

    /// Whether it names a struct type.
    pub fn is_concrete_struct(&self) -> bool
        ensures { result ≡ is_some (concrete_struct self.now) }
    {
        matches!(self, HeapType::ConcreteStruct(_))
    }

    /// The name of a struct type, if it is one.
    pub fn as_concrete_struct(&self) -> Option<&StructName>
        ensures { option_copied result ≡ concrete_struct self.now }
    {
        match self {
            HeapType::ConcreteStruct(name) => Some(name),
            _ => None,
        }
    }

    /// The name of a struct type, which it is.
    pub fn unwrap_concrete_struct(&self) -> &StructName
        requires { IsSome (concrete_struct self.now) }
        ensures { Some result.now ≡ concrete_struct self.now }
    {
        self.as_concrete_struct().unwrap()
    }

    /// Whether it names a continuation type.
    pub fn is_concrete_cont(&self) -> bool
        ensures { result ≡ is_some (concrete_cont self.now) }
    {
        matches!(self, HeapType::ConcreteCont(_))
    }

    /// The name of a continuation type, if it is one.
    pub fn as_concrete_cont(&self) -> Option<&ContName>
        ensures { option_copied result ≡ concrete_cont self.now }
    {
        match self {
            HeapType::ConcreteCont(name) => Some(name),
            _ => None,
        }
    }

    /// The name of a continuation type, which it is.
    pub fn unwrap_concrete_cont(&self) -> &ContName
        requires { IsSome (concrete_cont self.now) }
        ensures { Some result.now ≡ concrete_cont self.now }
    {
        self.as_concrete_cont().unwrap()
    }

    /// Whether it names an exception type.
    pub fn is_concrete_exn(&self) -> bool
        ensures { result ≡ is_some (concrete_exn self.now) }
    {
        matches!(self, HeapType::ConcreteExn(_))
    }

    /// The name of an exception type, if it is one.
    pub fn as_concrete_exn(&self) -> Option<&ExnName>
        ensures { option_copied result ≡ concrete_exn self.now }
    {
        match self {
            HeapType::ConcreteExn(name) => Some(name),
            _ => None,
        }
    }

    /// The nullable reference type to it, as type data.
    fn nullable(&self) -> WasmRefType
        ensures nullable { IsTrue result.nullable }
        ensures heap_type { result.heap_type ≡ heap_to_wasm self.now }
    {
        WasmRefType {
            nullable: true,
            heap_type: self.to_wasm(),
        }
    }

    /// Whether it matches the other, and so may stand for it (WebAssembly 3.0, "Matching", "Heap Types"; continuations and
    /// concrete exceptions after wasmtime): each matches itself, the top of its hierarchy and what lies between; the
    /// bottom matches all of its hierarchy; and one registered type matches another where zero or more declared supertype
    /// steps lead there. What the two name is of one engine, and `supers` has its closed tree.
    pub fn matches<S: Supers>(&self, other: &HeapType, supers: &S) -> bool
        requires known { HeapIsKnown (S.types supers.now) self.now }
        requires other_known { HeapIsKnown (S.types supers.now) other.now }
        requires one_engine { AreOfOneEngine (heap_engine self.now) (heap_engine other.now) }
        ensures { result ≡ heap_matches (S.types supers.now) self.now other.now }
    {
        // nullable references match where what they refer to does
        fit_ref(&self.nullable(), &other.nullable(), supers)
    }

    /// Whether the two are one heap type: each matches the other. The conditions are those of `matches`.
    pub fn eq<S: Supers>(a: &HeapType, b: &HeapType, supers: &S) -> bool
        requires known { HeapIsKnown (S.types supers.now) a.now }
        requires other_known { HeapIsKnown (S.types supers.now) b.now }
        requires one_engine { AreOfOneEngine (heap_engine a.now) (heap_engine b.now) }
        ensures { result ≡ both_ways (heap_matches (S.types supers.now)) a.now b.now }
    {
        fit_ref(&a.nullable(), &b.nullable(), supers)
            && fit_ref(&b.nullable(), &a.nullable(), supers)
    }

    /// The same as type data, with a registered type by its index.
    pub fn to_wasm(&self) -> WasmHeapType
        ensures { result ≡ heap_to_wasm self.now }
    {
        match self {
            HeapType::Extern => WasmHeapType::Extern,
            HeapType::NoExtern => WasmHeapType::NoExtern,
            HeapType::Func => WasmHeapType::Func,
            HeapType::ConcreteFunc(name) => WasmHeapType::ConcreteFunc(
                EngineOrModuleTypeIndex::Engine(name.index),
            ),
            HeapType::NoFunc => WasmHeapType::NoFunc,
            HeapType::Any => WasmHeapType::Any,
            HeapType::Eq => WasmHeapType::Eq,
            HeapType::I31 => WasmHeapType::I31,
            HeapType::Array => WasmHeapType::Array,
            HeapType::ConcreteArray(name) => WasmHeapType::ConcreteArray(
                EngineOrModuleTypeIndex::Engine(name.index),
            ),
            HeapType::Struct => WasmHeapType::Struct,
            HeapType::ConcreteStruct(name) => WasmHeapType::ConcreteStruct(
                EngineOrModuleTypeIndex::Engine(name.index),
            ),
            HeapType::Exn => WasmHeapType::Exn,
            HeapType::ConcreteExn(name) => WasmHeapType::ConcreteExn(
                EngineOrModuleTypeIndex::Engine(name.index),
            ),
            HeapType::ConcreteCont(name) => WasmHeapType::ConcreteCont(
                EngineOrModuleTypeIndex::Engine(name.index),
            ),
            HeapType::Cont => WasmHeapType::Cont,
            HeapType::NoCont => WasmHeapType::NoCont,
            HeapType::None => WasmHeapType::None,
            HeapType::NoExn => WasmHeapType::NoExn,
        }
    }

    /// The type that is this type data, where the registered type that it names, if any, is one of the engine with this
    /// number. Its index is an engine index.
    pub fn from_wasm(engine: u64, ty: &WasmHeapType) -> HeapType
        requires { AreEngineIndices (indices_of (kinded_heap ty.now)) }
        ensures wasm { heap_to_wasm result ≡ ty.now }
        ensures engine { IsOfEngine engine (heap_engine result) }
        ensures only { (h : Heap) → heap_to_wasm h ≡ ty.now → IsOfEngine engine (heap_engine h) → result ≡ h }
    {
        match *ty {
            WasmHeapType::Extern => HeapType::Extern,
            WasmHeapType::NoExtern => HeapType::NoExtern,
            WasmHeapType::Func => HeapType::Func,
            WasmHeapType::ConcreteFunc(index) => {
                let index = shared(index);
                FuncName { engine, index }.into()
            }
            WasmHeapType::NoFunc => HeapType::NoFunc,
            WasmHeapType::Any => HeapType::Any,
            WasmHeapType::Eq => HeapType::Eq,
            WasmHeapType::I31 => HeapType::I31,
            WasmHeapType::Array => HeapType::Array,
            WasmHeapType::ConcreteArray(index) => {
                let index = shared(index);
                ArrayName { engine, index }.into()
            }
            WasmHeapType::Struct => HeapType::Struct,
            WasmHeapType::ConcreteStruct(index) => {
                let index = shared(index);
                StructName { engine, index }.into()
            }
            WasmHeapType::Exn => HeapType::Exn,
            WasmHeapType::ConcreteExn(index) => {
                let index = shared(index);
                ExnName { engine, index }.into()
            }
            WasmHeapType::ConcreteCont(index) => {
                let index = shared(index);
                ContName { engine, index }.into()
            }
            WasmHeapType::Cont => HeapType::Cont,
            WasmHeapType::NoCont => HeapType::NoCont,
            WasmHeapType::None => HeapType::None,
            WasmHeapType::NoExn => HeapType::NoExn,
        }
    }
}
