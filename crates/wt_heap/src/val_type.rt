//! Value types: numbers, vectors and references, and what a value of a type is before any is given.

ghost use Rattle.std.specs.Prelude.{◌≡◌, ◌↔◌, ◌⊎◌, IsTrue, IsSome, Some, is_some, is_none};
ghost use Rattle.std.specs.Option.{option_copied};
ghost use Rattle.wt_tree.specs.Kinds.{kinded_val, indices_of};
ghost use Rattle.wt_heap.specs.declared.val_type.ValType.{ValType as Value};
ghost use Rattle.wt_heap.specs.declared.val_type.ValType.TheVariants as val;
ghost use Rattle.wt_heap.specs.Engines.{val_engine, IsOfEngine, AreOfOneEngine, AreEngineIndices};
ghost use Rattle.wt_heap.specs.Hierarchies.{default_of, is_non_nullable};
ghost use Rattle.wt_heap.specs.Matches.{ValIsKnown, val_matches, both_ways};
ghost use Rattle.wt_heap.specs.Parts.{reference_of, is_number};
ghost use Rattle.wt_heap.specs.ToWasm.{val_to_wasm};

use crate::hierarchy::HeapTopType;
use crate::ref_type::RefType;
use wt_env::types::WasmValType;
use wt_tree::fit::fit_val;
use wt_tree::supers::Supers;

/// A value type (WebAssembly 3.0, "Value Types").
///
/// `==` compares contents. Whether two are one type is asked by `ValType::eq`, and whether one may stand for the
/// other by `ValType::matches`.
#[derive(Clone, Copy, Debug, PartialEq, Eq, Hash)]
pub enum ValType {
    /// A whole number of 32 bits.
    I32,
    /// A whole number of 64 bits.
    I64,
    /// A floating-point number of 32 bits.
    F32,
    /// A floating-point number of 64 bits.
    F64,
    /// A vector of 128 bits.
    V128,
    /// A reference.
    Ref(RefType),
}

/// The default value of a value type (WebAssembly 3.0, "Default Values"): a number or a vector is zero, and a reference
/// is null.
#[derive(Clone, Copy, Debug, PartialEq, Eq, Hash)]
pub enum ValDefault {
    I32,
    I64,
    F32,
    F64,
    V128,
    /// The null reference of the hierarchy with this top.
    Null(HeapTopType),
}

impl From<RefType> for ValType {
    ghost from_gives = { λ reference value. value ≡ val.Ref reference };

    fn from(reference: RefType) -> ValType {
        ValType::Ref(reference)
    }
}

impl ValType {
    /// `externref`, which is `(ref null extern)`.
    pub const EXTERNREF: ValType = ValType::Ref(RefType::EXTERNREF);

    /// `nullexternref`, which is `(ref null noextern)`.
    pub const NULLEXTERNREF: ValType = ValType::Ref(RefType::NULLEXTERNREF);

    /// `funcref`, which is `(ref null func)`.
    pub const FUNCREF: ValType = ValType::Ref(RefType::FUNCREF);

    /// `nullfuncref`, which is `(ref null nofunc)`.
    pub const NULLFUNCREF: ValType = ValType::Ref(RefType::NULLFUNCREF);

    /// `anyref`, which is `(ref null any)`.
    pub const ANYREF: ValType = ValType::Ref(RefType::ANYREF);

    /// `eqref`, which is `(ref null eq)`.
    pub const EQREF: ValType = ValType::Ref(RefType::EQREF);

    /// `i31ref`, which is `(ref null i31)`.
    pub const I31REF: ValType = ValType::Ref(RefType::I31REF);

    /// `arrayref`, which is `(ref null array)`.
    pub const ARRAYREF: ValType = ValType::Ref(RefType::ARRAYREF);

    /// `structref`, which is `(ref null struct)`.
    pub const STRUCTREF: ValType = ValType::Ref(RefType::STRUCTREF);

    /// `nullref`, which is `(ref null none)`.
    pub const NULLREF: ValType = ValType::Ref(RefType::NULLREF);

    /// `contref`, which is `(ref null cont)`.
    pub const CONTREF: ValType = ValType::Ref(RefType::CONTREF);

    /// `nullcontref`, which is `(ref null nocont)`.
    pub const NULLCONTREF: ValType = ValType::Ref(RefType::NULLCONTREF);

    /// `exnref`, which is `(ref null exn)`.
    pub const EXNREF: ValType = ValType::Ref(RefType::EXNREF);

    /// `nullexnref`, which is `(ref null noexn)`.
    pub const NULLEXNREF: ValType = ValType::Ref(RefType::NULLEXNREF);

    /// Whether it is a number: `i32`, `i64`, `f32` or `f64`.
    pub fn is_num(&self) -> bool
        ensures { result ≡ is_number self.now }
    {
        matches!(
            self,
            ValType::I32 | ValType::I64 | ValType::F32 | ValType::F64
        )
    }

    /// Whether it is `i32`.
    pub fn is_i32(&self) -> bool
        ensures { IsTrue result ↔ (self.now ≡ val.I32) }
    {
        matches!(self, ValType::I32)
    }

    /// Whether it is `i64`.
    pub fn is_i64(&self) -> bool
        ensures { IsTrue result ↔ (self.now ≡ val.I64) }
    {
        matches!(self, ValType::I64)
    }

    /// Whether it is `f32`.
    pub fn is_f32(&self) -> bool
        ensures { IsTrue result ↔ (self.now ≡ val.F32) }
    {
        matches!(self, ValType::F32)
    }

    /// Whether it is `f64`.
    pub fn is_f64(&self) -> bool
        ensures { IsTrue result ↔ (self.now ≡ val.F64) }
    {
        matches!(self, ValType::F64)
    }

    /// Whether it is `v128`.
    pub fn is_v128(&self) -> bool
        ensures { IsTrue result ↔ (self.now ≡ val.V128) }
    {
        matches!(self, ValType::V128)
    }

    /// Whether it is a reference type.
    pub fn is_ref(&self) -> bool
        ensures { result ≡ is_some (reference_of self.now) }
    {
        matches!(self, ValType::Ref(_))
    }

    /// Whether it is exactly `externref`.
    pub fn is_externref(&self) -> bool
        ensures { IsTrue result ↔ (self.now ≡ ValType.EXTERNREF) }
    {
        *self == ValType::EXTERNREF
    }

    /// Whether it is exactly `funcref`.
    pub fn is_funcref(&self) -> bool
        ensures { IsTrue result ↔ (self.now ≡ ValType.FUNCREF) }
    {
        *self == ValType::FUNCREF
    }

    /// Whether it is exactly `anyref`.
    pub fn is_anyref(&self) -> bool
        ensures { IsTrue result ↔ (self.now ≡ ValType.ANYREF) }
    {
        *self == ValType::ANYREF
    }

    /// Whether it is exactly `contref`.
    pub fn is_contref(&self) -> bool
        ensures { IsTrue result ↔ (self.now ≡ ValType.CONTREF) }
    {
        *self == ValType::CONTREF
    }

    /// The reference type that it is, if it is one.
    pub fn as_ref(&self) -> Option<&RefType>
        ensures { option_copied result ≡ reference_of self.now }
    {
        match self {
            ValType::Ref(reference) => Some(reference),
            _ => None,
        }
    }

    /// The reference type that it is.
    pub fn unwrap_ref(&self) -> &RefType
        requires { IsSome (reference_of self.now) }
        ensures { Some result.now ≡ reference_of self.now }
    {
        self.as_ref().unwrap()
    }

    /// Whether it matches the other, and so may stand for it (WebAssembly 3.0, "Matching", "Value Types"): a number or a
    /// vector matches itself alone, and references match by `RefType::matches`. What the two name is of one engine, and
    /// `supers` has its closed tree.
    pub fn matches<S: Supers>(&self, other: &ValType, supers: &S) -> bool
        requires known { ValIsKnown (S.types supers.now) self.now }
        requires other_known { ValIsKnown (S.types supers.now) other.now }
        requires one_engine { AreOfOneEngine (val_engine self.now) (val_engine other.now) }
        ensures { result ≡ val_matches (S.types supers.now) self.now other.now }
    {
        fit_val(&self.to_wasm(), &other.to_wasm(), supers)
    }

    /// Whether the two are one value type: each matches the other. The conditions are those of `matches`.
    pub fn eq<S: Supers>(a: &ValType, b: &ValType, supers: &S) -> bool
        requires known { ValIsKnown (S.types supers.now) a.now }
        requires other_known { ValIsKnown (S.types supers.now) b.now }
        requires one_engine { AreOfOneEngine (val_engine a.now) (val_engine b.now) }
        ensures { result ≡ both_ways (val_matches (S.types supers.now)) a.now b.now }
    {
        fit_val(&a.to_wasm(), &b.to_wasm(), supers) && fit_val(&b.to_wasm(), &a.to_wasm(), supers)
    }

    /// What a value of the type is before any is given (WebAssembly 3.0, "Default Values"). `None` exactly for a
    /// reference that isn't nullable.
    pub fn default_value(&self) -> Option<ValDefault>
        ensures value { result ≡ default_of self.now }
        ensures none { is_none result ≡ is_non_nullable self.now }
    {
        match self {
            ValType::I32 => Some(ValDefault::I32),
            ValType::I64 => Some(ValDefault::I64),
            ValType::F32 => Some(ValDefault::F32),
            ValType::F64 => Some(ValDefault::F64),
            ValType::V128 => Some(ValDefault::V128),
            ValType::Ref(reference) if reference.is_nullable() => {
                Some(ValDefault::Null(reference.heap_type().top()))
            }
            ValType::Ref(_) => None,
        }
    }

    /// The same as type data, with a registered type by its index.
    pub fn to_wasm(&self) -> WasmValType
        ensures { result ≡ val_to_wasm self.now }
    {
        match self {
            ValType::I32 => WasmValType::I32,
            ValType::I64 => WasmValType::I64,
            ValType::F32 => WasmValType::F32,
            ValType::F64 => WasmValType::F64,
            ValType::V128 => WasmValType::V128,
            ValType::Ref(reference) => WasmValType::Ref(reference.to_wasm()),
        }
    }

    /// The type that is this type data, where the registered type that it names, if any, is one of the engine with this
    /// number. Its index is an engine index.
    pub fn from_wasm(engine: u64, ty: &WasmValType) -> ValType
        requires { AreEngineIndices (indices_of (kinded_val ty.now)) }
        ensures wasm { val_to_wasm result ≡ ty.now }
        ensures engine { IsOfEngine engine (val_engine result) }
        ensures only { (v : Value) → val_to_wasm v ≡ ty.now → IsOfEngine engine (val_engine v) → result ≡ v }
    {
        match ty {
            WasmValType::I32 => ValType::I32,
            WasmValType::I64 => ValType::I64,
            WasmValType::F32 => ValType::F32,
            WasmValType::F64 => ValType::F64,
            WasmValType::V128 => ValType::V128,
            WasmValType::Ref(reference) => ValType::Ref(RefType::from_wasm(engine, reference)),
        }
    }
}
