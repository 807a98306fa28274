//! Reference types: a heap type, and whether the reference may be null.

ghost use Rattle.std.specs.Prelude.{◌≡◌};
ghost use Rattle.wt_tree.specs.Kinds.{kinded_heap, indices_of};
ghost use Rattle.wt_heap.specs.declared.ref_type.RefType.{RefType as Reference};
ghost use Rattle.wt_heap.specs.Engines.{ref_engine, IsOfEngine, AreOfOneEngine, AreEngineIndices};
ghost use Rattle.wt_heap.specs.Matches.{RefIsKnown, ref_matches, both_ways};
ghost use Rattle.wt_heap.specs.ToWasm.{ref_to_wasm};

use crate::heap_type::HeapType;
use wt_env::types::WasmRefType;
use wt_tree::fit::fit_ref;
use wt_tree::supers::Supers;

/// A reference type (WebAssembly 3.0, "Reference Types").
///
/// `==` compares contents. Whether two are one type is asked by `RefType::eq`, and whether one may stand for the
/// other by `RefType::matches`.
#[derive(Clone, Copy, Debug, PartialEq, Eq, Hash)]
pub struct RefType {
    is_nullable: bool,
    heap_type: HeapType,
}

impl RefType {
    /// `externref`, which is `(ref null extern)`.
    pub const EXTERNREF: RefType = RefType {
        is_nullable: true,
        heap_type: HeapType::Extern,
    };

    /// `nullexternref`, which is `(ref null noextern)`.
    pub const NULLEXTERNREF: RefType = RefType {
        is_nullable: true,
        heap_type: HeapType::NoExtern,
    };

    /// `funcref`, which is `(ref null func)`.
    pub const FUNCREF: RefType = RefType {
        is_nullable: true,
        heap_type: HeapType::Func,
    };

    /// `nullfuncref`, which is `(ref null nofunc)`.
    pub const NULLFUNCREF: RefType = RefType {
        is_nullable: true,
        heap_type: HeapType::NoFunc,
    };

    /// `anyref`, which is `(ref null any)`.
    pub const ANYREF: RefType = RefType {
        is_nullable: true,
        heap_type: HeapType::Any,
    };

    /// `eqref`, which is `(ref null eq)`.
    pub const EQREF: RefType = RefType {
        is_nullable: true,
        heap_type: HeapType::Eq,
    };

    /// `i31ref`, which is `(ref null i31)`.
    pub const I31REF: RefType = RefType {
        is_nullable: true,
        heap_type: HeapType::I31,
    };

    /// `arrayref`, which is `(ref null array)`.
    pub const ARRAYREF: RefType = RefType {
        is_nullable: true,
        heap_type: HeapType::Array,
    };

    /// `structref`, which is `(ref null struct)`.
    pub const STRUCTREF: RefType = RefType {
        is_nullable: true,
        heap_type: HeapType::Struct,
    };

    /// `nullref`, which is `(ref null none)`.
    pub const NULLREF: RefType = RefType {
        is_nullable: true,
        heap_type: HeapType::None,
    };

    /// `contref`, which is `(ref null cont)`.
    pub const CONTREF: RefType = RefType {
        is_nullable: true,
        heap_type: HeapType::Cont,
    };

    /// `nullcontref`, which is `(ref null nocont)`.
    pub const NULLCONTREF: RefType = RefType {
        is_nullable: true,
        heap_type: HeapType::NoCont,
    };

    /// `exnref`, which is `(ref null exn)`.
    pub const EXNREF: RefType = RefType {
        is_nullable: true,
        heap_type: HeapType::Exn,
    };

    /// `nullexnref`, which is `(ref null noexn)`.
    pub const NULLEXNREF: RefType = RefType {
        is_nullable: true,
        heap_type: HeapType::NoExn,
    };

    /// The type of references to this heap type, null among them or not.
    pub fn new(is_nullable: bool, heap_type: HeapType) -> RefType
        ensures is_nullable { result.is_nullable ≡ is_nullable }
        ensures heap_type { result.heap_type ≡ heap_type }
    {
        RefType {
            is_nullable,
            heap_type,
        }
    }

    /// Whether the reference may be null.
    pub fn is_nullable(&self) -> bool
        ensures { result ≡ self.now.is_nullable }
    {
        self.is_nullable
    }

    /// What the reference refers to.
    pub fn heap_type(&self) -> &HeapType
        ensures { result.now ≡ self.now.heap_type }
    {
        &self.heap_type
    }

    /// Whether it matches the other, and so may stand for it (WebAssembly 3.0, "Matching", "Reference Types"): it isn't
    /// nullable or the other is, and its heap type matches the other's. What the two name is of one engine, and `supers`
    /// has its closed tree.
    pub fn matches<S: Supers>(&self, other: &RefType, supers: &S) -> bool
        requires known { RefIsKnown (S.types supers.now) self.now }
        requires other_known { RefIsKnown (S.types supers.now) other.now }
        requires one_engine { AreOfOneEngine (ref_engine self.now) (ref_engine other.now) }
        ensures { result ≡ ref_matches (S.types supers.now) self.now other.now }
    {
        fit_ref(&self.to_wasm(), &other.to_wasm(), supers)
    }

    /// Whether the two are one reference type: each matches the other. The conditions are those of `matches`.
    pub fn eq<S: Supers>(a: &RefType, b: &RefType, supers: &S) -> bool
        requires known { RefIsKnown (S.types supers.now) a.now }
        requires other_known { RefIsKnown (S.types supers.now) b.now }
        requires one_engine { AreOfOneEngine (ref_engine a.now) (ref_engine b.now) }
        ensures { result ≡ both_ways (ref_matches (S.types supers.now)) a.now b.now }
    {
        fit_ref(&a.to_wasm(), &b.to_wasm(), supers) && fit_ref(&b.to_wasm(), &a.to_wasm(), supers)
    }

    /// The same as type data, with a registered type by its index.
    pub fn to_wasm(&self) -> WasmRefType
        ensures { result ≡ ref_to_wasm self.now }
    {
        WasmRefType {
            nullable: self.is_nullable,
            heap_type: self.heap_type.to_wasm(),
        }
    }

    /// The type that is this type data, where the registered type that it names, if any, is one of the engine with this
    /// number. Its index is an engine index.
    pub fn from_wasm(engine: u64, ty: &WasmRefType) -> RefType
        requires { AreEngineIndices (indices_of (kinded_heap ty.now.heap_type)) }
        ensures wasm { ref_to_wasm result ≡ ty.now }
        ensures engine { IsOfEngine engine (ref_engine result) }
        ensures only { (r : Reference) → ref_to_wasm r ≡ ty.now → IsOfEngine engine (ref_engine r) → result ≡ r }
    {
        RefType {
            is_nullable: ty.nullable,
            heap_type: HeapType::from_wasm(engine, &ty.heap_type),
        }
    }
}
