//! The tops and bottoms of the hierarchies of heap types.

ghost use Rattle.std.specs.Prelude.{◌≡◌};
ghost use Rattle.wt_env.specs.Erasure.{is_top as top_test};
ghost use Rattle.wt_tree.specs.Fit as fits;
ghost use Rattle.wt_heap.specs.Hierarchies.{hierarchy_top, bottom_under};
ghost use Rattle.wt_heap.specs.ToWasm.{heap_to_wasm};

use crate::heap_type::HeapType;

/// A heap type that is above all others of its hierarchy (WebAssembly 3.0, "Heap Types"; continuations after wasmtime).
#[derive(Clone, Copy, Debug, PartialEq, Eq, Hash)]
pub enum HeapTopType {
    Extern,
    Any,
    Func,
    Exn,
    Cont,
}

/// A heap type that is below all others of its hierarchy, and has no reference but null (WebAssembly 3.0, "Heap Types";
/// continuations after wasmtime).
#[derive(Clone, Copy, Debug, PartialEq, Eq, Hash)]
pub enum HeapBottomType {
    NoExtern,
    None,
    NoFunc,
    NoExn,
    NoCont,
}

impl From<HeapTopType> for HeapType {
    ghost use Rattle.std.specs.Prelude.{◌≡◌};
    ghost use Rattle.wt_heap.specs.Hierarchies.{heap_of_top};

    ghost from_gives = { λ top heap. heap ≡ heap_of_top top };

    fn from(top: HeapTopType) -> HeapType {
        match top {
            HeapTopType::Extern => HeapType::Extern,
            HeapTopType::Any => HeapType::Any,
            HeapTopType::Func => HeapType::Func,
            HeapTopType::Exn => HeapType::Exn,
            HeapTopType::Cont => HeapType::Cont,
        }
    }
}

impl From<HeapBottomType> for HeapType {
    ghost use Rattle.std.specs.Prelude.{◌≡◌};
    ghost use Rattle.wt_heap.specs.Hierarchies.{heap_of_bottom};

    ghost from_gives = { λ bottom heap. heap ≡ heap_of_bottom bottom };

    fn from(bottom: HeapBottomType) -> HeapType {
        match bottom {
            HeapBottomType::NoExtern => HeapType::NoExtern,
            HeapBottomType::None => HeapType::None,
            HeapBottomType::NoFunc => HeapType::NoFunc,
            HeapBottomType::NoExn => HeapType::NoExn,
            HeapBottomType::NoCont => HeapType::NoCont,
        }
    }
}

impl HeapType {
    /// The top of its hierarchy.
    pub fn top(&self) -> HeapTopType
        ensures { result ≡ hierarchy_top self.now }
    {
        match self {
            HeapType::Extern | HeapType::NoExtern => HeapTopType::Extern,
            HeapType::Func | HeapType::ConcreteFunc(_) | HeapType::NoFunc => HeapTopType::Func,
            HeapType::Any
            | HeapType::Eq
            | HeapType::I31
            | HeapType::Array
            | HeapType::ConcreteArray(_)
            | HeapType::Struct
            | HeapType::ConcreteStruct(_)
            | HeapType::None => HeapTopType::Any,
            HeapType::Cont | HeapType::ConcreteCont(_) | HeapType::NoCont => HeapTopType::Cont,
            HeapType::Exn | HeapType::ConcreteExn(_) | HeapType::NoExn => HeapTopType::Exn,
        }
    }

    /// Whether it is the top of its hierarchy.
    pub fn is_top(&self) -> bool
        ensures { result ≡ top_test (heap_to_wasm self.now) }
    {
        matches!(
            self,
            HeapType::Extern | HeapType::Func | HeapType::Any | HeapType::Cont | HeapType::Exn
        )
    }

    /// The bottom of its hierarchy.
    pub fn bottom(&self) -> HeapBottomType
        ensures { result ≡ bottom_under (hierarchy_top self.now) }
    {
        match self.top() {
            HeapTopType::Extern => HeapBottomType::NoExtern,
            HeapTopType::Any => HeapBottomType::None,
            HeapTopType::Func => HeapBottomType::NoFunc,
            HeapTopType::Exn => HeapBottomType::NoExn,
            HeapTopType::Cont => HeapBottomType::NoCont,
        }
    }

    /// Whether it is the bottom of its hierarchy.
    pub fn is_bottom(&self) -> bool
        ensures { result ≡ fits.is_bottom (heap_to_wasm self.now) }
    {
        matches!(
            self,
            HeapType::NoExtern
                | HeapType::NoFunc
                | HeapType::None
                | HeapType::NoCont
                | HeapType::NoExn
        )
    }
}
