//! The order of abstract heap types.

ghost use Rattle.std.specs.Prelude.{◌≡◌, false, []};
ghost use Rattle.wt_tree.specs.Kinds.{kinded_heap};

use super::*;
use crate::plain_supers::PlainSupers;
use std::test::Fail;
use wt_env::seq::Seq;

const WORDS: [WasmHeapType; 14] = [
    WasmHeapType::Extern,
    WasmHeapType::NoExtern,
    WasmHeapType::Func,
    WasmHeapType::NoFunc,
    WasmHeapType::Any,
    WasmHeapType::Eq,
    WasmHeapType::I31,
    WasmHeapType::Array,
    WasmHeapType::Struct,
    WasmHeapType::None,
    WasmHeapType::Cont,
    WasmHeapType::NoCont,
    WasmHeapType::Exn,
    WasmHeapType::NoExn,
];

/// What each abstract heap type matches besides itself (WebAssembly 3.0, "Matching", "Heap Types").
const BELOW: [(WasmHeapType, WasmHeapType); 16] = [
    (WasmHeapType::NoExtern, WasmHeapType::Extern),
    (WasmHeapType::NoFunc, WasmHeapType::Func),
    (WasmHeapType::Eq, WasmHeapType::Any),
    (WasmHeapType::I31, WasmHeapType::Eq),
    (WasmHeapType::I31, WasmHeapType::Any),
    (WasmHeapType::Array, WasmHeapType::Eq),
    (WasmHeapType::Array, WasmHeapType::Any),
    (WasmHeapType::Struct, WasmHeapType::Eq),
    (WasmHeapType::Struct, WasmHeapType::Any),
    (WasmHeapType::None, WasmHeapType::Array),
    (WasmHeapType::None, WasmHeapType::Struct),
    (WasmHeapType::None, WasmHeapType::I31),
    (WasmHeapType::None, WasmHeapType::Eq),
    (WasmHeapType::None, WasmHeapType::Any),
    (WasmHeapType::NoCont, WasmHeapType::Cont),
    (WasmHeapType::NoExn, WasmHeapType::Exn),
];

/// Whether the heap type names a type by its index.
fn is_concrete(heap: WasmHeapType) -> bool
    ensures { result ≡ false → kinded_heap heap ≡ [] }
{
    matches!(
        heap,
        WasmHeapType::ConcreteFunc(_)
            | WasmHeapType::ConcreteArray(_)
            | WasmHeapType::ConcreteStruct(_)
            | WasmHeapType::ConcreteExn(_)
            | WasmHeapType::ConcreteCont(_)
    )
}

fn nullable(heap_type: WasmHeapType) -> WasmRefType
    ensures { result.heap_type ≡ heap_type }
{
    WasmRefType {
        nullable: true,
        heap_type,
    }
}

/// Whether an abstract heap type is below another; `None` where one is concrete.
#[tactic(auto, using(crate::proofs::KnownParts::known_none))]
fn is_below(sub: WasmHeapType, sup: WasmHeapType, supers: &PlainSupers) -> Option<bool> {
    if is_concrete(sub) || is_concrete(sup) {
        return None;
    }
    Some(fit_ref(&nullable(sub), &nullable(sup), supers))
}

#[test]
fn abstract_heap_types_are_ordered(rt: HostRuntime) -> Result<(), Fail> {
    let supers = PlainSupers::new(Seq::new(rt.alloc()));
    for sub in WORDS {
        for sup in WORDS {
            let matches = sub == sup || BELOW.contains(&(sub, sup));
            assert_eq!(rt; is_below(sub, sup, &supers), Some(matches));
        }
    }
    Ok(())
}
