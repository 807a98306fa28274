//! A law of import checks: they match heap types as an embedder's types are matched.

ghost use Rattle.std.specs.Prelude.{◌≡◌, is_ok};
ghost use Rattle.wt_heap.specs.Engines.{heap_engine, AreOfOneEngine};
ghost use Rattle.wt_heap.specs.Matches.{HeapIsKnown, heap_matches};
ghost use Rattle.wt_heap.specs.ToWasm.{heap_to_wasm};
ghost use Rattle.wt_matching.specs.Import.{constant_global, entity_unfit, answer};

use crate::matching::entity_ty;
use wt_env::types::{WasmRefType, WasmValType};
use wt_extern::entity::{EntityType, Global};
use wt_heap::heap_type::HeapType;
use wt_tree::supers::Supers;

/// Whether one heap type matches another, and whether a constant global of references to it fits an import of one of
/// references to the other.
#[derive(Clone, Copy, Debug, PartialEq, Eq)]
pub struct HeapAnswers {
    pub matches: bool,
    pub fits: bool,
}

/// A constant global of references to this heap type, null among them.
fn global(heap: &HeapType) -> EntityType
    ensures { result ≡ constant_global (heap_to_wasm heap.now) }
{
    EntityType::Global(Global {
        wasm_ty: WasmValType::Ref(WasmRefType {
            nullable: true,
            heap_type: heap.to_wasm(),
        }),
        mutability: false,
    })
}

/// A constant global of references to a heap type fits an import of one of references to another exactly where the heap
/// type matches the other.
#[tactic(auto, using(crate::proofs::ConstantGlobals::is_fit_exactly))]
pub fn one_heap_order<S: Supers>(supers: &S, expected: &HeapType, actual: &HeapType) -> HeapAnswers
    requires expected { HeapIsKnown (S.types supers.now) expected.now }
    requires actual { HeapIsKnown (S.types supers.now) actual.now }
    requires one_engine { AreOfOneEngine (heap_engine actual.now) (heap_engine expected.now) }
    ensures matches { result.matches ≡ heap_matches (S.types supers.now) actual.now expected.now }
    ensures fits { result.fits ≡ is_ok (answer (entity_unfit (S.types supers.now) (constant_global (heap_to_wasm expected.now)) (constant_global (heap_to_wasm actual.now)))) }
    ensures law { result.fits ≡ result.matches }
{
    HeapAnswers {
        matches: actual.matches(expected, supers),
        fits: entity_ty(supers, &global(expected), &global(actual)).is_ok(),
    }
}
