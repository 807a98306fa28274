//! Laws of matching, and of type data: facts that follow for whatever knows closed trees by index, each carried by the
//! calls that it is about.

ghost use Rattle.std.specs.Prelude.{◌≡◌, ◌↔◌, IsTrue, IsFalse};
ghost use Rattle.wt_tree.specs.Subtyping.{IsTypeMap};
ghost use Rattle.wt_heap.specs.Engines.{heap_engine, ref_engine, val_engine, storage_engine, field_engine, AreOfOneEngine, IsOfEngine};
ghost use Rattle.wt_heap.specs.Hierarchies.{heap_of_top, heap_of_bottom, hierarchy_top, bottom_under};
ghost use Rattle.wt_heap.specs.Matches.{HeapIsKnown, RefIsKnown, ValIsKnown, StorageIsKnown, FieldIsKnown, heap_matches, ref_matches, val_matches, storage_matches, field_matches, both_ways};

use wt_heap::field_type::FieldType;
use wt_heap::heap_type::HeapType;
use wt_heap::ref_type::RefType;
use wt_heap::storage_type::StorageType;
use wt_heap::val_type::ValType;
use wt_tree::laws::ThreeAnswers;
use wt_tree::supers::Supers;

/// Whether a heap type matches the top of its hierarchy, and is matched by the bottom.
#[derive(Clone, Copy, Debug, PartialEq, Eq)]
pub struct Bounds {
    pub below_top: bool,
    pub above_bottom: bool,
}

/// Whether a heap type matches another, whether a reference to it that isn't nullable matches a nullable one to the
/// other, and whether a nullable one matches one that isn't.
#[derive(Clone, Copy, Debug, PartialEq, Eq)]
pub struct NullAnswers {
    pub heap_types: bool,
    pub to_nullable: bool,
    pub from_nullable: bool,
}

/// Each heap type matches itself.
pub fn heap_reflexive<S: Supers>(supers: &S, heap: &HeapType) -> bool
    requires known { HeapIsKnown (S.types supers.now) heap.now }
    ensures answer { result ≡ heap_matches (S.types supers.now) heap.now heap.now }
    ensures law { IsTrue result }
{
    heap.matches(heap, supers)
}

/// Where a heap type matches a second, and that a third, the first matches the third.
pub fn heap_transitive<S: Supers>(
    supers: &S,
    first: &HeapType,
    second: &HeapType,
    third: &HeapType,
) -> ThreeAnswers
    requires first { HeapIsKnown (S.types supers.now) first.now }
    requires second { HeapIsKnown (S.types supers.now) second.now }
    requires third { HeapIsKnown (S.types supers.now) third.now }
    requires first_second_engine { AreOfOneEngine (heap_engine first.now) (heap_engine second.now) }
    requires second_third_engine { AreOfOneEngine (heap_engine second.now) (heap_engine third.now) }
    requires first_third_engine { AreOfOneEngine (heap_engine first.now) (heap_engine third.now) }
    ensures first_second { result.first_second ≡ heap_matches (S.types supers.now) first.now second.now }
    ensures second_third { result.second_third ≡ heap_matches (S.types supers.now) second.now third.now }
    ensures first_third { result.first_third ≡ heap_matches (S.types supers.now) first.now third.now }
    ensures law { IsTrue result.first_second → IsTrue result.second_third → IsTrue result.first_third }
{
    ThreeAnswers {
        first_second: first.matches(second, supers),
        second_third: second.matches(third, supers),
        first_third: first.matches(third, supers),
    }
}

/// Each heap type matches the top of its hierarchy, and is matched by the bottom.
pub fn heap_bounded<S: Supers>(supers: &S, heap: &HeapType) -> Bounds
    requires known { HeapIsKnown (S.types supers.now) heap.now }
    ensures below_top { result.below_top ≡ heap_matches (S.types supers.now) heap.now (heap_of_top (hierarchy_top heap.now)) }
    ensures above_bottom { result.above_bottom ≡ heap_matches (S.types supers.now) (heap_of_bottom (bottom_under (hierarchy_top heap.now))) heap.now }
    ensures top_law { IsTrue result.below_top }
    ensures bottom_law { IsTrue result.above_bottom }
{
    let top = HeapType::from(heap.top());
    let bottom = HeapType::from(heap.bottom());
    Bounds {
        below_top: heap.matches(&top, supers),
        above_bottom: bottom.matches(heap, supers),
    }
}

/// Where types are known by their indices, each type by one, two heap types are one exactly where their contents are
/// equal.
pub fn heap_equal<S: Supers>(supers: &S, first: &HeapType, second: &HeapType) -> bool
    requires first { HeapIsKnown (S.types supers.now) first.now }
    requires second { HeapIsKnown (S.types supers.now) second.now }
    requires one_engine { AreOfOneEngine (heap_engine first.now) (heap_engine second.now) }
    requires map { IsTypeMap (S.types supers.now) }
    ensures answer { result ≡ both_ways (heap_matches (S.types supers.now)) first.now second.now }
    ensures law { IsTrue result ↔ (first.now ≡ second.now) }
{
    HeapType::eq(first, second, supers)
}

/// Where types are known by their indices, each type by one, two reference types are one exactly where their contents are
/// equal.
pub fn ref_equal<S: Supers>(supers: &S, first: &RefType, second: &RefType) -> bool
    requires first { RefIsKnown (S.types supers.now) first.now }
    requires second { RefIsKnown (S.types supers.now) second.now }
    requires one_engine { AreOfOneEngine (ref_engine first.now) (ref_engine second.now) }
    requires map { IsTypeMap (S.types supers.now) }
    ensures answer { result ≡ both_ways (ref_matches (S.types supers.now)) first.now second.now }
    ensures law { IsTrue result ↔ (first.now ≡ second.now) }
{
    RefType::eq(first, second, supers)
}

/// Where types are known by their indices, each type by one, two value types are one exactly where their contents are
/// equal.
pub fn val_equal<S: Supers>(supers: &S, first: &ValType, second: &ValType) -> bool
    requires first { ValIsKnown (S.types supers.now) first.now }
    requires second { ValIsKnown (S.types supers.now) second.now }
    requires one_engine { AreOfOneEngine (val_engine first.now) (val_engine second.now) }
    requires map { IsTypeMap (S.types supers.now) }
    ensures answer { result ≡ both_ways (val_matches (S.types supers.now)) first.now second.now }
    ensures law { IsTrue result ↔ (first.now ≡ second.now) }
{
    ValType::eq(first, second, supers)
}

/// Where types are known by their indices, each type by one, two storage types are one exactly where their contents are
/// equal.
pub fn storage_equal<S: Supers>(supers: &S, first: &StorageType, second: &StorageType) -> bool
    requires first { StorageIsKnown (S.types supers.now) first.now }
    requires second { StorageIsKnown (S.types supers.now) second.now }
    requires one_engine { AreOfOneEngine (storage_engine first.now) (storage_engine second.now) }
    requires map { IsTypeMap (S.types supers.now) }
    ensures answer { result ≡ both_ways (storage_matches (S.types supers.now)) first.now second.now }
    ensures law { IsTrue result ↔ (first.now ≡ second.now) }
{
    StorageType::eq(first, second, supers)
}

/// Where types are known by their indices, each type by one, two field types are one exactly where their contents are
/// equal.
pub fn field_equal<S: Supers>(supers: &S, first: &FieldType, second: &FieldType) -> bool
    requires first { FieldIsKnown (S.types supers.now) first.now }
    requires second { FieldIsKnown (S.types supers.now) second.now }
    requires one_engine { AreOfOneEngine (field_engine first.now) (field_engine second.now) }
    requires map { IsTypeMap (S.types supers.now) }
    ensures answer { result ≡ both_ways (field_matches (S.types supers.now)) first.now second.now }
    ensures law { IsTrue result ↔ (first.now ≡ second.now) }
{
    FieldType::eq(first, second, supers)
}

/// Each reference type matches itself.
pub fn ref_reflexive<S: Supers>(supers: &S, reference: &RefType) -> bool
    requires known { RefIsKnown (S.types supers.now) reference.now }
    ensures answer { result ≡ ref_matches (S.types supers.now) reference.now reference.now }
    ensures law { IsTrue result }
{
    reference.matches(reference, supers)
}

/// Where a reference type matches a second, and that a third, the first matches the third.
pub fn ref_transitive<S: Supers>(
    supers: &S,
    first: &RefType,
    second: &RefType,
    third: &RefType,
) -> ThreeAnswers
    requires first { RefIsKnown (S.types supers.now) first.now }
    requires second { RefIsKnown (S.types supers.now) second.now }
    requires third { RefIsKnown (S.types supers.now) third.now }
    requires first_second_engine { AreOfOneEngine (ref_engine first.now) (ref_engine second.now) }
    requires second_third_engine { AreOfOneEngine (ref_engine second.now) (ref_engine third.now) }
    requires first_third_engine { AreOfOneEngine (ref_engine first.now) (ref_engine third.now) }
    ensures first_second { result.first_second ≡ ref_matches (S.types supers.now) first.now second.now }
    ensures second_third { result.second_third ≡ ref_matches (S.types supers.now) second.now third.now }
    ensures first_third { result.first_third ≡ ref_matches (S.types supers.now) first.now third.now }
    ensures law { IsTrue result.first_second → IsTrue result.second_third → IsTrue result.first_third }
{
    ThreeAnswers {
        first_second: first.matches(second, supers),
        second_third: second.matches(third, supers),
        first_third: first.matches(third, supers),
    }
}

/// Where a heap type matches another, a reference to it that isn't nullable matches a nullable one to the other. A
/// nullable one never matches one that isn't.
pub fn nullable_covariant<S: Supers>(supers: &S, first: &HeapType, second: &HeapType) -> NullAnswers
    requires first { HeapIsKnown (S.types supers.now) first.now }
    requires second { HeapIsKnown (S.types supers.now) second.now }
    requires one_engine { AreOfOneEngine (heap_engine first.now) (heap_engine second.now) }
    ensures heap_types { result.heap_types ≡ heap_matches (S.types supers.now) first.now second.now }
    ensures to_nullable { result.to_nullable ≡ result.heap_types }
    ensures from_nullable { IsFalse result.from_nullable }
{
    NullAnswers {
        heap_types: first.matches(second, supers),
        to_nullable: RefType::new(false, *first).matches(&RefType::new(true, *second), supers),
        from_nullable: RefType::new(true, *first).matches(&RefType::new(false, *second), supers),
    }
}

/// A heap type as type data gives it back, where what it names is of this engine.
pub fn heap_comes_back(engine: u64, heap: &HeapType) -> HeapType
    requires { IsOfEngine engine (heap_engine heap.now) }
    ensures law { result ≡ heap.now }
{
    HeapType::from_wasm(engine, &heap.to_wasm())
}

/// A reference type as type data gives it back, where what it names is of this engine.
pub fn ref_comes_back(engine: u64, reference: &RefType) -> RefType
    requires { IsOfEngine engine (ref_engine reference.now) }
    ensures law { result ≡ reference.now }
{
    RefType::from_wasm(engine, &reference.to_wasm())
}

/// A value type as type data gives it back, where what it names is of this engine.
pub fn val_comes_back(engine: u64, value: &ValType) -> ValType
    requires { IsOfEngine engine (val_engine value.now) }
    ensures law { result ≡ value.now }
{
    ValType::from_wasm(engine, &value.to_wasm())
}

/// A storage type as type data gives it back, where what it names is of this engine.
pub fn storage_comes_back(engine: u64, storage: &StorageType) -> StorageType
    requires { IsOfEngine engine (storage_engine storage.now) }
    ensures law { result ≡ storage.now }
{
    StorageType::from_wasm(engine, &storage.to_wasm())
}

/// A field type as type data gives it back, where what it names is of this engine.
pub fn field_comes_back(engine: u64, field: &FieldType) -> FieldType
    requires { IsOfEngine engine (field_engine field.now) }
    ensures law { result ≡ field.now }
{
    FieldType::from_wasm(engine, &field.to_wasm())
}
