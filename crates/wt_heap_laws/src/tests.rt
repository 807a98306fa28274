//! Each law once. What is compared is abstract, so that a list of no types serves.

use crate::laws;
use std::test::Fail;
use wt_env::seq::Seq;
use wt_env::types::VMSharedTypeIndex;
use wt_heap::field_type::FieldType;
use wt_heap::heap_type::HeapType;
use wt_heap::mutability::Mutability;
use wt_heap::names::StructName;
use wt_heap::ref_type::RefType;
use wt_heap::storage_type::StorageType;
use wt_heap::val_type::ValType;
use wt_tree::plain_supers::PlainSupers;

#[test]
fn types_come_back(rt: HostRuntime) -> Result<(), Fail> {
    let heap = HeapType::ConcreteStruct(StructName {
        engine: 1,
        index: VMSharedTypeIndex(1),
    });
    let reference = RefType::new(true, heap);
    let field = FieldType::new(Mutability::Var, StorageType::from(reference));
    assert_eq!(rt; laws::heap_comes_back(1, &heap), heap);
    assert_eq!(rt; laws::ref_comes_back(1, &reference), reference);
    assert_eq!(rt; laws::val_comes_back(1, &ValType::V128), ValType::V128);
    assert_eq!(rt;
        laws::storage_comes_back(1, &StorageType::I16),
        StorageType::I16
    );
    assert_eq!(rt; laws::field_comes_back(1, &field), field);
    Ok(())
}

#[test]
#[tactic(auto, using(wt_heap::proofs::KnownTypes::known_none))]
fn matching_is_an_order(rt: HostRuntime) -> Result<(), Fail> {
    let supers = PlainSupers::new(Seq::new(rt.alloc()));
    let (none, i31, any) = (HeapType::None, HeapType::I31, HeapType::Any);
    assert!(rt; laws::heap_reflexive(&supers, &i31));
    assert!(rt; laws::heap_transitive(&supers, &none, &i31, &any).first_third);
    let bounds = laws::heap_bounded(&supers, &i31);
    assert!(rt; bounds.below_top && bounds.above_bottom);
    let (null, eq, any_ref) = (RefType::NULLREF, RefType::EQREF, RefType::ANYREF);
    assert!(rt; laws::ref_reflexive(&supers, &eq));
    assert!(rt; laws::ref_transitive(&supers, &null, &eq, &any_ref).first_third);
    let answers = laws::nullable_covariant(&supers, &i31, &any);
    assert!(rt; answers.heap_types && answers.to_nullable && !answers.from_nullable);
    Ok(())
}

#[test]
#[tactic(auto, using(wt_heap::proofs::KnownTypes::known_none))]
fn equal_types_have_equal_contents(rt: HostRuntime) -> Result<(), Fail> {
    let supers = PlainSupers::new(Seq::new(rt.alloc()));
    supers.tell_invariant();
    let field = FieldType::new(Mutability::Const, StorageType::I8);
    assert!(rt; !laws::heap_equal(&supers, &HeapType::I31, &HeapType::Any));
    assert!(rt; laws::ref_equal(&supers, &RefType::EQREF, &RefType::EQREF));
    assert!(rt; !laws::val_equal(&supers, &ValType::EQREF, &ValType::ANYREF));
    assert!(rt; !laws::storage_equal(&supers, &StorageType::I8, &StorageType::I16));
    assert!(rt; laws::field_equal(&supers, &field, &field));
    Ok(())
}
