//! A struct type that is registered, found by its index and asked, with ample memory.

use crate::core_type::{finality, leads_to, register_type, root_of_kind, supertype};
use crate::sub_types::struct_sub_type;
use std::test::Fail;
use wt_env::limits::{Engine, EngineLimits};
use wt_env::types::Kind;
use wt_heap::field_type::FieldType;
use wt_heap::mutability::{Finality, Mutability};
use wt_heap::storage_type::StorageType;
use wt_registry::registered_type::PartyNumber;
use wt_registry::registry::TypeRegistry;

#[test]
fn a_struct_is_found_by_its_index(rt: HostRuntime) -> Result<(), Fail> {
    let alloc = rt.alloc();
    let mut registry = TypeRegistry::new(alloc, &Engine::new(7, EngineLimits::USUAL, true));
    let mut party = PartyNumber::new(0);
    let fields = [FieldType::new(Mutability::Var, StorageType::I8)];
    let ty = struct_sub_type(alloc, Finality::NonFinal, None, &fields).expect(&rt, "memory");
    assert!(rt; registry.is_host_type(&ty));
    let made = register_type(&mut registry, &mut party, ty).expect(&rt, "a new group");
    let index = made.index();
    let found = root_of_kind(&mut registry, &mut party, Kind::Struct, index);
    match found.expect(&rt, "no limit is passed") {
        Some(other) => {
            assert!(rt; leads_to(&other, &made, &registry));
            assert!(rt; !finality(&other, &registry).is_final());
            assert!(rt; supertype(&other, &registry).is_none());
            other.forget();
        }
        None => assert!(rt; false, "a struct has this index"),
    }
    made.forget();
    Ok(())
}
