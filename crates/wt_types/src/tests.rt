//! Array and exception types that are registered, asked and written, with ample memory.

use crate::array_type::ArrayType;
use crate::exn_type::ExnType;
use crate::func_type::FuncType;
use std::test::Fail;
use wt_env::limits::{Engine, EngineLimits};
use wt_env::types::VMSharedTypeIndex;
use wt_heap::field_type::FieldType;
use wt_heap::mutability::{Finality, Mutability};
use wt_heap::names::FuncName;
use wt_heap::storage_type::StorageType;
use wt_heap::val_type::ValType;
use wt_registry::registered_type::PartyNumber;
use wt_registry::registry::TypeRegistry;

#[test]
fn an_array_is_told(rt: HostRuntime) -> Result<(), Fail> {
    let alloc = rt.alloc();
    let mut registry = TypeRegistry::new(alloc, &Engine::new(7, EngineLimits::USUAL, true));
    let mut party = PartyNumber::new(0);
    let field = FieldType::new(Mutability::Const, StorageType::I16);
    assert!(rt; ArrayType::is_host_type(&registry, Finality::Final, None, field));
    let array = ArrayType::new(&mut registry, &mut party, field).expect(&rt, "a new group");
    let text = format!(in alloc; "{}", array.show(&registry)).expect(&rt, "memory");
    assert_eq!(rt; text.as_str(), "(array (field i16))");
    assert!(rt; array.mutability(&registry).is_const());
    assert!(rt; array.element_type(&registry).is_i16());
    assert!(rt; array.supertype(&registry).is_none());
    array.into_registered().forget();
    Ok(())
}

#[test]
fn an_exception_is_told(rt: HostRuntime) -> Result<(), Fail> {
    let alloc = rt.alloc();
    let mut registry = TypeRegistry::new(alloc, &Engine::new(7, EngineLimits::USUAL, true));
    let mut party = PartyNumber::new(0);
    let fields = [ValType::I32];
    let told = ExnType::is_host_type(alloc, &registry, &fields);
    assert!(rt; told.expect(&rt, "memory"));
    let exn = ExnType::new(alloc, &mut registry, &mut party, &fields).expect(&rt, "a new group");
    let text = format!(in alloc; "{}", exn.show(&registry)).expect(&rt, "memory");
    assert_eq!(rt;
        text.as_str(),
        "(exn (type (func (param i32))) (field i32))"
    );
    let signature = FuncName {
        engine: 7,
        index: VMSharedTypeIndex(0),
    };
    assert!(rt; *exn.tag_type(&registry).ty() == signature);
    let mut told = exn.fields(&registry);
    let field = FieldType::new(Mutability::Const, StorageType::ValType(ValType::I32));
    assert!(rt; told.next() == Some(field));
    assert!(rt; told.next().is_none());
    let tag = exn.tag_type(&registry).ty().index;
    let func = FuncType::from_shared_type_index(&mut registry, &mut party, tag);
    match func.expect(&rt, "no limit is passed") {
        Some(func) => {
            let mut told = func.params(&registry);
            assert!(rt; told.next() == Some(ValType::I32));
            assert!(rt; told.next().is_none());
            func.into_registered().forget();
        }
        None => assert!(rt; false, "an exception has a function type"),
    }
    exn.into_registered().forget();
    Ok(())
}
