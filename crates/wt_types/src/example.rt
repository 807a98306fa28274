//! An embedder that builds a function type over a registered struct, asks what it is made of and whether it matches another,
//! and writes it.

ghost use Rattle.std.specs.Prelude.{◌≡◌, ◌<◌};
ghost use Rattle.wt_env.specs.declared.types.Kind.TheVariants as kind;
ghost use Rattle.wt_model.specs.Holds.{IsHeld};
ghost use Rattle.wt_core.specs.CoreTypes.{IsOfKind};

use crate::exn_type::ExnType;
use crate::func_type::FuncType;
use crate::struct_type::StructType;
use crate::tag_type::TagType;
use std::alloc::Global;
use std::process::Abort;
use std::test::Fail;
use wt_env::limits::{Engine, EngineLimits};
use wt_env::types::VMSharedTypeIndex;
use wt_heap::field_type::FieldType;
use wt_heap::heap_type::HeapType;
use wt_heap::mutability::{Finality, Mutability};
use wt_heap::names::StructName;
use wt_heap::ref_type::RefType;
use wt_heap::storage_type::StorageType;
use wt_heap::val_type::ValType;
use wt_registry::refusal::BuildRefusal;
use wt_registry::registered_type::PartyNumber;
use wt_registry::registry::TypeRegistry;

/// A struct of one field, a number of 8 bits that can change.
fn registered_struct(
    rt: &impl Abort,
    alloc: Global,
    registry: &mut TypeRegistry,
    party: &mut PartyNumber,
) -> StructType
    requires { party.old < registry.old.engine.limits.parties }
    ensures engine { registry.new.engine ≡ registry.old.engine }
    ensures party { party.new ≡ party.old }
    ensures held { IsHeld registry.new result }
    ensures kind { IsOfKind registry.new.made kind.Struct result.index }
{
    let fields = [FieldType::new(Mutability::Var, StorageType::I8)];
    let told = StructType::is_host_type(alloc, registry, Finality::Final, None, &fields);
    assert!(rt; told.expect(rt, "memory"));
    StructType::new(alloc, registry, party, &fields).expect(rt, "a new group")
}

/// The nullable reference to a struct.
fn reference(name: StructName) -> ValType {
    ValType::Ref(RefType::new(true, HeapType::ConcreteStruct(name)))
}

/// The function that takes a reference to the struct and gives a number.
fn registered_func(
    rt: &impl Abort,
    alloc: Global,
    registry: &mut TypeRegistry,
    party: &mut PartyNumber,
    name: StructName,
) -> FuncType
    requires party { party.old < registry.old.engine.limits.parties }
    requires engine { name.engine ≡ registry.old.engine.number }
    ensures engine { registry.new.engine ≡ registry.old.engine }
    ensures party { party.new ≡ party.old }
    ensures held { IsHeld registry.new result }
    ensures kind { IsOfKind registry.new.made kind.Func result.index }
{
    let params = [ValType::Ref(RefType::new(true, HeapType::ConcreteStruct(name)))];
    let results = [ValType::I64];
    let told = FuncType::is_host_type(alloc, registry, Finality::Final, None, &params, &results);
    assert!(rt; told.expect(rt, "memory"));
    FuncType::new(alloc, registry, party, &params, &results).expect(rt, "a new group")
}

#[test]
fn a_function_takes_a_struct(rt: HostRuntime) -> Result<(), Fail> {
    let alloc = rt.alloc();
    let mut registry = TypeRegistry::new(alloc, &Engine::new(7, EngineLimits::USUAL, true));
    let mut party = PartyNumber::new(0);
    let point = registered_struct(&rt, alloc, &mut registry, &mut party);
    let text = format!(in alloc; "{}", point.show(&registry)).expect(&rt, "memory");
    assert_eq!(rt; text.as_str(), "(struct (field (mut i8)))");
    assert_eq!(rt; point.fields(&registry).len(), 1);
    let name = point.name();
    assert_eq!(rt; name.engine, 7);
    assert_eq!(rt; name.index, VMSharedTypeIndex(0));

    let func = registered_func(&rt, alloc, &mut registry, &mut party, name);
    let text = format!(in alloc; "{}", func.show(&registry)).expect(&rt, "memory");
    assert_eq!(rt;
        text.as_str(),
        "(type (func (param (ref null (concrete struct VMSharedTypeIndex(0)))) (result i64)))"
    );
    assert!(rt; func.param(&registry, 0) == Some(reference(name)));
    assert!(rt; func.result(&registry, 0) == Some(ValType::I64));
    assert!(rt; func.result(&registry, 1).is_none());
    assert!(rt; func.finality(&registry).is_final());
    assert!(rt; func.matches(&func, &registry));
    assert!(rt; FuncType::eq(&func, &func));

    let tag = TagType::new(func.name());
    match ExnType::from_tag_type(&mut registry, &mut party, &tag) {
        Ok(exn) => {
            exn.into_registered().forget();
            assert!(rt; false, "the function gives a value");
        }
        Err(why) => assert_eq!(rt; why, BuildRefusal::TagHasResults { results: 1 }),
    }

    let other = func.name().index;
    let none = StructType::from_shared_type_index(&mut registry, &mut party, other);
    match none.expect(&rt, "no limit is passed") {
        Some(found) => {
            found.into_registered().forget();
            assert!(rt; false, "a function is no struct");
        }
        None => {}
    }
    point.into_registered().forget();
    func.into_registered().forget();
    Ok(())
}
