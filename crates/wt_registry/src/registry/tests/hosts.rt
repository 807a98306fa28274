//! Rows of the types of a host: which it may register, and why one is refused.

use super::*;
use wt_env::types::{Kind, WasmContType};
use wt_model::host_exception::exception_function;

/// A struct with so many constant fields of a byte, and this supertype.
fn bytes(
    alloc: Global,
    is_final: bool,
    supertype: Option<u32>,
    count: u32,
) -> Result<WasmSubType, OutOfMemory> {
    let mut fields = Seq::new(alloc);
    for _ in 0..count {
        fields.push(WasmFieldType {
            element_type: WasmStorageType::I8,
            mutable: false,
        })?;
    }
    Ok(WasmSubType {
        is_final,
        supertype: supertype.map(of_engine),
        composite_type: WasmCompositeInnerType::Struct(WasmStructType { fields }),
    })
}

fn of_engine(index: u32) -> EngineOrModuleTypeIndex {
    EngineOrModuleTypeIndex::Engine(VMSharedTypeIndex::new(index))
}

/// Registers a type that a host may register, and answers its index.
fn answered(
    rt: &impl Abort,
    registry: &mut TypeRegistry,
    ty: WasmSubType,
) -> Result<u32, BuildRefusal> {
    assert!(rt; registry.engine().limits().parties > 0);
    assert!(rt; registry.is_host_type(&ty));
    let mut party = PartyNumber::new(0);
    let hold = RegisteredType::new(registry, &mut party, ty)?;
    let index = hold.index().bits();
    hold.forget();
    Ok(index)
}

#[test]
fn a_host_type_is_below_an_open_one_that_it_matches(rt: HostRuntime) -> Result<(), Fail> {
    let alloc = rt.alloc();
    assert!(rt; EngineLimits::USUAL.valid());
    let engine = Engine::new(1, EngineLimits::USUAL, true);
    let mut registry = TypeRegistry::new(alloc, &engine);
    let open = bytes(alloc, false, None, 1)?;
    assert_eq!(rt; answered(&rt, &mut registry, open), Ok(0));
    let last = bytes(alloc, true, Some(0), 2)?;
    assert_eq!(rt; answered(&rt, &mut registry, last), Ok(1));
    let supertype = VMSharedTypeIndex::new(1);
    let below_final = bytes(alloc, true, Some(1), 2)?;
    assert_eq!(rt;
        answered(&rt, &mut registry, below_final),
        Err(BuildRefusal::FinalSupertype { supertype })
    );
    let kind = Kind::Struct;
    let fewer = bytes(alloc, true, Some(0), 0)?;
    assert_eq!(rt;
        answered(&rt, &mut registry, fewer),
        Err(BuildRefusal::SupertypeMismatch { kind })
    );
    Ok(())
}

#[test]
fn a_host_struct_has_few_fields(rt: HostRuntime) -> Result<(), Fail> {
    let alloc = rt.alloc();
    assert!(rt; EngineLimits::USUAL.valid());
    let engine = Engine::new(1, EngineLimits::USUAL, true);
    let mut registry = TypeRegistry::new(alloc, &engine);
    let most = bytes(alloc, true, None, 10_000)?;
    assert_eq!(rt; answered(&rt, &mut registry, most), Ok(0));
    let more = bytes(alloc, true, None, 10_001)?;
    assert_eq!(rt;
        answered(&rt, &mut registry, more),
        Err(BuildRefusal::TooManyFields { fields: 10_001 })
    );
    Ok(())
}

#[test]
fn a_host_exception_is_of_a_function_without_results(rt: HostRuntime) -> Result<(), Fail> {
    let alloc = rt.alloc();
    assert!(rt; EngineLimits::USUAL.valid());
    let engine = Engine::new(1, EngineLimits::USUAL, true);
    let mut registry = TypeRegistry::new(alloc, &engine);
    let returning = WasmCompositeInnerType::Func(WasmFuncType {
        params: Seq::new(alloc),
        results: Seq::one(alloc, WasmValType::I32)?,
    });
    assert_eq!(rt; answered(&rt, &mut registry, final_type(returning)), Ok(0));
    let Some(exception) = registry.tag_exception(VMSharedTypeIndex::new(0))? else {
        assert!(rt; false, "a function is registered");
        return Ok(());
    };
    assert_eq!(rt;
        answered(&rt, &mut registry, exception),
        Err(BuildRefusal::TagHasResults { results: 1 })
    );
    assert!(rt; registry.tag_exception(VMSharedTypeIndex::new(1))?.is_none());
    Ok(())
}

/// Registers the exception that holds these, where a host may, and sweeps it: its index, and how many groups went.
fn swept_exception(
    rt: &impl Abort,
    registry: &mut TypeRegistry,
    fields: &[WasmValType],
) -> Result<(u32, Swept), BuildRefusal> {
    assert!(rt; registry.engine().limits().parties > 0);
    assert!(rt; registry.is_host_type(&exception_function(registry.alloc, fields)?));
    let mut party = PartyNumber::new(0);
    let hold = RegisteredType::new_exn(registry, &mut party, fields)?;
    let index = hold.index().bits();
    match hold.decref(registry, &mut party) {
        Some(debt) => Ok((index, registry.sweep(debt))),
        None => Ok((index, Swept::Kept)),
    }
}

#[test]
fn a_host_exception_goes_with_its_function(rt: HostRuntime) -> Result<(), Fail> {
    let alloc = rt.alloc();
    assert!(rt; EngineLimits::USUAL.valid());
    let engine = Engine::new(1, EngineLimits::USUAL, true);
    let mut registry = TypeRegistry::new(alloc, &engine);
    let fields = [WasmValType::I32];
    assert_eq!(rt;
        swept_exception(&rt, &mut registry, fields.as_slice()),
        Ok((1, Swept::Removed(2)))
    );
    Ok(())
}

#[test]
fn a_host_type_names_registered_types(rt: HostRuntime) -> Result<(), Fail> {
    let alloc = rt.alloc();
    assert!(rt; EngineLimits::USUAL.valid());
    let engine = Engine::new(1, EngineLimits::USUAL, true);
    let registry = TypeRegistry::new(alloc, &engine);
    assert!(rt; !registry.is_host_type(&bytes(alloc, true, Some(0), 0)?));
    assert!(rt; registry.is_host_type(&bytes(alloc, true, None, 0)?));
    let continuation = WasmCompositeInnerType::Cont(WasmContType(of_engine(0)));
    assert!(rt; !registry.is_host_type(&final_type(continuation)));
    Ok(())
}

#[test]
fn a_host_struct_wants_garbage_collection(rt: HostRuntime) -> Result<(), Fail> {
    let alloc = rt.alloc();
    assert!(rt; EngineLimits::USUAL.valid());
    let engine = Engine::new(1, EngineLimits::USUAL, false);
    let mut registry = TypeRegistry::new(alloc, &engine);
    let open = bytes(alloc, false, None, 1)?;
    assert_eq!(rt; answered(&rt, &mut registry, open), Err(BuildRefusal::NoGc));
    Ok(())
}
