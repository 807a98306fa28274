//! Rows of texts, and the groups that they stand for.

use super::*;
use std::test::Fail;
use wt_env::types::{
    EngineOrModuleTypeIndex, ModuleInternedTypeIndex, WasmHeapType, WasmRefType, WasmStorageType,
};

/// The final type of a shape, with no supertype.
fn member(composite_type: WasmCompositeInnerType) -> WasmSubType {
    WasmSubType {
        is_final: true,
        supertype: None,
        composite_type,
    }
}

fn func(
    alloc: Global,
    params: &[WasmValType],
    results: &[WasmValType],
) -> Result<WasmSubType, OutOfMemory> {
    Ok(member(WasmCompositeInnerType::Func(WasmFuncType {
        params: Seq::from_vec(Vec::from_slice(alloc, params)?),
        results: Seq::from_vec(Vec::from_slice(alloc, results)?),
    })))
}

fn structure(alloc: Global, fields: &[WasmFieldType]) -> Result<WasmSubType, OutOfMemory> {
    Ok(member(WasmCompositeInnerType::Struct(WasmStructType {
        fields: Seq::from_vec(Vec::from_slice(alloc, fields)?),
    })))
}

fn array(element_type: WasmStorageType, mutable: bool) -> WasmSubType {
    member(WasmCompositeInnerType::Array(WasmArrayType(field(element_type, mutable))))
}

fn field(element_type: WasmStorageType, mutable: bool) -> WasmFieldType {
    WasmFieldType {
        element_type,
        mutable,
    }
}

fn reference(nullable: bool, heap_type: WasmHeapType) -> WasmStorageType {
    WasmStorageType::Val(reference_val(nullable, heap_type))
}

fn reference_val(nullable: bool, heap_type: WasmHeapType) -> WasmValType {
    WasmValType::Ref(WasmRefType {
        nullable,
        heap_type,
    })
}

fn index(index: u32) -> EngineOrModuleTypeIndex {
    EngineOrModuleTypeIndex::Module(ModuleInternedTypeIndex(index))
}

/// The final exception type of a function, with no supertype.
fn exception(
    alloc: Global,
    func: u32,
    fields: &[WasmFieldType],
) -> Result<WasmSubType, OutOfMemory> {
    Ok(member(WasmCompositeInnerType::Exn(WasmExnType {
        func_ty: index(func),
        fields: Seq::from_vec(Vec::from_slice(alloc, fields)?),
    })))
}

/// The final continuation type of a function, with no supertype.
fn continuation(func: u32) -> WasmSubType {
    member(WasmCompositeInnerType::Cont(WasmContType(index(func))))
}

/// The one group of one member.
fn alone(alloc: Global, ty: WasmSubType) -> Result<ModuleTypes, OutOfMemory> {
    let group = WasmRecGroup {
        types: Seq::one(alloc, ty)?,
    };
    Ok(ModuleTypes {
        groups: Seq::one(alloc, group)?,
    })
}

#[test]
fn decodes_groups(rt: HostRuntime) -> Result<(), Fail> {
    let alloc = rt.alloc();
    let empty = WasmRecGroup {
        types: Seq::new(alloc),
    };
    let pair = WasmRecGroup {
        types: Seq::from_vec(vec![in alloc;
            array(WasmStorageType::Val(WasmValType::F32), false),
            array(
                reference(false, WasmHeapType::ConcreteArray(index(0))),
                true
            ),
        ]?),
    };
    let single = WasmRecGroup {
        types: Seq::one(alloc, func(alloc, &[WasmValType::I64], &[])?)?,
    };
    let rows = [
        ("[]", Vec::new(alloc)),
        ("[[]]", vec![in alloc; empty]?),
        (
            r#"[[{"array":"f32"},{"array":{"mut":{"ref":{"array":0}}}}],[{"func":[["i64"],[]]}]]"#,
            vec![in alloc; pair, single]?,
        ),
    ];
    for (text, groups) in rows {
        let value = Value::from_str(alloc, text)?;
        let want = ModuleTypes {
            groups: Seq::from_vec(groups),
        };
        assert_eq!(rt; decode_groups(alloc, &value)?, Some(want), "at {text}");
    }
    Ok(())
}

#[test]
fn decodes_shapes(rt: HostRuntime) -> Result<(), Fail> {
    let alloc = rt.alloc();
    let rows = [
        (r#"[[{"func":[[],[]]}]]"#, func(alloc, &[], &[])?),
        (
            r#"[[{"func":[["i32","v128"],["f64"]]}]]"#,
            func(
                alloc,
                &[WasmValType::I32, WasmValType::V128],
                &[WasmValType::F64],
            )?,
        ),
        (r#"[[{"struct":[]}]]"#, structure(alloc, &[])?),
        (
            r#"[[{"struct":["i8",{"mut":"i16"},{"null":"eq"}]}]]"#,
            structure(
                alloc,
                &[
                    field(WasmStorageType::I8, false),
                    field(WasmStorageType::I16, true),
                    field(reference(true, WasmHeapType::Eq), false),
                ],
            )?,
        ),
    ];
    for (text, ty) in rows {
        let value = Value::from_str(alloc, text)?;
        let want = alone(alloc, ty)?;
        assert_eq!(rt; decode_groups(alloc, &value)?, Some(want), "at {text}");
    }
    Ok(())
}

#[test]
fn decodes_fields(rt: HostRuntime) -> Result<(), Fail> {
    let alloc = rt.alloc();
    let rows = [
        (r#""i16""#, array(WasmStorageType::I16, false)),
        (r#"{"mut":"i8"}"#, array(WasmStorageType::I8, true)),
        (
            r#""anyref""#,
            array(reference(true, WasmHeapType::Any), false),
        ),
        (
            r#"{"ref":"any"}"#,
            array(reference(false, WasmHeapType::Any), false),
        ),
        (
            r#"{"null":"any"}"#,
            array(reference(true, WasmHeapType::Any), false),
        ),
        (
            r#"{"ref":{"func":1}}"#,
            array(
                reference(false, WasmHeapType::ConcreteFunc(index(1))),
                false,
            ),
        ),
        (
            r#"{"null":{"struct":4294967295}}"#,
            array(
                reference(true, WasmHeapType::ConcreteStruct(index(4294967295))),
                false,
            ),
        ),
        (
            r#"{"mut":{"null":{"array":0}}}"#,
            array(reference(true, WasmHeapType::ConcreteArray(index(0))), true),
        ),
        (
            r#"{"ref":{"exn":2}}"#,
            array(reference(false, WasmHeapType::ConcreteExn(index(2))), false),
        ),
        (
            r#"{"mut":{"null":{"cont":4294967295}}}"#,
            array(
                reference(true, WasmHeapType::ConcreteCont(index(4294967295))),
                true,
            ),
        ),
    ];
    for (text, ty) in rows {
        let whole = format!(in alloc; "[[{{\"array\":{text}}}]]")?;
        let value = Value::from_str(alloc, whole.as_str())?;
        let want = alone(alloc, ty)?;
        assert_eq!(rt; decode_groups(alloc, &value)?, Some(want), "at {text}");
    }
    Ok(())
}

/// Parameters and results are any value types: numbers, vectors and references.
#[test]
fn decodes_functions_over_references(rt: HostRuntime) -> Result<(), Fail> {
    let alloc = rt.alloc();
    let rows = [
        (
            r#"[[{"func":[[{"ref":{"func":1}},"eqref"],[{"null":"i31"}]]}]]"#,
            func(
                alloc,
                &[
                    reference_val(false, WasmHeapType::ConcreteFunc(index(1))),
                    reference_val(true, WasmHeapType::Eq),
                ],
                &[reference_val(true, WasmHeapType::I31)],
            )?,
        ),
        (
            r#"[[{"func":[[],["nullexnref","i32",{"ref":"any"},{"null":{"array":0}}]]}]]"#,
            func(
                alloc,
                &[],
                &[
                    reference_val(true, WasmHeapType::NoExn),
                    WasmValType::I32,
                    reference_val(false, WasmHeapType::Any),
                    reference_val(true, WasmHeapType::ConcreteArray(index(0))),
                ],
            )?,
        ),
        (
            r#"[[{"func":[["anyref",{"ref":{"struct":4294967295}},"v128"],["contref"]]}]]"#,
            func(
                alloc,
                &[
                    reference_val(true, WasmHeapType::Any),
                    reference_val(false, WasmHeapType::ConcreteStruct(index(4294967295))),
                    WasmValType::V128,
                ],
                &[reference_val(true, WasmHeapType::Cont)],
            )?,
        ),
    ];
    for (text, ty) in rows {
        let value = Value::from_str(alloc, text)?;
        let want = alone(alloc, ty)?;
        assert_eq!(rt; decode_groups(alloc, &value)?, Some(want), "at {text}");
    }
    Ok(())
}

#[test]
fn decodes_exceptions_and_continuations(rt: HostRuntime) -> Result<(), Fail> {
    let alloc = rt.alloc();
    let rows = [
        (r#"{"exn":0,"fields":[]}"#, exception(alloc, 0, &[])?),
        (
            r#"{"fields":["i32","anyref",{"ref":{"cont":1}}],"exn":4294967295}"#,
            exception(
                alloc,
                4294967295,
                &[
                    field(WasmStorageType::Val(WasmValType::I32), false),
                    field(reference(true, WasmHeapType::Any), false),
                    field(
                        reference(false, WasmHeapType::ConcreteCont(index(1))),
                        false,
                    ),
                ],
            )?,
        ),
        (r#"{"cont":0}"#, continuation(0)),
        (r#"{"cont":4294967295}"#, continuation(4294967295)),
    ];
    for (text, ty) in rows {
        let whole = format!(in alloc; "[[{text}]]")?;
        let value = Value::from_str(alloc, whole.as_str())?;
        let want = alone(alloc, ty)?;
        assert_eq!(rt; decode_groups(alloc, &value)?, Some(want), "at {text}");
    }
    Ok(())
}

/// A type may be open, and may declare a supertype.
#[test]
fn decodes_declarations(rt: HostRuntime) -> Result<(), Fail> {
    let alloc = rt.alloc();
    let rows = [
        ("", true, None),
        (r#","final":true"#, true, None),
        (r#","final":false"#, false, None),
        (r#","super":0"#, true, Some(index(0))),
        (
            r#","super":4294967295,"final":false"#,
            false,
            Some(index(4294967295)),
        ),
        (r#","final":true,"super":7"#, true, Some(index(7))),
    ];
    for (declared, is_final, supertype) in rows {
        let text = format!(in alloc; "[[{{\"cont\":3{declared}}}]]")?;
        let value = Value::from_str(alloc, text.as_str())?;
        let mut ty = continuation(3);
        ty.is_final = is_final;
        ty.supertype = supertype;
        let want = alone(alloc, ty)?;
        assert_eq!(rt; decode_groups(alloc, &value)?, Some(want), "at {text}");
    }
    Ok(())
}

/// So may a type of each shape.
#[test]
fn decodes_declarations_of_each_shape(rt: HostRuntime) -> Result<(), Fail> {
    let alloc = rt.alloc();
    let rows = [
        (
            r#""func":[["i32"],[]]"#,
            func(alloc, &[WasmValType::I32], &[])?,
        ),
        (
            r#""struct":["i8"]"#,
            structure(alloc, &[field(WasmStorageType::I8, false)])?,
        ),
        (
            r#""array":{"mut":"i16"}"#,
            array(WasmStorageType::I16, true),
        ),
        (r#""exn":3,"fields":[]"#, exception(alloc, 3, &[])?),
    ];
    for (shape, mut ty) in rows {
        let text = format!(in alloc; "[[{{\"final\":false,\"super\":2,{shape}}}]]")?;
        let value = Value::from_str(alloc, text.as_str())?;
        ty.is_final = false;
        ty.supertype = Some(index(2));
        let want = alone(alloc, ty)?;
        assert_eq!(rt; decode_groups(alloc, &value)?, Some(want), "at {text}");
    }
    Ok(())
}

/// Members that stand for no type, for what they declare or for the keys that they have.
const REFUSED_MEMBERS: &str = r#"[
    {"final":1,"func":[[],[]]}, {"final":null,"func":[[],[]]}, {"final":"true","func":[[],[]]},
    {"final":[],"struct":[]}, {"super":null,"func":[[],[]]}, {"super":-1,"func":[[],[]]},
    {"super":1.0,"func":[[],[]]}, {"super":4294967296,"func":[[],[]]}, {"super":"0","struct":[]},
    {"super":{"func":0},"struct":[]}, {"super":[0],"array":"i32"}, {"super":true,"array":"i32"},
    {"final":true}, {"super":0}, {"final":true,"super":0}, {"final":true,"x":1}, {"super":0,"x":1},
    {"fields":[]}, {"final":true,"fields":[]},
    {"x":1,"func":[[],[]]}, {"final":true,"super":0,"x":1,"struct":[]}, {"Final":true,"struct":[]},
    {"func":[[],[]],"struct":[]}, {"func":[[],[]],"array":"i32"}, {"struct":[],"array":"i32"},
    {"func":[[],[]],"cont":0}, {"struct":[],"cont":0}, {"array":"i32","cont":0},
    {"func":[[],[]],"exn":0}, {"struct":[],"exn":0}, {"array":"i32","exn":0}, {"cont":0,"exn":0},
    {"func":[[],[]],"exn":0,"fields":[]}, {"struct":[],"exn":0,"fields":[]},
    {"array":"i32","exn":0,"fields":[]}, {"cont":0,"exn":0,"fields":[]},
    {"fields":[],"func":[[],[]]}, {"fields":[],"struct":[]}, {"fields":[],"array":"i32"},
    {"fields":[],"cont":0}, {"fields":[],"x":0},
    {"exn":0}, {"exn":0,"final":true}, {"exn":0,"super":0}, {"exn":0,"x":[]},
    {"exn":0,"fields":[],"x":1}, {"exn":0,"fields":{}}, {"exn":0,"fields":null},
    {"exn":0,"fields":"i32"}, {"exn":0,"fields":["i8"]}, {"exn":0,"fields":[{"mut":"i32"}]},
    {"exn":0,"fields":["i32",7]}, {"exn":0,"fields":["any"]}, {"exn":-1,"fields":[]},
    {"exn":1.0,"fields":[]}, {"exn":4294967296,"fields":[]}, {"exn":null,"fields":[]},
    {"exn":{"func":0},"fields":[]}, {"exn":[[],[]],"fields":[]},
    {"cont":-1}, {"cont":1.5}, {"cont":4294967296}, {"cont":null}, {"cont":"0"}, {"cont":[0]},
    {"cont":{"func":0}}
]"#;

#[test]
fn refuses_other_members(rt: HostRuntime) -> Result<(), Fail> {
    let rows = Value::from_str(rt.alloc(), REFUSED_MEMBERS)?;
    for row in rows.as_array().ok_or("not a list")? {
        let member = decode_member(rt.alloc(), row)?;
        assert_eq!(rt; member, None, "at {row}");
    }
    Ok(())
}

/// Values that stand for no groups.
const REFUSED: &str = r#"[
    null, {}, "func", [7], [{}], [{"func":[[],[]]}], [[],7], [[7]], [[{}]], [["func"]],
    [[{"struct":[]},{}]], [[{"fun":[[],[]]}]], [[{"func":[[],[]],"struct":[]}]],
    [[{"func":[[],[]],"final":1}]], [[{"func":[[],[]]},{"func":[[],[]],"super":-1}]],
    [[{"exn":{"func":0}}]], [[{"cont":{"func":0}}]],
    [[{"func":[]}]], [[{"func":[[]]}]], [[{"func":[[],[],[]]}]], [[{"func":{}}]],
    [[{"func":["i32","i32"]}]], [[{"func":[["i32","i8"],[]]}]], [[{"func":[["any"],[]]}]],
    [[{"func":[[],[{"mut":"i32"}]]}]], [[{"func":[["anyref","i16"],[]]}]],
    [[{"func":[[{"ref":"anyref"}],[]]}]], [[{"func":[[],[{"ref":{"func":-1}}]]}]],
    [[{"func":[[{"ref":"any","null":"any"}],[]]}]], [[{"func":[[],[{"null":{"exn":-1}}]]}]],
    [[{"struct":"i32"}]], [[{"struct":{}}]], [[{"struct":["i32",7]}]],
    [[{"array":["i32"]}]], [[{"array":{"mut":"i32","x":1}}]],
    [[{"array":{"ref":{"struct":4294967296}}}]], [[{"array":{"null":{"array":-1}}}]],
    [[{"array":{"ref":{"func":1.5}}}]], [[{"array":{"ref":{"func":null}}}]]
]"#;

#[test]
fn refuses_other_values(rt: HostRuntime) -> Result<(), Fail> {
    let rows = Value::from_str(rt.alloc(), REFUSED)?;
    for row in rows.as_array().ok_or("not a list")? {
        assert_eq!(rt; decode_groups(rt.alloc(), row)?, None, "at {row}");
    }
    Ok(())
}
