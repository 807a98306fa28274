//! Rows of texts, and the types that they stand for.

use super::*;
use std::test::Fail;

fn reference(nullable: bool, heap: HostHeap) -> HostVal {
    HostVal::Ref(HostRef { nullable, heap })
}

/// A nullable reference to each abstract heap type, spelled in its two ways, and one that isn't nullable.
const REFERENCES: &str = r#"[
    ["externref", {"null":"extern"}, {"ref":"extern"}],
    ["nullexternref", {"null":"noextern"}, {"ref":"noextern"}],
    ["funcref", {"null":"func"}, {"ref":"func"}],
    ["nullfuncref", {"null":"nofunc"}, {"ref":"nofunc"}],
    ["anyref", {"null":"any"}, {"ref":"any"}],
    ["eqref", {"null":"eq"}, {"ref":"eq"}],
    ["i31ref", {"null":"i31"}, {"ref":"i31"}],
    ["arrayref", {"null":"array"}, {"ref":"array"}],
    ["structref", {"null":"struct"}, {"ref":"struct"}],
    ["nullref", {"null":"none"}, {"ref":"none"}],
    ["contref", {"null":"cont"}, {"ref":"cont"}],
    ["nullcontref", {"null":"nocont"}, {"ref":"nocont"}],
    ["exnref", {"null":"exn"}, {"ref":"exn"}],
    ["nullexnref", {"null":"noexn"}, {"ref":"noexn"}]
]"#;

/// Those heap types, in the same order.
const HEAPS: [HostHeap; 14] = [
    HostHeap::Extern,
    HostHeap::NoExtern,
    HostHeap::Func,
    HostHeap::NoFunc,
    HostHeap::Any,
    HostHeap::Eq,
    HostHeap::I31,
    HostHeap::Array,
    HostHeap::Struct,
    HostHeap::None,
    HostHeap::Cont,
    HostHeap::NoCont,
    HostHeap::Exn,
    HostHeap::NoExn,
];

#[test]
fn reads_each_abstract_reference(rt: HostRuntime) -> Result<(), Fail> {
    let rows = Value::from_str(rt.alloc(), REFERENCES)?;
    let rows = rows.as_array().ok_or("not a list")?;
    assert_eq!(rt; rows.len(), HEAPS.len());
    for (row, heap) in rows.iter().zip(HEAPS) {
        let nullable = Some(reference(true, heap));
        let other = Some(reference(false, heap));
        assert_eq!(rt; row.get(0usize).and_then(decode_val), nullable, "at {row}");
        assert_eq!(rt; row.get(1usize).and_then(decode_val), nullable, "at {row}");
        assert_eq!(rt; row.get(2usize).and_then(decode_val), other, "at {row}");
    }
    Ok(())
}

#[test]
fn reads_value_types(rt: HostRuntime) -> Result<(), Fail> {
    let held = HostHeap::Named(NamedType::Handle(3));
    let of_module = HostHeap::Named(NamedType::OfModule { handle: 4, ty: 5 });
    let rows = [
        (r#""i32""#, HostVal::I32),
        (r#""i64""#, HostVal::I64),
        (r#""f32""#, HostVal::F32),
        (r#""f64""#, HostVal::F64),
        (r#""v128""#, HostVal::V128),
        (r#"{"ref":{"handle":3}}"#, reference(false, held)),
        (r#"{"null":{"handle":3}}"#, reference(true, held)),
        (
            r#"{"ref":{"type":5,"handle":4}}"#,
            reference(false, of_module),
        ),
        (
            r#"{"null":{"handle":4,"type":5}}"#,
            reference(true, of_module),
        ),
    ];
    for (text, want) in rows {
        let value = Value::from_str(rt.alloc(), text)?;
        assert_eq!(rt; decode_val(&value), Some(want), "at {text}");
    }
    Ok(())
}

#[test]
fn reads_types(rt: HostRuntime) -> Result<(), Fail> {
    let alloc = rt.alloc();
    let byte = HostField {
        element: HostStorage::I8,
        mutable: false,
    };
    let variable = HostField {
        element: HostStorage::Val(HostVal::I32),
        mutable: true,
    };
    let rows = [
        (
            r#"{"func":[["i32"],["anyref","f64"]]}"#,
            HostSub::Declared {
                is_final: true,
                supertype: None,
                shape: HostShape::Func {
                    params: Seq::one(alloc, HostVal::I32)?,
                    results: Seq::from_vec(vec![in alloc;
                        reference(true, HostHeap::Any),
                        HostVal::F64,
                    ]?),
                },
            },
        ),
        (
            r#"{"struct":[{"mut":"i32"},"i8"],"super":{"handle":0,"type":2},"final":false}"#,
            HostSub::Declared {
                is_final: false,
                supertype: Some(NamedType::OfModule { handle: 0, ty: 2 }),
                shape: HostShape::Struct {
                    fields: Seq::from_vec(vec![in alloc; variable, byte]?),
                },
            },
        ),
        (
            r#"{"final":true,"array":{"mut":"i16"}}"#,
            HostSub::Declared {
                is_final: true,
                supertype: None,
                shape: HostShape::Array(HostField {
                    element: HostStorage::I16,
                    mutable: true,
                }),
            },
        ),
        (
            r#"{"exn":["i32"]}"#,
            HostSub::Exception {
                fields: Seq::one(alloc, HostVal::I32)?,
            },
        ),
        (
            r#"{"tag":{"handle":7}}"#,
            HostSub::Tag(NamedType::Handle(7)),
        ),
    ];
    for (text, want) in rows {
        let value = Value::from_str(alloc, text)?;
        assert_eq!(rt; decode_sub(alloc, &value), Ok(Some(want)), "at {text}");
    }
    Ok(())
}

/// Values that stand for no type of a host.
const REFUSED: &str = r#"[
    null, 7, [], "func", {}, {"final":true}, {"super":{"handle":0}}, {"func":[["i32"]]},
    {"func":[[],[],[]]}, {"func":{}}, {"func":[[],[]],"x":1}, {"func":[[],[]],"struct":[]},
    {"func":[["i8"],[]]}, {"func":[[],[{"mut":"i32"}]]}, {"struct":"i32"}, {"struct":[{"mut":"i31"}]},
    {"array":["i32"]}, {"array":{"mut":"i8","x":1}}, {"array":{"mut":{"mut":"i8"}}}, {"array":null},
    {"final":1,"struct":[]}, {"final":null,"struct":[]}, {"super":0,"struct":[]},
    {"super":null,"struct":[]}, {"super":{"struct":0},"struct":[]}, {"super":{"type":0},"struct":[]},
    {"exn":["i32"],"final":true}, {"exn":[],"super":{"handle":0}}, {"exn":0}, {"exn":0,"fields":[]},
    {"exn":["i8"]}, {"exn":[{"mut":"i32"}]}, {"exn":[],"tag":{"handle":0}}, {"exn":[],"func":[[],[]]},
    {"tag":0}, {"tag":{}}, {"tag":{"handle":0},"final":true}, {"tag":{"handle":0},"super":{"handle":0}},
    {"tag":{"func":0}}, {"cont":0}, {"cont":{"handle":0}},
    {"array":"I32"}, {"array":"i31"}, {"array":"any"}, {"array":{"ref":"anyref"}}, {"array":{"ref":"i32"}},
    {"array":{"ref":{"func":0}}}, {"array":{"null":{"struct":0}}}, {"array":{"ref":{"cont":0}}},
    {"array":{"ref":{}}}, {"array":{"ref":0}}, {"array":{"ref":null}}, {"array":{"ref":{"type":0}}},
    {"array":{"ref":{"handle":-1}}}, {"array":{"ref":{"handle":4294967296}}},
    {"array":{"null":{"handle":0,"type":1.5}}}, {"array":{"null":{"handle":0,"x":0}}},
    {"array":{"ref":{"handle":0},"null":{"handle":0}}}, {"array":{"ref":{"handle":0},"x":0}},
    {"array":{"handle":0}}
]"#;

#[test]
fn refuses_other_values(rt: HostRuntime) -> Result<(), Fail> {
    let alloc = rt.alloc();
    let rows = Value::from_str(alloc, REFUSED)?;
    for row in rows.as_array().ok_or("not a list")? {
        assert_eq!(rt; decode_sub(alloc, row), Ok(None), "at {row}");
    }
    Ok(())
}
