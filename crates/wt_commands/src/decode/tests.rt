//! Rows of texts, and the commands that they stand for.

use super::*;
use crate::command::NamedType;
use crate::host_type::{HostHeap, HostRef, HostShape, HostSub, HostVal};
use std::test::Fail;
use wt_env::limits::EngineLimits;
use wt_env::seq::Seq;

fn commands_of(alloc: Global, value: &Value) -> Result<Vec<Command>, DecodeError> {
    decode(alloc, value).map(|input| input.commands)
}

#[test]
fn decodes_lists(rt: HostRuntime) -> Result<(), Fail> {
    let alloc = rt.alloc();
    let func = Command::HostType {
        by: 0,
        sub: HostSub::Declared {
            is_final: true,
            supertype: None,
            shape: HostShape::Func {
                params: Seq::one(alloc, HostVal::I32)?,
                results: Seq::one(alloc, HostVal::I64)?,
            },
        },
    };
    let rows = [
        ("[]", Ok(Vec::new(alloc))),
        (
            "[{\"do\":\"live\"}]",
            Ok(vec![in alloc; Command::Live { by: 0 }]?),
        ),
        (
            "[{\"do\":\"type\",\"sub\":{\"func\":[[\"i32\"],[\"i64\"]]}}]",
            Ok(vec![in alloc; func]?),
        ),
        ("{}", Err(DecodeError::BadCommand(0))),
        (
            "[{\"do\":\"live\"},{\"do\":\"live\",\"x\":1}]",
            Err(DecodeError::BadCommand(2)),
        ),
        (
            "[{\"do\":\"type\",\"sub\":{\"func\":[[\"i32\"]]}}]",
            Err(DecodeError::BadCommand(1)),
        ),
    ];
    for (text, want) in rows {
        let value = Value::from_str(alloc, text)?;
        assert_eq!(rt; commands_of(alloc, &value), want, "at {text}");
    }
    Ok(())
}

#[test]
fn decodes_commands(rt: HostRuntime) -> Result<(), Fail> {
    let alloc = rt.alloc();
    let rows = [
        (
            r#"[{"do":"clone","handle":0}]"#,
            Command::Clone { by: 0, handle: 0 },
        ),
        (
            r#"[{"do":"root","index":4294967295}]"#,
            Command::Root {
                by: 0,
                index: 4294967295,
            },
        ),
        (
            r#"[{"handle":3,"by":2,"do":"drop"}]"#,
            Command::Drop { by: 2, handle: 3 },
        ),
        (
            r#"[{"do":"sweep","by":1,"handle":7}]"#,
            Command::Sweep { by: 1, handle: 7 },
        ),
        (
            r#"[{"do":"trampoline","type":{"handle":3}}]"#,
            Command::Trampoline {
                by: 0,
                ty: NamedType::Handle(3),
            },
        ),
        (
            r#"[{"type":{"type":2,"handle":4294967295},"by":1,"do":"trampoline"}]"#,
            Command::Trampoline {
                by: 1,
                ty: NamedType::OfModule {
                    handle: 4294967295,
                    ty: 2,
                },
            },
        ),
        (
            r#"[{"sup":{"handle":2,"type":1},"sub":{"handle":3},"by":1,"do":"subtype"}]"#,
            Command::Subtype {
                by: 1,
                sub: NamedType::Handle(3),
                sup: NamedType::OfModule { handle: 2, ty: 1 },
            },
        ),
        (
            r#"[{"do":"matches","b":"anyref","a":{"ref":{"handle":5}},"by":1}]"#,
            Command::Matches {
                by: 1,
                a: HostVal::Ref(HostRef {
                    nullable: false,
                    heap: HostHeap::Named(NamedType::Handle(5)),
                }),
                b: HostVal::Ref(HostRef {
                    nullable: true,
                    heap: HostHeap::Any,
                }),
            },
        ),
        (
            r#"[{"do":"show","type":{"handle":2,"type":1}}]"#,
            Command::Show {
                by: 0,
                ty: NamedType::OfModule { handle: 2, ty: 1 },
            },
        ),
    ];
    for (text, want) in rows {
        let value = Value::from_str(alloc, text)?;
        let commands = vec![in alloc; want]?;
        assert_eq!(rt; commands_of(alloc, &value), Ok(commands), "at {text}");
    }
    Ok(())
}

#[test]
fn decodes_the_engine(rt: HostRuntime) -> Result<(), Fail> {
    let alloc = rt.alloc();
    let usual = usual_engine();
    let limits = EngineLimits {
        groups: 1,
        ..EngineLimits::USUAL
    };
    let rows = [
        ("[]", usual.limits(), usual.gc()),
        (r#"[{"do":"live"}]"#, EngineLimits::USUAL, true),
        (
            r#"[{"engine":{"gc":false,"limits":{"groups":1}}}]"#,
            limits,
            false,
        ),
    ];
    for (text, limits, gc) in rows {
        let value = Value::from_str(alloc, text)?;
        let engine = decode(alloc, &value)?.engine;
        assert_eq!(rt; engine.number(), 1, "at {text}");
        assert_eq!(rt; engine.limits(), limits, "at {text}");
        assert_eq!(rt; engine.gc(), gc, "at {text}");
    }
    Ok(())
}

/// Lists whose one element is no command.
const REFUSED: &str = r#"[
    [{"do":"drop","handle":1.5}], [{"do":"drop","handle":-1}], [{"do":"drop","handle":"0"}],
    [{"do":"drop","handle":null}], [{"do":"sweep"}], [{"do":"sweep","index":0}],
    [{"do":"root","index":4294967296}], [{"do":"root","handle":0}], [{"do":"clone","handle":0,"index":0}],
    [{"do":"clone","by":-1,"handle":0}], [{"do":"Drop","handle":0}], [{"do":"trampoline"}],
    [{"do":"trampoline","type":0}], [{"do":"trampoline","handle":0}], [{"do":"trampoline","type":{}}],
    [{"do":"trampoline","type":{"type":0}}], [{"do":"trampoline","type":{"handle":4294967296}}],
    [{"do":"trampoline","type":{"handle":0,"type":null}}],
    [{"do":"trampoline","type":{"handle":0,"type":4294967296}}],
    [{"do":"trampoline","type":{"handle":0,"x":0}}], [{"do":"trampoline","type":{"handle":0,"type":0,"x":0}}],
    [{"do":"trampoline","type":{"handle":0},"x":0}], [{"do":"subtype","sub":{"handle":0}}],
    [{"do":"subtype","sup":{"handle":0}}], [{"do":"subtype","sub":{"handle":0},"sup":0}],
    [{"do":"subtype","sub":{"handle":0},"sup":{"type":0}}],
    [{"do":"subtype","sub":{"handle":0},"sup":{"handle":0},"x":0}], [{"do":"matches","a":"i32"}],
    [{"do":"matches","b":"i32"}], [{"do":"matches","a":"i32","b":"i8"}],
    [{"do":"matches","a":{"ref":{"func":0}},"b":"i32"}], [{"do":"matches","a":{"handle":0},"b":"i32"}],
    [{"do":"matches","a":"i32","b":"i32","x":0}], [{"do":"matches","by":null,"a":"i32","b":"i32"}],
    [{"do":"show"}], [{"do":"show","handle":0}], [{"do":"show","type":0}],
    [{"do":"show","type":{"handle":0},"x":0}], [{"do":"type","sub":{"exn":[],"final":true}}]
]"#;

#[test]
fn refuses_other_commands(rt: HostRuntime) -> Result<(), Fail> {
    let alloc = rt.alloc();
    let rows = Value::from_str(alloc, REFUSED)?;
    for row in rows.as_array().ok_or("not a list")? {
        assert_eq!(rt;
            commands_of(alloc, row),
            Err(DecodeError::BadCommand(1)),
            "at {row}"
        );
    }
    Ok(())
}
