//! Rows of the rules of a module's types: which is told first, and where; and of declared supertypes.

use super::outcome;
use std::alloc::Global;
use std::test::Fail;
use wt_env::memory::OutOfMemory;
use wt_env::status::Status;

/// A list of one module, by its groups.
fn module(alloc: Global, groups: &str) -> Result<String, OutOfMemory> {
    let mut list = String::new(alloc);
    write!(list, "[{{\"do\":\"module\",\"groups\":{groups}}}]")?;
    Ok(list)
}

/// What is written where a member breaks a rule.
fn refused(alloc: Global, place: &str) -> Result<String, OutOfMemory> {
    let mut line = String::new(alloc);
    write!(line, "refused InvalidModule: {place}\n")?;
    Ok(line)
}

/// A breach of each rule.
const EACH: [(&str, &str); 10] = [
    (
        r#"[[{"struct":[{"ref":{"struct":1}}]}]]"#,
        "group 0 member 0: forward",
    ),
    (
        r#"[[{"final":false,"super":0,"struct":[]}]]"#,
        "group 0 member 0: super-order",
    ),
    (
        r#"[[{"struct":[]},{"struct":[{"ref":{"func":0}}]}]]"#,
        "group 0 member 1: kind",
    ),
    (
        r#"[[{"struct":[]}],[{"super":0,"struct":[]}]]"#,
        "group 1 member 0: super-final",
    ),
    (
        r#"[[{"final":false,"struct":[]}],[{"super":0,"func":[[],[]]}]]"#,
        "group 1 member 0: super-kind",
    ),
    (
        r#"[[{"final":false,"struct":["i32"]}],[{"super":0,"struct":[]}]]"#,
        "group 1 member 0: super-mismatch",
    ),
    (
        r#"[[{"func":[[],[]]}],[{"final":false,"exn":0,"fields":[]}]]"#,
        "group 1 member 0: exn-open",
    ),
    (
        r#"[[{"func":[[],["i32"]]}],[{"exn":0,"fields":[]}]]"#,
        "group 1 member 0: exn-results",
    ),
    (
        r#"[[{"func":[["i32","i64"],[]]}],[{"exn":0,"fields":["i32"]}]]"#,
        "group 1 member 0: exn-fields",
    ),
    (
        r#"[[{"func":[["i32","i64"],[]]}],[{"exn":0,"fields":["i32","i32"]}]]"#,
        "group 1 member 0: exn-fields",
    ),
];

/// Two breaches, of which one comes first.
const FIRST: [(&str, &str); 6] = [
    // the order of a later member comes before the kind that an earlier one names
    (
        r#"[[{"struct":[{"ref":{"func":0}}]},{"super":1,"struct":[]}]]"#,
        "group 0 member 1: super-order",
    ),
    // of one member its references come before its supertype
    (
        r#"[[{"struct":[]}],[{"super":0,"struct":[{"ref":{"func":0}}]}]]"#,
        "group 1 member 0: kind",
    ),
    // that a supertype is final comes before its kind, and that before the shapes
    (
        r#"[[{"struct":[]}],[{"super":0,"func":[[],[]]}]]"#,
        "group 1 member 0: super-final",
    ),
    // an earlier member's shape comes before what a later one names
    (
        r#"[[{"final":false,"struct":["i32"]}],[{"super":0,"struct":["i64"]},{"struct":[{"ref":{"func":0}}]}]]"#,
        "group 1 member 0: super-mismatch",
    ),
    // an earlier group's exception comes before a later group's order
    (
        r#"[[{"func":[[],["i32"]]}],[{"exn":0,"fields":[]}],[{"super":2,"struct":[]}]]"#,
        "group 1 member 0: exn-results",
    ),
    // an exception that may have subtypes comes before its function's results
    (
        r#"[[{"func":[[],["i32"]]}],[{"final":false,"exn":0,"fields":[]}]]"#,
        "group 1 member 0: exn-open",
    ),
];

/// Shapes that don't match those of their supertypes.
const UNFIT: [(&str, &str); 4] = [
    // a variable field is no smaller
    (
        r#"[[{"final":false,"struct":[{"mut":"anyref"}]}],[{"super":0,"struct":[{"mut":"eqref"}]}]]"#,
        "group 1 member 0: super-mismatch",
    ),
    // nor a parameter
    (
        r#"[[{"final":false,"func":[["anyref"],[]]}],[{"super":0,"func":[["eqref"],[]]}]]"#,
        "group 1 member 0: super-mismatch",
    ),
    // nor is a result greater
    (
        r#"[[{"final":false,"func":[[],["eqref"]]}],[{"super":0,"func":[[],["anyref"]]}]]"#,
        "group 1 member 0: super-mismatch",
    ),
    // a constant field is no variable one
    (
        r#"[[{"final":false,"array":"i8"}],[{"super":0,"array":{"mut":"i8"}}]]"#,
        "group 1 member 0: super-mismatch",
    ),
];

fn are_refused(alloc: Global, rows: &[(&str, &str)]) -> Result<bool, OutOfMemory> {
    for (groups, place) in rows {
        let list = module(alloc, groups)?;
        let (answered, written) = outcome(alloc, "run", list.as_str(), &[], &[])?;
        let line = refused(alloc, place)?;
        if answered != Status::Done || written.as_slice() != line.as_bytes() {
            return Ok(false);
        }
    }
    Ok(true)
}

#[test]
fn tells_each_rule(rt: HostRuntime) -> Result<(), Fail> {
    assert!(rt; are_refused(rt.alloc(), &EACH)?);
    Ok(())
}

#[test]
fn tells_the_first_rule(rt: HostRuntime) -> Result<(), Fail> {
    assert!(rt; are_refused(rt.alloc(), &FIRST)?);
    Ok(())
}

#[test]
fn tells_unfit_shapes(rt: HostRuntime) -> Result<(), Fail> {
    assert!(rt; are_refused(rt.alloc(), &UNFIT)?);
    Ok(())
}

/// A refusal leaves what waits.
const REFUSED_AT_LAST: (&str, &str) = (
    r#"[
        {"do":"type","sub":{"func":[[],[]]}},
        {"do":"drop","handle":0},
        {"do":"module","groups":[[{"func":[[],[]]}],[{"func":[["i32"],[]]}],[{"func":[["i64"],[]]}],[{"super":1,"func":[["i32"],[]]}]]},
        {"do":"live"},
        {"do":"sweep","handle":0},
        {"do":"live"}
    ]"#,
    "type 0 index 0\nowed\nrefused InvalidModule: group 3 member 0: super-final\nlive 1 #1[0]\nremoved 1\nlive 0\n",
);

/// Three structs, each below the one before.
const THREE: (&str, &str) = (
    r#"[
        {"do":"module","groups":[[{"final":false,"struct":[]}],[{"final":false,"super":0,"struct":[]}],[{"super":1,"struct":[]}]]},
        {"do":"subtype","sub":{"handle":0,"type":2},"sup":{"handle":0,"type":0}},
        {"do":"subtype","sub":{"handle":0,"type":0},"sup":{"handle":0,"type":2}},
        {"do":"subtype","sub":{"handle":0,"type":2},"sup":{"handle":0,"type":2}}
    ]"#,
    "module 0 indices 0 1 2\nyes\nno\nyes\n",
);

/// An exception over a function, a continuation of it, and references to both.
const EXCEPTION: (&str, &str) = (
    r#"[{"do":"module","groups":[[{"func":[["i32"],[]]}],[{"exn":0,"fields":["i32"]},{"cont":0}],[{"struct":[{"ref":{"exn":1}},{"mut":{"null":{"cont":2}}}]}]]}]"#,
    "module 0 indices 0 1 2 3\n",
);

#[test]
fn answers_on_what_is_declared(rt: HostRuntime) -> Result<(), Fail> {
    for (input, output) in [REFUSED_AT_LAST, THREE, EXCEPTION] {
        let (answered, written) = outcome(rt.alloc(), "run", input, &[], &[])?;
        assert_eq!(rt; answered, Status::Done, "on {input}");
        assert_eq!(rt; written.as_slice(), output.as_bytes(), "on {input}");
    }
    Ok(())
}

/// A module of so many structs, each below the one before, and whether the last is below the first and the other way.
fn chain(alloc: Global, count: u32) -> Result<String, OutOfMemory> {
    let mut list = String::new(alloc);
    list.push_str(r#"[{"do":"module","groups":[[{"final":false,"struct":[]}]"#)?;
    for below in 0..count.saturating_sub(1) {
        write!(
            list,
            ",[{{\"final\":false,\"super\":{below},\"struct\":[]}}]"
        )?;
    }
    let last = count.saturating_sub(1);
    write!(
        list,
        "]}},{{\"do\":\"subtype\",\"sub\":{{\"handle\":0,\"type\":{last}}},\"sup\":{{\"handle\":0,\"type\":0}}}}"
    )?;
    write!(
        list,
        ",{{\"do\":\"subtype\",\"sub\":{{\"handle\":0,\"type\":0}},\"sup\":{{\"handle\":0,\"type\":{last}}}}}]"
    )?;
    Ok(list)
}

#[test]
fn answers_on_a_long_chain(rt: HostRuntime) -> Result<(), Fail> {
    let list = chain(rt.alloc(), 200)?;
    let (answered, written) = outcome(rt.alloc(), "run", list.as_str(), &[], &[])?;
    assert_eq!(rt; answered, Status::Done);
    assert!(rt; written.as_slice().ends_with(b"\nyes\nno\n"));
    Ok(())
}
