//! Rows of the types that a host registers, asks about and is shown.

use super::outcome;
use std::alloc::Global;
use std::test::Fail;
use wt_env::memory::OutOfMemory;
use wt_env::status::Status;

/// A function type is shown with its parameters and its results.
const SHOWN_FUNCTION: (&str, &str) = (
    r#"[
        {"do":"type","sub":{"func":[["i32"],["i64"]]}},
        {"do":"show","type":{"handle":0}},
        {"do":"live"}
    ]"#,
    "type 0 index 0\nshow (type (func (param i32) (result i64)))\nlive 1 #1[0]\n",
);

/// A reference to a type of a module makes another type than one within its own group, with the same trampoline.
const FUNCTION_OVER_A_MODULE: (&str, &str) = (
    r#"[
        {"do":"module","groups":[[{"func":[[{"ref":{"func":0}}],[]]}]]},
        {"do":"type","sub":{"func":[[{"ref":{"handle":0,"type":0}}],[]]}},
        {"do":"live"}
    ]"#,
    "module 0 indices 1\ntype 1 index 2\nlive 3 #1[0] #2[1] #3[2]\n",
);

/// A chain of declared supertypes, whose last type is final.
const BELOW_A_FINAL_TYPE: (&str, &str) = (
    r#"[
        {"do":"module","groups":[[{"final":false,"struct":[]}],[{"final":false,"super":0,"struct":[]}],[{"super":1,"struct":[]}]]},
        {"do":"subtype","sub":{"handle":0,"type":2},"sup":{"handle":0,"type":0}},
        {"do":"subtype","sub":{"handle":0,"type":0},"sup":{"handle":0,"type":2}},
        {"do":"subtype","sub":{"handle":0,"type":2},"sup":{"handle":0,"type":2}},
        {"do":"type","sub":{"super":{"handle":0,"type":2},"struct":[]}}
    ]"#,
    "module 0 indices 0 1 2\nyes\nno\nyes\nrefused FinalSupertype: cannot create a subtype of a final supertype\n",
);

/// An exception is registered behind the function that has its fields as parameters.
const EXCEPTION: (&str, &str) = (
    r#"[
        {"do":"type","sub":{"exn":["i32"]}},
        {"do":"show","type":{"handle":0}},
        {"do":"live"},
        {"do":"drop","handle":0},
        {"do":"sweep","handle":0}
    ]"#,
    "type 0 index 1\nshow (exn (type (func (param i32))) (field i32))\nlive 2 #1[0] #2[1]\nowed\nremoved 2\n",
);

/// No exception is over a function that has results.
const TAG_WITH_RESULTS: (&str, &str) = (
    r#"[
        {"do":"type","sub":{"func":[[],["i32"]]}},
        {"do":"type","sub":{"tag":{"handle":0}}}
    ]"#,
    "type 0 index 0\nrefused TagHasResults: Cannot create an exception type from a tag type with results in the signature\n",
);

/// Without garbage collection a host registers functions alone.
const NO_GC: (&str, &str) = (
    r#"[{"engine":{"gc":false}},{"do":"type","sub":{"struct":[]}}]"#,
    "refused NoGc: cannot define this type without a GC runtime enabled\n",
);

/// A trampoline counts as a group.
const ONE_GROUP_TOO_MANY: (&str, &str) = (
    r#"[
        {"engine":{"limits":{"groups":1}}},
        {"do":"module","groups":[[{"func":[[{"ref":{"func":1}}],[]]},{"func":[[{"ref":{"func":0}}],[]]}]]},
        {"do":"live"}
    ]"#,
    "refused Full: groups 1, wanted 2\nlive 0\n",
);

/// An abstract type matches a greater one of its hierarchy, and a reference that isn't nullable one that is.
const MATCHES: (&str, &str) = (
    r#"[
        {"do":"matches","a":{"ref":"i31"},"b":"anyref"},
        {"do":"matches","a":"anyref","b":{"ref":"i31"}}
    ]"#,
    "yes\nno\n",
);

/// A struct is shown with its fields.
const SHOWN_STRUCT: (&str, &str) = (
    r#"[
        {"do":"type","sub":{"struct":[{"mut":"i32"},"i8"]}},
        {"do":"show","type":{"handle":0}}
    ]"#,
    "type 0 index 0\nshow (struct (field (mut i32)) (field i8))\n",
);

#[test]
fn answers_on_types_of_a_host(rt: HostRuntime) -> Result<(), Fail> {
    let rows = [
        SHOWN_FUNCTION,
        FUNCTION_OVER_A_MODULE,
        BELOW_A_FINAL_TYPE,
        EXCEPTION,
        TAG_WITH_RESULTS,
        NO_GC,
        ONE_GROUP_TOO_MANY,
        MATCHES,
        SHOWN_STRUCT,
    ];
    for (input, output) in rows {
        let (answered, written) = outcome(rt.alloc(), "run", input, &[], &[])?;
        assert_eq!(rt; answered, Status::Done, "on {input}");
        assert_eq!(rt; written.as_slice(), output.as_bytes(), "on {input}");
    }
    Ok(())
}

/// Names that a type of a host, a match or a text needs, and that the party hasn't. The supertype comes before the shape, and
/// the first value type before the second.
const MISSING_NAMES: (&str, &str) = (
    r#"[
        {"do":"show","type":{"handle":0}},
        {"do":"type","sub":{"struct":[{"ref":{"handle":1,"type":2}}],"super":{"handle":3}}},
        {"do":"type","sub":{"struct":[{"ref":{"handle":1,"type":2}}]}},
        {"do":"type","sub":{"tag":{"handle":4}}},
        {"do":"matches","by":1,"a":{"null":{"handle":5}},"b":{"ref":{"handle":6}}},
        {"do":"matches","by":1,"a":"i32","b":{"ref":{"handle":6,"type":7}}},
        {"do":"matches","by":16,"a":"i32","b":"i32"}
    ]"#,
    "refused NoSuchHandle: party 0 has no type 0\nrefused NoSuchHandle: party 0 has no type 3\nrefused NoSuchHandle: party 0 has no type 1.2\nrefused NoSuchHandle: party 0 has no type 4\nrefused NoSuchHandle: party 1 has no type 5\nrefused NoSuchHandle: party 1 has no type 6.7\nrefused Full: parties 16, wanted 17\n",
);

/// A supertype of another kind, and a tag over no function, are no types for their places.
const NAMES_OF_ANOTHER_KIND: (&str, &str) = (
    r#"[
        {"do":"module","groups":[[{"final":false,"struct":[]}]]},
        {"do":"type","sub":{"super":{"handle":0,"type":0},"array":"i8"}},
        {"do":"type","sub":{"tag":{"handle":0,"type":0}}}
    ]"#,
    "module 0 indices 0\nrefused NoSuchHandle: party 0 has no type 0.0\nrefused NoSuchHandle: party 0 has no type 0.0\n",
);

#[test]
fn refuses_names_of_nothing(rt: HostRuntime) -> Result<(), Fail> {
    for (input, output) in [MISSING_NAMES, NAMES_OF_ANOTHER_KIND] {
        let (answered, written) = outcome(rt.alloc(), "run", input, &[], &[])?;
        assert_eq!(rt; answered, Status::Done, "on {input}");
        assert_eq!(rt; written.as_slice(), output.as_bytes(), "on {input}");
    }
    Ok(())
}

/// The registration of a struct of at least one field, all `i32`.
fn structure(alloc: Global, fields: u32) -> Result<String, OutOfMemory> {
    let mut list = String::from_str(alloc, r#"[{"do":"type","sub":{"struct":["i32""#)?;
    for _ in 1..fields {
        list.push_str(",\"i32\"")?;
    }
    list.push_str("]}}]")?;
    Ok(list)
}

/// A struct has at most 10,000 fields.
#[test]
fn refuses_many_fields(rt: HostRuntime) -> Result<(), Fail> {
    let rows = [
        (10_000, "type 0 index 0\n"),
        (
            10_001,
            "refused TooManyFields: attempted to define a struct type with 10001 fields, but that is more than the maximum supported number of fields (10000)\n",
        ),
    ];
    for (fields, output) in rows {
        let list = structure(rt.alloc(), fields)?;
        let (answered, written) = outcome(rt.alloc(), "run", list.as_str(), &[], &[])?;
        assert_eq!(rt; answered, Status::Done, "on {fields}");
        assert_eq!(rt; written.as_slice(), output.as_bytes(), "on {fields}");
    }
    Ok(())
}
