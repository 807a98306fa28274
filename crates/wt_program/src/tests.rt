//! Rows of the program: what it answers and writes, over sources and sinks in memory.

mod core_types;
mod rules;

use crate::read::LIMIT;
use crate::run::run;
use serde_json::Value;
use std::alloc::Global;
use std::test::Fail;
use wt_commands::command::{Command, are_commands};
use wt_commands::decode::decode;
use wt_commands::host_type::{HostShape, HostSub, HostVal};
use wt_env::limits::{Engine, EngineLimits, Limit};
use wt_env::memory::OutOfMemory;
use wt_env::memory_stream::{MemorySink, MemorySource};
use wt_env::seq::Seq;
use wt_env::status::Status;
use wt_env::text::Text;
use wt_registry::refusal::Full;
use wt_session::reply::{Refusal, Reply};
use wt_session::run::run_session;
use wt_session::session::Session;

/// The status of a run on these words and bytes, and what it wrote. Reads give three bytes at once and
/// writes take one, and the calls with these numbers fail.
fn outcome(
    alloc: Global,
    word: &str,
    input: &str,
    failing_reads: &[u64],
    failing_writes: &[u64],
) -> Result<(Status, Vec<u8>), OutOfMemory> {
    let mut words = Vec::new(alloc);
    words.push(Text::from_str(alloc, word)?)?;
    let bytes = Vec::from_slice(alloc, input.as_bytes())?;
    let mut source = MemorySource::new(bytes, Vec::from_slice(alloc, failing_reads)?, 3);
    let mut sink = MemorySink::new(alloc, Vec::from_slice(alloc, failing_writes)?, 1);
    let status = run(alloc, words.as_slice(), &mut source, &mut sink);
    Ok((status, Vec::from_slice(alloc, sink.bytes())?))
}

#[test]
fn answers_rows(rt: HostRuntime) -> Result<(), Fail> {
    let one = r#"[{"do":"type","sub":{"func":[["i32"],["i64"]]}},{"do":"live"}]"#;
    let rows = [
        ("run", "[]", Status::Done, ""),
        ("run", one, Status::Done, "type 0 index 0\nlive 1 #1[0]\n"),
        ("run", "{}", Status::BadCommand(0), ""),
        ("run", r#"[{"do":"live"},7]"#, Status::BadCommand(2), ""),
        ("walk", one, Status::Usage, ""),
        ("run", r#"[{"do":"live"}"#, Status::NotJson, ""),
    ];
    for (word, input, status, output) in rows {
        let (answered, written) = outcome(rt.alloc(), word, input, &[], &[])?;
        assert_eq!(rt; answered, status, "on {input}");
        assert_eq!(rt; written.as_slice(), output.as_bytes(), "on {input}");
    }
    Ok(())
}

#[test]
fn answers_parties(rt: HostRuntime) -> Result<(), Fail> {
    let two =
        r#"[{"do":"type","sub":{"func":[[],[]]}},{"do":"type","by":1,"sub":{"func":[[],[]]}},{"do":"live"}]"#;
    let rows = [
        (two, "type 0 index 0\ntype 0 index 0\nlive 1 #1[0]\n"),
        (
            r#"[{"do":"live","by":16}]"#,
            "refused Full: parties 16, wanted 17\n",
        ),
        (
            r#"[{"do":"live","by":4294967295}]"#,
            "refused Full: parties 16, wanted 4294967296\n",
        ),
    ];
    for (input, output) in rows {
        let (answered, written) = outcome(rt.alloc(), "run", input, &[], &[])?;
        assert_eq!(rt; answered, Status::Done, "on {input}");
        assert_eq!(rt; written.as_slice(), output.as_bytes(), "on {input}");
    }
    Ok(())
}

/// Two parties owe one group: the first sweep removes it, and the second finds it gone.
const SWEPT_TWICE: (&str, &str) = (
    r#"[
        {"do":"type","sub":{"func":[[],[]]}},
        {"do":"drop","handle":0},
        {"do":"type","by":1,"sub":{"func":[[],[]]}},
        {"do":"drop","by":1,"handle":0},
        {"do":"sweep","handle":0},
        {"do":"sweep","by":1,"handle":0},
        {"do":"live"}
    ]"#,
    "type 0 index 0\nowed\ntype 0 index 0\nowed\nremoved 1\ngone\nlive 0\n",
);

/// A debt on a removed group isn't on an equal one that is registered later.
const REGISTERED_AGAIN: (&str, &str) = (
    r#"[
        {"do":"type","sub":{"func":[[],[]]}},
        {"do":"drop","handle":0},
        {"do":"type","by":1,"sub":{"func":[[],[]]}},
        {"do":"drop","by":1,"handle":0},
        {"do":"sweep","handle":0},
        {"do":"type","sub":{"func":[[],[]]}},
        {"do":"sweep","by":1,"handle":0},
        {"do":"live"}
    ]"#,
    "type 0 index 0\nowed\ntype 0 index 0\nowed\nremoved 1\ntype 1 index 0\ngone\nlive 1 #2[0]\n",
);

/// A group that is held again before its sweep is kept, and the debt is spent.
const HELD_AGAIN: (&str, &str) = (
    r#"[
        {"do":"type","sub":{"func":[[],[]]}},
        {"do":"drop","handle":0},
        {"do":"type","sub":{"func":[[],[]]}},
        {"do":"sweep","handle":0},
        {"do":"live"},
        {"do":"sweep","handle":0}
    ]"#,
    "type 0 index 0\nowed\ntype 1 index 0\nkept\nlive 1 #1[0]\nrefused NoSuchHandle: party 0 has no debt 0\n",
);

/// Only the last of the handles on a group leaves a debt, and neither it nor a dropped handle is a type.
const LAST_OF_TWO: (&str, &str) = (
    r#"[
        {"do":"type","sub":{"func":[[],[]]}},
        {"do":"clone","handle":0},
        {"do":"drop","handle":0},
        {"do":"drop","handle":1},
        {"do":"clone","handle":1},
        {"do":"drop","handle":0}
    ]"#,
    "type 0 index 0\ntype 1 index 0\ndropped\nowed\nrefused NoSuchHandle: party 0 has no type 1\nrefused NoSuchHandle: party 0 has no type 0\n",
);

/// A root of another party is a handle of its own.
const ROOTED_BY_ANOTHER: (&str, &str) = (
    r#"[
        {"do":"type","sub":{"func":[[],[]]}},
        {"do":"root","by":1,"index":0},
        {"do":"drop","handle":0},
        {"do":"drop","by":1,"handle":0}
    ]"#,
    "type 0 index 0\ntype 0 index 0\ndropped\nowed\n",
);

const ROOTS_OF_NONE: (&str, &str) = (
    r#"[{"do":"root","index":4294967295},{"do":"root","index":7}]"#,
    "none\nnone\n",
);

/// A held type is no debt.
const SWEEP_OF_A_TYPE: (&str, &str) = (
    r#"[{"do":"type","sub":{"func":[[],[]]}},{"do":"sweep","handle":0}]"#,
    "type 0 index 0\nrefused NoSuchHandle: party 0 has no debt 0\n",
);

const SWEEP_OF_NOTHING: (&str, &str) = (
    r#"[{"do":"sweep","handle":0}]"#,
    "refused NoSuchHandle: party 0 has no debt 0\n",
);

const HANDLES_OF_NOBODY: (&str, &str) = (
    r#"[{"do":"clone","by":2,"handle":0},{"do":"drop","by":2,"handle":3}]"#,
    "refused NoSuchHandle: party 2 has no type 0\nrefused NoSuchHandle: party 2 has no type 3\n",
);

#[test]
fn answers_on_handles(rt: HostRuntime) -> Result<(), Fail> {
    let rows = [
        SWEPT_TWICE,
        REGISTERED_AGAIN,
        HELD_AGAIN,
        LAST_OF_TWO,
        ROOTED_BY_ANOTHER,
        ROOTS_OF_NONE,
        SWEEP_OF_A_TYPE,
        SWEEP_OF_NOTHING,
        HANDLES_OF_NOBODY,
    ];
    for (input, output) in rows {
        let (answered, written) = outcome(rt.alloc(), "run", input, &[], &[])?;
        assert_eq!(rt; answered, Status::Done, "on {input}");
        assert_eq!(rt; written.as_slice(), output.as_bytes(), "on {input}");
    }
    Ok(())
}

/// Mutually recursive groups that are equal meet, member by member.
const MUTUAL_TWICE: (&str, &str) = (
    r#"[
        {"do":"module","groups":[[{"struct":[{"ref":{"struct":1}}]},{"struct":[{"mut":{"ref":{"struct":0}}}]}]]},
        {"do":"module","by":1,"groups":[[{"struct":[{"ref":{"struct":1}}]},{"struct":[{"mut":{"ref":{"struct":0}}}]}]]},
        {"do":"live"},
        {"do":"release","handle":0},
        {"do":"live"},
        {"do":"release","by":1,"handle":0},
        {"do":"live"}
    ]"#,
    "module 0 indices 0 1\nmodule 0 indices 0 1\nlive 1 #1[0 1]\nreleased\nlive 1 #1[0 1]\nreleased\nlive 0\n",
);

/// A party may hold one group by two modules, and it stays until both are released.
const MUTUAL_TWICE_BY_ONE: (&str, &str) = (
    r#"[
        {"do":"module","groups":[[{"struct":[{"ref":{"struct":1}}]},{"struct":[{"mut":{"ref":{"struct":0}}}]}]]},
        {"do":"module","groups":[[{"struct":[{"ref":{"struct":1}}]},{"struct":[{"mut":{"ref":{"struct":0}}}]}]]},
        {"do":"live"},
        {"do":"release","handle":0},
        {"do":"live"},
        {"do":"release","handle":1},
        {"do":"live"}
    ]"#,
    "module 0 indices 0 1\nmodule 1 indices 0 1\nlive 1 #1[0 1]\nreleased\nlive 1 #1[0 1]\nreleased\nlive 0\n",
);

/// A group stays while one that is held names it, and goes with that one.
const KEPT_BY_A_ROOT: (&str, &str) = (
    r#"[
        {"do":"module","groups":[[{"struct":[{"ref":{"struct":0}}]}],[{"struct":[{"ref":{"struct":0}}]}]]},
        {"do":"root","index":1},
        {"do":"release","handle":0},
        {"do":"live"},
        {"do":"drop","handle":1},
        {"do":"sweep","handle":1},
        {"do":"live"}
    ]"#,
    "module 0 indices 0 1\ntype 1 index 1\nreleased\nlive 2 #1[0] #2[1]\nowed\nremoved 2\nlive 0\n",
);

/// A type refers to none after its group.
const FORWARD: (&str, &str) = (
    r#"[{"do":"module","groups":[[{"struct":[{"ref":{"struct":1}}]}]]},{"do":"live"}]"#,
    "refused InvalidModule: group 0 member 0: forward\nlive 0\n",
);

/// A reference says which kind its type is.
const ANOTHER_KIND: (&str, &str) = (
    r#"[{"do":"module","groups":[[{"func":[[],[]]},{"struct":[{"ref":{"struct":0}}]}]]},{"do":"live"}]"#,
    "refused InvalidModule: group 0 member 1: kind\nlive 0\n",
);

/// Equal groups of one module meet, and it holds the group once for each.
const ONE_GROUP_TWICE: (&str, &str) = (
    r#"[
        {"do":"module","groups":[[{"func":[[],[]]}],[{"func":[[],[]]}]]},
        {"do":"live"},
        {"do":"release","handle":0},
        {"do":"live"}
    ]"#,
    "module 0 indices 0 0\nlive 1 #1[0]\nreleased\nlive 0\n",
);

/// Equal members of one group are two types.
const ONE_MEMBER_TWICE: (&str, &str) = (
    r#"[{"do":"module","groups":[[{"func":[[],[]]},{"func":[[],[]]}]]},{"do":"live"}]"#,
    "module 0 indices 0 1\nlive 1 #1[0 1]\n",
);

/// A module's handle is no type, and a released one is no module. A module without groups is one.
const HANDLES_ON_MODULES: (&str, &str) = (
    r#"[
        {"do":"module","groups":[]},
        {"do":"drop","handle":0},
        {"do":"release","by":1,"handle":0},
        {"do":"release","handle":0},
        {"do":"release","handle":0},
        {"do":"sweep","handle":0}
    ]"#,
    "module 0 indices\nrefused NoSuchHandle: party 0 has no type 0\nrefused NoSuchHandle: party 1 has no module 0\nreleased\nrefused NoSuchHandle: party 0 has no module 0\nrefused NoSuchHandle: party 0 has no debt 0\n",
);

/// Equal groups have one trampoline, which is registered before them and leaves with the last of them.
const TRAMPOLINE_OF_TWO: (&str, &str) = (
    r#"[
        {"do":"module","groups":[[{"func":[[{"ref":{"func":1}}],[]]},{"func":[[{"ref":{"func":0}}],[]]}]]},
        {"do":"module","groups":[[{"func":[[{"ref":{"func":1}}],[]]},{"func":[[{"ref":{"func":0}}],[]]}]]},
        {"do":"trampoline","type":{"handle":0,"type":0}},
        {"do":"live"},
        {"do":"release","handle":0},
        {"do":"release","handle":1},
        {"do":"live"}
    ]"#,
    "module 0 indices 1 2\nmodule 1 indices 1 2\nindex 0\nlive 2 #1[0] #2[1 2]\nreleased\nreleased\nlive 0\n",
);

/// A function over numbers is its own trampoline, by a handle on it and in a module.
const OWN_TRAMPOLINE: (&str, &str) = (
    r#"[
        {"do":"type","sub":{"func":[["i32"],[]]}},
        {"do":"module","groups":[[{"func":[["i64"],[]]},{"func":[["i32"],[]]}]]},
        {"do":"trampoline","type":{"handle":0}},
        {"do":"trampoline","type":{"handle":1,"type":1}}
    ]"#,
    "type 0 index 0\nmodule 1 indices 1 2\nindex 0\nindex 2\n",
);

/// What is named is a function that the party has.
const NO_TRAMPOLINE: (&str, &str) = (
    r#"[
        {"do":"trampoline","type":{"handle":0}},
        {"do":"trampoline","by":1,"type":{"handle":0,"type":3}},
        {"do":"module","groups":[[{"struct":[]}]]},
        {"do":"root","index":0},
        {"do":"trampoline","type":{"handle":0}},
        {"do":"trampoline","type":{"handle":0,"type":0}},
        {"do":"trampoline","type":{"handle":0,"type":1}},
        {"do":"trampoline","type":{"handle":1}},
        {"do":"trampoline","type":{"handle":1,"type":0}},
        {"do":"trampoline","by":1,"type":{"handle":0}},
        {"do":"trampoline","by":16,"type":{"handle":0}}
    ]"#,
    "refused NoSuchHandle: party 0 has no type 0\nrefused NoSuchHandle: party 1 has no type 0.3\nmodule 0 indices 0\ntype 1 index 0\nrefused NoSuchHandle: party 0 has no type 0\nrefused NoSuchHandle: party 0 has no type 0.0\nrefused NoSuchHandle: party 0 has no type 0.1\nrefused NoSuchHandle: party 0 has no type 1\nrefused NoSuchHandle: party 0 has no type 1.0\nrefused NoSuchHandle: party 1 has no type 0\nrefused Full: parties 16, wanted 17\n",
);

#[test]
fn answers_on_trampolines(rt: HostRuntime) -> Result<(), Fail> {
    let rows = [TRAMPOLINE_OF_TWO, OWN_TRAMPOLINE, NO_TRAMPOLINE];
    for (input, output) in rows {
        let (answered, written) = outcome(rt.alloc(), "run", input, &[], &[])?;
        assert_eq!(rt; answered, Status::Done, "on {input}");
        assert_eq!(rt; written.as_slice(), output.as_bytes(), "on {input}");
    }
    Ok(())
}

/// Two members of a group that declare no supertype match themselves alone.
const NO_SUPERTYPE: (&str, &str) = (
    r#"[
        {"do":"module","groups":[[{"func":[[],[]]},{"func":[[],[]]}]]},
        {"do":"subtype","sub":{"handle":0,"type":0},"sup":{"handle":0,"type":1}},
        {"do":"subtype","sub":{"handle":0,"type":1},"sup":{"handle":0,"type":0}},
        {"do":"live"}
    ]"#,
    "module 0 indices 0 1\nno\nno\nlive 1 #1[0 1]\n",
);

/// A type is under itself, of any kind, and however it is named.
const UNDER_ITSELF: (&str, &str) = (
    r#"[
        {"do":"module","groups":[[{"struct":[]},{"array":"i8"}]]},
        {"do":"root","index":1},
        {"do":"subtype","sub":{"handle":0,"type":0},"sup":{"handle":0,"type":0}},
        {"do":"subtype","sub":{"handle":0,"type":1},"sup":{"handle":1}},
        {"do":"subtype","sub":{"handle":1},"sup":{"handle":0,"type":0}}
    ]"#,
    "module 0 indices 0 1\ntype 1 index 1\nyes\nyes\nno\n",
);

/// Both types are ones that the party has, and the first that isn't there is refused.
const NO_TYPES_TO_COMPARE: (&str, &str) = (
    r#"[
        {"do":"subtype","sub":{"handle":0},"sup":{"handle":1}},
        {"do":"type","sub":{"func":[[],[]]}},
        {"do":"subtype","sub":{"handle":1,"type":2},"sup":{"handle":2}},
        {"do":"subtype","sub":{"handle":0},"sup":{"handle":2}},
        {"do":"subtype","sub":{"handle":0},"sup":{"handle":0,"type":0}},
        {"do":"subtype","by":1,"sub":{"handle":0},"sup":{"handle":0}},
        {"do":"subtype","by":16,"sub":{"handle":0},"sup":{"handle":0}}
    ]"#,
    "refused NoSuchHandle: party 0 has no type 0\ntype 0 index 0\nrefused NoSuchHandle: party 0 has no type 1.2\nrefused NoSuchHandle: party 0 has no type 2\nrefused NoSuchHandle: party 0 has no type 0.0\nrefused NoSuchHandle: party 1 has no type 0\nrefused Full: parties 16, wanted 17\n",
);

#[test]
fn answers_on_supertypes(rt: HostRuntime) -> Result<(), Fail> {
    let rows = [NO_SUPERTYPE, UNDER_ITSELF, NO_TYPES_TO_COMPARE];
    for (input, output) in rows {
        let (answered, written) = outcome(rt.alloc(), "run", input, &[], &[])?;
        assert_eq!(rt; answered, Status::Done, "on {input}");
        assert_eq!(rt; written.as_slice(), output.as_bytes(), "on {input}");
    }
    Ok(())
}

#[test]
fn answers_on_modules(rt: HostRuntime) -> Result<(), Fail> {
    let rows = [
        MUTUAL_TWICE,
        MUTUAL_TWICE_BY_ONE,
        KEPT_BY_A_ROOT,
        FORWARD,
        ANOTHER_KIND,
        ONE_GROUP_TWICE,
        ONE_MEMBER_TWICE,
        HANDLES_ON_MODULES,
        FUNCTIONS_OVER_REFERENCES,
    ];
    for (input, output) in rows {
        let (answered, written) = outcome(rt.alloc(), "run", input, &[], &[])?;
        assert_eq!(rt; answered, Status::Done, "on {input}");
        assert_eq!(rt; written.as_slice(), output.as_bytes(), "on {input}");
    }
    Ok(())
}

#[test]
fn refuses_other_modules(rt: HostRuntime) -> Result<(), Fail> {
    let rows = [
        r#"[{"do":"module"}]"#,
        r#"[{"do":"module","groups":{}}]"#,
        r#"[{"do":"module","groups":[{"func":[[],[]]}]}]"#,
        r#"[{"do":"module","groups":[[{"func":[[],[]],"x":1}]]}]"#,
        r#"[{"do":"module","groups":[],"x":1}]"#,
        r#"[{"do":"release","handle":-1}]"#,
        r#"[{"do":"release"}]"#,
    ];
    for input in rows {
        let (answered, written) = outcome(rt.alloc(), "run", input, &[], &[])?;
        assert_eq!(rt; answered, Status::BadCommand(1), "on {input}");
        assert_eq!(rt; written.as_slice(), "".as_bytes(), "on {input}");
    }
    Ok(())
}

/// A function of a module takes and returns references too.
const FUNCTIONS_OVER_REFERENCES: (&str, &str) = (
    r#"[
        {"do":"module","groups":[[{"struct":[]}],[{"func":[[{"ref":{"struct":0}},"i32"],[{"null":{"func":1}}]]}]]},
        {"do":"live"},
        {"do":"release","handle":0},
        {"do":"live"}
    ]"#,
    "module 0 indices 0 2\nlive 3 #1[0] #2[1] #3[2]\nreleased\nlive 0\n",
);

/// An engine may stand as the first element, and then its limits hold and its garbage collection.
#[test]
fn answers_by_the_engine(rt: HostRuntime) -> Result<(), Fail> {
    let rows = [
        (r#"[{"engine":{}}]"#, ""),
        (
            r#"[{"engine":{"profile":1,"gc":true,"limits":{}}},{"do":"live"}]"#,
            "live 0\n",
        ),
        (
            r#"[{"engine":{"limits":{"parties":1}}},{"do":"live","by":1}]"#,
            "refused Full: parties 1, wanted 2\n",
        ),
        (
            r#"[{"engine":{"limits":{"parties":1024,"groups":16777216,"types":268435456,"references":1073741824,"ever":16777216,"holds":1073741824}}},{"do":"live","by":1024}]"#,
            "refused Full: parties 1024, wanted 1025\n",
        ),
        (
            r#"[{"engine":{"limits":{"groups":0}}},{"do":"type","sub":{"func":[[],[]]}}]"#,
            "refused Full: groups 0, wanted 1\n",
        ),
        (
            r#"[{"engine":{"gc":false}},{"do":"module","groups":[[{"struct":[]}]]}]"#,
            "refused NoGc: cannot define this type without a GC runtime enabled\n",
        ),
        (
            r#"[{"engine":{"limits":{"holds":1}}},{"do":"type","sub":{"func":[[],[]]}},{"do":"clone","handle":0}]"#,
            "type 0 index 0\nrefused Full: holds 1, wanted 2\n",
        ),
    ];
    for (input, output) in rows {
        let (answered, written) = outcome(rt.alloc(), "run", input, &[], &[])?;
        assert_eq!(rt; answered, Status::Done, "on {input}");
        assert_eq!(rt; written.as_slice(), output.as_bytes(), "on {input}");
    }
    Ok(())
}

#[test]
fn refuses_other_engines(rt: HostRuntime) -> Result<(), Fail> {
    let rows = [
        (r#"[{"engine":{"limits":{"parties":1025}}}]"#, 1),
        (r#"[{"engine":{"limits":{"groups":16777217}}}]"#, 1),
        (r#"[{"engine":{"limits":{"types":268435457}}}]"#, 1),
        (r#"[{"engine":{"limits":{"references":1073741825}}}]"#, 1),
        (r#"[{"engine":{"limits":{"ever":16777217}}}]"#, 1),
        (r#"[{"engine":{"limits":{"holds":1073741825}}}]"#, 1),
        (
            r#"[{"engine":{"limits":{"holds":18446744073709551616}}}]"#,
            1,
        ),
        (r#"[{"engine":{"limits":{"ever":-1}}}]"#, 1),
        (r#"[{"engine":{"limits":{"ever":1.0}}}]"#, 1),
        (r#"[{"engine":{"limits":{"ever":null}}}]"#, 1),
        (r#"[{"engine":{"limits":{"handles":1}}}]"#, 1),
        (r#"[{"engine":{"limits":[]}}]"#, 1),
        (r#"[{"engine":{"limits":null}}]"#, 1),
        (r#"[{"engine":{"gc":null}}]"#, 1),
        (r#"[{"engine":{"gc":1}}]"#, 1),
        (r#"[{"engine":{"profile":2}}]"#, 1),
        (r#"[{"engine":{"profile":"1"}}]"#, 1),
        (r#"[{"engine":{"x":1}}]"#, 1),
        (r#"[{"engine":{"gc":true,"x":1}}]"#, 1),
        (r#"[{"engine":{},"do":"live"}]"#, 1),
        (r#"[{"engine":7}]"#, 1),
        (r#"[{"engine":null}]"#, 1),
        (r#"[{"engine":{}},7]"#, 2),
        (r#"[{"engine":{}},{"engine":{}}]"#, 2),
        (r#"[{"do":"live"},{"engine":{}}]"#, 2),
        (r#"[{"engine":{}},{"do":"live"},{"do":"love"}]"#, 3),
    ];
    for (input, place) in rows {
        let (answered, written) = outcome(rt.alloc(), "run", input, &[], &[])?;
        assert_eq!(rt; answered, Status::BadCommand(place), "on {input}");
        assert_eq!(rt; written.as_slice(), "".as_bytes(), "on {input}");
    }
    Ok(())
}

/// Without garbage collection a module has functions alone.
#[test]
fn refuses_structs_without_gc(rt: HostRuntime) -> Result<(), Fail> {
    let alloc = rt.alloc();
    let text = r#"[{"do":"module","groups":[[{"func":[[],[]]}],[{"struct":[]}]]},{"do":"live"}]"#;
    let commands = decode(alloc, &Value::from_str(alloc, text)?)?.commands;
    let mut replies = Vec::new(alloc);
    let mut session = Session::new(alloc, Engine::new(1, EngineLimits::USUAL, false));
    assert!(rt; are_commands(commands.as_slice()));
    let answered = run_session(&mut session, commands.as_slice(), &mut replies);
    session.close();
    assert!(rt; answered.is_ok());
    let lines = crate::text::text(alloc, replies.as_slice())?;
    assert_eq!(rt;
        lines.as_str(),
        "refused NoGc: cannot define this type without a GC runtime enabled\nlive 0\n"
    );
    Ok(())
}

#[test]
fn refuses_other_numbers(rt: HostRuntime) -> Result<(), Fail> {
    let rows = [
        r#"[{"by":4294967296,"do":"live"}]"#,
        r#"[{"by":1.5,"do":"live"}]"#,
        r#"[{"by":-1,"do":"live"}]"#,
        r#"[{"by":null,"do":"live"}]"#,
        r#"[{"by":1,"do":"live","x":1}]"#,
        r#"[{"do":"drop","handle":1.5}]"#,
    ];
    for input in rows {
        let (answered, written) = outcome(rt.alloc(), "run", input, &[], &[])?;
        assert_eq!(rt; answered, Status::BadCommand(1), "on {input}");
        assert_eq!(rt; written.as_slice(), "".as_bytes(), "on {input}");
    }
    Ok(())
}

#[test]
fn answers_faults(rt: HostRuntime) -> Result<(), Fail> {
    let live = r#"[{"do":"live"}]"#;
    let rows = [
        (1, 9, Status::ReadFault, ""),
        (2, 9, Status::ReadFault, ""),
        (9, 3, Status::WriteFault, "li"),
    ];
    for (failing_read, failing_write, status, output) in rows {
        let (answered, written) = outcome(
            rt.alloc(),
            "run",
            live,
            &[failing_read],
            &[failing_write],
        )?;
        assert_eq!(rt; answered, status, "at {failing_read} and {failing_write}");
        assert_eq!(rt; written.as_slice(), output.as_bytes());
    }
    Ok(())
}

#[test]
fn refuses_long_input(rt: HostRuntime) -> Result<(), Fail> {
    let alloc = rt.alloc();
    let mut words = Vec::new(alloc);
    words.push(Text::from_str(alloc, "run")?)?;
    for (length, status) in [(LIMIT, Status::NotJson), (LIMIT + 1, Status::TooLong)] {
        let blanks = vec![in alloc; b' '; length]?;
        let mut source = MemorySource::new(blanks, Vec::new(alloc), 4096);
        let mut sink = MemorySink::new(alloc, Vec::new(alloc), 1);
        let answered = run(alloc, words.as_slice(), &mut source, &mut sink);
        assert_eq!(rt; answered, status, "at {length}");
        assert!(rt; sink.bytes().is_empty(), "at {length}");
    }
    Ok(())
}

/// Registers the function type without results that has this one parameter.
fn registration(alloc: Global, param: HostVal) -> Result<Command, OutOfMemory> {
    Ok(Command::HostType {
        by: 0,
        sub: HostSub::Declared {
            is_final: true,
            supertype: None,
            shape: HostShape::Func {
                params: Seq::one(alloc, param)?,
                results: Seq::new(alloc),
            },
        },
    })
}

#[test]
fn refuses_a_second_group(rt: HostRuntime) -> Result<(), Fail> {
    let alloc = rt.alloc();
    let limits = EngineLimits {
        groups: 1,
        ..EngineLimits::USUAL
    };
    let mut commands = Vec::new(alloc);
    commands.push(registration(alloc, HostVal::I32)?)?;
    commands.push(registration(alloc, HostVal::I64)?)?;
    let mut replies = Vec::new(alloc);
    let mut session = Session::new(alloc, Engine::new(1, limits, true));
    assert!(rt; are_commands(commands.as_slice()));
    let answered = run_session(&mut session, commands.as_slice(), &mut replies);
    session.close();
    assert!(rt; answered.is_ok());
    let full = Full {
        limit: Limit::Groups,
        bound: 1,
        wanted: 2,
    };
    let expected = [
        Reply::TypeMade {
            handle: 0,
            index: 0,
        },
        Reply::Refused(Refusal::Full(full)),
    ];
    assert_eq!(rt; replies.as_slice(), expected.as_slice());
    Ok(())
}
