//! Types that a host describes, matches and texts, in new sessions.

use crate::command::{Command, NamedType};
use crate::host_type::{HostField, HostHeap, HostRef, HostShape, HostStorage, HostSub, HostVal};
use crate::reply::{HandleKind, Refusal, Reply};
use crate::run::run_session;
use crate::session::Session;
use std::alloc::Global;
use std::process::Abort;
use std::test::Fail;
use wt_commands::command::are_commands;
use wt_env::limits::{Engine, EngineLimits};
use wt_env::memory::OutOfMemory;
use wt_env::seq::Seq;
use wt_env::text::Text;
use wt_env::types::VMSharedTypeIndex;
use wt_registry::swept::Swept;

/// The replies of a new session to these commands.
fn replies_to(rt: &impl Abort, alloc: Global, commands: &[Command]) -> Vec<Reply> {
    let mut replies = Vec::new(alloc);
    let mut session = Session::new(alloc, Engine::new(1, EngineLimits::USUAL, true));
    assert!(rt; are_commands(commands));
    let answered = run_session(&mut session, commands, &mut replies);
    session.close();
    assert!(rt; answered.is_ok());
    replies
}

fn shown(alloc: Global, text: &str) -> Result<Reply, OutOfMemory> {
    Ok(Reply::Show {
        text: Text::from_str(alloc, text)?,
    })
}

fn reference(nullable: bool, heap: HostHeap) -> HostVal {
    HostVal::Ref(HostRef { nullable, heap })
}

fn matching(a: HostVal, b: HostVal) -> Command {
    Command::Matches { by: 0, a, b }
}

fn handle(number: u32) -> NamedType {
    NamedType::Handle(number)
}

/// Registers the struct with these fields, which is below a type.
fn structure(
    alloc: Global,
    supertype: Option<NamedType>,
    fields: &[HostField],
) -> Result<Command, OutOfMemory> {
    Ok(Command::HostType {
        by: 0,
        sub: HostSub::Declared {
            is_final: true,
            supertype,
            shape: HostShape::Struct {
                fields: Seq::from_vec(fields.to_vec(alloc)?),
            },
        },
    })
}

#[test]
fn an_exception_is_held_with_its_function(rt: HostRuntime) -> Result<(), Fail> {
    let alloc = rt.alloc();
    let mut commands = Vec::new(alloc);
    commands.push(Command::HostType {
        by: 0,
        sub: HostSub::Exception {
            fields: Seq::one(alloc, HostVal::I32)?,
        },
    })?;
    commands.push(Command::Show {
        by: 0,
        ty: handle(0),
    })?;
    commands.push(Command::Drop { by: 0, handle: 0 })?;
    commands.push(Command::Sweep { by: 0, handle: 0 })?;
    let expected = [
        Reply::TypeMade {
            handle: 0,
            index: 1,
        },
        shown(alloc, "(exn (type (func (param i32))) (field i32))")?,
        Reply::Owed,
        Reply::Swept(Swept::Removed(2)),
    ];
    let replies = replies_to(&rt, alloc, commands.as_slice());
    assert_eq!(rt; replies.as_slice(), expected.as_slice());
    Ok(())
}

#[test]
fn names_come_before_what_else_is_refused(rt: HostRuntime) -> Result<(), Fail> {
    let alloc = rt.alloc();
    let number = HostField {
        element: HostStorage::Val(HostVal::I32),
        mutable: true,
    };
    let packed = HostField {
        element: HostStorage::I8,
        mutable: false,
    };
    let missing = HostField {
        element: HostStorage::Val(reference(true, HostHeap::Named(handle(7)))),
        mutable: false,
    };
    let i31 = reference(false, HostHeap::I31);
    let any = reference(true, HostHeap::Any);
    let own = reference(false, HostHeap::Named(handle(0)));
    let mut commands = Vec::new(alloc);
    commands.push(structure(alloc, None, [number, packed].as_slice())?)?;
    commands.push(Command::Show {
        by: 0,
        ty: handle(0),
    })?;
    commands.push(structure(alloc, Some(handle(0)), [missing].as_slice())?)?;
    commands.push(structure(alloc, Some(handle(0)), [number].as_slice())?)?;
    commands.push(matching(i31, any))?;
    commands.push(matching(any, i31))?;
    commands.push(matching(own, any))?;
    let expected = [
        Reply::TypeMade {
            handle: 0,
            index: 0,
        },
        shown(alloc, "(struct (field (mut i32)) (field i8))")?,
        Reply::Refused(Refusal::NoSuchHandle {
            party: 0,
            kind: HandleKind::Type,
            handle: 7,
        }),
        Reply::Refused(Refusal::FinalSupertype {
            supertype: VMSharedTypeIndex::new(0),
        }),
        Reply::Answer(true),
        Reply::Answer(false),
        Reply::Answer(true),
    ];
    let replies = replies_to(&rt, alloc, commands.as_slice());
    assert_eq!(rt; replies.as_slice(), expected.as_slice());
    Ok(())
}
