//! Commands of a party on its own handles.

ghost use Rattle.std.specs.Prelude.{◌≡◌, ◌<◌, [], true, false, None, IfOk, IfSome, IfNone, OnErr, IsOk};
ghost use Rattle.wt_session.specs.World.{row_of, takes_memory};
ghost use Rattle.wt_commands.specs.Commands.{party_of, IsCommand};
ghost use Rattle.wt_session.specs.Run.{party_outcome, done_by};
ghost use Rattle.wt_session.specs.Answered.{trees_asked, NamesTrees};
ghost use Rattle.wt_session.specs.Session.{rows_of, world_of, AreHandles, IsKept, Keeps};

use crate::counts::ObjectCounts;
use crate::handle::Handle;
use crate::module_handles::{register_module, release_module};
use crate::named_types::{
    match_types, no_such_type, show_type, subtype_of_types, trampoline_of_type,
};
use crate::party_handles::{PartyHandles, add_missing_parties};
use crate::reply::{HandleKind, Reply};
use crate::type_handles::{
    clone_type, drop_type, no_such_handle, register_type, root_type, sweep_debt,
};
use std::alloc::Global;
use wt_commands::command::Command;
use wt_env::memory::OutOfMemory;
use wt_registry::registered_type::PartyNumber;
use wt_registry::registry::TypeRegistry;

/// One command of a party below the limit, on the party's handles.
fn run_command(
    alloc: Global,
    registry: &mut TypeRegistry,
    party: &mut PartyNumber,
    row: &mut Vec<Handle>,
    command: &Command,
) -> Result<Reply, OutOfMemory>
    requires command { IsCommand command.now }
    requires by { party.old ≡ party_of command.now }
    requires below { party.old < registry.old.engine.limits.parties }
    requires handles { AreHandles registry.old party.old row.old.items }
    ensures ok { IfOk result (λ reply. party_outcome registry.old row.old.items command.now
        ≡ record { reply = reply; registry = registry.new; row = row.new.items }) }
    ensures named { IfOk result (λ reply. NamesTrees registry.new.made reply (trees_asked registry.old row.old.items command.now)) }
    ensures err { OnErr result ((registry.new ≡ registry.old) × (row.new.items ≡ row.old.items)) }
    ensures keeps { Keeps registry.old registry.new party.old row.new.items }
    ensures takes_no_memory { takes_memory command.now ≡ false → IsOk result }
{
    match command {
        Command::HostType { by: _, sub } => register_type(alloc, registry, party, row, sub),
        Command::Module { by: _, groups } => register_module(alloc, registry, party, row, groups),
        Command::Clone { by: _, handle } => clone_type(registry, party, row, *handle),
        Command::Root { by: _, index } => root_type(registry, party, row, *index),
        Command::Drop { by: _, handle } => Ok(drop_type(registry, party, row, *handle)),
        Command::Sweep { by: _, handle } => Ok(sweep_debt(registry, party, row, *handle)),
        Command::Release { by: _, handle } => { Ok(release_module(registry, party, row, *handle)) }
        Command::Trampoline { by: _, ty } => {
            Ok(trampoline_of_type(registry, party, row.as_slice(), *ty))
        }
        Command::Subtype { by: _, sub, sup } => {
            Ok(subtype_of_types(registry, party, row.as_slice(), *sub, *sup))
        }
        Command::Matches { by: _, a, b } => {
            Ok(match_types(registry, party.number(), row.as_slice(), *a, *b))
        }
        Command::Show { by: _, ty } => show_type(alloc, registry, party, row.as_slice(), *ty),
        Command::Live { by: _ } => Ok(Reply::Live(registry.live()?)),
    }
}

/// How a command is answered where its party has no handles, if it needs no room for any: a name is refused then. It takes
/// no memory.
fn reply_without_handles(registry: &TypeRegistry, command: &Command) -> Option<Reply>
    ensures told { IfSome result (λ reply. party_outcome registry.now [] command.now ≡ record { reply = reply; registry = registry.now; row = [] }) }
    ensures asked { IfSome result (λ reply. trees_asked registry.now [] command.now ≡ None) }
    ensures none { IfNone result (takes_memory command.now ≡ true) }
{
    let refusal = match command {
        Command::Clone { by, handle } => no_such_handle(*by, HandleKind::Type, *handle),
        Command::Drop { by, handle } => no_such_handle(*by, HandleKind::Type, *handle),
        Command::Sweep { by, handle } => no_such_handle(*by, HandleKind::Debt, *handle),
        Command::Release { by, handle } => no_such_handle(*by, HandleKind::Module, *handle),
        Command::Trampoline { by, ty } => no_such_type(*by, *ty),
        Command::Subtype { by, sub, sup: _ } => no_such_type(*by, *sub),
        Command::Show { by, ty } => no_such_type(*by, *ty),
        Command::Matches { by, a, b } => return Some(match_types(registry, *by, &[], *a, *b)),
        Command::HostType { by: _, sub: _ } => return None,
        Command::Module { by: _, groups: _ } => return None,
        Command::Root { by: _, index: _ } => return None,
        Command::Live { by: _ } => return None,
    };
    Some(Reply::Refused(refusal))
}

/// One command of a party below the limit. A drop, a sweep, a release, a trampoline, a subtype test and a match take no
/// memory.
pub(crate) fn run_command_of_party(
    alloc: Global,
    registry: &mut TypeRegistry,
    counts: &mut ObjectCounts,
    rows: &mut Vec<PartyHandles>,
    party: u32,
    command: &Command,
) -> Result<Reply, OutOfMemory>
    requires command { IsCommand command.now }
    requires by { party ≡ party_of command.now }
    requires below { party < registry.old.engine.limits.parties }
    requires kept { IsKept registry.old (rows_of rows.old.items) }
    ensures ok { IfOk result (λ reply. done_by (world_of registry.old counts.old (rows_of rows.old.items)) command.now
        ≡ (reply, world_of registry.new counts.new (rows_of rows.new.items))) }
    ensures named { IfOk result (λ reply. NamesTrees registry.new.made reply (trees_asked registry.old (row_of party (rows_of rows.old.items)) command.now)) }
    ensures err { OnErr result (world_of registry.new counts.new (rows_of rows.new.items) ≡ world_of registry.old counts.old (rows_of rows.old.items)) }
    ensures kept { IsKept registry.new (rows_of rows.new.items) }
    ensures takes_no_memory { takes_memory command.now ≡ false → IsOk result }
{
    if rows.len() <= party as usize {
        if let Some(reply) = reply_without_handles(registry, command) {
            counts.add_made(&reply);
            return Ok(reply);
        }
    }
    add_missing_parties(alloc, rows, party)?;
    let mut number = PartyNumber::new(party);
    let row = &mut rows[party as usize].handles;
    let reply = run_command(alloc, registry, &mut number, row, command)?;
    counts.add_made(&reply);
    Ok(reply)
}
