//! A command from JSON: which one a value stands for, if any. It rests on `decode_host`, on `decode_groups` of `wt_decode`,
//! and on what `serde_json` says of looking into a value.

ghost use Rattle.std.specs.Prelude.{◌≡◌, IfOk};
ghost use Rattle.serde_json.specs.View.{view};
ghost use Rattle.wt_commands.specs.Decode.{own_key_count, decode_by, by_and_number, decode_live, type_from, decode_type, module_from, decode_module, decode_clone, decode_root, decode_drop, decode_sweep, decode_release, trampoline_from, decode_trampoline, show_from, decode_show, named_type_at, subtype_from, decode_subtype, val_at, matches_from, decode_matches, decode_command};

use crate::command::{Command, NamedType};
use crate::decode_host::{decode_named_type, decode_sub, decode_u32_at, decode_val};
use crate::host_type::HostVal;
use serde_json::Value;
use std::alloc::Global;
use wt_decode::decode_groups::decode_groups;
use wt_decode::json::{decode_u32, key_count};
use wt_env::memory::OutOfMemory;

/// A command: an object whose key `do` says which.
pub fn decode_command(alloc: Global, value: &Value) -> Result<Option<Command>, OutOfMemory>
    ensures { IfOk result (λ command. command ≡ decode_command (view value.now)) }
{
    match value.get("do").and_then(Value::as_str) {
        Some("live") => Ok(decode_live(value)),
        Some("type") => decode_type(alloc, value),
        Some("module") => decode_module(alloc, value),
        Some("clone") => Ok(decode_clone(value)),
        Some("root") => Ok(decode_root(value)),
        Some("drop") => Ok(decode_drop(value)),
        Some("sweep") => Ok(decode_sweep(value)),
        Some("release") => Ok(decode_release(value)),
        Some("trampoline") => Ok(decode_trampoline(value)),
        Some("subtype") => Ok(decode_subtype(value)),
        Some("matches") => Ok(decode_matches(value)),
        Some("show") => Ok(decode_show(value)),
        _ => Ok(None),
    }
}

/// `{"do": "live"}`.
fn decode_live(value: &Value) -> Option<Command>
    ensures { result ≡ decode_live (view value.now) }
{
    if own_key_count(value) != 1 {
        return None;
    }
    decode_by(value).map(|by| Command::Live { by })
}

/// `{"do": "type", "sub": a type}`.
fn decode_type(alloc: Global, value: &Value) -> Result<Option<Command>, OutOfMemory>
    ensures { IfOk result (λ command. command ≡ decode_type (view value.now)) }
{
    if own_key_count(value) != 2 {
        return Ok(None);
    }
    match decode_by(value) {
        Some(by) => type_from(alloc, by, value),
        None => Ok(None),
    }
}

/// The registration by this party.
fn type_from(alloc: Global, by: u32, value: &Value) -> Result<Option<Command>, OutOfMemory>
    ensures { IfOk result (λ command. command ≡ type_from by (view value.now)) }
{
    let Some(sub) = value.get("sub") else {
        return Ok(None);
    };
    Ok(decode_sub(alloc, sub)?.map(|sub| Command::HostType { by, sub }))
}

/// `{"do": "module", "groups": the recursion groups}`.
fn decode_module(alloc: Global, value: &Value) -> Result<Option<Command>, OutOfMemory>
    ensures { IfOk result (λ command. command ≡ decode_module (view value.now)) }
{
    if own_key_count(value) != 2 {
        return Ok(None);
    }
    match decode_by(value) {
        Some(by) => module_from(alloc, by, value),
        None => Ok(None),
    }
}

/// The registration of a module by this party.
fn module_from(alloc: Global, by: u32, value: &Value) -> Result<Option<Command>, OutOfMemory>
    ensures { IfOk result (λ command. command ≡ module_from by (view value.now)) }
{
    let Some(groups) = value.get("groups") else {
        return Ok(None);
    };
    Ok(decode_groups(alloc, groups)?.map(|groups| Command::Module { by, groups }))
}

/// `{"do": "clone", "handle": a number}`.
fn decode_clone(value: &Value) -> Option<Command>
    ensures { result ≡ decode_clone (view value.now) }
{
    by_and_number(value, "handle").map(|(by, handle)| Command::Clone { by, handle })
}

/// `{"do": "root", "index": a number}`.
fn decode_root(value: &Value) -> Option<Command>
    ensures { result ≡ decode_root (view value.now) }
{
    by_and_number(value, "index").map(|(by, index)| Command::Root { by, index })
}

/// `{"do": "drop", "handle": a number}`.
fn decode_drop(value: &Value) -> Option<Command>
    ensures { result ≡ decode_drop (view value.now) }
{
    by_and_number(value, "handle").map(|(by, handle)| Command::Drop { by, handle })
}

/// `{"do": "sweep", "handle": a number}`.
fn decode_sweep(value: &Value) -> Option<Command>
    ensures { result ≡ decode_sweep (view value.now) }
{
    by_and_number(value, "handle").map(|(by, handle)| Command::Sweep { by, handle })
}

/// `{"do": "release", "handle": a number}`.
fn decode_release(value: &Value) -> Option<Command>
    ensures { result ≡ decode_release (view value.now) }
{
    by_and_number(value, "handle").map(|(by, handle)| Command::Release { by, handle })
}

/// `{"do": "trampoline", "type": a type that is named}`.
fn decode_trampoline(value: &Value) -> Option<Command>
    ensures { result ≡ decode_trampoline (view value.now) }
{
    if own_key_count(value) != 2 {
        return None;
    }
    let by = decode_by(value)?;
    trampoline_from(by, value)
}

/// The command by this party.
fn trampoline_from(by: u32, value: &Value) -> Option<Command>
    ensures { result ≡ trampoline_from by (view value.now) }
{
    let ty = named_type_at(value, "type")?;
    Some(Command::Trampoline { by, ty })
}

/// `{"do": "subtype", "sub": a type that is named, "sup": another}`.
fn decode_subtype(value: &Value) -> Option<Command>
    ensures { result ≡ decode_subtype (view value.now) }
{
    if own_key_count(value) != 3 {
        return None;
    }
    let by = decode_by(value)?;
    subtype_from(by, value)
}

/// The command by this party.
fn subtype_from(by: u32, value: &Value) -> Option<Command>
    ensures { result ≡ subtype_from by (view value.now) }
{
    let sub = named_type_at(value, "sub")?;
    let sup = named_type_at(value, "sup")?;
    Some(Command::Subtype { by, sub, sup })
}

/// The type that is named under a key.
fn named_type_at(value: &Value, key: &str) -> Option<NamedType>
    ensures { result ≡ named_type_at key.now (view value.now) }
{
    value.get(key).and_then(decode_named_type)
}

/// `{"do": "matches", "a": a value type, "b": another}`.
fn decode_matches(value: &Value) -> Option<Command>
    ensures { result ≡ decode_matches (view value.now) }
{
    if own_key_count(value) != 3 {
        return None;
    }
    let by = decode_by(value)?;
    matches_from(by, value)
}

/// The command by this party.
fn matches_from(by: u32, value: &Value) -> Option<Command>
    ensures { result ≡ matches_from by (view value.now) }
{
    let a = val_at(value, "a")?;
    let b = val_at(value, "b")?;
    Some(Command::Matches { by, a, b })
}

/// The value type under a key.
fn val_at(value: &Value, key: &str) -> Option<HostVal>
    ensures { result ≡ val_at key.now (view value.now) }
{
    value.get(key).and_then(decode_val)
}

/// `{"do": "show", "type": a type that is named}`.
fn decode_show(value: &Value) -> Option<Command>
    ensures { result ≡ decode_show (view value.now) }
{
    if own_key_count(value) != 2 {
        return None;
    }
    let by = decode_by(value)?;
    show_from(by, value)
}

/// The command by this party.
fn show_from(by: u32, value: &Value) -> Option<Command>
    ensures { result ≡ show_from by (view value.now) }
{
    let ty = named_type_at(value, "type")?;
    Some(Command::Show { by, ty })
}

/// The party and the number under this key, of an object with no other key but `do` and maybe `by`.
fn by_and_number(value: &Value, key: &str) -> Option<(u32, u32)>
    ensures { result ≡ by_and_number key.now (view value.now) }
{
    if own_key_count(value) != 2 {
        return None;
    }
    let by = decode_by(value)?;
    let number = decode_u32_at(value, key)?;
    Some((by, number))
}

/// The party whose command it is: the key `by`, and party 0 where there is none.
fn decode_by(value: &Value) -> Option<u32>
    ensures { result ≡ decode_by (view value.now) }
{
    match value.get("by") {
        Some(by) => decode_u32(by),
        None => Some(0),
    }
}

/// How many members an object has besides `by`.
fn own_key_count(value: &Value) -> usize
    ensures { result ≡ own_key_count (view value.now) }
{
    match value.get("by") {
        Some(_) => key_count(value).saturating_sub(1),
        None => key_count(value),
    }
}
