//! The engine of a list of commands, which its first element may say. It rests on the readers of
//! `wt_decode::json`, and on what `serde_json` says of looking into a value.

ghost use Rattle.std.specs.Prelude.{◌≡◌, ◌≤◌, IfSome};
ghost use Rattle.serde_json.specs.Find.{get};
ghost use Rattle.serde_json.specs.View.{view};
ghost use Rattle.wt_env.specs.Limits.{AreValid};
ghost use Rattle.wt_commands.specs.DecodeEngine.{usual_limits, usual_engine, one_if_some, engine_keys, limit_keys, is_object_of, up_to, decode_limit, limit_at, limits_in, decode_limits, limits_at, gc_at, is_one, has_profile, engine_in, decode_engine};

use serde_json::Value;
use wt_decode::json::{key_count, only_at};
use wt_env::limits::{Engine, EngineLimits};

/// The greatest value of each limit.
const GREATEST: EngineLimits = EngineLimits::GREATEST;

/// The limits that stand where none are named.
const USUAL: EngineLimits = EngineLimits::USUAL;

/// The engine of a list that names none: number 1, with garbage collection and the usual limits.
pub fn usual_engine() -> Engine
    ensures { result ≡ usual_engine }
{
    Engine::new(1, USUAL, true)
}

/// The engine that an element stands for, if it is one: `{"engine": {"gc": a bool, "profile": 1, "limits":
/// an object}}`. Each key inside may be absent, which stands for garbage collection, profile 1 and the usual
/// limits. The engine's number is 1.
pub fn decode_engine(value: &Value) -> Option<Engine>
    ensures { result ≡ decode_engine (view value.now) }
{
    match only_at(value, "engine") {
        Some(engine) => engine_in(engine),
        None => None,
    }
}

/// An engine: an object with no key but its three.
fn engine_in(value: &Value) -> Option<Engine>
    ensures { result ≡ engine_in (view value.now) }
{
    if !is_object_of(value, engine_keys(value)) || !has_profile(value) {
        return None;
    }
    let gc = gc_at(value)?;
    let limits = limits_at(value)?;
    Some(Engine::new(1, limits, gc))
}

/// Whether an engine has garbage collection, as it does where the key is absent.
fn gc_at(value: &Value) -> Option<bool>
    ensures { result ≡ gc_at (view value.now) }
{
    match value.get("gc") {
        Some(gc) => gc.as_bool(),
        None => Some(true),
    }
}

/// Whether the profile is 1, or the key is absent.
fn has_profile(value: &Value) -> bool
    ensures { result ≡ has_profile (view value.now) }
{
    match value.get("profile") {
        Some(profile) => is_one(profile),
        None => true,
    }
}

/// Whether a value is the number 1.
fn is_one(value: &Value) -> bool
    ensures { result ≡ is_one (view value.now) }
{
    match value.as_u64() {
        Some(number) => number == 1,
        None => false,
    }
}

/// The limits of an engine, usual where the key is absent.
fn limits_at(value: &Value) -> Option<EngineLimits>
    ensures value { result ≡ limits_at (view value.now) }
    ensures valid { IfSome result AreValid }
{
    match value.get("limits") {
        Some(limits) => decode_limits(limits),
        None => Some(USUAL),
    }
}

/// Limits: an object with no key but theirs.
fn decode_limits(value: &Value) -> Option<EngineLimits>
    ensures value { result ≡ decode_limits (view value.now) }
    ensures valid { IfSome result AreValid }
{
    if !is_object_of(value, limit_keys(value)) {
        return None;
    }
    limits_in(value)
}

/// The limits under their keys. None passes its greatest value.
fn limits_in(value: &Value) -> Option<EngineLimits>
    ensures value { result ≡ limits_in (view value.now) }
    ensures valid { IfSome result AreValid }
{
    let parties = limit_at(value, "parties", GREATEST.parties, USUAL.parties)?;
    let groups = limit_at(value, "groups", GREATEST.groups, USUAL.groups)?;
    let types = limit_at(value, "types", GREATEST.types, USUAL.types)?;
    let references = limit_at(value, "references", GREATEST.references, USUAL.references)?;
    let ever = limit_at(value, "ever", GREATEST.ever, USUAL.ever)?;
    let holds = limit_at(value, "holds", GREATEST.holds, USUAL.holds)?;
    Some(EngineLimits {
        parties,
        groups,
        types,
        references,
        ever,
        holds,
    })
}

/// The limit under a key, and the usual one where the key is absent.
fn limit_at(value: &Value, key: &str, greatest: u64, usual: u64) -> Option<u64>
    requires { usual ≤ greatest }
    ensures value { result ≡ limit_at key.now greatest usual (view value.now) }
    ensures within { IfSome result (λ n. n ≤ greatest) }
{
    match value.get(key) {
        Some(limit) => decode_limit(limit, greatest),
        None => Some(usual),
    }
}

/// A limit: a whole number that is no greater than this.
fn decode_limit(value: &Value, greatest: u64) -> Option<u64>
    ensures value { result ≡ decode_limit greatest (view value.now) }
    ensures within { IfSome result (λ n. n ≤ greatest) }
{
    match value.as_u64() {
        Some(number) => up_to(number, greatest),
        None => None,
    }
}

/// The number, if it is no greater than this.
fn up_to(number: u64, greatest: u64) -> Option<u64>
    ensures value { result ≡ up_to greatest number }
    ensures within { IfSome result (λ n. n ≤ greatest) }
{
    if number > greatest {
        None
    } else {
        Some(number)
    }
}

/// Whether it is an object that has this many keys.
fn is_object_of(value: &Value, count: usize) -> bool
    ensures { result ≡ is_object_of count (view value.now) }
{
    value.is_object() && key_count(value) == count
}

/// How many of an engine's keys there are.
fn engine_keys(value: &Value) -> usize
    ensures { result ≡ engine_keys (view value.now) }
{
    key_named(value, "gc") + key_named(value, "profile") + key_named(value, "limits")
}

/// How many of the keys of limits there are.
fn limit_keys(value: &Value) -> usize
    ensures { result ≡ limit_keys (view value.now) }
{
    key_named(value, "parties")
        + key_named(value, "groups")
        + key_named(value, "types")
        + key_named(value, "references")
        + key_named(value, "ever")
        + key_named(value, "holds")
}

/// 1 where there is this key, else 0.
fn key_named(value: &Value, key: &str) -> usize
    ensures value { result ≡ one_if_some (get key.now (view value.now)) }
    ensures within { result ≤ 1 }
{
    match value.get(key) {
        Some(_) => 1,
        None => 0,
    }
}
