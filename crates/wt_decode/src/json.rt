//! Looking into JSON values: the small readers that decoding shares. They rest on what `serde_json`
//! says of a `Value`.

ghost use Rattle.std.specs.Prelude.{◌≡◌, ◌≤◌, option_map};
ghost use Rattle.serde_json.specs.View.{view};
ghost use Rattle.wt_decode.specs.Json.{key_count, only_at, count_at, u32_of, decode_u32};

use serde_json::Value;

/// How many members an object has; 0 where the value is no object.
pub fn key_count(value: &Value) -> usize
    ensures { result ≡ key_count (view value.now) }
{
    match value.as_object() {
        Some(members) => members.len(),
        None => 0,
    }
}

/// The value at the only key of an object, if it is this key.
pub fn only_at<'a>(value: &'a Value, key: &str) -> Option<&'a Value>
    ensures { option_map (λ member. view member.now) result ≡ only_at key.now (view value.now) }
{
    if key_count(value) == 1 {
        value.get(key)
    } else {
        None
    }
}

/// How many members an object has under a key: one, or none.
pub fn count_at(value: &Value, key: &str) -> usize
    ensures count { result ≡ count_at key.now (view value.now) }
    ensures bound { result ≤ 1 }
{
    match value.get(key) {
        Some(_) => 1,
        None => 0,
    }
}

/// A number of 32 bits: whole, at least 0, below 2^32, and written without a point or an exponent.
pub fn decode_u32(value: &Value) -> Option<u32>
    ensures { result ≡ decode_u32 (view value.now) }
{
    match value.as_u64() {
        Some(number) => u32_of(number),
        None => None,
    }
}

/// The number, if it has 32 bits.
fn u32_of(number: u64) -> Option<u32>
    ensures { result ≡ u32_of number }
{
    if number < 4294967296 {
        Some(number as u32)
    } else {
        None
    }
}
