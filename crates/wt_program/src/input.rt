//! What a source has: the engine and the commands of a JSON list, or why there are none.

ghost use Rattle.std.specs.Prelude.{◌≡◌, ◌≢◌, ℕ, ◌^◌, ◌<◌, ◌≤◌, List, length, IfOk, OnErr, Err, IsUtf8};
ghost use Rattle.serde_json.specs.View.{view};
ghost use Rattle.wt_env.specs.Limits.{AreValid};
ghost use Rattle.wt_env.specs.Stream.{IsTaken, Rose};
ghost use Rattle.wt_program.specs.Program.{IsReadToEnd, IsJson, IsNotJson, Decodes, IsBadAt, HasCommands};
ghost use Rattle.wt_commands.specs.Commands.{AreCommands};

use crate::read::{ReadRefusal, read_all};
use serde_json::{Category, Value};
use std::alloc::Global;
use wt_commands::decode::{DecodeError, Input, decode};
use wt_env::stream::Source;

/// Why no commands were read.
#[derive(Clone, Copy, Debug, PartialEq, Eq)]
pub enum InputRefusal {
    /// A read failed.
    ReadFault,
    /// There are more than 2^24 bytes.
    TooLong,
    /// The bytes are no JSON.
    NotJson,
    /// The element with this number, from 1, is no command, nor an engine in the first place; or with 0, the
    /// value is no list.
    BadCommand(u64),
    /// Memory ran out.
    OutOfMemory,
}

/// The value of a JSON text.
fn parse(alloc: Global, bytes: &[u8]) -> Result<Value, InputRefusal>
    ensures ok { IfOk result (λ value. IsJson bytes.now (view value)) }
    ensures not_json { result ≡ Err InputRefusal.NotJson → IsNotJson bytes.now }
    ensures only { result ≢ Err InputRefusal.NotJson → OnErr result (result ≡ Err InputRefusal.OutOfMemory) }
{
    match Value::from_slice(alloc, bytes) {
        Ok(value) => Ok(value),
        Err(error) => {
            if error.classify() == Category::Memory {
                Err(InputRefusal::OutOfMemory)
            } else {
                Err(InputRefusal::NotJson)
            }
        }
    }
}

/// The engine and the commands of a JSON text.
fn input_in(alloc: Global, bytes: &[u8]) -> Result<Input, InputRefusal>
    ensures ok { IfOk result (λ input. Decodes bytes.now input.engine input.commands.items) }
    ensures engine { IfOk result (λ input. AreValid input.engine.limits) }
    ensures commands { length bytes.now < 2 ^ 32 → IfOk result (λ input. AreCommands input.commands.items) }
    ensures not_json { result ≡ Err InputRefusal.NotJson → IsNotJson bytes.now }
    ensures bad { (place : ℕ) → result ≡ Err (InputRefusal.BadCommand place) → IsBadAt bytes.now place }
    ensures no_fault { result ≢ Err InputRefusal.ReadFault }
    ensures not_long { result ≢ Err InputRefusal.TooLong }
{
    let value = parse(alloc, bytes)?;
    match decode(alloc, &value) {
        Ok(input) => Ok(input),
        Err(DecodeError::BadCommand(place)) => Err(InputRefusal::BadCommand(place)),
        Err(DecodeError::OutOfMemory) => Err(InputRefusal::OutOfMemory),
    }
}

/// Reads a source to its end, and decodes what it had.
pub fn read_input<S: Source>(alloc: Global, source: &mut S) -> Result<Input, InputRefusal>
    ensures ok { IfOk result (λ input. HasCommands (S.left source.old) (S.left source.new) input.engine input.commands.items) }
    ensures engine { IfOk result (λ input. AreValid input.engine.limits) }
    ensures commands { IfOk result (λ input. AreCommands input.commands.items) }
    ensures fault { result ≡ Err InputRefusal.ReadFault → Rose (S.faults source.old) (S.faults source.new) }
    ensures too_long { result ≡ Err InputRefusal.TooLong
        → ((bytes : List ℕ) × IsTaken bytes (S.left source.old) (S.left source.new) × (2 ^ 24 < length bytes)) }
    ensures any { (bytes : List ℕ) × IsTaken bytes (S.left source.old) (S.left source.new)
        × (result ≢ Err InputRefusal.TooLong → length bytes ≤ 2 ^ 24) }
    ensures not_json { result ≡ Err InputRefusal.NotJson
        → ((bytes : List ℕ) × IsReadToEnd bytes (S.left source.old) (S.left source.new) × IsNotJson bytes) }
    ensures bad { (place : ℕ) → result ≡ Err (InputRefusal.BadCommand place)
        → ((bytes : List ℕ) × IsReadToEnd bytes (S.left source.old) (S.left source.new) × IsBadAt bytes place) }
    ensures count { S.faults source.old ≤ S.faults source.new }
{
    match read_all(alloc, source) {
        Ok(bytes) => input_in(alloc, bytes.as_slice()),
        Err(ReadRefusal::Fault) => Err(InputRefusal::ReadFault),
        Err(ReadRefusal::TooLong) => Err(InputRefusal::TooLong),
        Err(ReadRefusal::OutOfMemory) => Err(InputRefusal::OutOfMemory),
    }
}
