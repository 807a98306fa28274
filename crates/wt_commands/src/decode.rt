//! An engine and commands from JSON: which ones a list stands for, or which element of it is none. It rests
//! on `decode_engine` and `decode_command`, and on what `serde_json` says of looking into a value.

ghost use Rattle.std.specs.Prelude.{◌≡◌, ℕ, ◌^◌, ◌<◌, ◌≤◌, List, length, Some, Ok, Err, IfOk};
ghost use Rattle.serde_json.specs.Read.{read};
ghost use Rattle.serde_json.specs.View.{view, items_view};
ghost use Rattle.wt_env.specs.Limits.{AreValid};
ghost use Rattle.wt_commands.specs.Commands.{AreCommands};
ghost use Rattle.wt_commands.specs.Decode.{decode_commands, decode_list, decode};
ghost use Rattle.wt_commands.specs.declared.decode.DecodeError.{DecodeError};

use crate::command::Command;
use crate::decode_command::decode_command;
use crate::decode_engine::{decode_engine, usual_engine};
use serde_json::Value;
use std::alloc::{AllocFailed, Global};
use std::error::Error;
use std::fmt;
use wt_env::limits::Engine;
use wt_env::memory::OutOfMemory;

/// What a list asks for: commands, and the engine of the session that they are done in.
#[derive(Debug, Drop)]
pub struct Input {
    /// The engine that the first element of the list says, or the usual one.
    pub engine: Engine,
    /// The commands, in order.
    pub commands: Vec<Command>,
}

/// Why no commands were decoded.
#[derive(Clone, Copy, Debug, PartialEq, Eq)]
pub enum DecodeError {
    /// The first element of the list that is no command, nor an engine at place 1, by its place from 1; with
    /// 0, the value is no list.
    BadCommand(u64),
    /// Memory ran out.
    OutOfMemory,
}

impl fmt::Display for DecodeError {
    ghost use Rattle.std.specs.Prelude.{Some};
    ghost use Rattle.wt_commands.specs.DecodeErrorText.{decode_error_text};

    ghost output = { λ error. Some (decode_error_text error) };

    fn fmt<W: fmt::Write>(&self, f: &mut fmt::Formatter<W>) -> fmt::Result {
        match self {
            DecodeError::BadCommand(0) => write!(f, "not a list of commands"),
            DecodeError::BadCommand(place) => write!(f, "element {place} is not a command"),
            DecodeError::OutOfMemory => write!(f, "out of memory"),
        }
    }
}

impl Error for DecodeError {}

impl From<OutOfMemory> for DecodeError {
    ghost use Rattle.std.specs.Prelude.{◌≡◌};
    ghost use Rattle.wt_commands.specs.declared.decode.DecodeError.TheVariants as errors;

    ghost from_gives = { λ _ error. error ≡ errors.OutOfMemory };

    fn from(_error: OutOfMemory) -> DecodeError {
        DecodeError::OutOfMemory
    }
}

impl<T: Drop> From<AllocFailed<T>> for DecodeError {
    ghost use Rattle.std.specs.Prelude.{◌≡◌};
    ghost use Rattle.wt_commands.specs.declared.decode.DecodeError.TheVariants as errors;

    ghost from_gives = { λ _ error. error ≡ errors.OutOfMemory };

    fn from(_error: AllocFailed<T>) -> DecodeError {
        DecodeError::OutOfMemory
    }
}

/// The engine and the commands of a list, in order. The engine may stand as the first element, and is else the
/// usual one; its limits are valid. `BadCommand` tells the place of the first element that is no command, nor
/// an engine at place 1, or with 0 that the value is no list. The commands of a text of fewer than 2^32 bytes
/// are ones that a session can run: their types refer to each other by module index, and a text has no
/// more items than bytes.
pub fn decode(alloc: Global, value: &Value) -> Result<Input, DecodeError>
    ensures ok { IfOk result (λ input. decode (view value.now) ≡ Ok (input.engine, input.commands.items)) }
    ensures engine { IfOk result (λ input. AreValid input.engine.limits) }
    ensures commands { IfOk result (λ input. (bytes : List ℕ) → read bytes ≡ Some (view value.now)
        → length bytes < 2 ^ 32 → AreCommands input.commands.items) }
    ensures bad { (k : _) → result ≡ Err (DecodeError.BadCommand k)
        → decode (view value.now) ≡ Err k }
{
    match value.as_array() {
        Some(list) => decode_list(alloc, list.as_slice()),
        None => Err(DecodeError::BadCommand(0)),
    }
}

/// The engine and the commands that elements stand for.
fn decode_list(alloc: Global, list: &[Value]) -> Result<Input, DecodeError>
    ensures ok { IfOk result (λ input.
        decode_list (items_view list.now) ≡ Ok (input.engine, input.commands.items)) }
    ensures engine { IfOk result (λ input. AreValid input.engine.limits) }
    ensures bad { (k : _) → result ≡ Err (DecodeError.BadCommand k)
        → decode_list (items_view list.now) ≡ Err k }
{
    if list.is_empty() {
        return Ok(Input {
            engine: usual_engine(),
            commands: Vec::new(alloc),
        });
    }
    match decode_engine(&list[0]) {
        Some(engine) => with_engine(engine, decode_commands(alloc, 2, &list[1..])),
        None => with_engine(usual_engine(), decode_commands(alloc, 1, list)),
    }
}

/// Commands for an engine.
fn with_engine(
    engine: Engine,
    commands: Result<Vec<Command>, DecodeError>,
) -> Result<Input, DecodeError>
    ensures ok { IfOk result (λ input. (input.engine ≡ engine) × (commands ≡ Ok input.commands)) }
    ensures engine { IfOk result (λ input. AreValid input.engine.limits) }
    ensures err { (error : _) → result ≡ Err error → commands ≡ Err error }
{
    match commands {
        Ok(commands) => Ok(Input { engine, commands }),
        Err(error) => Err(error),
    }
}

/// The commands that elements stand for, whose places begin at this one.
fn decode_commands(alloc: Global, first: u64, list: &[Value]) -> Result<Vec<Command>, DecodeError>
    requires { first ≤ 2 }
    ensures ok { IfOk result (λ commands.
        decode_commands first (items_view list.now) ≡ Ok commands.items) }
    ensures bad { (k : _) → result ≡ Err (DecodeError.BadCommand k)
        → decode_commands first (items_view list.now) ≡ Err k }
{
    let mut commands = Vec::new(alloc);
    for (index, value) in list.iter().enumerate() {
        match decode_command(alloc, value)? {
            Some(command) => commands.push(command)?,
            None => return Err(DecodeError::BadCommand(first + index as u64)),
        }
    }
    Ok(commands)
}

#[cfg(test)]
mod tests;
