//! The whole program over any source and sink: words, commands, replies, lines.

ghost use Rattle.std.specs.Prelude.{◌≡◌, ◌≢◌, ℕ, ◌^◌, ◌<◌, ◌≤◌, ◌⊎◌, ◌↔◌, List, length, take, Some, IfOk, string_bytes};
ghost use Rattle.wt_env.specs.Stream.{IsTaken, IsAdded, Rose};
ghost use Rattle.wt_program.specs.Words.{IsRun};
ghost use Rattle.wt_program.specs.Program.{output_of, status_for, Runs, IsComplete, IsReadToEnd, IsNotJson, Decodes, IsBadAt, HasCommands};
ghost use Rattle.wt_commands.specs.Commands.{AreCommands};

use crate::input::{InputRefusal, read_input};
use crate::text::text;
use crate::words::is_run;
use crate::write::write_all;
use std::alloc::Global;
use wt_commands::decode::Input;
use wt_env::memory::OutOfMemory;
use wt_env::status::Status;
use wt_env::stream::{Sink, Source};
use wt_env::text::Text;
use wt_session::run::run_session;
use wt_session::session::Session;

/// The lines for commands, done in order by a new session of their engine.
fn output(alloc: Global, input: &Input) -> Result<String, OutOfMemory>
    requires { AreCommands input.now.commands.items }
    ensures { IfOk result (λ text. string_bytes text ≡ output_of input.now.engine input.now.commands.items) }
{
    let mut session = Session::new(alloc, input.engine);
    let mut replies = Vec::new(alloc);
    let outcome = run_session(&mut session, input.commands.as_slice(), &mut replies);
    session.close();
    outcome?;
    text(alloc, replies.as_slice())
}

/// The status of a run that read no commands.
fn status_of(refusal: InputRefusal) -> Status
    ensures { result ≡ status_for refusal }
{
    match refusal {
        InputRefusal::ReadFault => Status::ReadFault,
        InputRefusal::TooLong => Status::TooLong,
        InputRefusal::NotJson => Status::NotJson,
        InputRefusal::BadCommand(place) => Status::BadCommand(place),
        InputRefusal::OutOfMemory => Status::OutOfMemory,
    }
}

/// Does commands in a new session of their engine, and writes a line for each reply.
fn answer<K: Sink>(alloc: Global, input: &Input, sink: &mut K) -> Status
    requires { AreCommands input.now.commands.items }
    ensures done { result ≡ Status.Done
        → IsAdded (output_of input.now.engine input.now.commands.items) (K.taken sink.old) (K.taken sink.new) }
    ensures write_fault { result ≡ Status.WriteFault → Rose (K.faults sink.old) (K.faults sink.new) }
    ensures partly { result ≡ Status.WriteFault
        → ((n : ℕ) × IsAdded (take n (output_of input.now.engine input.now.commands.items)) (K.taken sink.old) (K.taken sink.new)) }
    ensures unwritten { result ≡ Status.OutOfMemory → K.taken sink.new ≡ K.taken sink.old }
    ensures only { (result ≡ Status.Done) ⊎ (result ≡ Status.WriteFault) ⊎ (result ≡ Status.OutOfMemory) }
{
    match output(alloc, input) {
        Ok(text) => match write_all(sink, text.as_bytes()) {
            Ok(()) => Status::Done,
            Err(_) => Status::WriteFault,
        },
        Err(_) => Status::OutOfMemory,
    }
}

/// Reads commands, does them, and writes a line for each reply.
fn run_commands<S: Source, K: Sink>(alloc: Global, source: &mut S, sink: &mut K) -> Status
    ensures runs { Runs result (S.left source.old) (S.left source.new) (S.faults source.old) (S.faults source.new)
        (K.taken sink.old) (K.taken sink.new) (K.faults sink.old) (K.faults sink.new) }
    ensures not_usage { result ≢ Status.Usage }
{
    match read_input(alloc, source) {
        Ok(input) => answer(alloc, &input, sink),
        Err(refusal) => status_of(refusal),
    }
}

/// Does all that the program does. The one command is the word `run`: it reads a JSON list of commands
/// from the source, does them in a new session, and writes a line for each reply to the sink. The session's
/// engine is the one that the list's first element says, and else the usual one. Decoding comes before any
/// command, and writing after all.
///
/// `Usage` comes exactly on other words. Want of memory is the one answer that no clause ties to a cause.
pub fn run<S: Source, K: Sink>(
    alloc: Global,
    words: &[Text],
    source: &mut S,
    sink: &mut K,
) -> Status
    ensures usage { (result ≡ Status.Usage) ↔ (IsRun words.now → ⊥) }
    ensures runs { Runs result (S.left source.old) (S.left source.new) (S.faults source.old) (S.faults source.new)
        (K.taken sink.old) (K.taken sink.new) (K.faults sink.old) (K.faults sink.new) }
    ensures complete { IsRun words.now → IsComplete result (S.left source.old)
        (S.faults source.old) (S.faults source.new) (K.faults sink.old) (K.faults sink.new) }
{
    if !is_run(words) {
        return Status::Usage;
    }
    run_commands(alloc, source, sink)
}
