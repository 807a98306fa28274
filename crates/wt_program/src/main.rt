//! The program `wt_program run`: reads a JSON list of commands from standard input, and writes a line for
//! each reply to standard output. The rest of the crate is `run` over any source and sink.
#![tactic(auto)]

mod input;
mod read;
mod run;
#[cfg(test)]
mod tests;
mod text;
mod words;
mod write;

use crate::run::run;
use crate::words::words_unread;
use std::alloc::Global;
use std::env::Env;
use std::process::ExitCode;
use std::{env, io};
use wt_env::memory::OutOfMemory;
use wt_env::status::Status;
use wt_env::std_stream::{StdSink, StdSource};
use wt_env::text::Text;

/// The words after the program's name. Words that aren't text are no words of the program.
fn arguments<R: Env + AllocGlobal>(rt: &R) -> Result<Vec<Text>, OutOfMemory> {
    match env::args(rt) {
        Ok(arguments) => {
            let mut words = Vec::new(rt.alloc());
            for argument in arguments.skip(1) {
                words.push(Text::from_string(argument))?;
            }
            Ok(words)
        }
        Err(error) => words_unread(rt.alloc(), error.kind()),
    }
}

fn main(rt: HostRuntime) -> ExitCode {
    let status = match arguments(&rt) {
        Ok(words) => {
            let mut source = StdSource::new(rt.reader());
            let mut sink = StdSink::new(io::writer(&rt));
            run(rt.alloc(), words.as_slice(), &mut source, &mut sink)
        }
        Err(_) => Status::OutOfMemory,
    };
    if status != Status::Done {
        let code = status.code();
        let _ = eprintln!(rt; "status {code} {status}");
    }
    ExitCode::from(status.code())
}
