//! The program `wt_bench WORK COUNT`: does one work on a registry, and writes how many operations it was and how many
//! nanoseconds each took. Without words it names the works. Nothing here is a test of time.
#![tactic(auto)]

mod modules;
mod works;

use crate::works::{chain, groups, subtypes};
use std::env::Env;
use std::process::ExitCode;
use std::{env, io};

/// What the program does, for whoever gives it no work.
const USAGE: &str = "\
wt_bench chain N     N groups, each a struct that names the one before: registered, rooted and dropped, removed
wt_bench groups N    N groups of 8 structs: registered, registered again, removed
wt_bench subtypes N  N structs, each below the one before: whether the last is below the first";

/// A work, and for how much.
#[derive(Drop)]
struct Asked {
    work: String,
    count: u32,
}

/// The work that the words after the program's name ask for, if they are a work and a count.
fn asked_work<R: Env + AllocGlobal>(rt: &R) -> Option<Asked> {
    let mut words = env::args(rt).ok()?.skip(1);
    let work = words.next()?;
    let count = words.next()?.as_str().parse::<u32>().ok()?;
    Some(Asked { work, count })
}

fn main(rt: HostRuntime) -> anyhow::Result<ExitCode> {
    let Some(asked) = asked_work(&rt) else {
        println!(rt; "{USAGE}")?;
        return Ok(ExitCode::SUCCESS);
    };
    match asked.work.as_str() {
        "chain" => chain(&rt, asked.count)?,
        "groups" => groups(&rt, asked.count)?,
        "subtypes" => subtypes(&rt, asked.count)?,
        _ => println!(rt; "{USAGE}")?,
    }
    Ok(ExitCode::SUCCESS)
}
