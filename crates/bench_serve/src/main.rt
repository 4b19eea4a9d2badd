//! Serves connections in memory on threads, and prints how many were served and, where it is asked for, how long that took.
#![tactic(auto)]

mod asking_link;
mod crowd;
mod failure;
mod serving;
mod size;

use command_line::{print, words_of};
use failure::Failure;
use server_run::Host;
use serving::served;
use size::Size;
use std::alloc::AllocGlobal;
use std::process::ExitCode;
use std::rt::Env;
use std::time::Clock;

const USAGE: &str = "usage: bench_serve count|time WORKERS CONNECTIONS REQUESTS IDLE";

// Serves as much as the words say, and prints what came of it.
fn run<Ho>(rt: &Ho) -> Result<u8, Failure>
where
    Ho: Host + AllocGlobal + Clock + Env + Print + 'static,
{
    let Some(size) = Size::of_words(&words_of(rt)?) else {
        return Ok(print(rt, USAGE, 2));
    };
    let work = served(rt, rt.alloc(), size)?;
    let text = if size.timed {
        format!(in rt.alloc(); "{} {} {}", work.connections, work.written, work.micros)?
    } else {
        format!(in rt.alloc();
            "{} connections, {} bytes written",
            work.connections, work.written
        )?
    };
    Ok(print(rt, &text, 0))
}

fn main(rt: HostRuntime) -> ExitCode {
    match run(&rt) {
        Ok(status) => ExitCode::from(status),
        Err(Failure::Memory) => ExitCode::from(print(&rt, "out of memory", 7)),
        Err(Failure::Wrong) => ExitCode::from(print(&rt, "a count is wrong", 1)),
        Err(Failure::NoTime) => ExitCode::from(print(&rt, "no time is told", 1)),
    }
}
