//! Asks a service under a policy of many origins, methods and headers for its answer many times over, and prints how
//! many answers a page may read. How long it takes shows how long an answer is made.
#![tactic(auto)]

mod allowing;
mod asked;
mod asking;
mod failure;
mod hello;
mod kind;
mod size;

use asking::granted;
use command_line::{print, words_of};
use failure::Failure;
use size::Size;
use std::alloc::AllocGlobal;
use std::process::ExitCode;
use std::random::RandomSource;
use std::rt::Env;
use std::sync::Wait;

const USAGE: &str = "usage: bench_cors simple|preflight COUNT REQUESTS";

// Asks as often as the words say, and prints how many were granted.
fn run<R>(rt: &R) -> Result<u8, Failure>
where
    R: Wait + RandomSource + AllocGlobal + Env + Print,
{
    let Some(size) = Size::of_words(&words_of(rt)?) else {
        return Ok(print(rt, USAGE, 2));
    };
    let alloc = rt.alloc();
    let count = granted(rt, size)?;
    let text = format!(in alloc; "granted {count} of {}", size.requests)?;
    Ok(print(rt, &text, 0))
}

fn main(rt: HostRuntime) -> ExitCode {
    match run(&rt) {
        Ok(status) => ExitCode::from(status),
        Err(Failure::Memory) => ExitCode::from(print(&rt, "out of memory", 7)),
        Err(Failure::Refused) => ExitCode::from(print(&rt, "the policy is refused", 1)),
    }
}
