//! Has a worker make turns over connections in memory, and prints how many bytes were written. How many instructions it takes
//! shows what a turn costs over connections that wait, and what it costs to take a connection, to serve it and to hand it back.
#![tactic(auto)]

mod ends;
mod failure;
mod kind;
mod load;
mod reading;
mod size;
mod small_link;
mod tiny;
mod turning;
mod web;

use command_line::{print, words_of};
use failure::Failure;
use kind::Kind;
use load::Load;
use size::Size;
use std::alloc::AllocGlobal;
use std::process::ExitCode;
use std::random::RandomSource;
use std::rt::Env;
use std::sync::Wait;
use tiny::Tiny;
use turning::carried;
use web::web;

const USAGE: &str =
    "usage: bench_turns wait tiny|http CONNECTIONS TURNS, or bench_turns serve tiny|http CONNECTIONS";

// Carries bytes back. How many bytes were written on connections that came back.
fn tiny_written<R>(rt: &R, load: Load) -> Result<u64, Failure>
where
    R: Wait + RandomSource + AllocGlobal,
{
    carried(rt, Tiny, load)
}

// The same of connections of HTTP.
fn http_written<R>(rt: &R, load: Load) -> Result<u64, Failure>
where
    R: Wait + RandomSource + AllocGlobal,
{
    carried(rt, web(rt.alloc())?, load)
}

// Does what is measured. How many bytes were written on connections that came back.
fn written<R>(rt: &R, size: Size) -> Result<u64, Failure>
where
    R: Wait + RandomSource + AllocGlobal,
{
    match size.kind {
        Kind::Tiny => tiny_written(rt, size.load),
        Kind::Http => http_written(rt, size.load),
    }
}

// Does what the words say, and prints how many bytes were written.
fn run<R>(rt: &R) -> Result<u8, Failure>
where
    R: Wait + RandomSource + AllocGlobal + Env + Print,
{
    let Some(size) = Size::of_words(&words_of(rt)?) else {
        return Ok(print(rt, USAGE, 2));
    };
    let written = written(rt, size)?;
    let text = format!(in rt.alloc(); "{written} bytes written")?;
    Ok(print(rt, &text, 0))
}

fn main(rt: HostRuntime) -> ExitCode {
    match run(&rt) {
        Ok(status) => ExitCode::from(status),
        Err(Failure::Memory) => ExitCode::from(print(&rt, "out of memory", 1)),
        Err(Failure::Wrong) => ExitCode::from(print(&rt, "a count is wrong", 1)),
    }
}
