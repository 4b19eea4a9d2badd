//! Reads requests many times over, in pieces, and prints how many heads and bytes of bodies came. How many instructions it
//! takes shows what a step of a reader costs.
#![tactic(auto)]

mod came;
mod input;
mod kind;
mod reading;
mod size;

use command_line::{print, words_of};
use input::input_of;
use reading::read_all;
use size::Size;
use std::alloc::{AllocError, AllocGlobal};
use std::process::ExitCode;
use std::rt::Env;

const USAGE: &str =
    "usage: bench_reader small|browser|few|many|long|sized|ones|hundreds PIECE TIMES";

fn run<R: AllocGlobal + Env + Print>(rt: &R) -> Result<u8, AllocError> {
    let Some(size) = Size::of_words(&words_of(rt)?) else {
        return Ok(print(rt, USAGE, 2));
    };
    let input = input_of(rt.alloc(), size.kind)?;
    let came = read_all(rt.alloc(), input.as_bytes(), size.piece, size.times)?;
    let text = format!(in rt.alloc();
        "{} heads, {} bytes of bodies, {} refusals",
        came.heads, came.bodies, came.refusals
    )?;
    Ok(print(rt, &text, 0))
}

fn main(rt: HostRuntime) -> ExitCode {
    match run(&rt) {
        Ok(status) => ExitCode::from(status),
        Err(_) => ExitCode::from(print(&rt, "out of memory", 7)),
    }
}
