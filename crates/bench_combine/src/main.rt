//! Calls a service under one, five or twenty maps many times over, and prints the sum of its answers. How long it takes
//! shows how long a call through so many maps takes.
#![tactic(auto)]

mod calling;
mod depth;
mod size;
mod through;

use calling::answered;
use command_line::{print, words_of};
use size::Size;
use std::alloc::{AllocError, AllocGlobal};
use std::process::ExitCode;
use std::random::RandomSource;
use std::rt::Env;
use std::sync::Wait;

const USAGE: &str = "usage: bench_combine 1|5|20 CALLS";

// Makes as many calls as the words say, and prints what came of them.
fn run<R>(rt: &R) -> Result<u8, AllocError>
where
    R: Wait + RandomSource + AllocGlobal + Env + Print,
{
    let Some(size) = Size::of_words(&words_of(rt)?) else {
        return Ok(print(rt, USAGE, 2));
    };
    let sum = answered(rt, size.depth, size.calls)?;
    let text = format!(in rt.alloc(); "the answers sum to {sum}")?;
    Ok(print(rt, &text, 0))
}

fn main(rt: HostRuntime) -> ExitCode {
    match run(&rt) {
        Ok(status) => ExitCode::from(status),
        Err(_) => ExitCode::from(print(&rt, "out of memory", 7)),
    }
}
