//! Lets connections come and go over the bookkeeping of an acceptor, and prints how many events were carried out. How
//! long it takes shows how long an event and a pick take.
#![tactic(auto)]

mod load;
mod size;

use command_line::{print, words_of};
use load::carried_out;
use size::Size;
use std::alloc::{AllocError, AllocGlobal};
use std::process::ExitCode;
use std::rt::Env;

const USAGE: &str = "usage: bench_accept WORKERS FREE TURNS PICKS";

// Lets as many connections come and go as the words say, and prints what came of it.
fn run<R>(rt: &R) -> Result<u8, AllocError>
where
    R: AllocGlobal + Env + Print,
{
    let Some(size) = Size::of_words(&words_of(rt)?) else {
        return Ok(print(rt, USAGE, 2));
    };
    let tally = carried_out(size);
    let text = format!(in rt.alloc();
        "{} events, picked numbers sum to {}",
        tally.events, tally.sum
    )?;
    Ok(print(rt, &text, 0))
}

fn main(rt: HostRuntime) -> ExitCode {
    match run(&rt) {
        Ok(status) => ExitCode::from(status),
        Err(_) => ExitCode::from(print(&rt, "out of memory", 7)),
    }
}
