//! Puts a handler under a policy on cross-origin requests, asks it twice, and prints who may read the answers.
#![tactic(auto)]

mod asked;
mod chain;
mod failure;
mod page;
mod shown;

use chain::answers;
use command_line::print;
use failure::Failure;
use std::alloc::AllocGlobal;
use std::process::ExitCode;
use std::random::RandomSource;
use std::sync::Wait;

// Prints what came of each request.
fn run<R>(rt: &R) -> Result<u8, Failure>
where
    R: Wait + RandomSource + AllocGlobal + Print,
{
    let answers = answers(rt)?;
    let text = format!(in rt.alloc();
        "https://shop.example: {}, {}\nno origin: {}, {}",
        answers.shop.status,
        answers.shop.words(),
        answers.nobody.status,
        answers.nobody.words()
    )?;
    Ok(print(rt, &text, 0))
}

fn main(rt: HostRuntime) -> ExitCode {
    match run(&rt) {
        Ok(status) => ExitCode::from(status),
        Err(Failure::Memory) => ExitCode::from(print(&rt, "out of memory", 7)),
        Err(Failure::Policy) => ExitCode::from(print(&rt, "the policy is refused", 1)),
    }
}
