//! Reads a connection's bytes from standard input, gives them to a reader in pieces, and prints the steps that they are.
#![tactic(auto)]

mod failure;
mod given;
mod shown;
mod size;
mod steps;

use command_line::{print, words_of};
use failure::Failure;
use given::given_bytes;
use size::Size;
use std::alloc::AllocGlobal;
use std::process::ExitCode;
use std::rt::Env;
use steps::steps_of;

const USAGE: &str = "usage: example_reader HEAD BODY PIECE";

fn run<R: AllocGlobal + Env + Input + Print>(rt: &R) -> Result<u8, Failure> {
    let Some(size) = Size::of_words(&words_of(rt)?) else {
        return Ok(print(rt, USAGE, 2));
    };
    let alloc = rt.alloc();
    let bytes = given_bytes(rt, alloc)?;
    let text = steps_of(alloc, size, bytes.as_bytes())?;
    Ok(print(rt, text.trim_end(), 0))
}

fn main(rt: HostRuntime) -> ExitCode {
    match run(&rt) {
        Ok(status) => ExitCode::from(status),
        Err(Failure::Read) => ExitCode::from(print(&rt, "standard input can't be read", 5)),
        Err(Failure::Memory) => ExitCode::from(print(&rt, "out of memory", 7)),
    }
}
