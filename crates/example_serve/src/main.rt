//! Serves three connections by a service of its own, on two threads, and prints what became of each.
#![tactic(auto)]

mod connections;

use command_line::print;
use connections::listeners;
use greeting_service::Greeters;
use server_commands::NoCommands;
use server_edge::{SystemClock, ThreadSpawner};
use server_run::{Entry, Host, KeepAll, MemoryLink};
use service_core::Ended;
use std::alloc::{AllocError, Global};
use std::process::ExitCode;
use std::time::Clock as TimeSource;

// The entry in words: the listener's token, the place among its connections, how it ended, and what was written.
fn line_of(alloc: Global, entry: &Entry<MemoryLink>) -> Result<String, AllocError> {
    let written = String::from_utf8_lossy(alloc, entry.link.written())?;
    format!(in alloc;
        "{}.{} {:?} {:?}\n",
        entry.token, entry.place, entry.outcome, written
    )
}

// A line for each entry, by listener and place. The entries come in the order in which the connections end, which differs
// from run to run.
fn text_of(alloc: Global, entries: &[Entry<MemoryLink>]) -> Result<String, AllocError> {
    let mut lines = Vec::new(alloc);
    for entry in entries {
        lines.push(line_of(alloc, entry)?)?;
    }
    lines.sort()?;
    let mut text = String::new(alloc);
    for line in &lines {
        text.push_str(line)?;
    }
    Ok(text)
}

// Serves what the listeners give. Returns a line for each connection.
fn served<H>(rt: &H, alloc: Global) -> Result<String, AllocError>
where
    H: Host + TimeSource + 'static,
{
    // The proof of `serve` wants this type to be named.
    let _ended: Option<Ended<MemoryLink>> = None;
    let mut listeners = listeners(alloc)?;
    let mut clock = SystemClock::new(rt);
    let mut spawner = ThreadSpawner::new(alloc)?;
    let mut done = KeepAll::new(alloc);
    let server = server::new(alloc)?.workers(2).run(Greeters);
    let run = server.serve(
        rt,
        alloc,
        &mut listeners,
        &mut NoCommands::new(),
        &mut clock,
        &mut spawner,
        &mut done,
    );
    match run {
        Ok(_) => text_of(alloc, done.entries()),
        Err(_) => Err(AllocError),
    }
}

fn main(rt: HostRuntime) -> ExitCode {
    let status = match served(&rt, rt.alloc()) {
        Ok(text) => print(&rt, text.trim_end(), 0),
        Err(AllocError) => print(&rt, "out of memory", 7),
    };
    ExitCode::from(status)
}
