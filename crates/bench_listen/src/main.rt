//! Serves at a TCP address as the program's `listen` does, by as many workers as it is told: `bench_listen ADDR N WORKERS`.
#![tactic(auto)]

ghost use Rattle.std.specs.Prelude.{◌≤◌, IfSome};

mod serving;

use command_line::{print, words_of};
use serving::serve;
use std::process::ExitCode;

const USAGE: &str = "usage: bench_listen ADDR N WORKERS";

// What the words ask for: the address, how many connections, and how many workers.
fn asked(words: &[String]) -> Option<(&str, u32, usize)>
    ensures { IfSome result (λ asked. (1 ≤ asked.2) × (asked.2 ≤ 512)) }
{
    let [addr, limit, workers] = words else {
        return None;
    };
    let workers = workers.parse::<u16>().ok()? as usize;
    if workers == 0 || workers > 512 {
        return None;
    }
    Some((addr, limit.parse().ok()?, workers))
}

fn main(rt: HostRuntime) -> ExitCode {
    let words = words_of(&rt).unwrap_or(Vec::new(rt.alloc()));
    let Some((addr, limit, workers)) = asked(&words) else {
        return ExitCode::from(print(&rt, USAGE, 2));
    };
    let status = match serve(&rt, rt.alloc(), addr, limit, workers) {
        Some(served) => println!(rt; "served {served}").map_or(1, |()| 0),
        None => print(&rt, "could not serve", 1),
    };
    ExitCode::from(status)
}
