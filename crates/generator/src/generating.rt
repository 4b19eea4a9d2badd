//! What is made from a seed.
ghost use Rattle.std.specs.Prelude.{◌≡◌, ◌<◌, ◌≤◌, IfOk};
ghost use Rattle.script.specs.Plan.{plan};
ghost use Rattle.generator.specs.Generator.{generated, request_count};

use crate::generator::Generator;
use crate::requests::next_requests;
use crate::serving::{empty_script, push_connection};
use script::Script;
use std::alloc::{AllocError, Global};

/// What the generator made: a script, and how many requests its connections have together.
#[derive(Drop)]
pub struct Generated {
    /// What is served: the connections come to one listener, and each gives its requests in pieces of at most seven bytes. The
    /// handler echoes, every origin, method and header is allowed, and there are four workers.
    pub script: Script,
    /// How many requests the connections have together, from one to four each.
    pub requests: u64,
}

/// Makes so many connections from the seed, up to 100,000, each with one to four requests, and the script that serves them,
/// as if its lines had been read. The seed is below 2^31, and the same seed makes the same. Err is want of memory.
pub fn generate(alloc: Global, count: usize, seed: u32) -> Result<Generated, AllocError>
    requires few { count ≤ 100000 }
    requires seed { seed < 2147483648 }
    ensures plan { IfOk result (λ made. plan made.script ≡ generated count seed) }
    ensures requests { IfOk result (λ made. made.requests ≡ request_count count seed) }
{
    let mut generator = Generator::new(seed);
    let mut script = empty_script(alloc)?;
    let mut requests = 0;
    for _done in 0..count {
        let made = next_requests(alloc, &mut generator)?;
        requests += made.count;
        push_connection(alloc, &mut script, made.bytes)?;
    }
    Ok(Generated { script, requests })
}
