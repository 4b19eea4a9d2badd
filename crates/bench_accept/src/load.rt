//! Connections that come and go, over the bookkeeping of an acceptor.
ghost use Rattle.std.specs.Prelude.{◌≡◌, ◌≤◌, ◌*◌, cond};
ghost use Rattle.server_core.specs.Core.{allowed, step};
ghost use Rattle.bench_accept.specs.Size.{IsSound};

use crate::size::Size;
use server_core::{AcceptCore, Availability, Event};

/// What came of a load.
#[derive(Clone, Copy)]
pub struct Tally {
    /// How many events were carried out.
    pub events: u64,
    /// The sum of the numbers of the workers that the further picks gave, modulo 2^64.
    pub sum: u64,
}

// Carries the event out if it is allowed. How many events that are, 1 or none.
fn happened(core: &mut AcceptCore, event: Event) -> u64
    ensures count { result ≡ cond (allowed core.old event) 1 0 }
    ensures value { core.new ≡ cond (allowed core.old event) (step core.old event) core.old }
{
    if !core.allows(&event) {
        return 0;
    }
    core.step(event);
    1
}

// The connection that waits goes to the worker whose turn it is, and comes back. How many events that are.
fn place(core: &mut AcceptCore) -> u64
    ensures { result ≤ 2 }
{
    let Some(worker) = core.pick(&Availability::default()) else {
        return 0;
    };
    let sent = Event::Sent {
        worker,
        remains: true,
    };
    happened(core, sent) + happened(core, Event::Back(worker))
}

// The ring of the worker whose turn it is is full for a moment. How many events that are.
fn fill_a_ring(core: &mut AcceptCore) -> u64
    ensures { result ≤ 2 }
{
    let Some(worker) = core.pick(&Availability::default()) else {
        return 0;
    };
    happened(core, Event::RingFull(worker)) + happened(core, Event::Notice(worker))
}

// A connection comes and goes, and one of sixteen finds a full ring first. How many events that are.
fn turn(core: &mut AcceptCore, number: u32) -> u64
    ensures { result ≤ 5 }
{
    let given = happened(core, Event::Got(0));
    let filled = if number % 16 == 15 {
        fill_a_ring(core)
    } else {
        0
    };
    given + filled + place(core)
}

// The core at the start: all workers are full but the last ones, behind the first of which the next turn begins.
fn core_of(size: Size) -> AcceptCore
    requires { IsSound size }
{
    let mut core = AcceptCore::new(size.workers, 1);
    happened(&mut core, Event::Got(0));
    for worker in 0..size.workers - size.free {
        happened(&mut core, Event::RingFull(worker));
    }
    place(&mut core);
    core
}

// The sum of the numbers of the workers that are picked, with ever more of the full ones passed over.
fn picked(core: &AcceptCore, size: Size) -> u64
    requires { IsSound size }
{
    let full = size.workers - size.free;
    let mut passed = Availability::default();
    let mut sum = 0u64;
    for number in 0..size.picks {
        if full > 0 {
            passed.set_available(number as usize % full, true);
        }
        if let Some(worker) = core.pick(&passed) {
            sum = sum.wrapping_add(worker as u64);
        }
    }
    sum
}

/// As many connections as the size says come and go, one after the other.
pub fn carried_out(size: Size) -> Tally
    requires { IsSound size }
    ensures { result.events ≤ 5 * size.turns }
{
    let mut core = core_of(size);
    let mut tally = Tally { events: 0, sum: 0 };
    for number in 0..size.turns {
        tally.events += turn(&mut core, number);
        tally.sum = tally.sum.wrapping_add(picked(&core, size));
    }
    tally
}
