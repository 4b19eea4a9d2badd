//! How the acceptor writes down what happens.
ghost use Rattle.std.specs.Prelude.{◌≡◌, ◌<◌, ◌++◌, ◌∷◌, [], length, vec_len, vec_capacity, true};
ghost use Rattle.server_core.specs.Core.{IsKept, allowed, step};

use server_core::{AcceptCore, Event};

// Carries an event out, and writes it down.
pub(crate) fn log(core: &mut AcceptCore, events: &mut Vec<Event>, event: Event)
    requires allowed { allowed core.old event ≡ true }
    requires room { vec_len events.old < vec_capacity events.old }
    ensures core { core.new ≡ step core.old event }
    ensures kept { IsKept core.new }
    ensures events { events.new.items ≡ events.old.items ++ event ∷ [] }
    ensures capacity { vec_capacity events.new ≡ vec_capacity events.old }
    ensures workers { length core.new.out ≡ length core.old.out }
    ensures listeners { length core.new.ended ≡ length core.old.ended }
{
    core.step(event);
    events.push_reserved(event);
}
