//! What is told of the listeners.
ghost use Rattle.std.specs.Prelude.{◌≡◌, ◌≤◌, ℕ, [], length, vec_capacity, slice_get, IfSome};
ghost use Rattle.server_acceptor.specs.Acceptors.{core_of, listeners_of, retry_limit_of};
ghost use Rattle.server_acceptor.specs.States.{IsStateOf};

use server_acceptor::Acceptor;
use server_run::ListenerState;
use service_core::Link;

// What became of each of so many listeners.
pub(crate) fn tell_states<L: Link>(
    acceptor: &Acceptor<L>,
    listeners: usize,
    states: &mut Vec<ListenerState>,
)
    requires all { listeners ≡ listeners_of acceptor.now }
    requires none { states.old.items ≡ [] }
    requires room { listeners ≤ vec_capacity states.old }
    ensures as_many { length states.new.items ≡ listeners }
    ensures states { (t : ℕ) → IfSome (slice_get states.new.items t) (IsStateOf (core_of acceptor.now) (retry_limit_of acceptor.now) t) }
{
    for token in 0..listeners {
        states.push_reserved(acceptor.listener_state(token));
    }
}
