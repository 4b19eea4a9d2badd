//! What an accept core keeps over every list of events.
ghost use Rattle.std.specs.Prelude.{◌≡◌, ◌≤◌, ◌<◌, ◌++◌, [], ◌∷◌, ℕ, Bool, true, false, List, length, Some, is_some};
ghost use Rattle.std.specs.List.{list_any};
ghost use Rattle.std.specs.FinSet as set;
ghost use Rattle.server_core.specs.Core.{Core, IsKept, allowed, first_free, fresh, picked, step};
ghost use Rattle.server_core.specs.Ledger.{Ledger, LeadsTo, IsLedgerOf, Moves, AllGoOn, AtMostOneMoves};
ghost use Rattle.server_core.specs.Runs.{AllAllowed, TakesTurn, after_all, after_any, is_resume};
ghost use Rattle.server_core.specs.declared.command.Command.TheVariants.{Pause, Stop};
ghost use Rattle.server_core.specs.declared.event.Event.{Event};
ghost use Rattle.server_core.specs.declared.event.Event.TheVariants.{Command, Got, Sent, RingFull};

use crate::accept_core::AcceptCore;
use crate::event::Event;

/// A new core, and then each event that is allowed where it stands; the others are passed over.
pub fn any_events(workers: usize, listeners: usize, events: &[Event]) -> AcceptCore
    requires some_workers { 1 ≤ workers }
    requires most_workers { workers ≤ 512 }
    requires some_listeners { 1 ≤ listeners }
    requires most_listeners { listeners ≤ 64 }
    ensures value { result ≡ after_any (fresh workers listeners) events.now }
    ensures kept { IsKept result }
{
    let mut core = AcceptCore::new(workers, listeners);
    for event in events {
        if core.allows(event) {
            core.step(*event);
        }
    }
    core
}

/// Each connection that was given is done, out at one worker, or the one that waits; the free workers are in order, no
/// worker stands there twice, and nothing waits after a stop. Every allowed event keeps this, so it stands over every list
/// of them.
pub fn balance_is_kept()
    ensures step { (core : Core) (event : Event) → IsKept core → allowed core event ≡ true → IsKept (step core event) }
    ensures all { (workers listeners : ℕ) (events : List Event) → workers ≤ 512 → AllAllowed (fresh workers listeners) events
        → IsKept (after_all (fresh workers listeners) events) }
{}

/// In no list of allowed events is a connection taken after a stop, or after a pause before the next resume.
pub fn none_is_taken_meanwhile()
    ensures stopped { (core : Core) (before between after : List Event) (graceful : Bool) (token : ℕ)
        → ¬ AllAllowed core (before ++ Command (Stop graceful) ∷ (between ++ Got token ∷ after)) }
    ensures paused { (core : Core) (before between after : List Event) (token : ℕ) → list_any is_resume between ≡ false
        → ¬ AllAllowed core (before ++ Command Pause ∷ (between ++ Got token ∷ after)) }
{}

/// Over every list of allowed events a connection goes to the first worker, from `next` on and round, that is marked free,
/// and the next turn begins behind it.
pub fn workers_take_turns()
    ensures { (core : Core) (before after : List Event) (worker : ℕ) (remains : Bool)
        → AllAllowed core (before ++ Sent worker remains ∷ after)
        → TakesTurn (after_all core before) worker (after_all core (before ++ Sent worker remains ∷ [])).next }
{}

/// Each connection that was given is in one place by itself: it waits, which at most one does, is at one worker, or is done.
/// Over every list of allowed events, whichever of those at a worker come back, as many are in each place as the counts
/// tell, and every allowed event has such a move. None that is done moves again, one at a worker stays there until it is
/// done, and no event moves two.
pub fn each_connection_is_in_one_place()
    ensures counted { (workers listeners : ℕ) (events : List Event) (ledger : Ledger)
        → AllAllowed (fresh workers listeners) events → LeadsTo (fresh workers listeners) [] events ledger
        → IsLedgerOf (after_all (fresh workers listeners) events) ledger }
    ensures leads_on { (workers listeners : ℕ) (before after : List Event) (ledger : Ledger)
        → AllAllowed (fresh workers listeners) (before ++ after) → LeadsTo (fresh workers listeners) [] before ledger
        → (later : Ledger) × LeadsTo (after_all (fresh workers listeners) before) ledger after later }
    ensures goes_on { (core : Core) (events : List Event) (before after : Ledger) → LeadsTo core before events after
        → AllGoOn before after }
    ensures one_moves { (core : Core) (event : Event) (before after : Ledger) → Moves core event before after
        → AtMostOneMoves before after }
{}

/// With none passed over, `pick` gives the worker whose turn it is: where a connection waits, it may be sent to that worker,
/// or that worker's ring may be told to be full.
pub fn a_pick_may_be_sent()
    ensures first { (core : Core) → picked core set.empty ≡ first_free core }
    ensures sent { (core : Core) (worker : ℕ) (remains : Bool) → is_some core.waiting ≡ true → picked core set.empty ≡ Some worker
        → worker < length core.out → allowed core (Sent worker remains) ≡ true }
    ensures ring_full { (core : Core) (worker : ℕ) → is_some core.waiting ≡ true → picked core set.empty ≡ Some worker
        → worker < length core.out → allowed core (RingFull worker) ≡ true }
{}
