//! How the acceptor asks a listener.
ghost use Rattle.std.specs.Prelude.{◌≡◌, ◌≢◌, ◌+◌, ◌*◌, ◌≤◌, ◌<◌, ◌^◌, ◌++◌, ◌∷◌, [], ℕ, Bool, List, true, None, length, vec_len, slice_index, slice_index_or};
ghost use Rattle.server_core.specs.Core.{is_open, may_take};
ghost use Rattle.server_core.specs.declared.event.Event.TheVariants.{ListenerEnded};
ghost use Rattle.server_run.specs.Delivery.{HasEnded, given_at, rest_at};
ghost use Rattle.server_run.specs.Listener.{IsMarked};
ghost use Rattle.server_run.specs.declared.listener.Accepted.TheVariants as accepted;
ghost use Rattle.server_run.specs.declared.entry.Entry.{Entry};
ghost use Rattle.server_acceptor.specs.Acceptors.{all_ready};
ghost use Rattle.server_acceptor.specs.AskingListeners.{AsksOnly, Fails, IsAsked, IsMarkedAs, KeepsWaiting, Leaves, TakesUp};
ghost use Rattle.server_acceptor.specs.Carrying.{Carries};
ghost use Rattle.server_acceptor.specs.Listening.{AsksAt, Listens, NeverFall};
ghost use Rattle.server_acceptor.specs.Logging.{Logs};
ghost use Rattle.server_acceptor.specs.declared.asked.Asked.TheVariants as asked;

use crate::acceptor::Acceptor;
use crate::asked::Asked;
use crate::logging::log;
use server_core::Event;
use server_jobs::Waiting;
use server_run::{Accepted, Listener};
use service_core::Link;

// Asks the listener with that token once.
fn accept_at<Li: Listener>(listeners: &mut Vec<Li>, t: usize) -> Accepted<Li::Link>
    requires inside { t < length listeners.old.items }
    ensures answer { Listens Li.given Li.left Li.waits Li.skips Li.faults Li.ended listeners.old.items listeners.new.items t result }
    ensures faults { given_at Li.faults listeners.old.items t ≤ given_at Li.faults listeners.new.items t }
    ensures ended_only { HasEnded Li.ended listeners.new.items t → result ≡ accepted.Ended }
    ensures counts { NeverFall Li.waits Li.skips listeners.old.items listeners.new.items t }
    ensures marked { IsMarked result (rest_at Li.rest listeners.old.items t) (rest_at Li.rest listeners.new.items t) }
{
    listeners[t].accept()
}

impl<L: Link> Acceptor<L> {
    // Takes up a connection, which waits then.
    fn take_up(&mut self, t: usize, link: L)
        requires opened { is_open self.old.core t ≡ true }
        requires may { may_take self.old.core ≡ true }
        requires small { slice_index_or self.old.places.items t 0 + 1 < 2 ^ 48 }
        requires ready { all_ready self.old ≡ true }
        requires room { vec_len self.old.events + 2 ≤ 8 * length self.old.core.out + 600 }
        ensures logs { Logs self.old.core self.new.core self.old.events.items self.new.events.items }
        ensures takes { TakesUp self.old self.new t link }
        ensures asks { AsksOnly self.old self.new }
        ensures failed { self.new.failed ≡ self.old.failed }
    {
        let place = self.places[t];
        self.waiting = Some(Waiting {
            serial: self.serial,
            token: t,
            place,
            link,
        });
        self.serial += 1;
        self.places[t] = place + 1;
        log(&mut self.core, &mut self.events, Event::Got(t));
    }

    // Writes down that a listener failed. After so many failures it is given up.
    fn fail(&mut self, t: usize, now: u64)
        requires opened { is_open self.old.core t ≡ true }
        requires room { vec_len self.old.events + 2 ≤ 8 * length self.old.core.out + 600 }
        ensures logs { Logs self.old.core self.new.core self.old.events.items self.new.events.items }
        ensures fails { Fails self.old self.new t now }
        ensures failed { (v : ℕ) → v ≢ t → slice_index_or self.new.failed.items v None ≡ slice_index_or self.old.failed.items v None }
        ensures asks { AsksOnly self.old self.new }
        ensures same { KeepsWaiting self.old self.new }
        ensures counted { slice_index self.new.core.failures t ≡ slice_index self.old.core.failures t + 1 }
    {
        self.failed[t] = Some(now);
        log(&mut self.core, &mut self.events, Event::ListenerFailed(t));
        if self.core.failures(t) == self.retry_limit {
            log(&mut self.core, &mut self.events, Event::ListenerEnded(t));
        }
    }

    // Writes down that a listener gives no more.
    fn end(&mut self, t: usize)
        requires opened { is_open self.old.core t ≡ true }
        requires room { vec_len self.old.events + 2 ≤ 8 * length self.old.core.out + 600 }
        ensures logs { Logs self.old.core self.new.core self.old.events.items self.new.events.items }
        ensures events { self.new.events.items ≡ self.old.events.items ++ ListenerEnded t ∷ [] }
        ensures failed { self.new.failed ≡ self.old.failed }
        ensures asks { AsksOnly self.old self.new }
        ensures same { KeepsWaiting self.old self.new }
    {
        log(&mut self.core, &mut self.events, Event::ListenerEnded(t));
    }

    // Asks a listener once, where nothing waits.
    pub(crate) fn ask<Li>(&mut self, t: usize, listeners: &mut Vec<Li>, now: u64) -> Asked
    where
        Li: Listener<Link = L>,
        requires as_many { length listeners.old.items ≡ length self.old.core.ended }
        requires opened { is_open self.old.core t ≡ true }
        requires may { may_take self.old.core ≡ true }
        requires ready { all_ready self.old ≡ true }
        requires given { slice_index_or self.old.places.items t 0 ≤ given_at Li.given listeners.old.items t }
        requires room { vec_len self.old.events + 2 ≤ 8 * length self.old.core.out + 600 }
        ensures listeners { AsksAt listeners.old.items listeners.new.items t }
        ensures given { slice_index_or self.new.places.items t 0 ≤ given_at Li.given listeners.new.items t }
        ensures faults { given_at Li.faults listeners.old.items t ≤ given_at Li.faults listeners.new.items t }
        ensures ended_only { HasEnded Li.ended listeners.new.items t → result ≡ asked.Ended }
        ensures counts { NeverFall Li.waits Li.skips listeners.old.items listeners.new.items t }
        ensures marked { IsMarkedAs result (rest_at Li.rest listeners.old.items t) (rest_at Li.rest listeners.new.items t) }
        ensures counted { result ≡ asked.Failed → slice_index self.new.core.failures t ≡ slice_index self.old.core.failures t + 1 }
        ensures logs { Logs self.old.core self.new.core self.old.events.items self.new.events.items }
        ensures asks { AsksOnly self.old self.new }
        ensures failed { (v : ℕ) → v ≢ t → slice_index_or self.new.failed.items v None ≡ slice_index_or self.old.failed.items v None }
        ensures leaves { Leaves self.old self.new t result }
        ensures asked { IsAsked Li.given Li.waits Li.skips Li.faults Li.ended listeners.old.items listeners.new.items self.old self.new t now result }
        ensures carries { (none_left : Bool) (first : List Li) (entries : List (Entry L)) → Carries Li.given Li.left L.identity none_left first listeners.old.items self.old entries
            → Carries Li.given Li.left L.identity none_left first listeners.new.items self.new entries }
    {
        match accept_at(listeners, t) {
            Accepted::Got(link) => {
                self.take_up(t, link);
                Asked::Got
            }
            Accepted::NotYet => Asked::NotYet,
            Accepted::Skipped => Asked::Skipped,
            Accepted::Failed => {
                self.fail(t, now);
                Asked::Failed
            }
            Accepted::Ended => {
                self.end(t);
                Asked::Ended
            }
        }
    }
}
