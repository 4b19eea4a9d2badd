ghost use Rattle.std.specs.Prelude.{◌≡◌, ◌↔◌, None, true, false, IsNone, IsSome, IsSomeAnd, IsTrue};
ghost use Rattle.std.proofs.Props.{props};
ghost use Rattle.futures.specs.Task.{IsArmed, Keeps};
ghost use Rattle.server_core.specs.declared.command.Command.TheVariants.{Stop};
ghost use Rattle.server_commands.specs.Commands.{given_after, idles_after, stops_after};
ghost use Rattle.server_commands.specs.Signalled.{BySignal, HandsOn};
ghost use Rattle.server_commands.specs.declared.commands.Next.TheVariants.{Given, NotYet, Ended};

use crate::awaited::Awaited;
use crate::commands::{Commands, Next};
use crate::counts::stops_with;
use crate::graceful_shutdown_signal::GracefulShutdownSignal;
use futures::Future;
use futures::task::Context;
use server_core::Command;
use service_core::Watched;

/// The commands of another source, and one graceful stop once a signal has come (`shutdown_signal` of `actix-server`'s builder).
/// The end of that source is no end before the stop, since a stop is still to come.
#[derive(Drop)]
pub struct WithSignal<Fut: Future<Output = ()>, Co: Commands> {
    /// The signal, until it has come.
    signal: Option<Awaited<Fut>>,
    commands: Co,
    graceful: GracefulShutdownSignal,
    stops: u64,
    idles: u64,
    ended: bool,
    ghost at_end: { ended ≡ true → IsNone signal × IsTrue (Co.ended commands) } by { Prim.hlevel props },
}

impl<Fut: Future<Output = ()>, Co: Commands> WithSignal<Fut, Co> {
    ghost use Rattle.service_core.specs.Shown.{wait_count, watched_future};
    ghost use Rattle.server_commands.specs.Signals.{behind, signal_of};

    // The signal has not come.
    pub(crate) fn new(
        signal: Fut,
        commands: Co,
        graceful: GracefulShutdownSignal,
    ) -> WithSignal<Fut, Co>
        requires { Fut.can_poll signal }
        ensures behind { behind result ≡ commands }
        ensures signal { IsSomeAnd (signal_of result) (λ made. (watched_future made ≡ signal) × (wait_count made ≡ 0)) }
        ensures stops { ⟦<WithSignal<Fut, Co> as Commands>⟧.stops result ≡ 0 }
        ensures idles { ⟦<WithSignal<Fut, Co> as Commands>⟧.idles result ≡ 0 }
        ensures ended { ⟦<WithSignal<Fut, Co> as Commands>⟧.ended result ≡ false }
    {
        WithSignal {
            signal: Some(Awaited::new(Watched::new(signal))),
            commands,
            graceful,
            stops: 0,
            idles: 0,
            ended: false,
        }
    }

    // Whether the signal comes now.
    fn comes(&mut self, cx: &mut Context<'_>) -> bool
        ensures signal { BySignal (signal_of self.old) (signal_of self.new) (result ≡ true) (result ≡ false) }
        ensures armed { IsSome (signal_of self.new) → IsArmed cx.new }
        ensures behind { behind self.new ≡ behind self.old }
        ensures stops { self.new.stops ≡ self.old.stops }
        ensures idles { self.new.idles ≡ self.old.idles }
        ensures ended { self.new.ended ≡ self.old.ended }
        ensures kept { Keeps cx.old cx.new }
    {
        let Some(awaited) = self.signal.take() else {
            return false;
        };
        let mut signal = awaited.into_inner();
        if signal.poll(cx).is_ready() {
            return true;
        }
        self.signal = Some(Awaited::new(signal));
        false
    }
}

impl<Fut: Future<Output = ()>, Co: Commands> Commands for WithSignal<Fut, Co> {
    ghost use Rattle.server_commands.specs.Signals.{behind, signal_of};

    ghost given = { λ _. None };

    ghost stops = { λ with_signal. with_signal.stops };

    ghost idles = { λ with_signal. with_signal.idles };

    ghost ended = { λ with_signal. with_signal.ended };

    ghost unsettled = { λ with_signal. Co.unsettled with_signal.commands };

    /// Where the signal comes, it gives a graceful stop, and before that the queue's graceful signals are ready. Else the other
    /// source answers, but until then its end counts as if none had come yet.
    fn next(&mut self, cx: &mut Context<'_>) -> Next
        ensures signal { BySignal (signal_of self.old) (signal_of self.new)
            ((result ≡ Given (Stop true)) × (behind self.new ≡ behind self.old))
            (HandsOn Co.given Co.stops Co.idles (behind self.old) (behind self.new) result) }
        ensures end { result ≡ Ended → IsNone (signal_of self.old) × IsTrue (Co.ended (behind self.new)) }
        ensures end_behind { IsNone (signal_of self.old) → IsTrue (Co.ended (behind self.new)) → result ≡ Ended }
        ensures stops { self.new.stops ≡ stops_after result self.old.stops }
        ensures idles { self.new.idles ≡ idles_after result self.old.idles }
        ensures ended { IsTrue self.new.ended ↔ (result ≡ Ended) }
        ensures for_ever { IsTrue self.old.ended → result ≡ Ended }
        ensures armed { result ≡ NotYet → IsArmed cx.new }
        ensures kept { Keeps cx.old cx.new }
    {
        if self.comes(cx) {
            self.graceful.raise();
            self.stops = self.stops.saturating_add(1);
            return Next::Given(Command::Stop { graceful: true });
        }
        match self.commands.next(cx) {
            Next::Given(command) => {
                self.stops = stops_with(command, self.stops);
                Next::Given(command)
            }
            Next::Ended if self.signal.is_none() => {
                self.idles = self.idles.saturating_add(1);
                self.ended = true;
                Next::Ended
            }
            Next::NotYet | Next::Ended => {
                self.idles = self.idles.saturating_add(1);
                Next::NotYet
            }
        }
    }

    /// The other source is told.
    fn settled(&mut self) {
        self.commands.settled();
    }
}
