ghost use Rattle.std.specs.Prelude.{◌≡◌, ◌≢◌, ◌<◌, [], None, false, map, vec_capacity, vec_len, All, IsSome};
ghost use Rattle.futures.specs.Task.{IsArmed, Keeps};
ghost use Rattle.server_commands.specs.Commands.{idles_after, stops_after};
ghost use Rattle.server_commands.specs.declared.commands.Next.TheVariants.{NotYet, Ended};

use crate::commands::{Commands, Next};
use crate::counts::stops_with;
use crate::graceful_shutdown_signal::GracefulShutdownSignal;
use crate::owed::Owed;
use crate::posted::Posted;
use crate::posts::Posts;
use futures::task::{Context, Poll};
use server_core::Command;
use std::alloc::Global;
use std::sync::{Arc, Mutex, Wait};

/// The commands that handles post, in the order in which they came (the receiver behind `actix-server`'s `ServerHandle`). There
/// may always be a handle, so it never ends.
#[derive(Drop)]
pub struct HandleCommands<W> {
    rt: W,
    posts: Arc<Mutex<Posts>>,
    graceful: GracefulShutdownSignal,
    /// The flags of the replies to the commands that were given and not settled before the last call of `next`.
    owed: Owed,
    stops: u64,
    idles: u64,
}

impl<W> HandleCommands<W> {
    // It has given none.
    pub(crate) fn new(
        alloc: Global,
        rt: W,
        posts: Arc<Mutex<Posts>>,
        graceful: GracefulShutdownSignal,
    ) -> HandleCommands<W>
        ensures none { result.owed.raisers.items ≡ [] }
        ensures stops { result.stops ≡ 0 }
        ensures idles { result.idles ≡ 0 }
    {
        HandleCommands {
            rt,
            posts,
            graceful,
            owed: Owed::new(alloc),
            stops: 0,
            idles: 0,
        }
    }
}

impl<W: Wait> HandleCommands<W> {
    ghost use Rattle.server_commands.specs.Replies.{unraised};

    // Forgets the flags that are raised, and takes the first command that waits, where memory has room for its flag.
    fn take(&mut self) -> Option<Posted>
        ensures left { self.new.owed.raisers.items ≡ unraised self.old.owed.raisers.items }
        ensures unsettled { self.new.owed.is_settled ≡ false }
        ensures room { IsSome result → vec_len self.new.owed.raisers < vec_capacity self.new.owed.raisers }
        ensures stops { self.new.stops ≡ self.old.stops }
        ensures idles { self.new.idles ≡ self.old.idles }
    {
        self.owed.make_room().ok()?;
        self.posts.lock(&self.rt).take()
    }
}

impl<W: Wait> Commands for HandleCommands<W> {
    ghost use Rattle.server_commands.specs.Handles.{Owes, owed_of};
    ghost use Rattle.server_commands.specs.Replies.{asked_by, is_any_unraised, knows_of, raises_of};

    ghost given = { λ _. None };

    ghost stops = { λ commands. commands.stops };

    ghost idles = { λ commands. commands.idles };

    ghost ended = { λ _. false };

    ghost unsettled = { λ commands. is_any_unraised commands.owed.raisers.items };

    /// It takes the first that waits. Before a graceful stop is given, the queue's graceful signals are ready. Where none waits, the
    /// task is polled again, as where memory has no room for the flag of one more reply, and then none is taken.
    fn next(&mut self, cx: &mut Context<'_>) -> Next
        ensures goes_on { result ≢ Ended }
        ensures owes { Owes result (owed_of self.old) (owed_of self.new) }
        ensures stops { self.new.stops ≡ stops_after result self.old.stops }
        ensures idles { self.new.idles ≡ idles_after result self.old.idles }
        ensures armed { result ≡ NotYet → IsArmed cx.new }
        ensures kept { Keeps cx.old cx.new }
    {
        let Some(Posted { command, raiser }) = self.take() else {
            self.idles = self.idles.saturating_add(1);
            let _: Poll<()> = cx.yield_now();
            return Next::NotYet;
        };
        if let Command::Stop { graceful: true } = command {
            self.graceful.raise();
        }
        self.owed.push_reserved(raiser);
        self.stops = stops_with(command, self.stops);
        Next::Given(command)
    }

    /// The reply to each command that was given becomes ready.
    fn settled(&mut self)
        ensures raised { All (λ raiser. knows_of raiser ≡ 1) (owed_of self.new) }
        ensures same { map raises_of (owed_of self.new) ≡ map raises_of (owed_of self.old) }
        ensures commands { map asked_by (owed_of self.new) ≡ map asked_by (owed_of self.old) }
        ensures stops { self.new.stops ≡ self.old.stops }
        ensures idles { self.new.idles ≡ self.old.idles }
        ensures settled { is_any_unraised (owed_of self.new) ≡ false }
    {
        self.owed.settle();
    }
}
