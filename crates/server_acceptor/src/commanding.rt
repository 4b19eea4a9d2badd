//! How the acceptor takes commands.
ghost use Rattle.std.specs.Prelude.{◌≡◌, ◌+◌, ◌*◌, ◌∷◌, ◌≤◌, ◌<◌, [], length, vec_len};
ghost use Rattle.futures.specs.Task.{Keeps};
ghost use Rattle.server_run.specs.Done.{Adds};
ghost use Rattle.server_acceptor.specs.Acceptors.{events_of, out_of};
ghost use Rattle.server_acceptor.specs.Commanding.{Obeys, TakesEnd, TakesFirst, entry_of, goes_at, gone_of, stop_behind, waits_behind};

use crate::acceptor::Acceptor;
use crate::logging::log;
use crate::stop::Stop;
use futures::task::Context;
use server_commands::{Commands, Next};
use server_core::{Command, Event};
use server_jobs::Waiting;
use server_run::{Done, Entry, Outcome};
use service_core::Link;

// How many commands are taken in a turn, at most.
const MOST_COMMANDS: usize = 256;

// The entry of a connection that no service began with.
fn let_go<L>(waiting: Waiting<L>, outcome: Outcome) -> Entry<L>
    ensures { result ≡ entry_of outcome waiting }
{
    let Waiting {
        serial,
        token,
        place,
        link,
    } = waiting;
    Entry {
        serial,
        token,
        place,
        link,
        outcome,
    }
}

// Hands on what waited, as it is.
pub(crate) fn hand_on<L: Link, Do: Done<L>>(
    waiting: Option<Waiting<L>>,
    outcome: Outcome,
    done: &mut Do,
)
    requires spare { length (gone_of outcome waiting) ≤ Do.spare done.old }
    ensures adds { Adds Do.taken Do.count Do.served done.old done.new (gone_of outcome waiting) }
    ensures spare { Do.spare done.new + length (gone_of outcome waiting) ≡ Do.spare done.old }
{
    match waiting {
        Some(waiting) => done.take(let_go(waiting, outcome)),
        None => {}
    }
}

// What waits behind a command, and what it lets go.
fn split<L>(
    waiting: Option<Waiting<L>>,
    command: Command,
) -> (Option<Waiting<L>>, Option<Waiting<L>>)
    ensures { result ≡ (waits_behind command waiting, goes_at command waiting) }
{
    match command {
        Command::Pause => (waiting, None),
        Command::Resume => (waiting, None),
        Command::Stop { graceful: _ } => (None, waiting),
    }
}

// The first stop, behind a command.
fn first_stop(stop: Option<Stop>, command: Command, now: u64) -> Option<Stop>
    ensures { result ≡ stop_behind stop command now }
{
    match command {
        Command::Pause => stop,
        Command::Resume => stop,
        Command::Stop { graceful } => match stop {
            Some(first) => Some(first),
            None => Some(Stop {
                graceful,
                since: now,
            }),
        },
    }
}

impl<L: Link> Acceptor<L> {
    // Carries a command out. At a stop, what waits is let go.
    fn carry_out<Do: Done<L>>(&mut self, command: Command, now: u64, done: &mut Do)
        requires room { vec_len self.old.events < 8 * length self.old.core.out + 600 }
        requires spare { out_of self.old ≤ Do.spare done.old }
        ensures spare { out_of self.new ≤ Do.spare done.new }
        ensures obeys { Obeys Do.taken Do.count Do.served self.old self.new done.old done.new (command ∷ []) now }
    {
        log(&mut self.core, &mut self.events, Event::Command(command));
        self.stop = first_stop(self.stop, command, now);
        let (waiting, gone) = split(self.waiting.take(), command);
        self.waiting = waiting;
        hand_on(gone, Outcome::Stopped { forced: false }, done);
    }

    // Carries a command out. Before a stop it is settled then.
    fn obey<Co: Commands, Do: Done<L>>(
        &mut self,
        command: Command,
        commands: &mut Co,
        now: u64,
        done: &mut Do,
    )
        requires room { vec_len self.old.events < 8 * length self.old.core.out + 600 }
        requires spare { out_of self.old ≤ Do.spare done.old }
        ensures spare { out_of self.new ≤ Do.spare done.new }
        ensures obeys { Obeys Do.taken Do.count Do.served self.old self.new done.old done.new (command ∷ []) now }
        ensures given { Co.given commands.new ≡ Co.given commands.old }
        ensures stops { Co.stops commands.new ≡ Co.stops commands.old }
        ensures idles { Co.idles commands.new ≡ Co.idles commands.old }
        ensures ended { Co.ended commands.new ≡ Co.ended commands.old }
    {
        self.carry_out(command, now, done);
        if !self.core.stopping() {
            commands.settled();
        }
    }

    // Takes up the end of a source. Where it is paused and not stopped, that is a graceful stop.
    fn take_end<Do: Done<L>>(&mut self, now: u64, done: &mut Do)
        requires room { vec_len self.old.events < 8 * length self.old.core.out + 600 }
        requires spare { out_of self.old ≤ Do.spare done.old }
        ensures spare { out_of self.new ≤ Do.spare done.new }
        ensures takes { TakesEnd Do.taken Do.count Do.served self.old self.new done.old done.new now }
    {
        if !self.core.paused() {
            return;
        }
        if self.core.stopping() {
            return;
        }
        self.carry_out(Command::Stop { graceful: true }, now, done);
    }

    // Takes the commands that wait, at most 256. True says that the source has no more for now.
    pub(crate) fn take_commands<Co: Commands, Do: Done<L>>(
        &mut self,
        cx: &mut Context<'_>,
        commands: &mut Co,
        now: u64,
        done: &mut Do,
    ) -> bool
        requires begins { events_of self.old ≡ [] }
        requires spare { out_of self.old ≤ Do.spare done.old }
        ensures kept { Keeps cx.old cx.new }
        ensures spare { out_of self.new ≤ Do.spare done.new }
        ensures takes { TakesFirst Do.taken Do.count Do.served Co.given Co.stops Co.idles Co.ended self.old self.new done.old done.new commands.old commands.new now result }
    {
        for k in 0..MOST_COMMANDS {
            match commands.next(cx) {
                Next::Given(command) => self.obey(command, commands, now, done),
                Next::NotYet => return true,
                Next::Ended => {
                    self.take_end(now, done);
                    return true;
                }
            }
        }
        false
    }
}
