//! What a server is told while it serves.
ghost use Rattle.std.specs.Prelude.{◌≡◌, ◌↔◌, None, true, IsTrue};
ghost use Rattle.futures.specs.Task.{IsArmed, Keeps};
ghost use Rattle.server_commands.specs.Commands.{given_after, idles_after, stops_after};
ghost use Rattle.server_commands.specs.declared.commands.Next.TheVariants.{NotYet, Ended};

use futures::task::{Context, Poll};
use server_commands::{CommandStep, Commands, Next, ScriptCommands};
use std::alloc::{AllocError, Global};
use std::sync::Arc;
use std::sync::atomic::AtomicU64;
use std::sync::atomic::Ordering::SeqCst;

// So often it is asked at most before it opens. Only where a service found no memory is it too few.
const PATIENCE: u32 = 1_000;

// So often it looks at the count where it is asked, which takes about a millisecond.
const LOOKS: u32 = 1_000_000;

// Whether so many are counted, or soon will be.
pub(crate) fn comes_to(count: &AtomicU64, after: u64) -> bool {
    for _ in 0..LOOKS {
        if count.load(SeqCst) >= after {
            return true;
        }
    }
    false
}

/// Steps of commands, once services began with so many connections.
#[derive(Clone, Copy)]
pub struct Told<'a> {
    /// How many connections there are before.
    pub after: u64,
    /// The steps.
    pub steps: &'a [CommandStep],
}

/// A script of commands that begins once so many connections are counted.
#[derive(Drop)]
pub struct Gated {
    begun: Arc<AtomicU64>,
    after: u64,
    is_open: bool,
    patience: u32,
    commands: ScriptCommands,
    idles: u64,
    ghost at_end: { ⟦<ScriptCommands as Commands>⟧.ended commands ≡ true → is_open ≡ true },
}

impl Gated {
    /// The steps, once so many are counted there.
    pub fn new(alloc: Global, begun: Arc<AtomicU64>, told: &Told<'_>) -> Result<Gated, AllocError> {
        let mut steps = Vec::new(alloc);
        for step in told.steps {
            steps.push(*step)?;
        }
        Ok(Gated {
            begun,
            after: told.after,
            is_open: false,
            patience: PATIENCE,
            commands: ScriptCommands::new(alloc, steps),
            idles: 0,
        })
    }

    /// Whether it began before so many were counted.
    pub fn gave_up(&self) -> bool {
        self.patience == 0
    }

    // Whether it has begun. It begins where it may.
    fn opens(&mut self) -> bool
        ensures open { result ≡ self.new.is_open }
        ensures commands { self.new.commands ≡ self.old.commands }
        ensures idles { self.new.idles ≡ self.old.idles }
        ensures for_ever { self.old.is_open ≡ true → self.new.is_open ≡ true }
    {
        if self.is_open {
            return true;
        }
        if comes_to(&self.begun, self.after) {
            self.is_open = true;
            return true;
        }
        self.patience = self.patience.saturating_sub(1);
        if self.patience == 0 {
            self.is_open = true;
        }
        self.is_open
    }
}

impl Commands for Gated {
    ghost given = { λ _. None };

    ghost stops = { λ gated. ⟦<ScriptCommands as Commands>⟧.stops gated.commands };

    ghost idles = { λ gated. gated.idles };

    ghost ended = { λ gated. ⟦<ScriptCommands as Commands>⟧.ended gated.commands };

    fn next(&mut self, cx: &mut Context<'_>) -> Next {
        if !self.opens() {
            self.idles = self.idles.saturating_add(1);
            let _: Poll<()> = cx.yield_now();
            return Next::NotYet;
        }
        match self.commands.next(cx) {
            Next::Given(command) => Next::Given(command),
            Next::NotYet => {
                self.idles = self.idles.saturating_add(1);
                Next::NotYet
            }
            Next::Ended => {
                self.idles = self.idles.saturating_add(1);
                Next::Ended
            }
        }
    }

    fn settled(&mut self) {
        self.commands.settled();
    }
}
