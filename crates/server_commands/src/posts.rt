ghost use Rattle.std.specs.Prelude.{◌≡◌, ◌+◌, ◌^◌, ◌<◌, ◌∷◌, [], false, true, OnOk, OnErr};
ghost use Rattle.server_commands.specs.Posts.{IsFirst, stop_of, stops_in, taken_with, waiting_with};

use crate::posted::Posted;
use server_core::Command;
use std::alloc::{AllocError, Global};
use std::collections::VecDeque;

// The commands that wait to be given. The stops that were posted are those that wait and those that were taken. Where it is closed,
// none waits, and a command that is posted counts as taken.
#[derive(Drop)]
pub(crate) struct Posts {
    waiting: VecDeque<Posted>,
    stops_posted: u64,
    stops_taken: u64,
    closed: bool,
    ghost counted: { stops_posted ≡ stops_taken + stops_in waiting.items },
    ghost none: { closed ≡ true → waiting.items ≡ [] },
}

impl Posts {
    // None waits, and none was posted. It is open.
    pub(crate) fn new(alloc: Global) -> Posts
        ensures none { result.waiting.items ≡ [] }
        ensures posted { result.stops_posted ≡ 0 }
        ensures taken { result.stops_taken ≡ 0 }
        ensures open { result.closed ≡ false }
    {
        Posts {
            waiting: VecDeque::new(alloc),
            stops_posted: 0,
            stops_taken: 0,
            closed: false,
        }
    }

    // Puts a command behind those that wait, or makes its reply ready where this is closed. Where memory lacks, nothing changes, nor
    // where stops can't be counted any more.
    #[tactic(auto, using(crate::proofs::Waiting::stops_with_last))]
    pub(crate) fn post(&mut self, posted: Posted) -> Result<(), AllocError>
        ensures last { OnOk result (self.new.waiting.items ≡ waiting_with self.old.closed posted self.old.waiting.items) }
        ensures posted { OnOk result (self.new.stops_posted ≡ self.old.stops_posted + stops_in (posted ∷ [])) }
        ensures same { OnErr result (self.new.waiting.items ≡ self.old.waiting.items) }
        ensures none { OnErr result (self.new.stops_posted ≡ self.old.stops_posted) }
        ensures taken { OnOk result (self.new.stops_taken ≡ taken_with self.old.closed posted self.old.stops_taken) }
        ensures not_taken { OnErr result (self.new.stops_taken ≡ self.old.stops_taken) }
        ensures closed { self.new.closed ≡ self.old.closed }
    {
        let Some(stops) = self.stops_posted.checked_add(stop_of(posted.command)) else {
            return Err(AllocError);
        };
        if self.closed {
            self.stops_taken += stop_of(posted.command);
            self.stops_posted = stops;
            drop(posted.complete());
            return Ok(());
        }
        self.waiting.reserve(1)?;
        self.waiting.push_back_reserved(posted);
        self.stops_posted = stops;
        Ok(())
    }

    // Takes the first that waits.
    pub(crate) fn take(&mut self) -> Option<Posted>
        ensures first { IsFirst self.old.waiting.items result self.new.waiting.items }
        ensures posted { self.new.stops_posted ≡ self.old.stops_posted }
        ensures closed { self.new.closed ≡ self.old.closed }
    {
        let posted = self.waiting.pop_front()?;
        self.stops_taken += stop_of(posted.command);
        Some(posted)
    }

    // Takes all that wait and makes their replies ready. From now on it is closed.
    pub(crate) fn close(&mut self)
        ensures none { self.new.waiting.items ≡ [] }
        ensures closed { self.new.closed ≡ true }
        ensures posted { self.new.stops_posted ≡ self.old.stops_posted }
        ensures taken { self.new.stops_taken ≡ self.old.stops_posted }
    {
        while let Some(posted) = self.take() {
            drop(posted.complete());
        }
        self.closed = true;
    }
}

// 1 for a stop.
fn stop_of(command: Command) -> u64
    ensures { result ≡ stop_of command }
{
    u64::from(matches!(command, Command::Stop { .. }))
}
