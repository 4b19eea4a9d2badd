ghost use Rattle.std.specs.Prelude.{◌≡◌, ◌+◌, ◌^◌, ◌<◌, [], Some, true, false, length};
ghost use Rattle.std.proofs.Common.{ap, rules};
ghost use Rattle.server_run.specs.Memory.{links, marks};

use crate::{Accepted, Listener, ListenerStep, MemoryLink};
use std::alloc::Global;
use std::collections::VecDeque;

/// A listener in memory, which goes through a list of steps and then ends.
#[derive(Drop)]
pub struct MemoryListener {
    steps: VecDeque<ListenerStep>,
    given: u64,
    ended: bool,
    waits: u64,
    skips: u64,
    faults: u64,
    ghost few: { given + length (links steps.items) < 2 ^ 48 },
    ghost at_end: { ended ≡ true → steps.items ≡ [] },
}

impl MemoryListener {
    /// It answers by the steps, and then `Ended`. Fewer than 2^48 of them give a link.
    pub fn new(_alloc: Global, steps: Vec<ListenerStep>) -> MemoryListener
        requires { length (links steps.items) < 2 ^ 48 }
        ensures steps { result.steps.items ≡ steps.items }
        ensures given { result.given ≡ 0 }
        ensures ended { result.ended ≡ false }
    {
        MemoryListener {
            steps: VecDeque::from_vec(steps),
            given: 0,
            ended: false,
            waits: 0,
            skips: 0,
            faults: 0,
        }
    }
}

impl Listener for MemoryListener {
    type Link = MemoryLink;

    ghost left = { λ listener. Some (links listener.steps.items) };

    ghost rest = { λ listener. Some (marks listener.steps.items) };

    ghost given = { λ listener. listener.given };

    ghost ended = { λ listener. listener.ended };

    ghost waits = { λ listener. listener.waits };

    ghost skips = { λ listener. listener.skips };

    ghost faults = { λ listener. listener.faults };

    fn accept(&mut self) -> Accepted<MemoryLink> {
        match self.steps.pop_front() {
            Some(ListenerStep::Give(link)) => {
                self.given += 1;
                Accepted::Got(link)
            }
            Some(ListenerStep::NotYet) => {
                self.waits = self.waits.saturating_add(1);
                Accepted::NotYet
            }
            Some(ListenerStep::Skip) => {
                self.skips = self.skips.saturating_add(1);
                Accepted::Skipped
            }
            Some(ListenerStep::Fail) => {
                self.faults = self.faults.saturating_add(1);
                Accepted::Failed
            }
            None => {
                self.ended = true;
                Accepted::Ended
            }
        }
    }

    ghost at_end = { λ listener h. ap links (listener.at_end h) };
}
