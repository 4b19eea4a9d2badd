use crate::names::Names;
use futures::task::{Context, Doorbell, Poll, Solo, Source, Waker};
use std::alloc::Global;

/// The one task of a thread that makes turns. A context of it serves for one turn or for many, and may then be asked whether
/// anything wanted another poll.
#[derive(Drop)]
pub struct OneTask {
    solo: Solo,
    source: Source,
}

impl OneTask {
    /// The number is the name of the task's queue. None is want of memory.
    pub fn new(alloc: Global, number: usize) -> Option<OneTask> {
        let names = Names {
            alloc,
            number: number as u64,
        };
        Some(OneTask {
            solo: Solo::new(&names, Doorbell::spinning()).ok()?,
            source: Source::new(),
        })
    }

    /// Begins a poll. End it by `was_woken`, or by `cancel`.
    pub fn begin(&self) -> Context<'_> {
        self.solo.begin()
    }

    /// Ends a poll that goes on in a later one, with a waker out: that is kept for the next, since a waker wakes where it is dropped. It
    /// tells whether the task was woken meanwhile, by the poll itself or from elsewhere, so that a thread need not wait. It claims nothing.
    pub fn was_woken(&self, cx: Context<'_>, kept: &mut Option<Waker>) -> bool {
        let mut cx = cx;
        let _: Poll<()> = cx.register(&self.source, kept);
        cx.park();
        let Some(asleep) = self.solo.sleep() else {
            return true;
        };
        asleep.end();
        false
    }
}
