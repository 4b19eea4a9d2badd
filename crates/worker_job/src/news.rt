use server_jobs::Waiter;
use server_worker::SLOTS;
use std::alloc::Global;

// So many slots are looked at in each turn, whatever is told of them.
const SHARE: u32 = 4;

/// The slots at which a turn looks: those that its host tells of, and some more in turn, so that a connection whose news was lost is polled in any
/// 16,384 turns.
#[derive(Drop)]
pub(crate) struct News {
    slots: Vec<u32>,
    // The slot whose turn is next.
    next: u32,
}

impl News {
    /// No slot.
    pub(crate) fn new(alloc: Global) -> News {
        News {
            slots: Vec::new(alloc),
            next: 0,
        }
    }

    /// Those of the next turn. False says that there may be news of others too.
    pub(crate) fn take<Ho>(&mut self, waiter: &Waiter<Ho>) -> bool {
        waiter.take_news(&mut self.slots) && self.add_share()
    }

    // Adds those whose turn it is. False says that memory lacks.
    fn add_share(&mut self) -> bool {
        for _ in 0..SHARE {
            if self.slots.push(self.next).is_err() {
                return false;
            }
            self.next = self.next.wrapping_add(1) % SLOTS;
        }
        true
    }

    /// The slots.
    pub(crate) fn slots(&self) -> &[u32] {
        &self.slots
    }
}
