ghost use Rattle.std.specs.Prelude.{◌≡◌, ◌≤◌, None};

use crate::gated_link::GatedLink;
use server_run::{Accepted, Listener};

/// Gives two links, and then ends. It doesn't tell them.
#[derive(Drop)]
pub(crate) struct GatedListener {
    first: Option<GatedLink>,
    second: Option<GatedLink>,
    given: u64,
    ended: bool,
    ghost few: { given ≤ 2 },
}

impl GatedListener {
    /// It is to give these links.
    pub(crate) fn new(first: GatedLink, second: GatedLink) -> GatedListener {
        GatedListener {
            first: Some(first),
            second: Some(second),
            given: 0,
            ended: false,
        }
    }

    // The next link.
    fn next(&mut self) -> Option<GatedLink>
        ensures given { self.new.given ≡ self.old.given }
        ensures ended { self.new.ended ≡ self.old.ended }
    {
        match self.first.take() {
            Some(link) => Some(link),
            None => self.second.take(),
        }
    }
}

impl Listener for GatedListener {
    type Link = GatedLink;

    ghost left = { λ _. None };

    ghost given = { λ listener. listener.given };

    ghost ended = { λ listener. listener.ended };

    ghost waits = { λ _. 0 };

    ghost skips = { λ _. 0 };

    ghost faults = { λ _. 0 };

    fn accept(&mut self) -> Accepted<GatedLink> {
        if self.ended || self.given == 2 {
            self.ended = true;
            return Accepted::Ended;
        }
        match self.next() {
            Some(link) => {
                self.given += 1;
                Accepted::Got(link)
            }
            None => {
                self.ended = true;
                Accepted::Ended
            }
        }
    }

    ghost at_end = { λ _ _. tt };
}
