ghost use Rattle.std.specs.Prelude.{◌≡◌, ◌+◌, ◌<◌, ◌^◌, ◌↔◌, ℕ, Bool, List, [], Option, None, IsTrue, IfSome};
ghost use Rattle.server_run.specs.Listener.{OnGot, IsMarked, IsTakenFrom, Mark, Rises};
ghost use Rattle.server_run.specs.declared.listener.Accepted.TheVariants.{NotYet, Skipped, Failed, Ended};

use service_core::Link;

/// What a listener answers.
#[derive(Debug, Drop)]
pub enum Accepted<L> {
    /// A connection.
    Got(L),
    /// None has come yet.
    NotYet,
    /// One connection failed while it was accepted.
    Skipped,
    /// The listener failed, and may be asked again.
    Failed,
    /// None will come any more.
    Ended,
}

/// Where connections come from. A listener gives fewer than 2^48 links in its life.
pub trait Listener: Drop {
    /// The link of each connection that it gives.
    type Link: Link;

    // The links still to come, in order, where the listener tells them.
    ghost left: { Self → Option (List Self.Link) };

    // The connections and the failures still to come, in order, where the listener tells them.
    ghost rest: { Self → Option (List Mark) } = { λ _. None };

    // How many links it has given.
    ghost given: { Self → ℕ };

    // It has answered `Ended`.
    ghost ended: { Self → Bool };

    // How often nothing had come.
    ghost waits: { Self → ℕ };

    // How often one connection failed.
    ghost skips: { Self → ℕ };

    // How often the listener failed.
    ghost faults: { Self → ℕ };

    /// The next connection. After `Ended` every answer is `Ended`.
    fn accept(&mut self) -> Accepted<Self::Link>
        ensures link { OnGot result
            (λ link. IsTakenFrom (left self.old) link (left self.new) × (given self.new ≡ given self.old + 1))
            ((left self.new ≡ left self.old) × (given self.new ≡ given self.old)) }
        ensures marked { IsMarked result (rest self.old) (rest self.new) }
        ensures small { given self.new < 2 ^ 48 }
        ensures ended { IsTrue (ended self.new) ↔ (result ≡ Ended) }
        ensures for_ever { IsTrue (ended self.old) → result ≡ Ended }
        ensures waited { Rises (waits self.old) (waits self.new) (result ≡ NotYet) }
        ensures skipped { Rises (skips self.old) (skips self.new) (result ≡ Skipped) }
        ensures failed { Rises (faults self.old) (faults self.new) (result ≡ Failed) };

    // At its end nothing is left.
    ghost at_end: { (listener : Self) → IsTrue (ended listener) → IfSome (left listener) (λ links. links ≡ []) };
}
