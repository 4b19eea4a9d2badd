ghost use Rattle.std.specs.Prelude.{◌≡◌};
ghost use Rattle.service_core.specs.Shown.{watched_future};

use futures::Future;
use service_core::Watched;

// A signal that may be polled.
#[derive(Drop)]
pub(crate) struct Awaited<Fut: Future> {
    signal: Watched<Fut>,
    ghost can_poll: { ∥ Fut.can_poll (watched_future signal) ∥₁ },
}

impl<Fut: Future> Awaited<Fut> {
    pub(crate) fn new(signal: Watched<Fut>) -> Awaited<Fut>
        requires { Fut.can_poll (watched_future signal) }
        ensures { result.signal ≡ signal }
    {
        Awaited { signal }
    }

    pub(crate) fn into_inner(self) -> Watched<Fut>
        ensures { (result ≡ self.signal) × Fut.can_poll (watched_future result) }
    {
        let Awaited { signal } = self;
        signal
    }
}
