use futures::Future;
use futures::task::{Context, Poll};

/// A signal that comes at the poll behind so many at which it is not there.
#[derive(Drop)]
pub struct Countdown {
    waits: u32,
}

impl Countdown {
    /// It isn't there at so many polls.
    pub fn new(waits: u32) -> Countdown {
        Countdown { waits }
    }
}

impl Future for Countdown {
    type Output = ();

    fn poll(&mut self, cx: &mut Context<'_>) -> Poll<()> {
        if self.waits == 0 {
            return Poll::Ready(());
        }
        self.waits -= 1;
        cx.yield_now()
    }
}
