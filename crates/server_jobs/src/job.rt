use crate::waiter::Waiter;
use server_run::Host;

/// Work for a thread of its own.
pub trait Job: Drop + Send {
    /// What it hands over when it is done.
    type Out: Send + Drop;

    // Holds of a job whose work may begin.
    ghost can_work: { Self → Type 0 };

    // Holds of what it may hand over, for the job as it began.
    ghost promise: { Self → Self.Out → Type 0 };

    /// Does the work.
    fn work<Ho: Host>(self, waiter: Waiter<Ho>) -> Self::Out
        requires { can_work self }
        ensures { promise self result };
}
