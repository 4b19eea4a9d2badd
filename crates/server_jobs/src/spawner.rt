ghost use Rattle.std.specs.Prelude.{◌≡◌, ℕ, None, IfOk, IfSome, OnOk, OnErr};
ghost use Rattle.service_core.specs.Counts.{risen};
ghost use Rattle.server_jobs.specs.Jobs.{job_of, number_of, number_of_seat};

use crate::job::Job;
use crate::kept::Kept;
use crate::not_started::NotStarted;
use crate::running::Running;
use crate::seat::Seat;
use crate::waiter::Waiter;
use server_run::Host;
use std::thread;

/// What starts jobs, each in a thread of its own.
pub trait Spawner {
    // How many jobs were started. At u64's greatest it stays.
    ghost starts: { Self → ℕ };

    // How many starts were refused. At u64's greatest it stays.
    ghost refusals: { Self → ℕ };

    /// The seat of the job that starts next. None is a refusal, and is counted.
    fn seat(&mut self) -> Option<Seat>
        ensures starts { starts self.new ≡ starts self.old }
        ensures seated { IfSome result (λ _. refusals self.new ≡ refusals self.old) }
        ensures refused { result ≡ None → refusals self.new ≡ risen (refusals self.old) };

    /// Counts a start.
    fn count_start(&mut self)
        ensures starts { starts self.new ≡ risen (starts self.old) }
        ensures refusals { refusals self.new ≡ refusals self.old };

    /// Counts a refusal.
    fn count_refusal(&mut self)
        ensures starts { starts self.new ≡ starts self.old }
        ensures refusals { refusals self.new ≡ risen (refusals self.old) };

    /// Waits up to 10 ms on the thread of the caller, or not at all where it is busy. It claims nothing.
    fn rest<Ho: Host>(&mut self, rt: &Ho, busy: bool)
        ensures starts { starts self.new ≡ starts self.old }
        ensures refusals { refusals self.new ≡ refusals self.old };

    /// Wakes the job whose seat has that number. It claims nothing.
    fn ring(&mut self, number: usize)
        ensures starts { starts self.new ≡ starts self.old }
        ensures refusals { refusals self.new ≡ refusals self.old };

    /// Starts a job. Where no thread was started the job is dropped, and the refusal is counted.
    final fn start<Ho: Host + 'static, J: Job + 'static>(
        &mut self,
        rt: &Ho,
        job: J,
    ) -> Result<Running<J>, NotStarted>
    where
        J::Out: 'static,
        requires { J.can_work job }
        ensures job { IfOk result (λ running. job_of running ≡ job) }
        ensures started { OnOk result ((starts self.new ≡ risen (starts self.old)) × (refusals self.new ≡ refusals self.old)) }
        ensures refused { OnErr result ((refusals self.new ≡ risen (refusals self.old)) × (starts self.new ≡ starts self.old)) }
    {
        let Some(seat) = self.seat() else {
            return Err(NotStarted);
        };
        match launch(rt, job, seat) {
            Some(running) => {
                self.count_start();
                Ok(running)
            }
            None => {
                self.count_refusal();
                Err(NotStarted)
            }
        }
    }
}

// Starts a thread for the job, which waits at the seat.
fn launch<Ho: Host + 'static, J: Job + 'static>(rt: &Ho, job: J, seat: Seat) -> Option<Running<J>>
where
    J::Out: 'static,
    requires { J.can_work job }
    ensures job { IfSome result (λ running. job_of running ≡ job) }
    ensures number { IfSome result (λ running. number_of running ≡ number_of_seat seat) }
{
    let Ok(host) = rt.clone() else {
        return None;
    };
    let kept = Kept::of(&job);
    let number = seat.number();
    let waiter = Waiter::new(host, seat);
    match thread::spawn_with(
        rt,
        kept,
        move || -> J::Out
            requires { J.can_work job }
            ensures { J.promise job result }
        { job.work(waiter) },
    ) {
        Ok(handle) => Some(Running { handle, number }),
        Err(_) => None,
    }
}
