//! How the acceptor sends stops to the workers.
ghost use Rattle.std.specs.Prelude.{◌≡◌, ◌≢◌, ◌⊎◌, ◌&&◌, ◌<◌, ℕ, List, All, Some, true, false};
ghost use Rattle.std.specs.List.{list_all};
ghost use Rattle.server_acceptor.specs.Accepting.{Proceeds};
ghost use Rattle.server_acceptor.specs.Acceptors.{forced_of, parcels_of, stop_of, stopped_of, workers_of};
ghost use Rattle.server_acceptor.specs.Placing.{HasNoPlace, KeepsSent, PutsAt};
ghost use Rattle.server_jobs.specs.declared.parcel.Parcel.TheVariants as parcel;
ghost use Rattle.server_acceptor.specs.Sending.{IsForced};
ghost use Rattle.server_acceptor.specs.Stopping.{GotWord, IsDue, LacksForce, LacksStop, LacksWord, StopsOnly};

use crate::acceptor::Acceptor;
use crate::stop::Stop;
use server_jobs::Parcel;
use server_run::{Done, Listener};
use service_core::Link;

// Whether both hold.
fn both(one: bool, other: bool) -> bool
    ensures { result ≡ (one && other) }
{
    one && other
}

impl<L: Link> Acceptor<L> {
    // Puts a stop on the ring of a worker. False says that it has no place.
    fn push_stop(&mut self, w: usize, graceful: bool) -> bool
        requires number { w < workers_of self.old }
        ensures only { StopsOnly self.old self.new }
        ensures stopped { self.new.stopped ≡ self.old.stopped }
        ensures forced { self.new.forced ≡ self.old.forced }
        ensures puts { result ≡ true → PutsAt (parcels_of self.old) (parcels_of self.new) w (parcel.Stop graceful) }
        ensures keeps { result ≡ false → KeepsSent (parcels_of self.old) (parcels_of self.new) × HasNoPlace (parcels_of self.new) w }
        ensures no_place { (v : ℕ) → v ≢ w → HasNoPlace (parcels_of self.old) v → HasNoPlace (parcels_of self.new) v }
    {
        if self.parcels[w].push(Parcel::Stop { graceful }).is_err() {
            return false;
        }
        true
    }

    // Sends a worker the graceful stop that it lacks. False says that its ring has no place.
    fn send_stop<Li: Listener<Link = L>, Do: Done<L>>(&mut self, w: usize) -> bool
        requires number { w < workers_of self.old }
        ensures proceeds { (listeners : List Li) (done : Do) → Proceeds Li.given Li.left Li.rest L.identity Li.ended Li.faults Do.taken Do.count Do.served listeners listeners self.old self.new done done }
        ensures only { StopsOnly self.old self.new }
        ensures forces { (v : ℕ) → IsForced (parcels_of self.new) v → IsForced (parcels_of self.old) v }
        ensures got { result ≡ true → GotWord self.new false w }
        ensures lacks { result ≡ false → LacksStop self.new w }
        ensures others { (v : ℕ) → GotWord self.old false v → GotWord self.new false v }
        ensures still { (v : ℕ) → v ≢ w → LacksWord self.old false v → LacksWord self.new false v }
    {
        if self.stopped[w] {
            return true;
        }
        if !self.push_stop(w, true) {
            return false;
        }
        self.stopped[w] = true;
        true
    }

    // Sends a worker the force message that it lacks, which is a stop too. False says that its ring has no place.
    fn send_force<Li: Listener<Link = L>, Do: Done<L>>(&mut self, w: usize) -> bool
        requires number { w < workers_of self.old }
        ensures proceeds { (listeners : List Li) (done : Do) → Proceeds Li.given Li.left Li.rest L.identity Li.ended Li.faults Do.taken Do.count Do.served listeners listeners self.old self.new done done }
        ensures only { StopsOnly self.old self.new }
        ensures got { result ≡ true → GotWord self.new true w }
        ensures lacks { result ≡ false → LacksForce self.new w }
        ensures others { (v : ℕ) → GotWord self.old true v → GotWord self.new true v }
        ensures still { (v : ℕ) → v ≢ w → LacksWord self.old true v → LacksWord self.new true v }
    {
        if self.forced[w] {
            self.stopped[w] = true;
            return true;
        }
        if !self.push_stop(w, false) {
            return false;
        }
        self.forced[w] = true;
        self.stopped[w] = true;
        true
    }

    // Sends a worker the force message that it lacks, or else the stop. False says that its ring has no place.
    fn send_word<Li: Listener<Link = L>, Do: Done<L>>(&mut self, w: usize, force: bool) -> bool
        requires number { w < workers_of self.old }
        ensures proceeds { (listeners : List Li) (done : Do) → Proceeds Li.given Li.left Li.rest L.identity Li.ended Li.faults Do.taken Do.count Do.served listeners listeners self.old self.new done done }
        ensures only { StopsOnly self.old self.new }
        ensures forces { (v : ℕ) → IsForced (parcels_of self.new) v → IsForced (parcels_of self.old) v ⊎ (force ≡ true) }
        ensures got { result ≡ true → GotWord self.new force w }
        ensures lacks { result ≡ false → LacksWord self.new force w }
        ensures others { (v : ℕ) → GotWord self.old force v → GotWord self.new force v }
        ensures still { (v : ℕ) → v ≢ w → LacksWord self.old force v → LacksWord self.new force v }
    {
        if force {
            self.send_force::<Li, Do>(w)
        } else {
            self.send_stop::<Li, Do>(w)
        }
    }

    // Sends each worker the force message that it lacks, or else the stop. False says that some ring has no place.
    pub(crate) fn send_words<Li: Listener<Link = L>, Do: Done<L>>(&mut self, force: bool) -> bool
        ensures proceeds { (listeners : List Li) (done : Do) → Proceeds Li.given Li.left Li.rest L.identity Li.ended Li.faults Do.taken Do.count Do.served listeners listeners self.old self.new done done }
        ensures only { StopsOnly self.old self.new }
        ensures forces { (v : ℕ) → IsForced (parcels_of self.new) v → IsForced (parcels_of self.old) v ⊎ (force ≡ true) }
        ensures each { (v : ℕ) → v < workers_of self.new → GotWord self.new force v ⊎ LacksWord self.new force v }
        ensures stopped { result ≡ true → All (λ stopped. stopped ≡ true) (stopped_of self.new) }
        ensures lacks { result ≡ false → (v : ℕ) × LacksWord self.new force v }
    {
        let mut all = true;
        for w in 0..self.parcels.len() {
            all = both(all, self.send_word::<Li, Do>(w, force));
        }
        all
    }

    // Whether a force message is due at the kept stop.
    pub(crate) fn is_due(&self, stop: Stop, now: u64) -> bool
        requires kept { stop_of self.now ≡ Some stop }
        ensures yes { result ≡ true → IsDue self.now now }
        ensures no { result ≡ false → IsDue self.now now → ⊥ }
    {
        if !stop.graceful {
            return true;
        }
        now >= stop.since && (now - stop.since) / 1000 >= self.shutdown_timeout
    }

    // Whether each worker got a force message.
    pub(crate) fn all_forced(&self) -> bool
        ensures { result ≡ list_all (λ forced. forced) (forced_of self.now) }
    {
        self.forced.iter().all(|forced| *forced)
    }
}
