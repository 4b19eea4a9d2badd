ghost use Rattle.std.specs.Prelude.{◌≡◌, ◌++◌};
ghost use Rattle.rtrb.specs.Ring.{known_items, received, sent};
ghost use Rattle.server_jobs.specs.Joins.{EachOnce, Hands, IsLine};

use crate::handed::Handed;
use crate::handover::Handover;
use crate::job::Job;
use crate::note::Note;
use crate::parcel::Parcel;
use crate::running::Running;
use rtrb::{Consumer, Producer};
use service_core::Link;
use std::thread::Threads;

/// The job of a worker that runs, with the ends of its rings that its thread does not have.
pub struct Line<L, J: Job> {
    /// The end of the ring to it.
    pub parcels: Producer<Parcel<L>>,
    /// The end of the ring back.
    pub notes: Consumer<Note<L>>,
    /// The job.
    pub running: Running<J>,
}

/// The same ends once the job is joined, with what it handed over.
#[derive(Drop)]
pub struct Joined<L, F, D> {
    /// The end of the ring to it.
    pub parcels: Producer<Parcel<L>>,
    /// The end of the ring back.
    pub notes: Consumer<Note<L>>,
    /// What the job handed over, with its ends of both rings.
    pub handed: Handed<L, F, D>,
}

impl<L: Link + Send, J: Job<Out: Handover<L>>> Line<L, J> {
    /// Waits for the end of the job's thread. What was put on each ring is what was taken from it, and what is left in it. Each connection that was put on the ring to it came back, is on its way back, is
    /// owed or handed over, or is left in that ring, once: by its numbers, and its link's name, peer and held bytes.
    pub fn join<Th: Threads>(
        self,
        rt: &Th,
    ) -> Joined<L, <J::Out as Handover<L>>::Factory, <J::Out as Handover<L>>::Departure>
        requires { IsLine L.identity J.promise J.Out.handed self }
        ensures sent { sent result.parcels ≡ sent self.parcels }
        ensures received { received result.notes ≡ received self.notes }
        ensures handed { Hands J.promise J.Out.handed self result }
        ensures to_it { received result.handed.parcels ++ known_items result.handed.parcels ≡ sent result.parcels }
        ensures from_it { received result.notes ++ known_items result.notes ≡ sent result.handed.notes }
        ensures once { EachOnce L.identity result }
    {
        let Line {
            mut parcels,
            mut notes,
            running,
        } = self;
        let mut handed = running.end(rt).into_handed();
        handed.parcels.slots_beside(&mut parcels);
        notes.slots_beside(&mut handed.notes);
        Joined {
            parcels,
            notes,
            handed,
        }
    }
}
