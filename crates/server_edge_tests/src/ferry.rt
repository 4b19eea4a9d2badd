//! The job of the tests.
ghost use Rattle.std.specs.Prelude.{◌≡◌, ⊤, []};
ghost use Rattle.server_edge_tests.specs.Carrying.{Carries};
ghost use Rattle.server_jobs.specs.Joins.{Accounts};

use rtrb::{Consumer, Producer};
use server_jobs::{Handed, Job, Note, Parcel, Waiter};
use server_run::{Entry, Host, MemoryLink, Outcome};
use service_core::Link;
use std::alloc::Global;
use std::collections::VecDeque;
use std::sync::Wait;
use std::time::Clock;

/// Sends each connection back as it came, until it is told to stop.
#[derive(Drop)]
pub(crate) struct Ferry {
    pub(crate) alloc: Global,
    pub(crate) parcels: Consumer<Parcel<MemoryLink>>,
    pub(crate) notes: Producer<Note<MemoryLink>>,
}

/// What a ferry hands over.
pub(crate) type Landed = Handed<MemoryLink, (), ()>;

// What became of a look at the ring.
#[derive(Clone, Copy, PartialEq, Eq)]
enum Trip {
    // A connection was sent back.
    Carried,
    // There was none, or no place for it.
    Waits,
    // It was told to stop.
    Stopped,
}

// Sends the next connection back, where there is one and a place for it.
fn carry(parcels: &mut Consumer<Parcel<MemoryLink>>, notes: &mut Producer<Note<MemoryLink>>) -> Trip
    ensures { Carries ⟦<MemoryLink as Link>⟧.identity parcels.old notes.old parcels.new notes.new }
{
    if notes.slots() == 0 {
        return Trip::Waits;
    }
    match parcels.pop() {
        Ok(
            Parcel::Conn {
                serial,
                token,
                place,
                link,
            },
        ) => {
            notes.push_reserved(Note::Back(Entry {
                serial,
                token,
                place,
                link,
                outcome: Outcome::Served,
            }));
            Trip::Carried
        }
        Ok(Parcel::Stop { .. }) => Trip::Stopped,
        Err(_) => Trip::Waits,
    }
}

// Sends back what comes until it is told to stop.
#[tactic(auto, using(crate::proofs::CarrySteps::carries_none, crate::proofs::CarrySteps::carries_more))]
fn carry_all<Ho: Clone + Drop + Clock + Wait>(
    parcels: &mut Consumer<Parcel<MemoryLink>>,
    notes: &mut Producer<Note<MemoryLink>>,
    host: &Ho,
    waiter: &mut Waiter<Ho>,
)
    ensures { Carries ⟦<MemoryLink as Link>⟧.identity parcels.old notes.old parcels.new notes.new }
{
    for _ in host.forever() {
        match carry(parcels, notes) {
            Trip::Carried => {
                waiter.stirred();
                waiter.ring();
            }
            Trip::Waits => waiter.wait(),
            Trip::Stopped => return,
        }
    }
}

// What is handed over, with these ends of the rings.
fn landed(
    alloc: Global,
    parcels: Consumer<Parcel<MemoryLink>>,
    notes: Producer<Note<MemoryLink>>,
) -> Landed
    ensures ends { (result.parcels ≡ parcels) × (result.notes ≡ notes) }
    ensures empty { (result.owed.items ≡ []) × (result.rest.items ≡ []) }
{
    Handed {
        parcels,
        notes,
        factory: (),
        owed: VecDeque::new(alloc),
        rest: Vec::new(alloc),
        departure: (),
    }
}

// The whole work. Where there is no memory for a host of its own, nothing is sent back.
#[tactic(auto, using(crate::proofs::CarrySteps::carries_none, crate::proofs::CarrySteps::accounts_of))]
fn carry_out<Ho: Clone + Drop + Clock + Wait>(ferry: Ferry, waiter: Waiter<Ho>) -> Landed
    ensures { Accounts ⟦<MemoryLink as Link>⟧.identity ferry.parcels ferry.notes result }
{
    let Ferry {
        alloc,
        mut parcels,
        mut notes,
    } = ferry;
    let mut waiter = waiter;
    match waiter.host().clone() {
        Ok(host) => {
            carry_all(&mut parcels, &mut notes, &host, &mut waiter);
            landed(alloc, parcels, notes)
        }
        Err(_) => landed(alloc, parcels, notes),
    }
}

impl Job for Ferry {
    type Out = Landed;

    ghost can_work = { λ _. ⊤ };

    ghost promise = { λ job out. Accounts ⟦<MemoryLink as Link>⟧.identity job.parcels job.notes out };

    fn work<Ho: Host>(self, waiter: Waiter<Ho>) -> Landed {
        carry_out(self, waiter)
    }
}
