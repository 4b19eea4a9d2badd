ghost use Rattle.std.specs.Prelude.{◌≡◌, ◌+◌, ◌≤◌, ◌<◌, false, true, All, take, vec_len, vec_capacity};
ghost use Rattle.std.specs.VecDeque.{deque_len, deque_capacity};
ghost use Rattle.server_worker.specs.Waited.{AreBerthed, HasWaited};

use crate::live::Live;
use rtrb::{Consumer, Producer};
use server_jobs::{Note, Parcel, Waiting};
use std::collections::VecDeque;

/// The connections of a worker, and its ends of the two rings.
#[derive(Drop)]
pub(crate) struct Connections<L: Drop, Fut> {
    pub(crate) parcels: Consumer<Parcel<L>>,
    pub(crate) notes: Producer<Note<L>>,
    // Those that wait for their service.
    pub(crate) queue: VecDeque<Waiting<L>>,
    // Those of which no listener is known. They stay.
    pub(crate) strays: Vec<Waiting<L>>,
    // Those before the place `resting` rest.
    pub(crate) live: Vec<Live<L, Fut>>,
    pub(crate) resting: usize,
    // By slot: the place of the one that rests and waits for it.
    pub(crate) berths: Vec<usize>,
    // What is to be handed back.
    pub(crate) owed: VecDeque<Note<L>>,
    // A stop came.
    pub(crate) stopped: bool,
    // A stop came that is not graceful.
    pub(crate) forced: bool,
    // The acceptor was told that all services stand, or is to be told by what is owed.
    pub(crate) told: bool,
    // Each that waits has its place among the live ones, and each has its way back.
    ghost places: { vec_len live + deque_len queue ≤ vec_capacity live },
    ghost ways: { deque_len owed + (vec_len live + (deque_len queue + vec_len strays)) ≤ deque_capacity owed },
    // Each has a place among the strays, where those that have not ended are put together at the end.
    ghost stays: { vec_len strays + (vec_len live + deque_len queue) ≤ vec_capacity strays },
    // So has the note that all services stand.
    ghost way_of_ready: { told ≡ false → deque_len owed + (vec_len live + (deque_len queue + vec_len strays)) < deque_capacity owed },
    ghost forces: { forced ≡ true → stopped ≡ true },
    ghost within: { resting ≤ vec_len live },
    // Each that rests has been polled before, and waited.
    ghost waited: { All HasWaited (take resting live.items) },
    ghost berthed: { AreBerthed berths.items (take resting live.items) },
}
