ghost use Rattle.std.specs.Prelude.{◌≡◌, ◌+◌, ◌*◌, ◌^◌, ◌≤◌, ◌<◌, ℕ, nat_lt, length, slice_index, slice_index_or, sum, true, false, None, vec_len, vec_capacity};
ghost use Rattle.std.specs.List.{list_all};
ghost use Rattle.std.specs.Option.{option_map};
ghost use Rattle.std.specs.FinSet as set;
ghost use Rattle.server_core.specs.Core.{IsKept, in_order};
ghost use Rattle.server_acceptor.specs.Sending.{AreForced, AreStopped};
ghost use Rattle.std.proofs.Props.{props};
ghost use Rattle.server_acceptor.specs.declared.stop.Stop.{Stop as IsStop};

use crate::stop::Stop;
use rtrb::{Consumer, Producer};
use server_core::{AcceptCore, Event};
use server_jobs::{Note, Parcel, Waiting};

/// What asks the listeners, puts each connection on the ring of a worker, and takes back what has ended (`actix-server`'s `Accept`).
#[derive(Drop)]
pub struct Acceptor<L> {
    pub(crate) core: AcceptCore,
    // The events of the last turn, and of the calls of `place` since.
    pub(crate) events: Vec<Event>,
    // By worker.
    pub(crate) parcels: Vec<Producer<Parcel<L>>>,
    pub(crate) notes: Vec<Consumer<Note<L>>>,
    // Which workers told that their services stand, and which got a stop.
    pub(crate) ready: Vec<bool>,
    pub(crate) stopped: Vec<bool>,
    // Which workers got a stop that is not graceful.
    pub(crate) forced: Vec<bool>,
    // The first stop that was taken up.
    pub(crate) stop: Option<Stop>,
    // The connection that no worker could take yet.
    pub(crate) waiting: Option<Waiting<L>>,
    // How many connections came in all, and from each listener.
    pub(crate) serial: u64,
    pub(crate) places: Vec<u64>,
    // How many connections are at workers.
    pub(crate) out: u64,
    // When each listener failed last, by the clock.
    pub(crate) failed: Vec<Option<u64>>,
    // The listener that is asked first.
    pub(crate) first: usize,
    // How many connections a worker may have.
    pub(crate) limit: u64,
    // How often a listener may fail with no connection between.
    pub(crate) retry_limit: u64,
    // How many seconds a worker has to serve its connections to their end after a stop.
    pub(crate) shutdown_timeout: u64,
    // Room for an entry was refused, so nothing more is accepted.
    pub(crate) lacks_room: bool,
    ghost room: { vec_len events ≤ vec_capacity events },
    ghost workers: { (length parcels.items ≡ length core.out) × (length notes.items ≡ length core.out) × (length ready.items ≡ length core.out) × (length stopped.items ≡ length core.out) },
    ghost as_many_forced: { length forced.items ≡ length core.out },
    ghost kept: { IsKept core } by { Prim.hlevel props },
    ghost listeners: { (length places.items ≡ length core.ended) × (length failed.items ≡ length core.ended) },
    ghost most: { length core.out ≤ 512 },
    ghost few: { length core.ended ≤ 64 },
    ghost within: { first < length core.ended },
    ghost as_many_events: { vec_capacity events ≡ 8 * length core.out + 600 },
    // The core knows of the connection that waits.
    ghost waits: { core.waiting ≡ option_map (λ w. w.token) waiting },
    // Each connection that the core counts has its serial, and its place at its listener.
    ghost counted: { serial ≡ core.given },
    ghost placed: { serial ≡ sum places.items },
    ghost small: { (t : ℕ) → slice_index_or places.items t 0 < 2 ^ 48 },
    ghost out_counted: { out ≡ sum core.out },
    ghost fits: { sum core.out ≤ core.given },
    // Nothing is accepted before all services stand.
    ghost early: { list_all (λ ready. ready) ready.items ≡ false → serial ≡ 0 },
    // The core knows of the stop that is kept.
    ghost agrees: { core.stopping ≡ option_map (λ (s : IsStop). s.graceful) stop },
    // Each worker that is marked so was sent a stop, and one that is not graceful.
    ghost stopped_sent: { AreStopped parcels.items stopped.items },
    ghost forced_sent: { AreForced parcels.items forced.items },
    // A listener that failed as often as it may has ended.
    ghost patient: { (t : ℕ) → slice_index_or core.ended t true ≡ false → slice_index core.failures t < retry_limit },
    // A worker in order is free exactly where it has fewer connections than it may have.
    ghost rule: { (w : ℕ) → in_order core.order w ≡ true → set.contains core.free w ≡ nat_lt (slice_index core.out w) limit },
    // A worker may have one connection at least.
    ghost some_limit: { 0 < limit },
}
