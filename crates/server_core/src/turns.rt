//! The turns of the workers.
ghost use Rattle.std.specs.Prelude.{◌≡◌, ◌<◌, ◌≤◌, ◌++◌, ◌==◌, ◌∷◌, [], cond, find, drop, true, false, is_some, length, Option, None};
ghost use Rattle.std.specs.List.{position, range_with_len};
ghost use Rattle.std.specs.FinSet as set;
ghost use Rattle.server_core.specs.Core.{in_order, place_or_first, behind, round, without};
ghost use Rattle.server_core.specs.Turns.{is_left};

use crate::availability::Availability;
use arrayvec::ArrayVec;
use std::marker::Model;

/// The workers in order, the place that is asked first, and which of them are free. Contracts see it as a `Rota`.
///
/// The place of each worker stands at its number, and a free worker is marked at its place, so no call walks the order.
#[derive(Drop)]
pub struct Turns {
    order: ArrayVec<u16, 512>,
    places: [Option<u16>; 512],
    next: usize,
    free: Availability,
}

impl Model for Turns {
    ghost use Rattle.server_core.specs.Turns.{Rota, rota_code};

    ghost Value = { Rota };

    ghost coded = { rota_code };

    ghost use Rattle.server_core.specs.InsideTurns.{rota_of, IsSound};

    ghost view = { rota_of };

    ghost invariant = { IsSound };
}

// The place k, or the first one where the order ends before it.
fn place_or_first(order: &[u16], k: usize) -> usize
    ensures { result ≡ place_or_first order.now k }
{
    if k < order.len() { k } else { 0 }
}

impl Default for Turns {
    /// No worker.
    fn default() -> Self
        ensures { result ≡ record { order = []; next = 0; free = set.empty } }
    {
        Turns {
            order: ArrayVec::new(),
            places: [None; 512],
            next: 0,
            free: Availability::default(),
        }
    }
}

// Which worker comes when.
impl Turns {
    /// The workers below `workers`, all free.
    pub fn new(workers: usize) -> Self
        requires { workers ≤ 512 }
        ensures { result ≡ record {
          order = range_with_len 0 workers;
          next = 0;
          free = set.from_list (range_with_len 0 workers);
        } }
    {
        let mut turns = Turns::default();
        for w in 0..workers {
            turns.add(w);
        }
        turns
    }

    /// The workers in order.
    pub fn order(&self) -> &[u16]
        ensures { result.now ≡ self.now.order }
    {
        self.order.as_slice()
    }

    /// The place that is asked first.
    pub fn next(&self) -> usize
        ensures { result ≡ self.now.next }
    {
        self.next
    }

    /// The place of the worker w in the order.
    pub fn place(&self, w: usize) -> Option<usize>
        ensures { result ≡ position (λ x. x == w) self.now.order }
    {
        let place = *self.places.get(w)?;
        Some(usize::from(place?))
    }

    /// Whether the worker w is in the order.
    pub fn has(&self, w: usize) -> bool
        ensures { result ≡ in_order self.now.order w }
    {
        self.place(w).is_some()
    }

    // The first worker, from the place `from` on, that is free and not passed over.
    fn first_from(&self, mut from: usize, passed: &Availability) -> Option<usize>
        ensures { result ≡ find (is_left self.now.free passed.now) (drop from self.now.order) }
    {
        while let Some(place) = self.free.first_from(from) {
            let w = usize::from(self.order[place]);
            if !passed.holds(w) {
                return Some(w);
            }
            from = place + 1;
        }
        None
    }

    /// The first worker, from the place that is asked first and round, that is free and not passed over.
    pub fn first(&self, passed: &Availability) -> Option<usize>
        ensures { result ≡ find (is_left self.now.free passed.now) (round self.now.order self.now.next) }
    {
        self.first_from(self.next, passed)
            .or_else(|| self.first_from(0, passed))
    }
}

// What changes.
impl Turns {
    /// The next turn begins behind the worker w.
    pub fn go_on_behind(&mut self, w: usize)
        ensures { self.new ≡ record self.old { next = behind self.old.order w } }
    {
        self.next = match self.place(w) {
            Some(place) => place_or_first(self.order.as_slice(), place + 1),
            None => 0,
        };
    }

    /// The worker w is free, if it is in the order.
    pub fn mark(&mut self, w: usize)
        ensures { self.new ≡ record self.old {
          free = cond (in_order self.old.order w) (set.insert self.old.free w) self.old.free;
        } }
    {
        if let Some(place) = self.place(w) {
            self.free.set_available(place, true);
        }
    }

    /// The worker w is not free.
    pub fn unmark(&mut self, w: usize)
        ensures { self.new ≡ record self.old { free = set.remove self.old.free w } }
    {
        if let Some(place) = self.place(w) {
            self.free.set_available(place, false);
        }
    }

    /// The worker w comes last in the order, and is free.
    pub fn add(&mut self, w: usize)
        requires number { w < 512 }
        requires room { length self.old.order < 512 }
        requires absent { in_order self.old.order w ≡ false }
        ensures { self.new ≡ record self.old {
          order = self.old.order ++ w ∷ [];
          free = set.insert self.old.free w;
        } }
    {
        let place = self.order.len();
        self.order.push(w as u16);
        self.places[w] = Some(place as u16);
        self.free.set_available(place, true);
    }

    /// The worker w leaves the order, and the last one takes its place.
    pub fn remove(&mut self, w: usize)
        requires { in_order self.old.order w ≡ true }
        ensures { self.new ≡ record {
          order = without self.old.order w;
          next = place_or_first (without self.old.order w) self.old.next;
          free = set.remove self.old.free w;
        } }
    {
        if let Some(place) = self.place(w) {
            let last = self.order.len() - 1;
            let moved = usize::from(self.order[last]);
            self.order.swap_remove(place);
            self.places[moved] = Some(place as u16);
            self.places[w] = None;
            let is_free = self.free.holds(last);
            self.free.set_available(place, is_free);
            self.free.set_available(last, false);
            self.next = place_or_first(self.order.as_slice(), self.next);
        }
    }
}
