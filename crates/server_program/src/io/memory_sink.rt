//! A sink in memory.
ghost use Rattle.std.specs.Prelude.{◌≡◌, Some, IfOk, []};

use crate::io::{Sink, SinkFault};
use service_core::Octets;
use std::alloc::{AllocError, Global};

/// Takes bytes while it has room.
#[derive(Drop)]
pub struct MemorySink {
    got: Octets,
    room: usize,
    calls: u64,
    fails: Vec<u64>,
    faults: u64,
}

impl MemorySink {
    /// Takes memory for `room` bytes. `fails` has the numbers of the writes that fail, counted from
    /// 0. A write that fails takes nothing, and one with no room left fails.
    pub fn new(alloc: Global, room: usize, fails: Vec<u64>) -> Result<MemorySink, AllocError>
        ensures got { IfOk result (λ sink. ⟦<MemorySink as Sink>⟧.got sink ≡ Some []) }
        ensures room { IfOk result (λ sink. sink.room ≡ room) }
        ensures fails { IfOk result (λ sink. sink.fails.items ≡ fails.items) }
        ensures calls { IfOk result (λ sink. sink.calls ≡ 0) }
        ensures faults { IfOk result (λ sink. ⟦<MemorySink as Sink>⟧.faults sink ≡ 0) }
    {
        Ok(MemorySink {
            got: Octets::from_vec(Vec::with_capacity(alloc, room)?),
            room,
            calls: 0,
            fails,
            faults: 0,
        })
    }

    /// The bytes that were written.
    pub fn got(&self) -> &[u8]
        ensures { ⟦<MemorySink as Sink>⟧.got self.now ≡ Some result.now }
    {
        self.got.as_bytes()
    }
}

impl Sink for MemorySink {
    ghost got = { λ sink. Some sink.got };

    ghost faults = { λ sink. sink.faults };

    fn write(&mut self, piece: &[u8]) -> Result<usize, SinkFault> {
        let fails = self.fails.contains(&self.calls);
        self.calls = self.calls.saturating_add(1);
        let room = self.room.saturating_sub(self.got.len());
        let n = piece.len().min(room);
        if fails || n == 0 || self.got.push_all(&piece[..n]).is_err() {
            self.faults = self.faults.saturating_add(1);
            return Err(SinkFault);
        }
        Ok(n)
    }
}
