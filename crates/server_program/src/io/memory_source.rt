//! A source in memory.
ghost use Rattle.std.specs.Prelude.{◌≡◌, ◌≤◌, Some, length, drop};

use crate::io::{Source, SourceFault};
use service_core::Octets;

/// Gives the bytes that it was made of, as many at a time as there is room for.
#[derive(Drop)]
pub struct MemorySource {
    bytes: Octets,
    taken: usize,
    calls: u64,
    fails: Vec<u64>,
    faults: u64,
    ghost within: { taken ≤ length bytes },
}

impl MemorySource {
    /// `fails` has the numbers of the reads that fail, counted from 0. A read that fails hands over
    /// nothing.
    pub fn new(bytes: Octets, fails: Vec<u64>) -> MemorySource
        ensures bytes { ⟦<MemorySource as Source>⟧.remaining result ≡ Some bytes }
        ensures fails { result.fails.items ≡ fails.items }
        ensures calls { result.calls ≡ 0 }
        ensures faults { ⟦<MemorySource as Source>⟧.faults result ≡ 0 }
    {
        MemorySource {
            bytes,
            taken: 0,
            calls: 0,
            fails,
            faults: 0,
        }
    }
}

impl Source for MemorySource {
    ghost remaining = { λ source. Some (drop source.taken source.bytes) };

    ghost faults = { λ source. source.faults };

    fn read(&mut self, buf: &mut [u8]) -> Result<usize, SourceFault> {
        let fails = self.fails.contains(&self.calls);
        self.calls = self.calls.saturating_add(1);
        if fails {
            self.faults = self.faults.saturating_add(1);
            return Err(SourceFault);
        }
        let rest = &self.bytes.as_bytes()[self.taken..];
        let n = buf.len().min(rest.len());
        buf[..n].copy_from_slice(&rest[..n]);
        self.taken += n;
        Ok(n)
    }
}
