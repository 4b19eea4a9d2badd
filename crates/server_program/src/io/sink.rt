//! Where a report goes.
ghost use Rattle.std.specs.Prelude.{◌≡◌, ◌<◌, ◌≤◌, ℕ, List, length, take, Option, IfOk, OnErr, IsErr};
ghost use Rattle.server_run.specs.Listener.{Rises};
ghost use Rattle.server_program.specs.Stream.{Gains};

/// A write failed.
#[derive(Clone, Copy, Debug, PartialEq, Eq)]
pub struct SinkFault;

/// Takes bytes, one piece after another.
pub trait Sink {
    // The bytes that it got, where it tells them.
    ghost got: { Self → Option (List ℕ) };

    // How often a write has failed.
    ghost faults: { Self → ℕ };

    /// Takes one byte of the piece or more.
    fn write(&mut self, piece: &[u8]) -> Result<usize, SinkFault>
        requires { 0 < length piece.now }
        ensures some { IfOk result (λ n. 0 < n) }
        ensures count { IfOk result (λ n. n ≤ length piece.now) }
        ensures got { IfOk result (λ n. Gains (got self.old) (take n piece.now) (got self.new)) }
        ensures err { OnErr result (got self.new ≡ got self.old) }
        ensures failed { Rises (faults self.old) (faults self.new) (IsErr result) };
}
