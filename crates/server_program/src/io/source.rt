//! Where a script comes from.
ghost use Rattle.std.specs.Prelude.{◌≡◌, ◌<◌, ◌≤◌, ℕ, List, [], length, take, Option, IfOk, OnErr, IsErr, IfSome, Ok};
ghost use Rattle.server_run.specs.Listener.{Rises};
ghost use Rattle.server_program.specs.Stream.{Hands};

/// A read failed.
#[derive(Clone, Copy, Debug, PartialEq, Eq)]
pub struct SourceFault;

/// Gives bytes, one part after another.
pub trait Source {
    // The bytes still to come, where it tells them.
    ghost remaining: { Self → Option (List ℕ) };

    // How often a read has failed.
    ghost faults: { Self → ℕ };

    /// Hands over the next bytes. `Ok(0)` comes only at the end.
    fn read(&mut self, buf: &mut [u8]) -> Result<usize, SourceFault>
        requires { 0 < length buf.old }
        ensures count { IfOk result (λ n. n ≤ length buf.old) }
        ensures bytes { IfOk result (λ n. Hands (remaining self.old) (take n buf.new) (remaining self.new)) }
        ensures at_end { result ≡ Ok 0 → IfSome (remaining self.old) (λ rest. rest ≡ []) }
        ensures err { OnErr result (remaining self.new ≡ remaining self.old) }
        ensures failed { Rises (faults self.old) (faults self.new) (IsErr result) };
}
