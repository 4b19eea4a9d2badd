ghost use Rattle.std.specs.Prelude.{◌≡◌};
ghost use Rattle.server_run.specs.Steps.{is_used_up};

use service_core::Octets;

/// What comes next when a link in memory is read.
#[derive(Drop)]
pub enum ReadStep {
    /// These bytes, in as many reads as it takes.
    Give(Octets),
    /// One read is pending.
    NotYet,
    /// One read fails.
    Fail,
    /// Each read from now on is pending.
    Never,
}

impl ReadStep {
    /// Whether all its bytes come before the offset. Other steps are never used up.
    pub(crate) fn is_used_up(&self, offset: usize) -> bool
        ensures { result ≡ is_used_up self.now offset }
    {
        match self {
            ReadStep::Give(bytes) => bytes.len() == offset,
            ReadStep::NotYet => false,
            ReadStep::Fail => false,
            ReadStep::Never => false,
        }
    }
}
