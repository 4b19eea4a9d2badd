ghost use Rattle.std.specs.Prelude.{◌≡◌};
ghost use Rattle.server_jobs.specs.declared.handed.Handed.{Handed};

use crate::handed::Handed;

/// What the job of a worker hands over, or what has that among others. It is a trait, so that a job may hand over more.
pub trait Handover<L>: Drop + Send {
    /// The worker's factory.
    type Factory: Drop + Send;

    /// Why it left.
    type Departure: Drop + Send;

    // What it has.
    ghost handed: { Self → Handed L Self.Factory Self.Departure };

    /// What it has, alone.
    fn into_handed(self) -> Handed<L, Self::Factory, Self::Departure>
        ensures { result ≡ handed self };
}

impl<L: Drop + Send, F: Drop + Send, D: Drop + Send> Handover<L> for Handed<L, F, D> {
    type Factory = F;

    type Departure = D;

    ghost handed = { λ all. all };

    fn into_handed(self) -> Handed<L, F, D> {
        self
    }
}
