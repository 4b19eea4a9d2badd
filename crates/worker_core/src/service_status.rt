//! The status of one service of a worker.
ghost use Rattle.std.specs.Prelude.{◌≡◌};
ghost use Rattle.worker_core.specs.Statuses.{is_available, is_failed, is_restarting};

/// Where a service of a worker stands, as `actix-server`'s `WorkerServiceStatus`.
#[derive(Clone, Copy, Debug, Default, PartialEq, Eq)]
pub enum ServiceStatus {
    /// It was ready when it was last asked.
    Available,
    /// It was not ready when it was last asked, or is new.
    #[default]
    Unavailable,
    /// It failed, and waits until another one has been made again.
    Failed,
    /// It failed, and is being made again.
    Restarting,
    /// It was available at a graceful stop.
    Stopping,
    /// It was available at a stop that was not graceful.
    Stopped,
}

impl ServiceStatus {
    /// Whether the service is available.
    pub fn is_available(&self) -> bool
        ensures { result ≡ is_available self.now }
    {
        matches!(self, ServiceStatus::Available)
    }

    /// Whether the service waits to be made again.
    pub fn is_failed(&self) -> bool
        ensures { result ≡ is_failed self.now }
    {
        matches!(self, ServiceStatus::Failed)
    }

    /// Whether the service is being made again.
    pub fn is_restarting(&self) -> bool
        ensures { result ≡ is_restarting self.now }
    {
        matches!(self, ServiceStatus::Restarting)
    }
}
