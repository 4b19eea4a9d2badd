//! Whether a connection stays open between requests.
ghost use Rattle.std.specs.Prelude.{◌≡◌};
ghost use Rattle.http_service.specs.Keeping.{default_keep_alive, keep_alive_of, stays_open};

use std::time::Duration;

/// How long a connection stays open when no request is in work (actix-http, `KeepAlive`).
#[derive(Clone, Copy, Debug, PartialEq, Eq)]
pub enum KeepAlive {
    /// It is closed when no request has begun for so long (actix-http, `KeepAlive::Timeout`).
    Timeout(Duration),
    /// It is left to the operating system (actix-http, `KeepAlive::Os`).
    Os,
    /// It is closed after each response (actix-http, `KeepAlive::Disabled`).
    Disabled,
}

impl KeepAlive {
    /// Whether a connection may serve a second request.
    pub fn stays_open(self) -> bool
        ensures { result ≡ stays_open self }
    {
        !matches!(self, KeepAlive::Disabled)
    }
}

impl Default for KeepAlive {
    ghost is_default = { λ keep_alive. keep_alive ≡ default_keep_alive };

    /// A timeout of 5 seconds.
    fn default() -> KeepAlive {
        KeepAlive::Timeout(Duration::from_secs(5))
    }
}

/// A timeout, or `Disabled` where the duration is zero.
impl From<Duration> for KeepAlive {
    ghost from_gives = { λ duration keep_alive. keep_alive ≡ keep_alive_of duration };

    fn from(duration: Duration) -> KeepAlive {
        if duration.is_zero() {
            KeepAlive::Disabled
        } else {
            KeepAlive::Timeout(duration)
        }
    }
}
