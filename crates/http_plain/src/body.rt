use crate::status::Status;
use service_core::Octets;

/// The body of a request (RFC 9112, section 6).
#[derive(Drop)]
pub(crate) enum Body {
    /// More bytes decide it.
    Unfinished,
    /// No body: the connection is answered this status.
    Malformed(Status),
    /// Its data, and the bytes behind it.
    Whole(Octets, Octets),
}
