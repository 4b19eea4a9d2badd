use http1_head::ReadHead;
use service_core::Octets;

/// A step of a connection's bytes (RFC 9112, section 2.1).
#[derive(Drop)]
pub enum Step {
    /// More bytes decide it.
    NeedMore,
    /// A head, with what it asks of the connection. The next step that is decided is its body, also where that is empty, or a
    /// refusal.
    Head(ReadHead),
    /// The body of the head before it. Its trailer lines are dropped.
    Body(Octets),
    /// The connection is answered this status, which is 400, 413 or 431, and closed.
    Refused(u16),
}
