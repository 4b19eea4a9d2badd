use crate::status::Status;

/// What stands at the front of a body in chunks (RFC 9112, section 7.1).
#[derive(Clone, Copy)]
pub(crate) enum Piece<'a> {
    /// More bytes decide it.
    Undecided,
    /// No chunk: the connection is answered this status.
    Refused(Status),
    /// A chunk's data, and the bytes behind it.
    Chunk(&'a [u8], &'a [u8]),
    /// The last chunk, and the trailer part behind it.
    Last(&'a [u8]),
}
