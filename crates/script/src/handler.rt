//! What answers the requests of a script.
use crate::final_status::FinalStatus;

/// What answers the requests of a script.
#[derive(Clone, Copy, Debug, PartialEq, Eq)]
pub enum Handler {
    /// `Hello world!` as plain text.
    Hello,
    /// The request's method, target and body.
    Echo,
    /// The peer in words.
    Peer,
    /// This status, with no body.
    Status(FinalStatus),
    /// An error whose response is 500 with the body `failed`.
    Fail,
}
