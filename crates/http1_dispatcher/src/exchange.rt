use crate::boxed::Boxed;
use crate::outgoing::Outgoing;
use http::method::Method;
use http1_plain::{HttpVersion, Request, RequestHead};
use http1_reader::Reader;
use service_core::Peer;
use std::snapshot::Snapshot;

/// How the response to a request is written: by the head as it was read.
#[derive(Drop)]
pub(crate) struct Reply {
    pub(crate) method: Method,
    pub(crate) version: HttpVersion,
    /// The connection closes behind the response.
    pub(crate) closing: bool,
}

/// What a connection does now.
#[derive(Drop)]
pub(crate) enum Stage {
    /// It reads a request's head.
    Reading,
    /// The expect service is asked whether the body of this request may come.
    Asking {
        request: Snapshot<Request>,
        reply: Reply,
    },
    /// It reads the body of the request with this head and peer, which are those that the expect service gave.
    Awaiting {
        head: Boxed<RequestHead>,
        peer: Peer,
        reply: Reply,
    },
    /// The service answers this request.
    Calling {
        request: Snapshot<Request>,
        reply: Reply,
    },
    /// This head asks for another protocol. All that is left is to write, and to hand the link over.
    Upgrading {
        head: Boxed<RequestHead>,
    },
    /// All that is left is to write.
    Closing,
}

/// The bytes of a connection that no step has used, and the answers that wait to be written.
#[derive(Drop)]
pub(crate) struct Exchange {
    pub(crate) reader: Reader,
    pub(crate) out: Outgoing,
    pub(crate) stage: Stage,
    /// The request that a service is to be called with now.
    pub(crate) request: Option<Request>,
}
