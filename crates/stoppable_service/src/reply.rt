/// What a request is answered.
#[derive(Clone, Copy)]
pub enum Reply {
    /// To one who comes.
    Hello,
    /// To one who stops the server.
    Stopping,
    /// To one who would, where there is no memory for it.
    NotStopping,
}

impl Reply {
    /// The response.
    pub fn as_bytes(self) -> &'static [u8] {
        match self {
            Reply::Hello => {
                b"HTTP/1.1 200 OK\r\ncontent-length: 7\r\nconnection: close\r\n\r\nHello!\n"
            }
            Reply::Stopping => {
                b"HTTP/1.1 200 OK\r\ncontent-length: 9\r\nconnection: close\r\n\r\nGoodbye!\n"
            }
            Reply::NotStopping => {
                b"HTTP/1.1 503 Service Unavailable\r\ncontent-length: 0\r\nconnection: close\r\n\r\n"
            }
        }
    }
}

// Whether the head of a request is whole: it ends by an empty line, or is as long as one may be.
pub(crate) fn is_whole(request: &[u8]) -> bool {
    for place in 0..request.len() {
        if request[place..].starts_with(b"\r\n\r\n") {
            return true;
        }
    }
    request.len() >= 1_024
}

// Whether a request asks for `/stop`.
pub(crate) fn asks_to_stop(request: &[u8]) -> bool {
    request.starts_with(b"GET /stop ") || request.starts_with(b"POST /stop ")
}
