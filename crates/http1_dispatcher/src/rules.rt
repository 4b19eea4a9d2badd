use http1_plain::Limits;

/// How a connection is served, whatever its services answer.
#[derive(Clone, Copy)]
pub struct Rules {
    /// How many bytes of a head and of a body are read.
    pub limits: Limits,
    /// Whether it may stay open behind a response.
    pub keeps_alive: bool,
    /// Whether a head may ask for another protocol.
    pub has_upgrade: bool,
}
