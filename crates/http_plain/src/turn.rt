use service_core::Octets;

/// What one request is answered.
#[derive(Drop)]
pub(crate) struct Turn {
    /// The bytes of the answer.
    pub(crate) written: Octets,
    /// The bytes behind the request, where the connection goes on.
    pub(crate) rest: Option<Octets>,
}
