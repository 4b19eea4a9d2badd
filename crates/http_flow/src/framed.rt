use service_core::Octets;

/// A link that another protocol takes over (actix-codec, `Framed`).
#[derive(Drop)]
pub struct Framed<L> {
    /// The link, to which all answers before were written.
    pub link: L,
    /// The bytes behind the head that were read and not used.
    pub unread: Octets,
}

/// A link that an upgrade service hands back.
#[derive(Debug, Drop)]
pub struct Handed<L> {
    /// The link, as it stands.
    pub link: L,
    /// How the service was done with it.
    pub end: HandedEnd,
}

/// How an upgrade service was done with a link.
#[derive(Clone, Copy, Debug, PartialEq, Eq)]
pub enum HandedEnd {
    /// The other protocol came to its end.
    Done,
    /// The link failed.
    Fault,
    /// Memory ran out.
    Memory,
}
