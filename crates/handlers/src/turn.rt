use http_flow::HandedEnd;

/// How an echo goes on.
#[derive(Clone, Copy)]
pub(crate) enum Turn {
    /// It goes on.
    On,
    /// It has ended so.
    Out(HandedEnd),
}
