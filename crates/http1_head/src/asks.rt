/// What a head asks of its connection.
#[derive(Clone, Copy)]
pub(crate) struct Asks {
    /// Whether it closes, where it might be kept alive.
    pub(crate) closes: bool,
    /// Whether another protocol is asked for.
    pub(crate) upgrades: bool,
    /// Whether `100 Continue` is waited for.
    pub(crate) expects: bool,
}
