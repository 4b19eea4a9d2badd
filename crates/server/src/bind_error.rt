use thiserror::Error;

/// Why no listener stands behind the others.
#[derive(Clone, Copy, Debug, PartialEq, Eq, Error)]
pub enum BindError {
    /// The binder refused the address.
    #[error("bind refused")]
    Refused,
    /// There was no memory for the place of the listener.
    #[error("out of memory")]
    Memory,
}
