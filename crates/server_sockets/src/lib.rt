//! The sockets of a server: streams, listeners and what binds them, over `mio`.
#![tactic(auto)]

mod answer;
mod mio_binder;
mod mio_stream;
mod refusal;
mod socket_bind_error;
mod socket_link;
mod socket_listener;
mod socket_peer;
mod watched_stream;

pub use mio_binder::MioBinder;
pub use mio_stream::{FromStream, MioStream};
pub use socket_bind_error::SocketBindError;
pub use socket_link::SocketLink;
pub use socket_listener::SocketListener;
