//! The middleware that keeps a policy on cross-origin requests, and its builder.
#![tactic(auto)]

mod asked;
mod cors;
mod fault;
mod future;
mod init_error;
pub mod laws;
mod middleware;
mod preflight;
mod refusal;
mod transform;
mod verdict;

pub use cors::Cors;
pub use fault::CorsFault;
pub use future::CorsFuture;
pub use init_error::CorsInitError;
pub use middleware::CorsMiddleware;
pub use refusal::CorsRefusal;
