//! The CORS protocol's answer (Fetch Standard) by a plain slow program, which is proved to be the definition of `cors_rules`.
//! Nothing here calls the middleware.
#![tactic(auto)]

mod answers;
mod bytes;
mod fields;
mod head;
mod headers;
mod origins;
mod policy;
mod preflights;
mod requested;
mod response;
mod rule;
mod texts;
mod verdict;

pub use answers::{answer, augmented};
pub use head::Head;
pub use headers::Header;
pub use origins::validate_origin;
pub use policy::Policy;
pub use preflights::preflight;
pub use requested::is_preflight;
pub use response::Response;
pub use rule::Rule;
pub use texts::Texts;
pub use verdict::{Verdict, verdict_on};
