//! What a connection writes (RFC 9112) by a plain slow program over lists, byte by byte, which is proved to be the definition
//! of `http1_grammar`, of a service that echoes requests. It calls neither the code that serves connections nor what that
//! stands on to read requests and to write responses, and nothing calls it but the tests, which compare the two.
#![tactic(auto)]

mod bodies;
mod body;
mod chunk_line;
mod chunks;
mod connection;
mod echo;
mod framing;
mod head;
mod lines;
mod next;
mod piece;
mod request_text;
mod status;
mod tokens;
mod turn;
mod wire;

pub use connection::answers;
