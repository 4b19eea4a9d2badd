ghost use Rattle.std.specs.Prelude.{◌≡◌};
ghost use Rattle.server_sockets.specs.Peers.{peer_at};

use service_core::Peer;
use std::net::SocketAddr;

/// The peer that has this address. Flow labels and scopes are left out.
pub(crate) fn peer_of(addr: SocketAddr) -> Peer
    ensures { result ≡ peer_at addr }
{
    match addr {
        SocketAddr::V4(addr) => Peer::V4 {
            host: addr.ip().to_bits(),
            port: addr.port(),
        },
        SocketAddr::V6(addr) => Peer::V6 {
            host: addr.ip().to_bits(),
            port: addr.port(),
        },
    }
}
