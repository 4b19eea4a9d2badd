//! Hexadecimal digits.
ghost use Rattle.std.specs.Prelude.{◌≡◌, ◌<◌, ◌++◌, OnOk};
ghost use Rattle.report.specs.Peers.{hex_group, hex_letter};

use service_core::Octets;
use std::alloc::AllocError;

pub(crate) fn hex_letter(n: u8) -> u8
    requires { n < 16 }
    ensures { result ≡ hex_letter n }
{
    if n < 10 { b'0' + n } else { b'a' + (n - 10) }
}

// Appends four digits, or nothing.
pub(crate) fn push_group(out: &mut Octets, n: u16) -> Result<(), AllocError>
    ensures { OnOk result (out.new ≡ out.old ++ hex_group n) }
{
    out.push_all(&[
        hex_letter((n / 4096) as u8),
        hex_letter((n / 256 % 16) as u8),
        hex_letter((n / 16 % 16) as u8),
        hex_letter((n % 16) as u8),
    ])
}
