//! The status of a response that ends an exchange (RFC 9110, section 15).
ghost use Rattle.std.specs.Prelude.{◌≡◌, ◌≤◌, ◌&&◌, if◌then◌else◌, nat_le, Some, None};

use std::marker::Model;

/// A status from 200 to 999. A contract sees the number.
#[derive(Clone, Copy, Debug, PartialEq, Eq)]
pub struct FinalStatus {
    code: u16,
}

impl Model for FinalStatus {
    ghost use Rattle.std.specs.Prelude.{ℕ, ◌≤◌};

    ghost Value = { ℕ };

    ghost view = { λ s. s.code };

    ghost invariant = { λ s. (200 ≤ s.code) × (s.code ≤ 999) };

    ghost inverse = { λ code. record { code = code } };
}

impl FinalStatus {
    /// The status of this number. None below 200, where an answer goes on, and above 999.
    pub fn new(code: u16) -> Option<FinalStatus>
        ensures { result ≡ (if nat_le 200 code && nat_le code 999 then Some code else None) }
    {
        if 200 <= code && code <= 999 {
            return Some(FinalStatus { code });
        }
        None
    }

    /// Its number.
    pub fn code(&self) -> u16
        ensures value { result ≡ self.now }
        ensures above { 200 ≤ self.now }
        ensures below { self.now ≤ 999 }
    {
        self.code
    }
}
