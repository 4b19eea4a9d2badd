ghost use Rattle.std.specs.Prelude.{◌≡◌, true, IfOk};
ghost use Rattle.std.specs.List.{list_all};
ghost use Rattle.script.specs.Plain.{is_plain};

use service_core::Octets;
use std::alloc::{AllocError, Global};
use std::marker::Model;

/// Visible ASCII and spaces, as a line of a script has them. A contract sees the bytes.
#[derive(Drop)]
pub struct PlainText {
    bytes: Octets,
}

impl Model for PlainText {
    ghost use Rattle.std.specs.Prelude.{◌≡◌, ℕ, List, true};
    ghost use Rattle.std.specs.List.{list_all};
    ghost use Rattle.script.specs.Plain.{is_plain};

    ghost Value = { List ℕ };

    ghost view = { λ t. t.bytes };

    ghost invariant = { λ t. list_all is_plain t.bytes ≡ true };
}

impl PlainText {
    /// A copy of the bytes.
    pub fn of(alloc: Global, bytes: &[u8]) -> Result<PlainText, AllocError>
        requires { list_all is_plain bytes.now ≡ true }
        ensures { IfOk result (λ text. text ≡ bytes.now) }
    {
        Ok(PlainText {
            bytes: Octets::of(alloc, bytes)?,
        })
    }

    /// The text.
    #[tactic(auto, using(crate::proofs::Plainness::plain_is_text))]
    pub fn as_str(&self) -> &str
        ensures { result.now ≡ self.now }
    {
        match std::str::from_utf8(self.bytes.as_bytes()) {
            Ok(text) => text,
            Err(_) => unreachable!(),
        }
    }
}
