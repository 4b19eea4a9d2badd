//! The texts of origins.
ghost use Rattle.std.specs.Prelude.{◌≡◌, true, IfOk};
ghost use Rattle.std.specs.List.{list_all};
ghost use Rattle.cors_rules.specs.Building.{is_origin_byte};
ghost use Rattle.cors_rules.specs.Uris.{is_uri};

use http_uri::{Uri, UriError};
use http1_plain::FieldValue;
use std::alloc::{AllocError, Global};

fn is_origin_byte(b: &u8) -> bool
    ensures { result ≡ is_origin_byte b.now }
{
    32 <= *b && *b <= 126
}

/// Whether each byte is visible ASCII or a space.
pub fn are_origin_bytes(bytes: &[u8]) -> bool
    ensures { result ≡ list_all is_origin_byte bytes.now }
{
    bytes.iter().all(is_origin_byte)
}

/// An origin's bytes.
#[tactic(auto, using(crate::proofs::ValueSteps::origin_is_value))]
pub fn origin_value(alloc: Global, origin: &[u8]) -> Result<FieldValue, AllocError>
    requires { list_all is_origin_byte origin.now ≡ true }
    ensures { IfOk result (λ value. value ≡ origin.now) }
{
    FieldValue::of_field_bytes(alloc, origin)
}

/// Whether the text is a URI (RFC 3986).
#[tactic(auto, using(crate::proofs::UriSteps::spelled, crate::proofs::UriSteps::spells_none))]
pub fn is_uri(alloc: Global, text: &str) -> Result<bool, AllocError>
    ensures { IfOk result (λ b. b ≡ is_uri text.now) }
{
    match Uri::from_str(alloc, text) {
        Ok(uri) => {
            drop(uri);
            Ok(true)
        }
        Err(UriError::Invalid(_)) => Ok(false),
        Err(UriError::OutOfMemory) => Err(AllocError),
    }
}
