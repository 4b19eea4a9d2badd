//! Values of headers.
ghost use Rattle.std.specs.Prelude.{◌≡◌, ◌++◌, true, IfOk, OnOk, decimal};
ghost use Rattle.std.specs.List.{list_all};
ghost use Rattle.http_header.specs.Token.{is_token_byte, lowercase};
ghost use Rattle.http1_plain.specs.Fields.{is_field_byte};

use http_header::HeaderName;
use http1_plain::FieldValue;
use itoa::Buffer;
use service_core::Octets;
use std::alloc::{AllocError, Global};

/// The text of a literal.
#[tactic(auto, using(crate::proofs::ValueSteps::values_of))]
pub fn literal(alloc: Global, text: &'static str) -> Result<FieldValue, AllocError>
    requires { list_all is_field_byte text.now ≡ true }
    ensures { IfOk result (λ value. value ≡ text.now) }
{
    Ok(FieldValue::from_static(alloc, text.as_bytes()))
}

/// Appends the text of a literal.
#[tactic(auto, using(crate::proofs::ValueSteps::values_of))]
pub fn push_literal(value: &mut FieldValue, text: &str) -> Result<(), AllocError>
    requires { list_all is_field_byte text.now ≡ true }
    ensures { OnOk result (value.new ≡ value.old ++ text.now) }
{
    value.push_field_bytes(text.as_bytes())
}

/// The number in decimal.
#[tactic(auto, using(crate::proofs::ValueSteps::decimal_is_value))]
pub fn number_value(alloc: Global, number: u64) -> Result<FieldValue, AllocError>
    ensures { IfOk result (λ value. value ≡ decimal number) }
{
    let mut buffer = Buffer::new();
    FieldValue::of_field_bytes(alloc, buffer.format(number).as_bytes())
}

/// A method's bytes.
#[tactic(auto, using(crate::proofs::ValueSteps::token_is_value))]
pub fn token_value(alloc: Global, token: &[u8]) -> Result<FieldValue, AllocError>
    requires { list_all is_token_byte token.now ≡ true }
    ensures { IfOk result (λ value. value ≡ token.now) }
{
    FieldValue::of_field_bytes(alloc, token)
}

/// A header's name.
#[tactic(auto, using(crate::proofs::ValueSteps::name_is_value))]
pub fn name_value(alloc: Global, name: &HeaderName) -> Result<FieldValue, AllocError>
    ensures { IfOk result (λ value. value ≡ name.now) }
{
    FieldValue::of_field_bytes(alloc, name.as_bytes())
}

// The bytes with each letter in lower case.
fn lowered(alloc: Global, name: &[u8]) -> Result<Octets, AllocError>
    ensures { IfOk result (λ text. text ≡ lowercase name.now) }
{
    let mut text = Octets::new(alloc);
    for b in name {
        text.push_all(&[b.to_ascii_lowercase()])?;
    }
    Ok(text)
}

/// The name of a header in lower case.
#[tactic(auto, using(crate::proofs::ValueSteps::lowered_is_value))]
pub fn lowered_value(alloc: Global, name: &[u8]) -> Result<FieldValue, AllocError>
    requires { list_all is_token_byte name.now ≡ true }
    ensures { IfOk result (λ value. value ≡ lowercase name.now) }
{
    Ok(FieldValue::from_octets(lowered(alloc, name)?))
}
