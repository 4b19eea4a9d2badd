//! Tokens (RFC 9110, section 5.6.2).
ghost use Rattle.std.specs.Prelude.{◌≡◌};
ghost use Rattle.cors_rules.specs.Building.{is_token, is_header_name};

/// Whether the bytes are a token.
pub fn is_token(bytes: &[u8]) -> bool
    ensures { result ≡ is_token bytes.now }
{
    http_header::is_token(bytes)
}

/// Whether the bytes are the name of a header, in any case.
pub fn is_name(item: &[u8]) -> bool
    ensures { result ≡ is_header_name item.now }
{
    is_token(item) && item.len() <= 65535
}
