//! The options that `Connection` fields list.
ghost use Rattle.std.specs.Prelude.{◌≡◌, ◌||◌, ◌∷◌, ◌++◌, [], ℕ, List, bytes_eq, codes, not};
ghost use Rattle.http_header.specs.Token.{lowercase};
ghost use Rattle.httparse.specs.Grammar.{trim_ows};
ghost use Rattle.http1_head.specs.Asking.{ListsOptions};

use http1_plain::trimmed;

/// Which of the options that matter here some `Connection` fields list (RFC 9110, section 7.6.1).
#[derive(Clone, Copy)]
pub(crate) struct ConnectionOptions {
    pub(crate) close: bool,
    pub(crate) keep_alive: bool,
    pub(crate) upgrade: bool,
}

// Whether the option is the token, which is in lower case.
fn is_token(option: &[u8], token: &[u8]) -> bool
    requires { lowercase token.now ≡ token.now }
    ensures { result ≡ bytes_eq token.now (lowercase option.now) }
{
    token.eq_ignore_ascii_case(option)
}

impl ConnectionOptions {
    /// Those of no field.
    pub(crate) fn none() -> ConnectionOptions
        ensures { ListsOptions [] result }
    {
        ConnectionOptions {
            close: false,
            keep_alive: false,
            upgrade: false,
        }
    }

    /// Whether a connection of the old version ends, which stays open only where that is asked for.
    pub(crate) fn ends_old(&self) -> bool
        ensures { result ≡ (self.now.close || not self.now.keep_alive) }
    {
        self.close || !self.keep_alive
    }

    // With one more option.
    fn with(self, option: &[u8]) -> ConnectionOptions
        ensures close { result.close
            ≡ (self.close || bytes_eq (codes "close") (lowercase (trim_ows option.now))) }
        ensures keep_alive { result.keep_alive
            ≡ (self.keep_alive || bytes_eq (codes "keep-alive") (lowercase (trim_ows option.now))) }
        ensures upgrade { result.upgrade
            ≡ (self.upgrade || bytes_eq (codes "upgrade") (lowercase (trim_ows option.now))) }
    {
        let option = trimmed(option);
        ConnectionOptions {
            close: self.close || is_token(option, b"close"),
            keep_alive: self.keep_alive || is_token(option, b"keep-alive"),
            upgrade: self.upgrade || is_token(option, b"upgrade"),
        }
    }

    /// With those of one more field.
    pub(crate) fn and(self, value: &[u8]) -> ConnectionOptions
        ensures { (values : List (List ℕ)) → ListsOptions values self
            → ListsOptions (values ++ value.now ∷ []) result }
    {
        let mut options = self;
        for option in value.split(|b| *b == b',') {
            options = options.with(option);
        }
        options
    }
}
