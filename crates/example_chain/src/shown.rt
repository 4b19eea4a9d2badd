ghost use Rattle.std.specs.Prelude.{◌≡◌, is_some, codes};
ghost use Rattle.http1_grammar.specs.Headers.{get};

use http_header::ACCESS_CONTROL_ALLOW_ORIGIN;
use http1_plain::Response;

/// What the program shows of a response.
#[derive(Clone, Copy, Debug, Drop, PartialEq, Eq)]
pub struct Shown {
    /// Its status.
    pub status: u16,
    /// Whether a page of another origin may read it.
    pub may_be_read: bool,
}

impl Shown {
    /// What it shows of this response.
    pub fn of(response: &Response) -> Shown
        ensures status { result.status ≡ response.now.status }
        ensures grant { result.may_be_read ≡ is_some (get response.now.headers (codes "access-control-allow-origin")) }
    {
        Shown {
            status: response.status(),
            may_be_read: response
                .headers()
                .get(&ACCESS_CONTROL_ALLOW_ORIGIN)
                .is_some(),
        }
    }

    /// Whether a page may read it, in words.
    pub fn words(&self) -> &'static str {
        if self.may_be_read {
            "may read it"
        } else {
            "may not read it"
        }
    }
}
