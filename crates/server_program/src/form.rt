//! What the words of the command line ask for.
ghost use Rattle.std.specs.Prelude.{◌≡◌, ℕ, IfSome, Some, slice_get};
ghost use Rattle.server_program.specs.Forms.{IsFormInRange, form_of, generate_form, listen_form};
ghost use Rattle.server_program.specs.declared.form.Form.TheVariants.{Listen};

use script::{number_in, number_to};
use service_core::Octets;

/// How many connections come to a listener at the most.
const MAX_LIMIT: u128 = 1_000_000;

/// How many connections are made at the most.
const MAX_CONNECTIONS: u128 = 100_000;

/// The greatest seed.
const MAX_SEED: u128 = 2_147_483_647;

/// What the words of the command line ask for.
#[derive(Clone, Copy, Debug, PartialEq, Eq)]
pub enum Form {
    /// `replay`: a script is read and served.
    Replay,
    /// `listen ADDR N`: connections that come to the address ADDR are served.
    Listen {
        /// How many at the most, from 1 to 1,000,000.
        limit: u64,
    },
    /// `generate N K`: connections are made and served.
    Generate {
        /// How many, from 1 to 100,000.
        count: usize,
        /// What they are made from, below 2^31.
        seed: u32,
    },
}

/// What the words behind the program's name ask for; none where they have no form. A number is decimal digits without a sign,
/// and without a zero before others. An address is any text in UTF-8.
pub fn form_of(words: &[Octets]) -> Option<Form>
    ensures form { result ≡ form_of words.now }
    ensures within { IfSome result IsFormInRange }
{
    match words {
        [word] if word.as_bytes() == b"replay".as_slice() => Some(Form::Replay),
        [word, addr, limit] if word.as_bytes() == b"listen".as_slice() => {
            listen_form(addr.as_bytes(), limit.as_bytes())
        }
        [word, count, seed] if word.as_bytes() == b"generate".as_slice() => {
            generate_form(count.as_bytes(), seed.as_bytes())
        }
        _ => None,
    }
}

/// The address in words of the form `listen ADDR N`.
pub(crate) fn address_of(words: &[Octets]) -> &str
    requires { (limit : ℕ) × (form_of words.now ≡ Some (Listen limit)) }
    ensures { slice_get words.now 1 ≡ Some result.now }
{
    match words {
        [_, addr, _] => match std::str::from_utf8(addr.as_bytes()) {
            Ok(addr) => addr,
            Err(_) => unreachable!(),
        },
        _ => unreachable!(),
    }
}

fn listen_form(addr: &[u8], limit: &[u8]) -> Option<Form>
    ensures form { result ≡ listen_form addr.now limit.now }
    ensures within { IfSome result IsFormInRange }
{
    match std::str::from_utf8(addr) {
        Ok(_) => match number_in(1, MAX_LIMIT, limit) {
            Some(limit) => Some(Form::Listen {
                limit: limit as u64,
            }),
            None => None,
        },
        Err(_) => None,
    }
}

fn generate_form(count: &[u8], seed: &[u8]) -> Option<Form>
    ensures form { result ≡ generate_form count.now seed.now }
    ensures within { IfSome result IsFormInRange }
{
    let count = number_in(1, MAX_CONNECTIONS, count)?;
    let seed = number_to(MAX_SEED, seed)?;
    Some(Form::Generate {
        count,
        seed: seed as u32,
    })
}
