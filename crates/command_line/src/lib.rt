//! What the small programs of the repository read from their command line, and how they print.
#![tactic(auto)]

ghost use Rattle.std.specs.Prelude.{◌≡◌, ◌⊎◌};

use std::alloc::{AllocError, AllocGlobal};
use std::env;
use std::io::ErrorKind;
use std::rt::Env;

/// The status of a program whose write failed.
pub const WRITE_FAILED: u8 = 6;

/// The words behind the program's name. Where they cannot be had, as where one is not UTF-8, there are none. An error
/// stands for want of memory.
pub fn words_of<R: Env + AllocGlobal>(rt: &R) -> Result<Vec<String>, AllocError> {
    let mut words = Vec::new(rt.alloc());
    match env::args(rt) {
        Ok(args) => {
            for word in args.skip(1) {
                words.push(word)?;
            }
            Ok(words)
        }
        Err(error) if error.kind() == ErrorKind::OutOfMemory => Err(AllocError),
        Err(_) => Ok(words),
    }
}

/// Prints a line. The status is the one given, or that of a write that failed.
pub fn print<R: Print>(rt: &R, text: &str, status: u8) -> u8
    ensures { (result ≡ status) ⊎ (result ≡ 6) }
{
    match println!(rt; "{text}") {
        Ok(()) => status,
        Err(_) => WRITE_FAILED,
    }
}
