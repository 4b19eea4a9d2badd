//! Reads a script line by line.
ghost use Rattle.std.specs.Prelude.{◌≡◌, ◌==◌, ◌+◌, if◌then◌else◌, length, IfOk, Option, Some, None};
ghost use Rattle.std.specs.List.{slice_split};
ghost use Rattle.script.specs.Script.{after_line, plan_of};
ghost use Rattle.script.specs.Plan.{plan, reading_of};

use crate::line::read_line;
use crate::script::Script;
use std::alloc::{AllocError, Global};

/// The greatest length of a script, in bytes.
pub const MAX_SCRIPT: usize = 16_777_216;

/// What a script was read as.
#[derive(Drop)]
pub enum Reading {
    /// What all its lines ask for. None of them is bad.
    Good(Script),
    /// The number of the first bad line, counted from 1.
    BadLine(usize),
}

/// The plan of a script, or its first bad line.
pub fn read_script(alloc: Global, bytes: &[u8]) -> Result<Reading, AllocError>
    ensures { IfOk result (λ reading. reading_of reading ≡ plan_of bytes.now) }
{
    let mut script = Script::new(alloc);
    let mut number = 1;
    for line in bytes.split(|b| *b == b'\n') {
        let taken = push_line(alloc, &mut script, line)?;
        if !taken {
            return Ok(Reading::BadLine(number));
        }
        number += 1;
    }
    Ok(Reading::Good(script))
}

// Takes one more line. Returns whether it is of the grammar and can stand here.
fn push_line(alloc: Global, script: &mut Script, line: &[u8]) -> Result<bool, AllocError>
    ensures { IfOk result (λ taken. (if taken then Some (plan script.new) else None) ≡ after_line (plan script.old) line.now) }
{
    let Some(said) = read_line(alloc, line)? else {
        return Ok(false);
    };
    script.push(alloc, said)
}
