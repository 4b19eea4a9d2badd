//! What one line of a script says.
ghost use Rattle.std.specs.Prelude.{◌≡◌, true, IfOk, IfSome};
ghost use Rattle.std.specs.List.{list_all};
ghost use Rattle.script.specs.Plain.{is_plain};
ghost use Rattle.script.specs.Ranges.{IsInRange};
ghost use Rattle.script.specs.Script.{line_of, told_by};

use crate::place::{PlaceLine, read_place_line};
use crate::policy::{PolicyLine, read_policy_line};
use crate::setting::{SettingLine, read_setting_line};
use std::alloc::{AllocError, Global};

/// What a line of a script says.
#[derive(Drop)]
pub enum Line {
    /// Nothing: it is empty, or a comment.
    Skip,
    /// How connections are served, and by what.
    Setting(SettingLine),
    /// What it says of the policy.
    Policy(PolicyLine),
    /// What is given: listeners, their connections, and what these do.
    Place(PlaceLine),
}

/// What a line says, each number in its range. None where it is not of the grammar.
pub fn read_line(alloc: Global, line: &[u8]) -> Result<Option<Line>, AllocError>
    ensures said { IfOk result (λ said. said ≡ line_of line.now) }
    ensures range { IfOk result (λ said. IfSome said IsInRange) }
{
    if !is_plain(line) {
        return Ok(None);
    }
    if line.is_empty() || line.starts_with(b"#".as_slice()) {
        return Ok(Some(Line::Skip));
    }
    told_by(alloc, line)
}

// What a line says that is neither empty nor a comment.
fn told_by(alloc: Global, line: &[u8]) -> Result<Option<Line>, AllocError>
    requires { list_all is_plain line.now ≡ true }
    ensures { IfOk result (λ said. said ≡ told_by line.now) }
{
    if let Some(said) = read_setting_line(line) {
        return Ok(Some(Line::Setting(said)));
    }
    if let Some(said) = read_place_line(alloc, line)? {
        return Ok(Some(Line::Place(said)));
    }
    Ok(read_policy_line(alloc, line)?.map(Line::Policy))
}

/// Whether each byte can stand in a line.
fn is_plain(line: &[u8]) -> bool
    ensures { result ≡ list_all is_plain line.now }
{
    line.iter().all(|b| is_plain_byte(*b))
}

fn is_plain_byte(byte: u8) -> bool
    ensures { result ≡ is_plain byte }
{
    32 <= byte && byte <= 126
}
