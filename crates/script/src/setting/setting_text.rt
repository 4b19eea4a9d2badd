//! Reads the lines that set how connections are served.
ghost use Rattle.std.specs.Prelude.{◌≡◌};
ghost use Rattle.script.specs.Script.{bare_setting, handler_line, server_line, setting_line, status_line};

use crate::final_status::FinalStatus;
use crate::handler::Handler;
use crate::setting::SettingLine;
use crate::text::number_behind;

/// What a line sets. None where it sets nothing.
pub(crate) fn read_setting_line(line: &[u8]) -> Option<SettingLine>
    ensures { result ≡ setting_line line.now }
{
    if let Some(said) = server_line(line) {
        return Some(said);
    }
    if let Some(size) = number_behind(b"head ".as_slice(), 1, 65_535, line) {
        return Some(SettingLine::Head(size));
    }
    if let Some(size) = number_behind(b"body ".as_slice(), 1, 16_777_216, line) {
        return Some(SettingLine::Body(size));
    }
    if let Some(size) = number_behind(b"cut ".as_slice(), 1, 65_536, line) {
        return Some(SettingLine::Cut(size));
    }
    if let Some(said) = bare_setting(line) {
        return Some(said);
    }
    let handler = handler_line(line)?;
    Some(SettingLine::Handle(handler))
}

// What the server is set to.
fn server_line(line: &[u8]) -> Option<SettingLine>
    ensures { result ≡ server_line line.now }
{
    if let Some(count) = number_behind(b"workers ".as_slice(), 1, 512, line) {
        return Some(SettingLine::Workers(count));
    }
    if let Some(places) = number_behind(b"ring ".as_slice(), 1, 4_096, line) {
        return Some(SettingLine::Ring(places));
    }
    if let Some(most) = number_behind(b"retry ".as_slice(), 1, 1_000, line) {
        return Some(SettingLine::Retry(most));
    }
    let most = number_behind(b"limit ".as_slice(), 1, 1_000_000, line)?;
    Some(SettingLine::Limit(most))
}

// A setting that has no value.
fn bare_setting(line: &[u8]) -> Option<SettingLine>
    ensures { result ≡ bare_setting line.now }
{
    if line == b"keep-alive off".as_slice() {
        return Some(SettingLine::KeepAliveOff);
    }
    if line == b"expect refuse".as_slice() {
        return Some(SettingLine::ExpectRefuse);
    }
    if line == b"upgrade echo".as_slice() {
        return Some(SettingLine::UpgradeEcho);
    }
    None
}

// The handler that a line sets.
fn handler_line(line: &[u8]) -> Option<Handler>
    ensures { result ≡ handler_line line.now }
{
    if line == b"handler hello".as_slice() {
        return Some(Handler::Hello);
    }
    if line == b"handler echo".as_slice() {
        return Some(Handler::Echo);
    }
    if line == b"handler peer".as_slice() {
        return Some(Handler::Peer);
    }
    if line == b"handler fail".as_slice() {
        return Some(Handler::Fail);
    }
    status_line(line)
}

// The handler that answers with the status of the line.
fn status_line(line: &[u8]) -> Option<Handler>
    ensures { result ≡ status_line line.now }
{
    let code = number_behind(b"handler status ".as_slice(), 200, 999, line)?;
    let status = FinalStatus::new(code as u16)?;
    Some(Handler::Status(status))
}
