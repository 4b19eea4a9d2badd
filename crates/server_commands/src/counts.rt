//! The count of the stops that were given.
ghost use Rattle.std.specs.Prelude.{◌≡◌};
ghost use Rattle.server_commands.specs.Commands.{stops_with};

use server_core::Command;

// The count with this command.
pub(crate) fn stops_with(command: Command, stops: u64) -> u64
    ensures { result ≡ stops_with command stops }
{
    match command {
        Command::Stop { .. } => stops.saturating_add(1),
        Command::Pause | Command::Resume => stops,
    }
}
