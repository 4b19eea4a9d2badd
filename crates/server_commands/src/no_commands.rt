ghost use Rattle.std.specs.Prelude.{◌≡◌, ◌↔◌, [], Some, false, IsTrue};
ghost use Rattle.futures.specs.Task.{IsArmed, Keeps};
ghost use Rattle.server_commands.specs.Commands.{given_after, idles_after, stops_after};
ghost use Rattle.server_commands.specs.declared.commands.Next.TheVariants.{NotYet, Ended};

use crate::commands::{Commands, Next};
use futures::task::Context;

/// Gives no command, and says so at once. A server that is told nothing takes it: it ends once its listeners have.
#[derive(Debug, Drop)]
pub struct NoCommands {
    idles: u64,
    ended: bool,
}

impl NoCommands {
    /// It was not asked yet.
    pub fn new() -> NoCommands
        ensures idles { ⟦<NoCommands as Commands>⟧.idles result ≡ 0 }
        ensures ended { ⟦<NoCommands as Commands>⟧.ended result ≡ false }
    {
        NoCommands {
            idles: 0,
            ended: false,
        }
    }
}

impl Commands for NoCommands {
    ghost given = { λ _. Some [] };

    ghost stops = { λ _. 0 };

    ghost idles = { λ none. none.idles };

    ghost ended = { λ none. none.ended };

    /// It ends.
    fn next(&mut self, _cx: &mut Context<'_>) -> Next
        ensures ends { result ≡ Ended }
        ensures given { ⟦<NoCommands as Commands>⟧.given self.new ≡ given_after result (⟦<NoCommands as Commands>⟧.given self.old) }
        ensures stops { ⟦<NoCommands as Commands>⟧.stops self.new ≡ stops_after result (⟦<NoCommands as Commands>⟧.stops self.old) }
        ensures idles { self.new.idles ≡ idles_after result self.old.idles }
        ensures ended { IsTrue self.new.ended ↔ (result ≡ Ended) }
        ensures for_ever { IsTrue self.old.ended → result ≡ Ended }
        ensures armed { result ≡ NotYet → IsArmed _cx.new }
        ensures kept { Keeps _cx.old _cx.new }
    {
        self.idles = self.idles.saturating_add(1);
        self.ended = true;
        Next::Ended
    }

    /// It does nothing.
    fn settled(&mut self) {}
}
