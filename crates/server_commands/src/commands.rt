ghost use Rattle.std.specs.Prelude.{◌≡◌, ◌↔◌, ℕ, Bool, false, List, Option, IsTrue};
ghost use Rattle.futures.specs.Task.{IsArmed, Keeps};
ghost use Rattle.server_core.specs.declared.command.Command.{Command};
ghost use Rattle.server_commands.specs.Commands.{given_after, idles_after, stops_after};
ghost use Rattle.server_commands.specs.declared.commands.Next.TheVariants.{NotYet, Ended};

use futures::task::Context;
use server_core::Command;

/// What a source of commands answers.
#[derive(Clone, Copy, Debug, PartialEq, Eq)]
pub enum Next {
    /// A command.
    Given(Command),
    /// None has come yet.
    NotYet,
    /// None will come any more.
    Ended,
}

/// What tells a server to pause, to go on and to stop (the receiver behind `actix-server`'s `ServerHandle`).
pub trait Commands {
    // The commands that it has given, in order, where it tells them.
    ghost given: { Self → Option (List Command) };

    // How many stops it has given. At u64's greatest it stays.
    ghost stops: { Self → ℕ };

    // How often it gave none. At u64's greatest it stays.
    ghost idles: { Self → ℕ };

    // It has ended.
    ghost ended: { Self → Bool };

    // Whether it waits to be told that commands of its have been carried out, where it does.
    ghost unsettled: { Self → Bool } = { λ _. false };

    /// The next command, if one has come. Where none has come yet, the context is told what wakes its task. After `Ended` every
    /// answer is `Ended`.
    fn next(&mut self, cx: &mut Context<'_>) -> Next
        ensures given { given self.new ≡ given_after result (given self.old) }
        ensures stops { stops self.new ≡ stops_after result (stops self.old) }
        ensures idles { idles self.new ≡ idles_after result (idles self.old) }
        ensures ended { IsTrue (ended self.new) ↔ (result ≡ Ended) }
        ensures for_ever { IsTrue (ended self.old) → result ≡ Ended }
        ensures armed { result ≡ NotYet → IsArmed cx.new }
        ensures kept { Keeps cx.old cx.new };

    /// Says that all commands that were given have been carried out.
    fn settled(&mut self)
        ensures given { given self.new ≡ given self.old }
        ensures stops { stops self.new ≡ stops self.old }
        ensures idles { idles self.new ≡ idles self.old }
        ensures ended { ended self.new ≡ ended self.old }
        ensures settled { unsettled self.new ≡ false };
}
