ghost use Rattle.std.specs.Prelude.{◌≡◌, ◌↔◌, ◌≤◌, length, slice_get, take, true, false, [], Some, IsTrue};
ghost use Rattle.futures.specs.Task.{IsArmed, Keeps};
ghost use Rattle.server_commands.specs.Commands.{given_after, idles_after, stops_after};
ghost use Rattle.server_commands.specs.declared.commands.Next.TheVariants.{NotYet, Ended};
ghost use Rattle.server_commands.specs.Steps.{IsNext, commands_in};

use crate::commands::{Commands, Next};
use crate::counts::stops_with;
use futures::task::{Context, Poll};
use server_core::Command;
use std::alloc::Global;

/// A step of commands in memory.
#[derive(Clone, Copy, Debug, PartialEq, Eq)]
pub enum CommandStep {
    /// A command.
    Give(Command),
    /// None has come yet.
    NotYet,
}

/// Commands in memory, which go through a list of steps and then end.
#[derive(Debug, Drop)]
pub struct ScriptCommands {
    steps: Vec<CommandStep>,
    /// How many of the steps went.
    place: usize,
    stops: u64,
    idles: u64,
    ended: bool,
    ghost within: { place ≤ length steps.items },
    ghost at_end: { ended ≡ true → place ≡ length steps.items },
}

impl ScriptCommands {
    ghost use Rattle.server_commands.specs.Scripts.{to_come};

    /// It answers by the steps, and then `Ended`. With no steps it has nothing to say.
    pub fn new(_alloc: Global, steps: Vec<CommandStep>) -> ScriptCommands
        ensures to_come { to_come result ≡ steps.items }
        ensures given { ⟦<ScriptCommands as Commands>⟧.given result ≡ Some [] }
        ensures stops { ⟦<ScriptCommands as Commands>⟧.stops result ≡ 0 }
        ensures idles { ⟦<ScriptCommands as Commands>⟧.idles result ≡ 0 }
        ensures ended { ⟦<ScriptCommands as Commands>⟧.ended result ≡ false }
    {
        ScriptCommands {
            steps,
            place: 0,
            stops: 0,
            idles: 0,
            ended: false,
        }
    }

    // The first of the steps that are to come.
    fn first(&self) -> Option<CommandStep>
        ensures { result ≡ slice_get self.now.steps.items self.now.place }
    {
        self.steps.get(self.place).copied()
    }
}

impl Commands for ScriptCommands {
    ghost use Rattle.server_commands.specs.Scripts.{to_come};

    ghost given = { λ script. Some (commands_in (take script.place script.steps.items)) };

    ghost stops = { λ script. script.stops };

    ghost idles = { λ script. script.idles };

    ghost ended = { λ script. script.ended };

    /// It goes by the first of the steps that are to come. At a step that gives none, the task is polled again.
    fn next(&mut self, cx: &mut Context<'_>) -> Next
        ensures step { IsNext (to_come self.old) result (to_come self.new) }
        ensures given { ⟦<ScriptCommands as Commands>⟧.given self.new ≡ given_after result (⟦<ScriptCommands as Commands>⟧.given self.old) }
        ensures stops { self.new.stops ≡ stops_after result self.old.stops }
        ensures idles { self.new.idles ≡ idles_after result self.old.idles }
        ensures ended { IsTrue self.new.ended ↔ (result ≡ Ended) }
        ensures for_ever { IsTrue self.old.ended → result ≡ Ended }
        ensures armed { result ≡ NotYet → IsArmed cx.new }
        ensures kept { Keeps cx.old cx.new }
    {
        match self.first() {
            Some(CommandStep::Give(command)) => {
                self.place += 1;
                self.stops = stops_with(command, self.stops);
                Next::Given(command)
            }
            Some(CommandStep::NotYet) => {
                self.place += 1;
                self.idles = self.idles.saturating_add(1);
                let _: Poll<()> = cx.yield_now();
                Next::NotYet
            }
            None => {
                self.idles = self.idles.saturating_add(1);
                self.ended = true;
                Next::Ended
            }
        }
    }

    /// It does nothing.
    fn settled(&mut self)
        ensures to_come { to_come self.new ≡ to_come self.old }
        ensures given { ⟦<ScriptCommands as Commands>⟧.given self.new ≡ ⟦<ScriptCommands as Commands>⟧.given self.old }
        ensures stops { self.new.stops ≡ self.old.stops }
        ensures idles { self.new.idles ≡ self.old.idles }
        ensures ended { self.new.ended ≡ self.old.ended }
    {}
}
