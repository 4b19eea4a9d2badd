ghost use Rattle.std.specs.Prelude.{◌≡◌};
ghost use Rattle.std.specs.Coded.{Coded-set};
ghost use Rattle.server_commands.specs.Replies.{asked_by, knows_of};

use crate::raiser::Raiser;
use server_core::Command;

// A command that was posted, with the flag of its reply, which is not raised.
#[derive(Drop)]
pub(crate) struct Posted {
    pub(crate) command: Command,
    pub(crate) raiser: Raiser,
    ghost asked: { asked_by raiser ≡ command } by { Coded-set command-code (asked_by raiser) command },
    ghost unraised: { knows_of raiser ≡ 0 },
}

impl Posted {
    ghost use Rattle.server_commands.specs.Replies.{asked_by, knows_of, raises_of};

    // Makes the reply ready. The flag is handed out raised.
    pub(crate) fn complete(self) -> Raiser
        ensures raised { knows_of result ≡ 1 }
        ensures same { raises_of result ≡ raises_of self.raiser }
        ensures command { asked_by result ≡ self.command }
    {
        let Posted { mut raiser, .. } = self;
        raiser.raise();
        raiser
    }
}
