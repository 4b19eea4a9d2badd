//! Flags: words that are 0, and 1 for ever once they are raised.
ghost use Rattle.std.specs.Prelude.{◌≡◌, IfOk};
ghost use Rattle.server_commands.specs.Replies.{command_of, flag_of, raises_of, reads_of};

use crate::posted::Posted;
use crate::raiser::Raiser;
use crate::reply::Reply;
use atomic_table::{Play, Table, TableRule};
use server_core::Command;
use std::alloc::{AllocError, Global};
use std::sync::Arc;

/// What an end of a flag knows of it. No value of it is made.
pub struct Look {
    /// How often it read the word.
    pub reads: u64,
    /// What it found there last, 0 before the first.
    pub seen: u64,
}

// The rule of a flag's word: what was seen there is still there, or more.
pub(crate) struct Rising;

impl TableRule<(), Look, Command> for Rising {
    ghost use Rattle.server_commands.specs.Flags.{IsRising, unseen};

    ghost holds = { λ _. IsRising };

    ghost first = { λ _. unseen };
}

// The other end comes.
pub(crate) struct Comes;

impl Play<(), Look> for Comes {
    ghost use Rattle.server_commands.specs.Flags.{came};

    ghost then = { came };
}

// The word is read.
pub(crate) struct Reads;

impl Play<(), Look> for Reads {
    ghost use Rattle.server_commands.specs.Flags.{read};

    ghost then = { read };
}

// The word becomes 1.
pub(crate) struct Raises;

impl Play<(), Look> for Raises {
    ghost use Rattle.server_commands.specs.Flags.{raised};

    ghost then = { raised };
}

// The word of a flag, told the command that it is for.
pub(crate) type Word = Table<(), Look, Command, Rising, Global>;

// A command to be posted, and the reply to it, with the two ends of a flag that is not raised.
pub(crate) fn flag(alloc: Global, command: Command) -> Result<(Posted, Reply), AllocError>
    ensures same { IfOk result (λ ends. flag_of ends.1 ≡ raises_of ends.0.raiser) }
    ensures posted { IfOk result (λ ends. ends.0.command ≡ command) }
    ensures reply { IfOk result (λ ends. command_of ends.1 ≡ command) }
    ensures unread { IfOk result (λ ends. reads_of ends.1 ≡ 0) }
{
    let (table, seat) = Word::of_words(alloc, &[0], &command)?;
    let (_, other) = table.shared.load_new_seat::<Comes>(0);
    let word = Arc::new(alloc, table)?;
    let raiser = Raiser::new(Arc::try_clone(&word)?, other);
    Ok((Posted { command, raiser }, Reply::new(word, seat)))
}
