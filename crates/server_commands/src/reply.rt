ghost use Rattle.std.specs.Prelude.{◌≡◌, ◌↔◌, ◌+◌};
ghost use Rattle.std.specs.Arc.{arc_value};
ghost use Rattle.futures.specs.Poll.{OnPending};
ghost use Rattle.futures.specs.Task.{Covers, Keeps};
ghost use Rattle.futures.specs.declared.task.Poll.TheVariants.{Ready, Pending};

use crate::flag::{Look, Reads, Word};
use atomic_table::Seat;
use futures::Future;
use futures::task::{Context, Poll};
use std::sync::Arc;

/// Becomes ready once the command that it is the reply to has been carried out, or was not taken when its queue was closed (what
/// the methods of `actix-server`'s `ServerHandle` return).
#[derive(Drop)]
pub struct Reply {
    word: Arc<Word>,
    seat: Seat<(), Look>,
    ghost one_word: { (arc_value word).shared.table_id.words ≡ 1 },
    ghost seated: { seat.table_id ≡ (arc_value word).shared.table_id },
}

impl Reply {
    // The end with this seat.
    pub(crate) fn new(word: Arc<Word>, seat: Seat<(), Look>) -> Reply
        requires one_word { (arc_value word).shared.table_id.words ≡ 1 }
        requires seated { seat.table_id ≡ (arc_value word).shared.table_id }
        ensures seat { result.seat ≡ seat }
        ensures word { result.word ≡ word }
    {
        Reply { word, seat }
    }
}

impl Future for Reply {
    type Output = ();

    ghost use Rattle.server_commands.specs.Replies.{command_of, flag_of, reads_of, seen_of};

    /// Reads the flag once, which is 0 until the command has been carried out or its queue is closed before it was taken, and from
    /// then on 1. Where it is 0 the task is polled again.
    fn poll(&mut self, cx: &mut Context<'_>) -> Poll<()>
        ensures read { reads_of self.new ≡ reads_of self.old + 1 }
        ensures pending { (result ≡ Pending) ↔ (seen_of self.new ≡ 0) }
        ensures ready { (result ≡ Ready tt) ↔ (seen_of self.new ≡ 1) }
        ensures for_ever { seen_of self.old ≡ 1 → result ≡ Ready tt }
        ensures flag { flag_of self.new ≡ flag_of self.old }
        ensures command { command_of self.new ≡ command_of self.old }
        ensures registered { OnPending result (Covers cx.new (λ _. ⊥)) }
        ensures kept { Keeps cx.old cx.new }
    {
        match self.word.shared.load::<Reads>(&mut self.seat, 0) {
            0 => cx.yield_now(),
            _ => Poll::Ready(()),
        }
    }
}
