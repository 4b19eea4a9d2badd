ghost use Rattle.std.specs.Prelude.{◌≡◌};
ghost use Rattle.std.specs.Arc.{arc_value};

use crate::flag::{Look, Raises, Word};
use atomic_table::Seat;
use std::sync::Arc;

// The end of a flag that raises it.
#[derive(Drop)]
pub(crate) struct Raiser {
    word: Arc<Word>,
    seat: Seat<(), Look>,
    ghost one_word: { (arc_value word).shared.table_id.words ≡ 1 },
    ghost seated: { seat.table_id ≡ (arc_value word).shared.table_id },
}

impl Raiser {
    ghost use Rattle.server_commands.specs.Replies.{asked_by, knows_of, raises_of};

    // The end with this seat.
    pub(crate) fn new(word: Arc<Word>, seat: Seat<(), Look>) -> Raiser
        requires one_word { (arc_value word).shared.table_id.words ≡ 1 }
        requires seated { seat.table_id ≡ (arc_value word).shared.table_id }
        ensures seat { result.seat ≡ seat }
        ensures word { result.word ≡ word }
    {
        Raiser { word, seat }
    }

    // Raises the flag.
    pub(crate) fn raise(&mut self)
        ensures raised { knows_of self.new ≡ 1 }
        ensures same { raises_of self.new ≡ raises_of self.old }
        ensures command { asked_by self.new ≡ asked_by self.old }
    {
        self.word.shared.store::<Raises>(&mut self.seat, 0, 1);
    }
}
