//! How what a worker had that was joined is taken back, over its own ring.
ghost use Rattle.std.specs.Prelude.{◌≡◌, ◌≤◌, ◌++◌, ◌∷◌, [], true, false, Some, All, length, is_some};
ghost use Rattle.std.specs.List.{list_any};
ghost use Rattle.std.specs.Vec.Iter.{into_iter_items};
ghost use Rattle.rtrb.specs.Ring.{SameConsumer, known_items, received};
ghost use Rattle.server_acceptor.specs.Acceptors.{core_of, out_of};
ghost use Rattle.server_jobs.specs.Parcels.{is_stop};
ghost use Rattle.server_jobs.specs.Returning.{entries_of, entry_of_note, entry_of_waiting, one_or_none};
ghost use Rattle.server_run.specs.Outcome.{is_stopped};
ghost use Rattle.server_run.specs.declared.outcome.Outcome.TheVariants.{Lost};
ghost use Rattle.server.specs.Replacing.{Goes, MayTakeBack, TakesBack, entry_left};

use rtrb::{Consumer, Producer};
use server_acceptor::Acceptor;
use server_jobs::{Note, Parcel, Waiting};
use server_run::{Done, Entry, Listener, Outcome};
use service_core::Link;
use std::collections::VecDeque;
use std::vec::IntoIter;

// Takes one connection back.
fn take_one<Li: Listener, Do: Done<Li::Link>>(
    acceptor: &mut Acceptor<Li::Link>,
    w: usize,
    notes: &mut Producer<Note<Li::Link>>,
    entry: Entry<Li::Link>,
    done: &mut Do,
)
    requires may { MayTakeBack acceptor.old w notes.old 1 }
    requires founded { is_stopped entry.outcome ≡ true → is_some (core_of acceptor.old).stopping ≡ true }
    requires spare { out_of acceptor.old ≤ Do.spare done.old }
    ensures goes { Goes Li.given Li.left Li.rest Li.Link.identity Li.ended Li.faults Do.taken Do.count Do.served acceptor.old acceptor.new done.old done.new false }
    ensures spare { out_of acceptor.new ≤ Do.spare done.new }
    ensures takes { TakesBack acceptor.old acceptor.new w notes.old notes.new (entry ∷ []) }
{
    acceptor.take_back::<Li, Do>(w, notes, entry, done);
}

// Takes back the connection of a note, if it has one.
fn take_note<Li: Listener, Do: Done<Li::Link>>(
    acceptor: &mut Acceptor<Li::Link>,
    w: usize,
    notes: &mut Producer<Note<Li::Link>>,
    note: Note<Li::Link>,
    done: &mut Do,
)
    requires may { MayTakeBack acceptor.old w notes.old (length (one_or_none (entry_of_note note))) }
    requires founded { All (λ e. is_stopped e.outcome ≡ true → is_some (core_of acceptor.old).stopping ≡ true) (one_or_none (entry_of_note note)) }
    requires spare { out_of acceptor.old ≤ Do.spare done.old }
    ensures goes { Goes Li.given Li.left Li.rest Li.Link.identity Li.ended Li.faults Do.taken Do.count Do.served acceptor.old acceptor.new done.old done.new false }
    ensures spare { out_of acceptor.new ≤ Do.spare done.new }
    ensures takes { TakesBack acceptor.old acceptor.new w notes.old notes.new (one_or_none (entry_of_note note)) }
{
    match note {
        Note::Back(entry) => take_one::<Li, Do>(acceptor, w, notes, entry, done),
        Note::Ready | Note::Faulted => {}
    }
}

// Takes back the connections of the notes that the worker owed.
pub(crate) fn take_owed<Li: Listener, Do: Done<Li::Link>>(
    acceptor: &mut Acceptor<Li::Link>,
    w: usize,
    notes: &mut Producer<Note<Li::Link>>,
    owed: &mut VecDeque<Note<Li::Link>>,
    done: &mut Do,
)
    requires may { MayTakeBack acceptor.old w notes.old (length (entries_of entry_of_note owed.old.items)) }
    requires founded { All (λ e. is_stopped e.outcome ≡ true → is_some (core_of acceptor.old).stopping ≡ true) (entries_of entry_of_note owed.old.items) }
    requires spare { out_of acceptor.old ≤ Do.spare done.old }
    ensures goes { Goes Li.given Li.left Li.rest Li.Link.identity Li.ended Li.faults Do.taken Do.count Do.served acceptor.old acceptor.new done.old done.new false }
    ensures spare { out_of acceptor.new ≤ Do.spare done.new }
    ensures takes { TakesBack acceptor.old acceptor.new w notes.old notes.new (entries_of entry_of_note owed.old.items) }
{
    while let Some(note) = owed.pop_front() {
        take_note::<Li, Do>(acceptor, w, notes, note, done);
    }
}

// The entry of a connection that had not ended.
fn lost<L>(waiting: Waiting<L>, worker: usize) -> Entry<L>
    ensures { result ≡ record { serial = waiting.serial; token = waiting.token; place = waiting.place; link = waiting.link; outcome = Lost (Some worker) } }
{
    let Waiting {
        serial,
        token,
        place,
        link,
    } = waiting;
    Entry {
        serial,
        token,
        place,
        link,
        outcome: Outcome::Lost {
            worker: Some(worker),
        },
    }
}

// Takes back the connections that had not ended, as lost by the worker.
pub(crate) fn take_rest<Li: Listener, Do: Done<Li::Link>>(
    acceptor: &mut Acceptor<Li::Link>,
    w: usize,
    notes: &mut Producer<Note<Li::Link>>,
    rest: &mut IntoIter<Waiting<Li::Link>>,
    done: &mut Do,
)
    requires may { MayTakeBack acceptor.old w notes.old (length (entries_of (entry_of_waiting w) (into_iter_items rest.old))) }
    requires spare { out_of acceptor.old ≤ Do.spare done.old }
    ensures goes { Goes Li.given Li.left Li.rest Li.Link.identity Li.ended Li.faults Do.taken Do.count Do.served acceptor.old acceptor.new done.old done.new false }
    ensures spare { out_of acceptor.new ≤ Do.spare done.new }
    ensures takes { TakesBack acceptor.old acceptor.new w notes.old notes.new (entries_of (entry_of_waiting w) (into_iter_items rest.old)) }
{
    while let Some(waiting) = rest.next() {
        take_one::<Li, Do>(acceptor, w, notes, lost(waiting, w), done);
    }
}

// Takes back the connection of a parcel, if it has one, with this outcome. Whether it is a stop.
fn take_parcel<Li: Listener, Do: Done<Li::Link>>(
    acceptor: &mut Acceptor<Li::Link>,
    w: usize,
    notes: &mut Producer<Note<Li::Link>>,
    parcel: Parcel<Li::Link>,
    outcome: Outcome,
    done: &mut Do,
) -> bool
    requires may { MayTakeBack acceptor.old w notes.old (length (one_or_none (entry_left outcome parcel))) }
    requires founded { is_stopped outcome ≡ true → is_some (core_of acceptor.old).stopping ≡ true }
    requires spare { out_of acceptor.old ≤ Do.spare done.old }
    ensures goes { Goes Li.given Li.left Li.rest Li.Link.identity Li.ended Li.faults Do.taken Do.count Do.served acceptor.old acceptor.new done.old done.new false }
    ensures spare { out_of acceptor.new ≤ Do.spare done.new }
    ensures takes { TakesBack acceptor.old acceptor.new w notes.old notes.new (one_or_none (entry_left outcome parcel)) }
    ensures stop { result ≡ is_stop parcel }
{
    match parcel {
        Parcel::Conn {
            serial,
            token,
            place,
            link,
        } => {
            let entry = Entry {
                serial,
                token,
                place,
                link,
                outcome,
            };
            take_one::<Li, Do>(acceptor, w, notes, entry, done);
            false
        }
        Parcel::Stop { graceful: _ } => true,
    }
}

// Takes back the connections that are left in the ring to the worker, with this outcome. Whether a stop was among them.
pub(crate) fn take_parcels<Li: Listener, Do: Done<Li::Link>>(
    acceptor: &mut Acceptor<Li::Link>,
    w: usize,
    notes: &mut Producer<Note<Li::Link>>,
    parcels: &mut Consumer<Parcel<Li::Link>>,
    outcome: Outcome,
    done: &mut Do,
) -> bool
    requires may { MayTakeBack acceptor.old w notes.old (length (entries_of (entry_left outcome) (known_items parcels.old))) }
    requires founded { is_stopped outcome ≡ true → is_some (core_of acceptor.old).stopping ≡ true }
    requires spare { out_of acceptor.old ≤ Do.spare done.old }
    ensures goes { Goes Li.given Li.left Li.rest Li.Link.identity Li.ended Li.faults Do.taken Do.count Do.served acceptor.old acceptor.new done.old done.new false }
    ensures spare { out_of acceptor.new ≤ Do.spare done.new }
    ensures takes { TakesBack acceptor.old acceptor.new w notes.old notes.new (entries_of (entry_left outcome) (known_items parcels.old)) }
    ensures same { SameConsumer parcels.old parcels.new }
    ensures taken { received parcels.new ≡ received parcels.old ++ known_items parcels.old }
    ensures stop { result ≡ list_any is_stop (known_items parcels.old) }
{
    let mut stopped = false;
    while parcels.cached_slots() > 0 {
        let parcel = parcels.pop_known();
        if take_parcel::<Li, Do>(acceptor, w, notes, parcel, outcome, done) {
            stopped = true;
        }
    }
    stopped
}
