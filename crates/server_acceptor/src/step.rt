// What a step of a turn comes to.
#[derive(Clone, Copy, Debug, PartialEq, Eq, Drop)]
pub(crate) enum Step {
    // The turn goes on.
    On,
    // There is nothing more to ask.
    Settled,
    // Nothing more can be done in this turn.
    Halted,
    // This worker ended by a fault.
    WorkerEnded(usize),
}
