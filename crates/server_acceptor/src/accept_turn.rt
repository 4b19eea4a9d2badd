use server_run::End;

/// What a turn of the acceptor comes to.
#[derive(Clone, Copy, Debug, PartialEq, Eq, Drop)]
pub enum AcceptTurn {
    /// It goes on.
    Going,
    /// This worker ended by a fault.
    WorkerEnded(usize),
    /// Nothing is left to do.
    Finished(End),
}
