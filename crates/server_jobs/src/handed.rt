use crate::note::Note;
use crate::parcel::Parcel;
use crate::waiting::Waiting;
use rtrb::{Consumer, Producer};
use std::collections::VecDeque;

/// What the job of a worker hands over when it is done.
#[derive(Drop)]
pub struct Handed<L, F, D> {
    /// Its end of the ring to it.
    pub parcels: Consumer<Parcel<L>>,
    /// Its end of the ring back.
    pub notes: Producer<Note<L>>,
    /// The factory that it was given.
    pub factory: F,
    /// The notes for which the ring back had no place.
    pub owed: VecDeque<Note<L>>,
    /// The connections that have not ended.
    pub rest: Vec<Waiting<L>>,
    /// Why it left.
    pub departure: D,
}
