//! The reading of an input.
use crate::came::Came;
use http1_plain::Limits;
use http1_reader::{Reader, Step};
use std::alloc::{AllocError, Global};

// What came with the step. True where another may follow.
fn count(step: &Step, came: &mut Came) -> bool {
    match step {
        Step::NeedMore => false,
        Step::Head(_) => {
            came.heads = came.heads.wrapping_add(1);
            true
        }
        Step::Body(body) => {
            came.bodies = came.bodies.wrapping_add(body.len() as u64);
            true
        }
        Step::Refused(_) => {
            came.refusals = came.refusals.wrapping_add(1);
            false
        }
    }
}

fn take_step(reader: &mut Reader, came: &mut Came) -> Result<bool, AllocError> {
    let step = reader.next()?;
    let goes_on = count(&step, came);
    drop(step);
    Ok(goes_on)
}

// Takes the steps that are there, of at most as many as bytes.
fn take_steps(reader: &mut Reader, came: &mut Came, most: usize) -> Result<(), AllocError> {
    for _ in 0..most {
        if !take_step(reader, came)? {
            break;
        }
    }
    Ok(())
}

fn read_once(
    reader: &mut Reader,
    input: &[u8],
    piece: usize,
    came: &mut Came,
) -> Result<(), AllocError> {
    for piece in input.chunks(piece.max(1)) {
        reader.feed(piece)?;
        take_steps(reader, came, piece.len().saturating_add(1))?;
    }
    Ok(())
}

/// Reads the input so many times, in pieces of so many bytes.
pub fn read_all(alloc: Global, input: &[u8], piece: usize, times: u64) -> Result<Came, AllocError> {
    let mut reader = Reader::new(alloc, Limits::default());
    let mut came = Came::nothing();
    for _ in 0..times {
        read_once(&mut reader, input, piece, &mut came)?;
    }
    Ok(came)
}
