//! Bytes that come in pieces.
ghost use Rattle.std.specs.Prelude.{◌≡◌, ◌<◌, ◌++◌, [], ◌∷◌, OnErr, OnOk};
ghost use Rattle.server_run.specs.declared.read_step.ReadStep.TheVariants.{Give};
ghost use Rattle.script.specs.Planned.{gives};

use server_run::ReadStep;
use service_core::Octets;
use std::alloc::{AllocError, Global};

/// Each piece of at most `cut` bytes is one step more, or memory runs out and the steps stay.
pub(crate) fn push_pieces(
    alloc: Global,
    reads: &mut Vec<ReadStep>,
    cut: usize,
    bytes: &[u8],
) -> Result<(), AllocError>
    requires { 0 < cut }
    ensures ok { OnOk result (reads.new.items ≡ reads.old.items ++ gives cut bytes.now) }
    ensures err { OnErr result (reads.new.items ≡ reads.old.items) }
{
    let had = reads.len();
    let mut rest = bytes;
    while !rest.is_empty() {
        let (piece, after) = rest.split_at(cut.min(rest.len()));
        if let Err(error) = push_piece(alloc, reads, piece) {
            reads.truncate(had);
            return Err(error);
        }
        rest = after;
    }
    Ok(())
}

fn push_piece(alloc: Global, reads: &mut Vec<ReadStep>, piece: &[u8]) -> Result<(), AllocError>
    ensures ok { OnOk result (reads.new.items ≡ reads.old.items ++ Give piece.now ∷ []) }
    ensures err { OnErr result (reads.new.items ≡ reads.old.items) }
{
    let bytes = Octets::of(alloc, piece)?;
    reads.push(ReadStep::Give(bytes))?;
    Ok(())
}
