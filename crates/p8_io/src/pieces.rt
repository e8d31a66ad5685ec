// Pieces that go to a sink one after another.
ghost use Rattle.std.specs.Prelude.{◌≤◌};
ghost use Rattle.std.specs.List.{flat_map};
ghost use Rattle.p8_io.specs.Sinks.{Writes, Wrote};

use crate::sink::{Sink, SinkFailed};

/// Writes the pieces in turn, up to the first write that fails. It takes no memory.
///
/// It answers as one write of all the bytes would: after `Ok` they were appended, and after `SinkFailed`
/// the sink's count of faults rose and a prefix of them was appended. The clause `wrote` says this for
/// callers that let the answer go.
pub fn write_pieces<E: Sink>(sink: &mut E, pieces: &[&[u8]]) -> Result<(), SinkFailed>
    ensures writes { Writes (E.faults sink.old) (E.faults sink.new) (E.taken sink.old) (E.taken sink.new)
        (flat_map (λ piece. piece.now) pieces.now) result }
    ensures wrote { Wrote (E.faults sink.old) (E.faults sink.new) (E.taken sink.old) (E.taken sink.new)
        (flat_map (λ piece. piece.now) pieces.now) }
    ensures later { E.faults sink.old ≤ E.faults sink.new }
{
    for piece in pieces {
        sink.write(piece)?;
    }
    Ok(())
}
