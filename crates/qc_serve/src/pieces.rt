//! A piece of a reply goes to a sink.

ghost use Rattle.std.specs.Prelude.{◌≡◌, ◌≤◌, [], ◌∷◌, IfErr, OnOk, OnErr};
ghost use Rattle.qc_turn.specs.Seats.{view};
ghost use Rattle.qc_serve.specs.Executed.{MayFail};
ghost use Rattle.qc_serve.specs.Sent.{Adds, IsPartOf, piece as put_at};

use crate::ending::End;
use crate::sinks::ReplySink;
use qc_core::Server;
use qc_turn::Seat;
use qc_types::PutStep;

/// Puts a piece into a sink. The error is why the session has to end.
pub(crate) fn put_piece<K: ReplySink>(
    seat: &Seat<Server>,
    piece: &[u8],
    sink: &mut K,
) -> Result<(), End>
    ensures puts { OnOk result (Adds (K.held sink.old) (K.held sink.new) (λ more. more ≡ put_at piece.now (view seat.now).task ∷ [])) }
    ensures part { OnErr result (Adds (K.held sink.old) (K.held sink.new) (IsPartOf piece.now (view seat.now).task)) }
    ensures cause { IfErr result (MayFail (K.faults sink.old) (K.faults sink.new)) }
    ensures later { K.faults sink.old ≤ K.faults sink.new }
{
    match sink.put(seat, piece) {
        PutStep::Done => Ok(()),
        PutStep::Failed => Err(End::WriteFault),
        PutStep::Memory => Err(End::Memory),
    }
}
