//! A hit goes out while the seat streams its entry.

ghost use Rattle.std.specs.Prelude.{◌≡◌, ◌≤◌, IfErr, OnOk, OnErr};
ghost use Rattle.qc_turn.specs.declared.task.Task.TheVariants as task;
ghost use Rattle.qc_turn.specs.Seats.{IsSeatOf, view};
ghost use Rattle.qc_flow.specs.Streams.{IsStreamOf, left};
ghost use Rattle.qc_serve.specs.Executed.{MayFail};
ghost use Rattle.qc_serve.specs.Sent.{Adds, AreCut, NoneIsEmpty, hit_size};
ghost use Rattle.qc_serve.specs.SentAt.{SendsAt, SendsFrontAt};

use crate::ending::End;
use crate::pieces::put_piece;
use crate::sinks::{Gate, Moment, ReplySink};
use qc_core::Server;
use qc_flow::Stream;
use qc_turn::{Seat, Turn};

/// The bytes of a piece.
const PIECE_LENGTH: usize = 512;

/// Sends what is left of a stream in pieces of 512 bytes, of which the last one may be shorter, and passes the gate between them. The stream goes on then.
pub(crate) fn send_stream<K: ReplySink, G: Gate>(
    turn: &Turn<Server>,
    seat: &mut Seat<Server>,
    stream: &mut Stream,
    session: u8,
    number: u64,
    sink: &mut K,
    gate: &G,
) -> Result<(), End>
    requires seated { IsSeatOf turn.now seat.old }
    requires streams { IsStreamOf stream.old (view seat.old) }
    ensures seated { IsSeatOf turn.now seat.new × (view seat.new ≡ view seat.old) × (seat.new.ranges ≡ seat.old.ranges) }
    ensures same { (stream.new.serial ≡ stream.old.serial) × (stream.new.bytes ≡ stream.old.bytes) }
    ensures sends { OnOk result (SendsAt (task.Stream stream.old.serial) (K.held sink.old) (K.held sink.new) (left stream.old (view seat.old))) }
    ensures front { OnErr result (SendsFrontAt (task.Stream stream.old.serial) (K.held sink.old) (K.held sink.new) (left stream.old (view seat.old))) }
    ensures cut { Adds (K.held sink.old) (K.held sink.new) (AreCut hit_size) }
    ensures some { OnOk result (Adds (K.held sink.old) (K.held sink.new) NoneIsEmpty) }
    ensures cause { IfErr result (MayFail (K.faults sink.old) (K.faults sink.new)) }
    ensures later { K.faults sink.old ≤ K.faults sink.new }
{
    let mut piece = [0; PIECE_LENGTH];
    let mut count = stream.next(turn, seat, &mut piece);
    while count != 0 {
        put_piece(seat, &piece[..count], sink)?;
        count = stream.next(turn, seat, &mut piece);
        if count != 0 {
            gate.pass(seat, session, Moment::Between(number));
        }
    }
    Ok(())
}
