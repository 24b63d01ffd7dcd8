//! Hits go out piece by piece.

ghost use Rattle.std.specs.Prelude.{◌≡◌, ◌+◌, ◌-◌, ◌%◌, ◌<◌, ◌≤◌, min, take};
ghost use Rattle.qc_turn.specs.Seats.{view, IsSeatOf};

use byteorder::{ByteOrder, LittleEndian};
use qc_core::{Hit, Server};
use qc_turn::{Seat, Turn};

/// The bytes of a piece.
const PIECE: u32 = 512;

/// The words of a piece.
const PIECE_WORDS: usize = 64;

/// A hit on its way out: the serial of its entry, its bytes, and how many of them have gone out. Pieces are whole but for the last one.
#[derive(Drop)]
pub struct Stream {
    serial: u64,
    bytes: u32,
    sent: u32,
    ghost within: { sent ≤ bytes },
    ghost pieces: { sent < bytes → sent % 512 ≡ 0 },
}

impl Stream {
    ghost use Rattle.qc_turn.specs.Views.{after_stream};
    ghost use Rattle.qc_flow.specs.Streams.{IsStreamOf, left};

    /// The stream of a hit, of which nothing has gone out.
    pub fn of(hit: Hit) -> Stream
        ensures { (result.serial ≡ hit.serial) × (result.bytes ≡ hit.bytes) × (result.sent ≡ 0) }
    {
        Stream {
            serial: hit.serial,
            bytes: hit.bytes,
            sent: 0,
        }
    }

    /// Writes the next 512 bytes of the entry, as it was at the hit, to the front of `out`, or all that are left where these are fewer, and answers how many
    /// these are: 0 exactly after the last. It loads at most 64 words, doesn't wait for the turn, and takes no memory.
    pub fn next(
        &mut self,
        turn: &Turn<Server>,
        seat: &mut Seat<Server>,
        out: &mut [u8; 512],
    ) -> usize
        requires seated { IsSeatOf turn.now seat.old }
        requires streams { IsStreamOf self.old (view seat.old) }
        ensures seated { IsSeatOf turn.now seat.new × (view seat.new ≡ view seat.old) × (seat.new.ranges ≡ seat.old.ranges) }
        ensures count { result ≡ min 512 (self.old.bytes - self.old.sent) }
        ensures piece { take result out.new ≡ take 512 (left self.old (view seat.old)) }
        ensures sent { (self.new.sent ≡ self.old.sent + result) × (self.new.serial ≡ self.old.serial) × (self.new.bytes ≡ self.old.bytes) }
    {
        let count = (self.bytes - self.sent).min(PIECE);
        if count == 0 {
            return 0;
        }
        let words = count.div_ceil(8) as usize;
        let mut piece = [0u64; PIECE_WORDS];
        seat.load_piece(turn, self.sent / 8, &mut piece[..words]);
        LittleEndian::write_u64_into(&piece[..words], &mut out[..8 * words]);
        self.sent += count;
        count as usize
    }

    /// Ends the stream, whether all has gone out or not: one store of the seat's own task word, after which the seat rests. It doesn't wait for the turn.
    pub fn end(self, turn: &Turn<Server>, seat: &mut Seat<Server>)
        requires seated { IsSeatOf turn.now seat.old }
        requires streams { IsStreamOf self (view seat.old) }
        ensures seated { IsSeatOf turn.now seat.new × (seat.new.ranges ≡ seat.old.ranges) }
        ensures view { view seat.new ≡ after_stream (view seat.old) }
    {
        seat.clear_stream(turn);
    }
}
