//! Entries are filled packet by packet.

ghost use Rattle.std.specs.Prelude.{◌≡◌, ℕ, ◌+◌, ◌*◌, ◌<◌, ◌≤◌, ◌++◌, List, length, nat_lt};
ghost use Rattle.qc_model.specs.Agrees.{is_ended};
ghost use Rattle.qc_sound.specs.Sound.{FitsFill};
ghost use Rattle.qc_chain.specs.Words.{words_of};
ghost use Rattle.qc_turn.specs.declared.task.Task.TheVariants as task;
ghost use Rattle.qc_turn.specs.Seats.{view, IsSeatOf};
ghost use Rattle.qc_turn.specs.Views.{with_content};
ghost use Rattle.qc_turn.specs.Words.{StartsWith};

use crate::endings::{abandon, end_large, end_whole};
use crate::growths::make_room;
use crate::packs::{PIECE, WORDS, pack};
use qc_core::Server;
use qc_turn::{Seat, Turn};
use qc_types::Options;
use std::sync::Wait;

/// The fill of an entry: its serial, the most bytes that a reply may have, how many bytes are stored, and the word in which they end.
#[derive(Drop)]
pub struct Fill {
    serial: u64,
    limit: u32,
    bytes: u32,
    /// The word behind those that are stored whole: its low bytes are the last ones stored.
    last: u64,
}

/// What became of a packet.
#[derive(Clone, Copy, Debug, PartialEq, Eq)]
pub enum FillStep {
    /// It was stored, and the fill goes on.
    More,
    /// The entry had been taken out of the cache, by the event with this number.
    Overtaken(u64),
    /// With it the reply has so many bytes, more than the limit.
    TooLarge(u64),
    /// No free block has the words of a unit, and no entry is left to prune.
    NoRoom {
        /// The words of a unit.
        need: u32,
        /// The words of the largest free block, or 0 where there is none.
        largest: u32,
    },
}

/// How a fill ended.
#[derive(Clone, Copy, Debug, PartialEq, Eq)]
pub enum Ended {
    /// The entry is complete, by the event with this number.
    Done(u64),
    /// The entry had been taken out of the cache, by the event with this number.
    Overtaken(u64),
}

impl Fill {
    ghost use Rattle.qc_flow.specs.Seats.{GoesOn, HasEnded, IsAtRest};
    ghost use Rattle.qc_flow.specs.Fills.{IsFillOf, IsNextPacket, IsWholeAnswer, Puts, Ends, Abandons, is_too_large};

    /// The fill of an entry that was just started, by the options of the server.
    pub fn of(serial: u64, options: &Options) -> Fill
        ensures { (result.serial ≡ serial) × (result.limit ≡ options.now.limit) × (result.bytes ≡ 0) }
    {
        Fill {
            serial,
            limit: options.limit,
            bytes: 0,
            last: 0,
        }
    }

    /// Stores the next packet of the entry's answer, behind those that were stored before. It takes the turn, for which it may wait, only where the blocks
    /// don't hold the packet, or the reply is longer than the limit (`query_cache_limit` in MySQL's "Query Cache Configuration"). After each answer but `More`
    /// the fill has ended, and the seat rests. It takes no memory. Costs the packet's bytes, and what `grow` and `gone` cost under the turn.
    pub fn put<R: Wait>(
        &mut self,
        rt: &R,
        turn: &Turn<Server>,
        seat: &mut Seat<Server>,
        packet: &[u8],
    ) -> FillStep
        requires seated { IsSeatOf turn.now seat.old }
        requires fills { IsFillOf self.old seat.old }
        requires next { IsNextPacket self.old.serial packet.now (view seat.old) }
        ensures seated { IsSeatOf turn.now seat.new × (seat.new.ranges.room ≡ seat.old.ranges.room) }
        ensures goes_on { GoesOn (view seat.old) (view seat.new) }
        ensures large { is_too_large result ≡ nat_lt self.old.limit (self.old.bytes + length packet.now) }
        ensures step { Puts self.old self.new packet.now (view seat.old) seat.new result }
    {
        let total = u64::from(self.bytes) + packet.len() as u64;
        if total > u64::from(self.limit) {
            return end_large(rt, turn, seat, self.serial, total, self.limit);
        }
        let step = make_room(rt, turn, seat, self.serial, total);
        let FillStep::More = step else {
            return step;
        };
        self.store(turn, seat, packet);
        FillStep::More
    }

    /// Ends the fill after the last packet: the entry is complete, unless it was taken out of the cache before. The seat then rests. It takes the turn, for
    /// which it may wait, and no memory. Costs what `done` costs.
    pub fn end<R: Wait>(self, rt: &R, turn: &Turn<Server>, seat: &mut Seat<Server>) -> Ended
        requires seated { IsSeatOf turn.now seat.old }
        requires fills { IsFillOf self seat.old }
        requires whole { IsWholeAnswer self.serial (view seat.old) }
        ensures seated { IsSeatOf turn.now seat.new × (seat.new.ranges.room ≡ seat.old.ranges.room) }
        ensures goes_on { GoesOn (view seat.old) (view seat.new) }
        ensures ended { HasEnded self.serial (view seat.new) }
        ensures ends { Ends self.serial (view seat.new) result }
    {
        end_whole(rt, turn, seat, self.serial, self.bytes)
    }

    /// Gives the fill up, for a session that ends. The seat then rests. It takes the turn, for which it may wait, and no memory. Costs what `gone` costs.
    pub fn abandon<R: Wait>(self, rt: &R, turn: &Turn<Server>, seat: &mut Seat<Server>)
        requires seated { IsSeatOf turn.now seat.old }
        requires fills { (view seat.old).task ≡ task.Fill self.serial }
        ensures seated { IsSeatOf turn.now seat.new × (seat.new.ranges.room ≡ seat.old.ranges.room) }
        ensures goes_on { GoesOn (view seat.old) (view seat.new) }
        ensures rests { IsAtRest (view seat.new) }
        ensures abandons { Abandons self.serial (view seat.new) }
    {
        abandon(rt, turn, seat, self.serial);
    }

    /// Stores bytes that the blocks hold.
    fn store(&mut self, turn: &Turn<Server>, seat: &mut Seat<Server>, bytes: &[u8])
        requires seated { IsSeatOf turn.now seat.old }
        requires fills { IsFillOf self.old seat.old }
        requires few { (self.old.bytes + length bytes.now ≤ self.old.limit) × (self.old.bytes + length bytes.now ≤ 8 * words_of (view seat.old).blocks) }
        requires fits { (front : List ℕ) → StartsWith ((view seat.old).content ++ bytes.now) front → FitsFill (view seat.old).seen self.old.serial front }
        ensures seated { IsSeatOf turn.now seat.new × (seat.new.ranges ≡ seat.old.ranges) }
        ensures view { view seat.new ≡ with_content (view seat.old) ((view seat.old).content ++ bytes.now) }
        ensures fills { IsFillOf self.new seat.new }
        ensures same { (self.new.serial ≡ self.old.serial) × (self.new.limit ≡ self.old.limit) }
    {
        let mut rest = bytes;
        while !rest.is_empty() {
            let (piece, behind) = rest.split_at(rest.len().min(PIECE));
            self.store_piece(turn, seat, piece);
            rest = behind;
        }
    }

    /// The same of at most 504 bytes.
    fn store_piece(&mut self, turn: &Turn<Server>, seat: &mut Seat<Server>, piece: &[u8])
        requires seated { IsSeatOf turn.now seat.old }
        requires fills { IsFillOf self.old seat.old }
        requires piece { (0 < length piece.now) × (length piece.now ≤ 504) }
        requires few { (self.old.bytes + length piece.now ≤ self.old.limit) × (self.old.bytes + length piece.now ≤ 8 * words_of (view seat.old).blocks) }
        requires fits { (front : List ℕ) → StartsWith ((view seat.old).content ++ piece.now) front → FitsFill (view seat.old).seen self.old.serial front }
        ensures seated { IsSeatOf turn.now seat.new × (seat.new.ranges ≡ seat.old.ranges) }
        ensures view { view seat.new ≡ with_content (view seat.old) ((view seat.old).content ++ piece.now) }
        ensures fills { IsFillOf self.new seat.new }
        ensures same { (self.new.serial ≡ self.old.serial) × (self.new.limit ≡ self.old.limit) × (self.new.bytes ≡ self.old.bytes + length piece.now) }
    {
        let front = (self.bytes % 8) as usize;
        let mut words = [0u64; WORDS];
        let last = pack(self.last, front, piece, &mut words);
        let count = (front + piece.len()).div_ceil(8);
        let bytes = self.bytes + piece.len() as u32;
        seat.store_piece(turn, self.bytes / 8, &words[..count], bytes);
        self.bytes = bytes;
        self.last = last;
    }
}
