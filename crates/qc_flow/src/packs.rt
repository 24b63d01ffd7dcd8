//! Bytes are packed into words.

ghost use Rattle.std.specs.Prelude.{◌≡◌, ◌+◌, ◌*◌, ◌/◌, ◌%◌, ◌<◌, ◌≤◌, ◌++◌, length, take, drop};
ghost use Rattle.qc_turn.specs.Bytes.{low_bytes, bytes_of};

use byteorder::{ByteOrder, LittleEndian};

/// The most bytes that are packed at once: with those of a word that was begun they stay within the words.
pub(crate) const PIECE: usize = 504;

/// The words that bytes are packed into.
pub(crate) const WORDS: usize = 64;

/// Packs the first bytes of a word, and then these bytes, into words of eight bytes, the first one lowest. Answers the word behind those that are whole.
pub(crate) fn pack(last: u64, front: usize, bytes: &[u8], words: &mut [u64; WORDS]) -> u64
    requires few { (front < 8) × (length bytes.now ≤ 504) }
    ensures words { take (front + length bytes.now) (bytes_of words.new) ≡ low_bytes front last ++ bytes.now }
    ensures last { low_bytes ((front + length bytes.now) % 8) result ≡ drop (8 * ((front + length bytes.now) / 8)) (low_bytes front last ++ bytes.now) }
{
    let end = front + bytes.len();
    let mut packed = [0u8; 8 * WORDS];
    LittleEndian::write_u64(&mut packed, last);
    packed[front..end].copy_from_slice(bytes);
    LittleEndian::read_u64_into(&packed, words);
    words[end / 8]
}
