//! The bytes of a key are stored.

ghost use Rattle.std.specs.Prelude.{◌≡◌, ◌<◌, ◌≤◌, length, true};
ghost use Rattle.qc_core.specs.KeySpelling.{spells};
ghost use Rattle.qc_core.specs.KeyText.{MayStore, HasStored};

use crate::server::Server;
use byteorder::{ByteOrder, LittleEndian};
use qc_tiles::Block;
use qc_turn::Held;

/// The word whose low bytes are these, and whose others are 0.
fn word_of(piece: &[u8]) -> u64
    requires { (0 < length piece.now) × (length piece.now ≤ 8) }
    ensures { spells result piece.now ≡ true }
{
    LittleEndian::read_uint(piece, piece.len())
}

/// Stores these bytes at the front of a block, eight in a word, the first one lowest. The block has room for them, and none of its words is in a task of
/// another seat. Linear in the bytes.
pub fn store_text(held: &mut Held<'_, Server>, block: Block, key: &[u8])
    requires { MayStore held.old block (length key.now) }
    ensures { HasStored held.old held.new block key.now }
{
    let count = key.len().div_ceil(8);
    for index in 0..count {
        let from = 8 * index;
        let to = (from + 8).min(key.len());
        held.store(block.first + index as u32, word_of(&key[from..to]));
    }
}
