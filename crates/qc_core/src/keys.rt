//! An entry is found by its key.

ghost use Rattle.std.specs.Prelude.{◌≡◌, true, false, length, find, option_map, IsSome};
ghost use Rattle.qc_model.specs.Cache.{cache};
ghost use Rattle.qc_model.specs.Choice.{has_key};
ghost use Rattle.qc_model.specs.Licence.{words_of_bytes};
ghost use Rattle.qc_turn.specs.Seats.{IsHeld, MayRelease, words};
ghost use Rattle.qc_dir.specs.Directory.{entry_at};
ghost use Rattle.qc_core.specs.Calls.{HasKey, LacksKey};
ghost use Rattle.qc_core.specs.KeySpelling.{spells, is_text, read, IsSame, MayRead};

use crate::server::Server;
use byteorder::{ByteOrder, LittleEndian};
use qc_key::hash;
use qc_tiles::Block;
use qc_turn::Held;

/// Whether the low bytes of a word are these.
fn is_piece(word: u64, piece: &[u8]) -> bool
    ensures { result ≡ spells word piece.now }
{
    if piece.len() == 8 {
        return word == LittleEndian::read_u64(piece);
    }
    let mut left = word;
    for byte in piece {
        if left % 256 != u64::from(*byte) {
            return false;
        }
        left /= 256;
    }
    true
}

/// Whether a block begins with these bytes.
fn is_spelled(held: &mut Held<'_, Server>, block: Block, key: &[u8]) -> bool
    requires held { IsHeld held.old }
    requires read { MayRead held.old block (length key.now) }
    ensures same { IsSame held.old held.new }
    ensures text { result ≡ is_text (read (words held.old) block.first (words_of_bytes (length key.now))) key.now }
{
    let count = key.len().div_ceil(8);
    for index in 0..count {
        let from = 8 * index;
        let to = (from + 8).min(key.len());
        let word = held.load(block.first + index as u32);
        if !is_piece(word, &key[from..to]) {
            return false;
        }
    }
    true
}

/// Whether the entry with a serial has this key.
fn has_key(held: &mut Held<'_, Server>, serial: u64, key: &[u8]) -> bool
    requires stands { MayRelease held.old }
    requires there { IsSome (entry_at serial held.old.value.dir.entries) }
    ensures same { IsSame held.old held.new }
    ensures yes { result ≡ true → HasKey serial key.now held.old.value }
    ensures no { result ≡ false → LacksKey serial key.now held.old.value }
{
    let Some(entry) = held.value().entry(serial) else {
        unreachable!()
    };
    let text = entry.text;
    if entry.text_bytes as usize != key.len() {
        return false;
    }
    is_spelled(held, text, key)
}

/// The serial of the entry with this key, whether it is complete or not.
pub(crate) fn find_entry(held: &mut Held<'_, Server>, key: &[u8]) -> Option<u64>
    requires stands { MayRelease held.old }
    ensures same { IsSame held.old held.new }
    ensures found { result ≡ option_map (λ y. y.serial) (find (has_key key.now) (cache held.old.value.journal.events)) }
{
    let hash = hash(key);
    let _ = held.value().journal().len();
    let mut from = 0;
    while let Some(serial) = held.value().candidate_from(hash, from) {
        if has_key(held, serial, key) {
            return Some(serial);
        }
        from = serial + 1;
    }
    None
}
