//! FNV-1a of 64 bits, a hash that is quick on short texts. It withstands no one who looks for texts of the same hash.

ghost use Rattle.std.specs.Prelude.{◌≡◌};
ghost use Rattle.std.specs.List.{fold};
ghost use Rattle.qc_key.specs.Hash as meant;
ghost use Rattle.qc_key.specs.Hash.{hash_with, table_bytes};

use qc_types::TableName;

/// The hash of no bytes.
const OFFSET_BASIS: u64 = 14695981039346656037;

/// What the hash is multiplied by at each byte.
const PRIME: u64 = 1099511628211;

/// The hash of bytes, by FNV-1a of 64 bits. Linear in their number.
pub fn hash(bytes: &[u8]) -> u64
    ensures { result ≡ meant.hash bytes.now }
{
    hash_from(OFFSET_BASIS, bytes)
}

/// The hash of a table's database name, a byte 0 and the table's name, one after another. Linear in the bytes of both names, of which no copy is
/// made.
pub fn table_hash(table: &TableName) -> u64
    ensures { result ≡ meant.hash (table_bytes table.now) }
{
    let db = hash_from(OFFSET_BASIS, table.db.bytes());
    hash_from(with_byte(db, 0), table.name.bytes())
}

/// The hash of bytes behind others, of whose hash this goes on.
fn hash_from(before: u64, bytes: &[u8]) -> u64
    ensures { result ≡ fold hash_with before bytes.now }
{
    bytes
        .iter()
        .fold(before, |hash, byte| with_byte(hash, *byte))
}

/// The hash with one byte more.
fn with_byte(before: u64, byte: u8) -> u64
    ensures { result ≡ hash_with before byte }
{
    (before ^ u64::from(byte)).wrapping_mul(PRIME)
}
