//! Keys: a byte with the length of the database name, the name, 15 bytes of flags, and the text to the end.

ghost use Rattle.std.specs.Prelude.{◌≡◌, ◌<◌, ◌^◌, ◌++◌, Bool, List, [], ◌∷◌, ℕ, length, IfOk, OnOk, IfSome, IsTrue, Some};
ghost use Rattle.std.specs.Int.{w16, w64, to_le_bytes};
ghost use Rattle.qc_sql.specs.Keys as meant;
ghost use Rattle.qc_sql.specs.declared.session.Flags.{Flags};
ghost use Rattle.qc_key.specs.Keyed.{IsKeyOf, read_as};

use byteorder::{ByteOrder, LittleEndian};
use qc_sql::session::Flags;
use qc_types::{NoMemory, Text};
use std::alloc::{AllocError, Global};

/// The most bytes of a database name.
const MOST_NAME: usize = 64;

/// The bytes of flags.
const FLAG_BYTES: usize = 15;

/// What a key is made of: the flags of a session, and its database name and the text of its statement, borrowed from the key.
#[derive(Clone, Copy, Debug, PartialEq, Eq)]
pub struct KeyParts<'a> {
    /// The flags of the session.
    pub flags: Flags,
    /// The name of its current database, at most 64 bytes. It is empty where there is none.
    pub db: &'a [u8],
    /// The text of the statement, as it stands in the key.
    pub text: &'a [u8],
}

/// Whether these flags and this database name can stand in a key: the name has at most 64 bytes, the character set is 33 (`utf8`) or 45
/// (`utf8mb4`), and both forms of the reply are 0. Constant time.
pub fn can_be_keyed(flags: &Flags, db: &[u8]) -> bool
    ensures { result ≡ meant.can_be_keyed flags.now db.now }
{
    db.len() <= MOST_NAME
        && (flags.charset == 33 || flags.charset == 45)
        && flags.protocol_form == 0
        && flags.row_form == 0
}

/// The key of a statement's text in a session of these flags, whose current database has this name. The name is empty where there is none.
///
/// MySQL's query cache gives a stored result only to a statement of exactly the same text, in the same default database, with the same protocol
/// version, the same default character set and the same other flags. So all of these are in the key. Whether they can be, `can_be_keyed` says.
/// Linear in the bytes.
pub fn key_bytes(alloc: Global, flags: &Flags, db: &[u8], text: &[u8]) -> Result<Text, NoMemory>
    requires { IsTrue (meant.can_be_keyed flags.now db.now) }
    ensures { IfOk result (λ key. key ≡ meant.key_bytes flags.now db.now text.now) }
{
    let mut key = Vec::with_capacity(alloc, 1 + db.len() + FLAG_BYTES + text.len())?;
    key.push(db.len() as u8)?;
    key.extend_from_slice(db)?;
    push_flags(&mut key, flags)?;
    key.extend_from_slice(text)?;
    Ok(Text::from_vec(key))
}

/// The flags, the database name and the text of which these bytes are the key, or None where there are none. The cost is constant, and nothing
/// is copied.
pub fn read_key(key: &[u8]) -> Option<KeyParts<'_>>
    ensures found { IfSome result (λ parts. IsKeyOf parts.flags parts.db.now parts.text.now key.now) }
    ensures only { (flags : Flags) (db text : List ℕ) → IsKeyOf flags db text key.now → read_as result ≡ Some (flags, db, text) }
{
    let (length, rest) = key.split_first()?;
    let (db, rest) = rest.split_at_checked(usize::from(*length))?;
    let (flags, text) = rest.split_at_checked(FLAG_BYTES)?;
    let flags = read_flags(flags)?;
    if !can_be_keyed(&flags, db) {
        return None;
    }
    Some(KeyParts { flags, db, text })
}

/// Appends the bytes of flags.
fn push_flags(key: &mut Vec<u8>, flags: &Flags) -> Result<(), AllocError>
    ensures { OnOk result (key.new.items ≡ key.old.items ++ meant.flag_bytes flags.now) }
{
    key.push(switch_byte(flags.in_trans))?;
    key.push(switch_byte(flags.autocommit))?;
    push_u16(key, flags.charset)?;
    push_last_flags(key, flags)
}

/// Appends the bytes of the flags behind the character set.
fn push_last_flags(key: &mut Vec<u8>, flags: &Flags) -> Result<(), AllocError>
    ensures { OnOk result (key.new.items ≡ key.old.items ++ meant.flag_byte flags.now.ansi ∷ (to_le_bytes w64 flags.now.row_limit ++ flags.now.protocol_form ∷ flags.now.row_form ∷ [])) }
{
    key.push(switch_byte(flags.ansi))?;
    push_u64(key, flags.row_limit)?;
    key.extend_from_slice(&[flags.protocol_form, flags.row_form])
}

/// Appends a number in two bytes, the lowest first.
fn push_u16(key: &mut Vec<u8>, n: u16) -> Result<(), AllocError>
    ensures { OnOk result (key.new.items ≡ key.old.items ++ to_le_bytes w16 n) }
{
    let mut bytes = [0; 2];
    LittleEndian::write_u16(&mut bytes, n);
    key.extend_from_slice(&bytes)
}

/// Appends a number in eight bytes, the lowest first.
fn push_u64(key: &mut Vec<u8>, n: u64) -> Result<(), AllocError>
    ensures { OnOk result (key.new.items ≡ key.old.items ++ to_le_bytes w64 n) }
{
    let mut bytes = [0; 8];
    LittleEndian::write_u64(&mut bytes, n);
    key.extend_from_slice(&bytes)
}

/// The flags of which these are the bytes, whatever their character set and their forms, or None where a byte of a switch is neither 0 nor 1.
fn read_flags(bytes: &[u8]) -> Option<Flags>
    requires { length bytes.now ≡ 15 }
    ensures found { IfSome result (λ flags. (meant.flag_bytes flags ≡ bytes.now) × (flags.row_limit < 2 ^ 64)) }
    ensures only { (flags : Flags) → flags.charset < 2 ^ 16 → flags.row_limit < 2 ^ 64 → meant.flag_bytes flags ≡ bytes.now → result ≡ Some flags }
{
    Some(Flags {
        in_trans: read_switch(bytes[0])?,
        autocommit: read_switch(bytes[1])?,
        charset: LittleEndian::read_u16(&bytes[2..4]),
        ansi: read_switch(bytes[4])?,
        row_limit: LittleEndian::read_u64(&bytes[5..13]),
        protocol_form: bytes[13],
        row_form: bytes[14],
    })
}

/// The byte of a switch: 1 where it is on.
fn switch_byte(on: bool) -> u8
    ensures { result ≡ meant.flag_byte on }
{
    u8::from(on)
}

/// What a switch of this byte says, or None where it is neither 0 nor 1.
fn read_switch(byte: u8) -> Option<bool>
    ensures found { IfSome result (λ on. meant.flag_byte on ≡ byte) }
    ensures only { (on : Bool) → meant.flag_byte on ≡ byte → result ≡ Some on }
{
    match byte {
        0 => Some(false),
        1 => Some(true),
        _ => None,
    }
}
