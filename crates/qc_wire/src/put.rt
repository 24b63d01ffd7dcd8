//! Packets of replies, which a server sends. A call that lacks memory changes nothing.
//!
//! Each call costs time and memory linear in the packet's bytes. A packet's sequence number is counted modulo 256.

ghost use Rattle.std.specs.Prelude.{◌≡◌, ◌≤◌, ◌++◌, ◌∷◌, [], length, OnOk, OnErr};
ghost use Rattle.std.specs.Int.{w16, to_le_bytes};
ghost use Rattle.qc_sql.specs.Packets.{packet, most_payload, count_payload, column_names, column_sizes, column_payload, eof_payload, ok_payload, err_payload, row_payload};
ghost use Rattle.qc_wire.specs.Cells.{cell_texts, held};

use crate::cells::RowCells;
use crate::encoding::{push_integer, push_low_first, push_string};
use crate::open_packet::OpenPacket;
use qc_sql::cells::{Cell, StoredCell};
use qc_sql::replies::ColumnDef;
use qc_types::{NoMemory, SqlError, Text};
use std::alloc::Global;

/// The first byte of an OK_Packet.
pub(crate) const OK_HEADER: u8 = 0x00;

/// The first byte of an ERR_Packet.
pub(crate) const ERR_HEADER: u8 = 0xff;

/// The first byte of an EOF_Packet.
pub(crate) const EOF_HEADER: u8 = 0xfe;

/// How many bytes of a Protocol::ColumnDefinition41 stand behind the byte that says it.
pub(crate) const SIZES_LENGTH: u8 = 0x0c;

/// Appends the packet that opens a text result set: how many columns it has, from 1 to 64, as a length-encoded integer.
///
/// Where memory runs out, `out` stays as it was.
#[tactic(auto, using(crate::proofs::Lengths::integer_bound))]
pub fn put_count(alloc: Global, count: u16, sequence: u8, out: &mut Text) -> Result<(), NoMemory>
    requires some { 1 ≤ count }
    requires few { count ≤ 64 }
    ensures ok { OnOk result (out.new ≡ out.old ++ packet sequence (count_payload count)) }
    ensures err { OnErr result (out.new ≡ out.old) }
{
    let mut packet = OpenPacket::begin(alloc, out)?;
    let written = push_integer(&mut packet, u64::from(count));
    packet.end(sequence, written, out)
}

/// Appends the packet that defines a column of a text result set (Protocol::ColumnDefinition41), of the catalog "def". Its payload has at
/// most 16,777,214 bytes. The cost is linear in the names, and where memory runs out, `out` stays as it was.
pub fn put_column(
    alloc: Global,
    column: &ColumnDef,
    sequence: u8,
    out: &mut Text,
) -> Result<(), NoMemory>
    requires { length (column_payload column.now) ≤ most_payload }
    ensures ok { OnOk result (out.new ≡ out.old ++ packet sequence (column_payload column.now)) }
    ensures err { OnErr result (out.new ≡ out.old) }
{
    let mut packet = OpenPacket::begin(alloc, out)?;
    let written = push_column(&mut packet, column);
    packet.end(sequence, written, out)
}

/// Appends the packet that ends the columns or the rows of a text result set (EOF_Packet): no warnings, and the server's status flags.
///
/// Where memory runs out, `out` stays as it was.
pub fn put_eof(alloc: Global, status: u16, sequence: u8, out: &mut Text) -> Result<(), NoMemory>
    ensures ok { OnOk result (out.new ≡ out.old ++ packet sequence (eof_payload status)) }
    ensures err { OnErr result (out.new ≡ out.old) }
{
    let mut packet = OpenPacket::begin(alloc, out)?;
    let written = push_eof(&mut packet, status);
    packet.end(sequence, written, out)
}

/// Appends the packet of a statement that succeeded with no rows to show (OK_Packet): how many rows it changed, no id of an inserted row, the
/// server's status flags, and no warnings. Where memory runs out, `out` stays as it was.
#[tactic(auto, using(crate::proofs::Lengths::ok_bound))]
pub fn put_ok(
    alloc: Global,
    affected: u64,
    status: u16,
    sequence: u8,
    out: &mut Text,
) -> Result<(), NoMemory>
    ensures ok { OnOk result (out.new ≡ out.old ++ packet sequence (ok_payload affected status)) }
    ensures err { OnErr result (out.new ≡ out.old) }
{
    let mut packet = OpenPacket::begin(alloc, out)?;
    let written = push_ok(&mut packet, affected, status);
    packet.end(sequence, written, out)
}

/// Appends the packet of an error (ERR_Packet): its code, '#', the five bytes of its SQLSTATE, and its text. Its payload has at most 16,777,214
/// bytes. The cost is linear in the text, and where memory runs out, `out` stays as it was.
pub fn put_err(
    alloc: Global,
    error: &SqlError,
    sequence: u8,
    out: &mut Text,
) -> Result<(), NoMemory>
    requires { length (err_payload error.now) ≤ most_payload }
    ensures ok { OnOk result (out.new ≡ out.old ++ packet sequence (err_payload error.now)) }
    ensures err { OnErr result (out.new ≡ out.old) }
{
    let mut packet = OpenPacket::begin(alloc, out)?;
    let written = push_err(&mut packet, error);
    packet.end(sequence, written, out)
}

/// Appends the packet of a row of a text result set (ProtocolText::ResultsetRow): each cell a length-encoded string, or the byte 0xfb for NULL.
/// Its payload has at most 16,777,214 bytes. The cost is linear in the cells' bytes, and where memory runs out, `out` stays as it was.
pub fn put_row(
    alloc: Global,
    cells: &RowCells,
    sequence: u8,
    out: &mut Text,
) -> Result<(), NoMemory>
    requires { length (row_payload (cell_texts cells.now)) ≤ most_payload }
    ensures ok { OnOk result (out.new ≡ out.old ++ packet sequence (row_payload (cell_texts cells.now))) }
    ensures err { OnErr result (out.new ≡ out.old) }
{
    let mut packet = OpenPacket::begin(alloc, out)?;
    let written = push_row(&mut packet, cells);
    packet.end(sequence, written, out)
}

/// Appends the payload of Protocol::ColumnDefinition41.
fn push_column(packet: &mut OpenPacket, column: &ColumnDef) -> Result<(), NoMemory>
    ensures front { packet.new.front ≡ packet.old.front }
    ensures ok { OnOk result (packet.new.payload ≡ packet.old.payload ++ column_payload column.now) }
{
    push_names(packet, column)?;
    push_sizes(packet, column)
}

/// Appends the catalog, and the names of a column and of its table, each a length-encoded string.
fn push_names(packet: &mut OpenPacket, column: &ColumnDef) -> Result<(), NoMemory>
    ensures front { packet.new.front ≡ packet.old.front }
    ensures ok { OnOk result (packet.new.payload ≡ packet.old.payload ++ column_names column.now) }
{
    push_string(packet, b"def")?;
    push_string(packet, column.schema.bytes())?;
    push_string(packet, column.table.bytes())?;
    push_string(packet, column.org_table.bytes())?;
    push_string(packet, column.name.bytes())?;
    push_string(packet, column.org_name.bytes())
}

/// Appends the fields of fixed sizes behind a column's names.
fn push_sizes(packet: &mut OpenPacket, column: &ColumnDef) -> Result<(), NoMemory>
    ensures front { packet.new.front ≡ packet.old.front }
    ensures ok { OnOk result (packet.new.payload ≡ packet.old.payload ++ column_sizes column.now) }
{
    packet.push(SIZES_LENGTH)?;
    push_low_first(packet, 2, u64::from(column.charset))?;
    push_low_first(packet, 4, u64::from(column.length))?;
    push_type(packet, column)
}

/// Appends a column's type, its flags, its decimals, and the two bytes behind them that mean nothing.
fn push_type(packet: &mut OpenPacket, column: &ColumnDef) -> Result<(), NoMemory>
    ensures front { packet.new.front ≡ packet.old.front }
    ensures ok { OnOk result (packet.new.payload ≡ packet.old.payload ++ column.now.kind ∷ (to_le_bytes w16 column.now.flags ++ column.now.decimals ∷ 0 ∷ 0 ∷ [])) }
{
    packet.push(column.kind)?;
    push_low_first(packet, 2, u64::from(column.flags))?;
    packet.extend(&[column.decimals, 0, 0])
}

/// Appends the payload of an EOF_Packet.
fn push_eof(packet: &mut OpenPacket, status: u16) -> Result<(), NoMemory>
    ensures front { packet.new.front ≡ packet.old.front }
    ensures ok { OnOk result (packet.new.payload ≡ packet.old.payload ++ eof_payload status) }
{
    packet.extend(&[EOF_HEADER, 0, 0])?;
    push_low_first(packet, 2, u64::from(status))
}

/// Appends the payload of an OK_Packet.
fn push_ok(packet: &mut OpenPacket, affected: u64, status: u16) -> Result<(), NoMemory>
    ensures front { packet.new.front ≡ packet.old.front }
    ensures ok { OnOk result (packet.new.payload ≡ packet.old.payload ++ ok_payload affected status) }
{
    packet.push(OK_HEADER)?;
    push_integer(packet, affected)?;
    push_integer(packet, 0)?;
    push_low_first(packet, 2, u64::from(status))?;
    packet.extend(&[0, 0])
}

/// Appends the payload of an ERR_Packet.
fn push_err(packet: &mut OpenPacket, error: &SqlError) -> Result<(), NoMemory>
    ensures front { packet.new.front ≡ packet.old.front }
    ensures ok { OnOk result (packet.new.payload ≡ packet.old.payload ++ err_payload error.now) }
{
    packet.push(ERR_HEADER)?;
    push_low_first(packet, 2, u64::from(error.code))?;
    packet.push(b'#')?;
    packet.extend(&error.state)?;
    packet.extend(error.message.bytes())
}

/// Appends the payload of a row: its cells.
fn push_row(packet: &mut OpenPacket, cells: &RowCells) -> Result<(), NoMemory>
    ensures front { packet.new.front ≡ packet.old.front }
    ensures ok { OnOk result (packet.new.payload ≡ packet.old.payload ++ row_payload (cell_texts cells.now)) }
{
    for cell in cells.items() {
        packet.put_cell(lent(cell))?;
    }
    Ok(())
}

/// A cell of a row, borrowed.
fn lent(cell: &StoredCell) -> Cell<'_>
    ensures { held result ≡ cell.now }
{
    match cell {
        StoredCell::Null => Cell::Null,
        StoredCell::Int(number) => Cell::Int(*number),
        StoredCell::Wide(number) => Cell::Wide(*number),
        StoredCell::Str(text) => Cell::Str(text.bytes()),
    }
}
