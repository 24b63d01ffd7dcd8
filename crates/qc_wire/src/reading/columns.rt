//! Column definitions (Protocol::ColumnDefinition41).

ghost use Rattle.std.specs.Prelude.{◌≡◌};
ghost use Rattle.qc_types.specs.Answers.{Gives};
ghost use Rattle.qc_wire.specs.Reading as field;
ghost use Rattle.qc_wire.specs.Reading.{Is, unread};
ghost use Rattle.qc_wire.specs.Replies as meant;
ghost use Rattle.qc_wire.specs.Replies.{stream_view};

use crate::put::SIZES_LENGTH;
use crate::reading::encoded::{
    byte, constant, constants, integer, number_of_four, number_of_two, string,
};
use crate::reading::fields::Fields;
use crate::reading::packets::{complete, next_payload};
use crate::reading::payload::Stream;
use crate::refusal::WireRefusal;
use qc_sql::replies::{ColumnDef, ColumnDefs};
use qc_types::{Or, Text};
use std::alloc::Global;

/// The names of a column and of its table.
#[derive(Drop)]
pub struct Names {
    pub schema: Text,
    pub table: Text,
    pub org_table: Text,
    pub name: Text,
    pub org_name: Text,
}

/// The fields of fixed sizes behind a column's names.
#[derive(Clone, Copy)]
pub struct Sizes {
    pub charset: u16,
    pub length: u32,
    pub kind: u8,
    pub flags: u16,
    pub decimals: u8,
}

/// So many column definitions, each in a packet.
pub fn columns(
    alloc: Global,
    count: u16,
    stream: Stream<'_>,
) -> Result<(ColumnDefs, Stream<'_>), Or<WireRefusal>>
    ensures { Gives (λ x. (x.0, stream_view x.1)) (λ e. e) result (meant.columns count (stream_view stream.entry)) }
{
    let mut columns = ColumnDefs::new(alloc);
    let mut stream = stream;
    for _ in 0..count {
        let (column, behind) = column_packet(alloc, stream)?;
        columns.push(column)?;
        stream = behind;
    }
    Ok((columns, stream))
}

#[tactic(auto, unfolding(crate::specs::Replies::column_packet))]
fn column_packet(
    alloc: Global,
    stream: Stream<'_>,
) -> Result<(ColumnDef, Stream<'_>), Or<WireRefusal>>
    ensures { Gives (λ x. (x.0, stream_view x.1)) (λ e. e) result (meant.column_packet (stream_view stream.entry)) }
{
    let (payload, stream) = next_payload(stream)?;
    let (column, rest) = column_fields(alloc, payload.fields)?;
    complete(payload, rest)?;
    Ok((column, stream))
}

#[tactic(auto, unfolding(crate::specs::Replies::column_fields))]
fn column_fields(
    alloc: Global,
    fields: Fields<'_>,
) -> Result<(ColumnDef, Fields<'_>), Or<WireRefusal>>
    ensures { Gives (λ x. (x.0, unread x.1)) (λ e. e) result (meant.column_fields (unread fields.entry)) }
{
    let (names, fields) = column_names(alloc, fields)?;
    let (sizes, fields) = column_sizes(fields)?;
    let column = ColumnDef {
        schema: names.schema,
        table: names.table,
        org_table: names.org_table,
        name: names.name,
        org_name: names.org_name,
        charset: sizes.charset,
        length: sizes.length,
        kind: sizes.kind,
        flags: sizes.flags,
        decimals: sizes.decimals,
    };
    Ok((column, fields))
}

#[tactic(auto, unfolding(crate::specs::Replies::column_names))]
fn column_names(alloc: Global, fields: Fields<'_>) -> Result<(Names, Fields<'_>), Or<WireRefusal>>
    ensures { Gives (λ x. (x.0, unread x.1)) (λ e. e) result (meant.column_names (unread fields.entry)) }
{
    let fields = catalog(fields)?;
    let (schema, fields) = text(alloc, fields)?;
    let (table, fields) = text(alloc, fields)?;
    let (org_table, fields) = text(alloc, fields)?;
    let (name, fields) = text(alloc, fields)?;
    let (org_name, fields) = text(alloc, fields)?;
    let names = Names {
        schema,
        table,
        org_table,
        name,
        org_name,
    };
    Ok((names, fields))
}

/// The catalog, which is "def".
#[tactic(auto, unfolding(crate::specs::Replies::catalog))]
fn catalog(fields: Fields<'_>) -> Result<Fields<'_>, WireRefusal>
    ensures { Is unread result (meant.catalog (unread fields.entry)) }
{
    let start = fields.at as u64;
    let (size, fields) = integer(fields)?;
    if size != 3 {
        return Err(WireRefusal::BadByte(start));
    }
    constants(b"def", fields)
}

/// A length-encoded string, copied once.
fn text(alloc: Global, fields: Fields<'_>) -> Result<(Text, Fields<'_>), Or<WireRefusal>>
    ensures { Gives (λ x. (x.0, unread x.1)) (λ e. e) result (field.string (unread fields.entry)) }
{
    let (bytes, fields) = string(fields)?;
    Ok((Text::of(alloc, bytes)?, fields))
}

#[tactic(auto, unfolding(crate::specs::Replies::column_sizes))]
fn column_sizes(fields: Fields<'_>) -> Result<(Sizes, Fields<'_>), WireRefusal>
    ensures { Is (λ x. (x.0, unread x.1)) result (meant.column_sizes (unread fields.entry)) }
{
    let fields = constant(SIZES_LENGTH, fields)?;
    let (charset, fields) = number_of_two(fields)?;
    let (length, fields) = number_of_four(fields)?;
    let (kind, fields) = byte(fields)?;
    let (flags, fields) = number_of_two(fields)?;
    let (decimals, fields) = byte(fields)?;
    let fields = constants(&[0, 0], fields)?;
    let sizes = Sizes {
        charset,
        length,
        kind,
        flags,
        decimals,
    };
    Ok((sizes, fields))
}
