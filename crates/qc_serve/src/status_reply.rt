//! The reply of SHOW STATUS.

ghost use Rattle.std.specs.Prelude.{◌≡◌, ◌+◌, ◌<◌, ◌≤◌, [], ◌∷◌, length, IfOk, OnOk};
ghost use Rattle.qc_sql.specs.Packets.{column_payload, packets, row_payload};
ghost use Rattle.qc_model.specs.Machine as machine;
ghost use Rattle.qc_model.specs.Machine.{status_column, status_row};
ghost use Rattle.qc_statements.specs.Answers.{Appends};
ghost use Rattle.qc_serve.specs.StatusReply.{head_of, rows_of};

use qc_model::events::Counters;
use qc_sql::cells::Cell;
use qc_sql::replies::ColumnDef;
use qc_trx::SessionState;
use qc_types::{NoMemory, Text, Totals};
use qc_wire::{RowCells, put_column, put_count, put_eof, put_row};
use std::alloc::Global;

/// The type byte of a text in a result set.
const VAR_STRING: u8 = 0xfd;

/// The packets of SHOW STATUS, in a state, with these counters and totals.
pub(crate) fn status_reply(
    alloc: Global,
    state: &SessionState,
    counters: &Counters,
    totals: &Totals,
) -> Result<Text, NoMemory>
    ensures { IfOk result (λ bytes. bytes ≡ packets (machine.status_reply state.now.state counters.now totals.now)) }
{
    let mut out = Text::of(alloc, &[])?;
    put_head(alloc, state, &mut out)?;
    put_rows(alloc, counters, totals, &mut out)?;
    put_eof(alloc, state.status(), 13, &mut out)?;
    Ok(out)
}

/// What stands in front of the rows.
fn put_head(alloc: Global, state: &SessionState, out: &mut Text) -> Result<(), NoMemory>
    ensures { OnOk result (Appends (head_of state.now.state) 1 out.old 5 out.new) }
{
    put_count(alloc, 2, 1, out)?;
    put_definition(alloc, state, b"Variable_name", 64, 2, out)?;
    put_definition(alloc, state, b"Value", 20, 3, out)?;
    put_eof(alloc, state.status(), 4, out)
}

/// The definition of a column.
fn put_definition(
    alloc: Global,
    state: &SessionState,
    name: &[u8],
    bytes: u32,
    sequence: u8,
    out: &mut Text,
) -> Result<(), NoMemory>
    requires short { length name.now ≤ 64 }
    requires before { sequence < 255 }
    ensures { OnOk result (Appends (column_payload (status_column state.now.state name.now bytes) ∷ []) sequence out.old (sequence + 1) out.new) }
{
    let column = ColumnDef {
        schema: Text::of(alloc, &[])?,
        table: Text::of(alloc, &[])?,
        org_table: Text::of(alloc, &[])?,
        name: Text::of(alloc, name)?,
        org_name: Text::of(alloc, &[])?,
        charset: state.flags().charset,
        length: bytes,
        kind: VAR_STRING,
        flags: 0,
        decimals: 0,
    };
    put_column(alloc, &column, sequence, out)
}

/// The rows.
fn put_rows(
    alloc: Global,
    counters: &Counters,
    totals: &Totals,
    out: &mut Text,
) -> Result<(), NoMemory>
    ensures { OnOk result (Appends (rows_of counters.now totals.now) 5 out.old 13 out.new) }
{
    let free_memory = 8 * u64::from(totals.free_words);
    put_variable(
        alloc,
        b"Qcache_free_blocks",
        u64::from(totals.free_blocks),
        5,
        out,
    )?;
    put_variable(alloc, b"Qcache_free_memory", free_memory, 6, out)?;
    put_variable(alloc, b"Qcache_hits", counters.hits, 7, out)?;
    put_variable(alloc, b"Qcache_inserts", counters.inserts, 8, out)?;
    put_variable(
        alloc,
        b"Qcache_lowmem_prunes",
        counters.lowmem_prunes,
        9,
        out,
    )?;
    put_variable(alloc, b"Qcache_not_cached", counters.not_cached, 10, out)?;
    put_variable(
        alloc,
        b"Qcache_queries_in_cache",
        counters.queries_in_cache,
        11,
        out,
    )?;
    put_variable(
        alloc,
        b"Qcache_total_blocks",
        u64::from(totals.blocks),
        12,
        out,
    )
}

/// The row of a variable.
fn put_variable(
    alloc: Global,
    name: &[u8],
    value: u64,
    sequence: u8,
    out: &mut Text,
) -> Result<(), NoMemory>
    requires short { length name.now ≤ 64 }
    requires before { sequence < 255 }
    ensures { OnOk result (Appends (row_payload (status_row name.now value) ∷ []) sequence out.old (sequence + 1) out.new) }
{
    let mut cells = RowCells::new(alloc);
    cells.push(Cell::Str(name))?;
    cells.push(Cell::Wide(i128::from(value)))?;
    put_row(alloc, &cells, sequence, out)
}
