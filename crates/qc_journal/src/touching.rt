//! Which tables an operation and an event touch.

ghost use Rattle.std.specs.Prelude.{◌≡◌};
ghost use Rattle.std.specs.List.{list_any};
ghost use Rattle.qc_sql.specs.Database as database;
ghost use Rattle.qc_model.specs.Journal as journal;

use qc_model::events::Event;
use qc_sql::names::is_same_table;
use qc_sql::tables::RowOp;
use qc_types::TableName;

/// Whether an operation touches a table: it puts into it, deletes from it, creates or drops it, or drops its database.
fn touches(table: &TableName, op: &RowOp) -> bool
    ensures { result ≡ database.touches table.now op.now }
{
    match op {
        RowOp::Put(other, _) => is_same_table(table, other),
        RowOp::Del(other, _) => is_same_table(table, other),
        RowOp::CreateTable(other, _) => is_same_table(table, other),
        RowOp::DropTable(other) => is_same_table(table, other),
        RowOp::CreateDb(_) => false,
        RowOp::DropDb(name) => table.db.bytes() == name.bytes(),
    }
}

/// Whether one of the operations touches a table. Linear in their number.
pub fn any_touches(table: &TableName, ops: &[RowOp]) -> bool
    ensures { result ≡ list_any (database.touches table.now) ops.now }
{
    ops.iter().any(|op| touches(table, op))
}

/// Whether an event is a commit that touches a table. Linear in the commit's operations.
pub(crate) fn touches_table(table: &TableName, event: &Event) -> bool
    ensures { result ≡ journal.touches_table table.now event.now }
{
    match event {
        Event::Commit { who: _, ops } => any_touches(table, ops.items()),
        _ => false,
    }
}
