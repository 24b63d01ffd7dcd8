//! What a SELECT is validated in.

use qc_table::TableVersion;
use qc_types::{OwnedList, TableName, Text};
use std::marker::Model;

/// A table of FROM, under the name by which the statement calls it.
#[derive(Drop)]
pub struct Bound {
    pub called: Text,
    pub name: TableName,
    pub version: TableVersion,
}

impl Model for Bound {
    ghost use Rattle.qc_sql.specs.Rows as meant;

    ghost Value = { meant.Bound };

    ghost view = { λ b. record { called = b.called; name = b.name; table = b.version } };
}

/// The tables of FROM, in their order.
pub type Bounds = OwnedList<Bound>;

/// The tables of FROM, the current database (empty: none), and the session's number.
#[derive(Drop)]
pub struct Scope {
    pub bounds: Bounds,
    pub db: Text,
    pub session: u8,
}

impl Model for Scope {
    ghost use Rattle.qc_sql.specs.Rows as meant;

    ghost Value = { meant.Scope };

    ghost view = { λ s. record { bounds = s.bounds; db = s.db; session = s.session } };
}
