//! Rows at the end of columns.

ghost use Rattle.std.specs.Prelude.{◌≡◌, OnOk};
ghost use Rattle.qc_table.specs.Puts.{values_at};
ghost use Rattle.qc_table.specs.Stored.{and_more, AreMade, HaveRoom, TakeRows};

use crate::cells::Cells;
use crate::puts::Puts;
use qc_types::NoMemory;

/// Makes room for rows. Linear in what they hold over many calls.
pub(crate) fn reserve_rows(cells: &mut Vec<Cells>, puts: &Puts<'_>) -> Result<(), NoMemory>
    requires { TakeRows puts.now.rows cells.old.items }
    ensures same { AreMade (λ j vs. vs) cells.old.items cells.new.items }
    ensures room { OnOk result (HaveRoom puts.now.rows cells.new.items) }
{
    for index in 0..cells.len() {
        cells[index].reserve(puts, index)?;
    }
    Ok(())
}

/// Puts rows at the end, for which there is room. Linear in what they hold.
pub(crate) fn push_rows(cells: &mut Vec<Cells>, puts: &Puts<'_>)
    requires takes { TakeRows puts.now.rows cells.old.items }
    requires room { HaveRoom puts.now.rows cells.old.items }
    ensures { AreMade (λ j. and_more (values_at j puts.now.rows)) cells.old.items cells.new.items }
{
    for index in 0..cells.len() {
        cells[index].push_all(puts, index);
    }
}
