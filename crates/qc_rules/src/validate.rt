//! Which SELECTs the cache may keep.

ghost use Rattle.std.specs.Prelude.{◌≡◌, IfOk};
ghost use Rattle.qc_sql.specs.Rules.{why_not};
ghost use Rattle.qc_rules.specs.Verdict.{reason_of};

use crate::calls::first_uncached;
use crate::tables::first_system_table;
use crate::verdicts::Verdict;
use qc_sql::statements::Select;
use qc_types::{NoMemory, Text, Why};
use std::alloc::Global;

/// The verdict on a select where `db` is the current database: the first reason that keeps it out, in the order in which `Why` lists them. Linear in
/// the select; the only error is want of memory.
pub fn verdict(alloc: Global, select: &Select, db: &[u8]) -> Result<Verdict, NoMemory>
    ensures { IfOk result (λ verdict. reason_of verdict ≡ why_not db.now select.now) }
{
    if select.lock {
        return Ok(Verdict::Not(Why::Locking));
    }
    let sources = select.from.items();
    if sources.is_empty() {
        return Ok(Verdict::Not(Why::NoTables));
    }
    if let Some(table) = first_system_table(alloc, sources, db)? {
        return Ok(Verdict::Not(Why::SystemTable(table)));
    }
    match first_uncached(select) {
        Some(name) => {
            let name = Text::of(alloc, name.as_bytes())?;
            Ok(Verdict::Not(Why::Function(name)))
        }
        None => Ok(Verdict::Cacheable),
    }
}
