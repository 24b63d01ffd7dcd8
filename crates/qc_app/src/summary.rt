//! The summary of a workload: numbers that are counted in the report and in the database of its run.

ghost use Rattle.std.specs.Prelude.{◌≡◌, ◌<◌, ◌≤◌, ◌^◌, ◌+ℤ◌, ◌≤ℤ◌, ◌++◌, ◌∷◌, [], length, count_by, neg_ℤ, pos, Some, IfOk, OnOk};
ghost use Rattle.qc_model.specs.Journal.{present};
ghost use Rattle.qc_model.specs.ReportText.{lines};
ghost use Rattle.qc_app.specs.workload.Counts as counts;
ghost use Rattle.qc_app.specs.Summary as meant;
ghost use Rattle.qc_app.specs.Summary.{count_in, count_of, counted_summary, summary_lines, total_of};

use itoa::Buffer;
use qc_model::events::{Counters, Event};
use qc_model::reports::Report;
use qc_sql::tables::Kind;
use qc_table::{Database, TableVersion};
use qc_types::{NoMemory, Steps, TableName, Text};
use std::alloc::Global;
use std::marker::Brand;
use std::sync::ledger::{Blank, Ledger};

/// The commands of a workload: 4 of the setup part, and 2001 of each of the 4 sessions.
const COMMANDS: u128 = 4 + 4 * 2001;

/// The workload's database.
const DATABASE: &[u8] = b"w";

/// How many rows a table has, and the sum of the numbers in its second column.
#[derive(Clone, Copy, Drop)]
pub(crate) struct TableCount {
    pub(crate) rows: u32,
    pub(crate) sum: i128,
}

/// What a summary tells of a run.
#[derive(Clone, Copy, Drop)]
pub(crate) struct Counts {
    /// The commits of its journal.
    pub(crate) commits: usize,
    /// The table `a` of its last database.
    pub(crate) a: TableCount,
    /// The table `b`.
    pub(crate) b: TableCount,
    /// The selects that were answered, from entries of the cache and otherwise.
    pub(crate) selects: u128,
}

/// The six lines of the summary of the workload with this number, whose run has this report and left this database. The error is want of memory. Linear in
/// the journal and in the rows of the two tables.
pub(crate) fn summary_text(
    alloc: Global,
    number: u32,
    report: &Report,
    database: &Database,
) -> Result<Text, NoMemory>
    requires { database.now ≡ present report.now.journal }
    ensures { IfOk result (λ text. text ≡ counted_summary number report.now) }
{
    let counts = Counts {
        commits: commits_in(report.journal.items()),
        a: count_named(alloc, database, b"a")?,
        b: count_named(alloc, database, b"b")?,
        selects: selects_in(report.counters),
    };
    let mut text = Text::of(alloc, &[])?;
    put_lines(number, counts, &mut text)?;
    Ok(text)
}

/// Puts the six lines with these numbers.
fn put_lines(number: u32, counts: Counts, out: &mut Text) -> Result<(), NoMemory>
    ensures { OnOk result (out.new ≡ out.old ++ summary_lines number counts) }
{
    put_count(b"workload", u128::from(number), out)?;
    put_count(b"commands", COMMANDS, out)?;
    put_count(b"commits", counts.commits as u128, out)?;
    put_table(b"a", counts.a, out)?;
    put_table(b"b", counts.b, out)?;
    put_count(b"selects", counts.selects, out)
}

/// Puts a line of a word and a number.
fn put_count(word: &[u8], count: u128, out: &mut Text) -> Result<(), NoMemory>
    ensures { OnOk result (out.new ≡ out.old ++ lines (meant.count_line word.now count ∷ [])) }
{
    out.extend(word)?;
    out.extend(b" ")?;
    out.extend(Buffer::new().format(count).as_bytes())?;
    out.extend(b"\n")
}

/// Puts the line of the table of this name.
fn put_table(name: &[u8], count: TableCount, out: &mut Text) -> Result<(), NoMemory>
    ensures { OnOk result (out.new ≡ out.old ++ lines (meant.table_line name.now count ∷ [])) }
{
    out.extend(b"table ")?;
    out.extend(name)?;
    out.extend(b" rows ")?;
    out.extend(Buffer::new().format(count.rows).as_bytes())?;
    out.extend(b" sum ")?;
    out.extend(Buffer::new().format(count.sum).as_bytes())?;
    out.extend(b"\n")
}

/// How many of the events are commits.
fn commits_in(events: &[Event]) -> usize
    ensures { result ≡ count_by counts.is_commit events.now }
{
    let mut commits = 0;
    for event in events {
        if is_commit(event) {
            commits += 1;
        }
    }
    commits
}

fn is_commit(event: &Event) -> bool
    ensures { result ≡ counts.is_commit event.now }
{
    matches!(event, Event::Commit { .. })
}

/// The selects that were answered, from entries of the cache and otherwise.
fn selects_in(counters: Counters) -> u128
    ensures { result ≡ meant.selects_in counters }
{
    u128::from(counters.hits) + u128::from(counters.com_select)
}

/// The count of the table of this name in the workload's database.
fn count_named(alloc: Global, database: &Database, name: &[u8]) -> Result<TableCount, NoMemory>
    ensures { IfOk result (λ count. count ≡ count_in name.now database.now) }
{
    let table = TableName {
        db: Text::of(alloc, DATABASE)?,
        name: Text::of(alloc, name)?,
    };
    match database.table(&table) {
        Some(version) => Ok(count::<Brand>(version, Blank::new(1))),
        None => Ok(TableCount { rows: 0, sum: 0 }),
    }
}

/// The count of a table. The reads of its rows are counted over the ledger of the blank, and by nobody.
fn count<L: Ledger>(table: &TableVersion, blank: Blank) -> TableCount
    requires name { blank.name ≡ L.name }
    requires parts { blank.parts ≡ L.parts }
    requires one { 0 < blank.parts }
    ensures { result ≡ count_of (Some table.now) }
{
    let mut steps = Steps::<L>::new(blank);
    let rows = table.count();
    TableCount {
        rows,
        sum: sum_in(table, &mut steps),
    }
}

/// The sum of the numbers in a table's second column.
fn sum_in<L: Ledger>(table: &TableVersion, steps: &mut Steps<L>) -> i128
    requires { length table.now.rows ≤ 1048576 }
    ensures { result ≡ meant.sum_in table.now.rows }
{
    let columns = table.columns().items();
    if columns.len() < 2 {
        return 0;
    }
    match columns[1].kind {
        Kind::Int => sum_of(table.column(1, steps).values()),
        Kind::Str(_) => 0,
    }
}

/// The sum of numbers.
fn sum_of(numbers: &[i64]) -> i128
    requires { length numbers.now ≤ 1048576 }
    ensures { result ≡ total_of numbers.now }
{
    let mut sum = 0i128;
    for number in numbers {
        sum = added(sum, *number);
    }
    sum
}

/// A sum with one more number.
fn added(sum: i128, number: i64) -> i128
    requires low { neg_ℤ (pos (2 ^ 83)) ≤ℤ sum }
    requires high { sum ≤ℤ pos (2 ^ 83) }
    ensures { result ≡ number +ℤ sum }
{
    number as i128 + sum
}
