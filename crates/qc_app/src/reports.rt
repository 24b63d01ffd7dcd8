//! The report of a run.

ghost use Rattle.std.specs.Prelude.{◌≡◌, IfOk};
ghost use Rattle.qc_core.specs.Whole.{IsSomewhereSound};
ghost use Rattle.qc_laws.specs.runs.Runs as meant;

use qc_core::Server;
use qc_model::reports::{Report, SessionReport, SessionReports};
use qc_types::{NoMemory, Options};

/// The report of sessions that ran over a server: with its journal once more, and its counters. Linear in the journal.
pub(crate) fn report_of(
    options: Options,
    sessions: Vec<SessionReport>,
    server: &Server,
) -> Result<Report, NoMemory>
    requires { IsSomewhereSound server.now }
    ensures { IfOk result (λ report. report ≡ meant.report_of options sessions.items server.now.journal.events) }
{
    let journal = server.journal().events()?;
    Ok(Report {
        options,
        sessions: SessionReports::from_vec(sessions),
        journal,
        counters: server.counters(),
    })
}
