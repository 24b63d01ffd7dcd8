//! What sessions leave that have ended.

ghost use Rattle.std.specs.Prelude.{◌≡◌, map, reverse, IfOk};

use qc_model::reports::SessionReport;
use qc_serve::Receipt;
use qc_types::NoMemory;
use std::alloc::Global;

/// What a session leaves whose input was served to its end.
#[derive(Drop)]
pub(crate) struct Outcome {
    pub(crate) report: SessionReport,
    pub(crate) receipt: Receipt,
}

/// The reports and the receipts of outcomes, of which the last one is the first session's, in the order of the sessions.
pub(crate) fn in_order(
    alloc: Global,
    outcomes: Vec<Outcome>,
) -> Result<(Vec<SessionReport>, Vec<Receipt>), NoMemory>
    ensures reports { IfOk result (λ lists. lists.0.items ≡ map (λ outcome. outcome.report) (reverse outcomes.items)) }
    ensures receipts { IfOk result (λ lists. lists.1.items ≡ map (λ outcome. outcome.receipt) (reverse outcomes.items)) }
{
    let mut outcomes = outcomes;
    let mut reports = Vec::new(alloc);
    let mut receipts = Vec::new(alloc);
    while let Some(Outcome { report, receipt }) = outcomes.pop() {
        reports.push(report)?;
        receipts.push(receipt)?;
    }
    Ok((reports, receipts))
}
