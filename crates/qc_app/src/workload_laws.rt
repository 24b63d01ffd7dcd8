//! Laws of the workload: functions with no code, of which the contract is the law.

ghost use Rattle.qc_app.specs.workload.Law.{PrefixesStand, WorkloadCounts};
ghost use Rattle.qc_app.specs.workload.Texts.{FixedTextsMean};

/// What the texts of the workload without drawn numbers mean.
pub fn texts_mean()
    ensures { FixedTextsMean }
{}

/// On every schedule, and with any options: at each moment after the setup the two tables have the rows that each session's draws so far have made,
/// in the session's range of keys, and no others. So many events are commits, and so many are of selects, as these draws say.
pub fn prefixes_stand()
    ensures { PrefixesStand }
{}

/// On every schedule, and with any options, a report that agrees with the workload's script has the numbers of the workload's summary: its commits,
/// the rows and the sums of its two tables at the end, and its hits and selects.
pub fn workload_counts()
    ensures { WorkloadCounts }
{}
