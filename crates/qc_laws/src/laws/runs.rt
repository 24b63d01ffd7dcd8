//! Laws of runs.

ghost use Rattle.qc_laws.specs.runs.Laws.{OfEach, RunsCompose, AnswersRuns, QuietRuns, RunsEnd, OneAgrees, RunsAgree, PlaceIsNew};
ghost use Rattle.qc_laws.specs.runs.Cuts.{CutsNone, TakesOne, TakesMore, TakesAll};

/// Of the machine of all commands, and of each that takes some of them: a command that was answered is a run, a journal that goes on without the
/// session is one, and runs compose.
pub fn runs()
    ensures one { OfEach AnswersRuns }
    ensures none { OfEach QuietRuns }
    ensures compose { OfEach RunsCompose }
    ensures place { OfEach PlaceIsNew }
{}

/// What the runs of these machines make of the one journal at the end.
pub fn one_agrees()
    ensures lines { OfEach RunsEnd }
    ensures agrees { OfEach OneAgrees }
    ensures whole { OfEach RunsAgree }
{}

/// How an input is taken command by command, up to its end.
pub fn cuts()
    ensures none { CutsNone }
    ensures one { TakesOne }
    ensures more { TakesMore }
    ensures all { TakesAll }
{}
