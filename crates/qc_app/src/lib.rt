//! The program: from the words of the command line and an input to the bytes of a report or of a summary.
#![tactic(auto)]

mod arguments;
mod message;
mod outcomes;
mod reading;
mod reply_buffer;
mod reports;
mod script_run;
mod session_ends;
mod session_input;
mod session_starts;
mod sessions;
mod setup;
mod standard;
mod summary;
mod top;
pub mod workload_laws;

pub use arguments::{Asked, options_are_rounded, read_words};
pub use qc_journal::{Counters, Event, Events, GoneWhy, How, Reason, Who};
pub use qc_model::reports::{
    Ending, Report, ReportLine, ReportLines, Script, ScriptRefusal, SessionReport, SessionReports,
    Word,
};
pub use script_run::{Ran, run_script};
pub use standard::{StdSink, StdSource, StdStream};
pub use top::{Ended, qcache_main};
