//! Scripts and reports, as texts.
#![tactic(auto)]

mod draft;
mod lines;
mod reading;
mod reports;
mod script;
mod workload_script;

pub use reading::read_report;
pub use reports::report_text;
pub use script::read_script;
pub use workload_script::workload;
