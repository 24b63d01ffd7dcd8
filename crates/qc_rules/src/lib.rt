//! Which SELECTs the cache may keep, and when it is asked.
#![tactic(auto)]

mod asked;
mod calls;
mod functions;
mod tables;
mod validate;
mod verdicts;

pub use asked::asks;
pub use qc_sql::session::Asked;
pub use validate::verdict;
pub use verdicts::Verdict;
