//! Laws over the definitions of `qc_sql` and `qc_model`, by subject: functions with no code, of which the contract is the law.
#![tactic(auto)]

pub mod laws;
