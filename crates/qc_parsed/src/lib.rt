//! SELECTs that were parsed, kept with their texts: one that comes again isn't parsed again.
#![tactic(auto)]

mod parsed_select;
mod parsed_selects;

pub use parsed_select::ParsedSelect;
pub use parsed_selects::ParsedSelects;
