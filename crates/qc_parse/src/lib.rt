//! The parser of MySQL's statements.
#![tactic(auto)]

mod changes;
mod conditions;
mod cursor;
mod definitions;
mod halt;
mod laws;
mod lists;
mod literals;
mod named;
mod names;
mod refusal;
mod select;
mod settings;
mod values;
mod whole;
mod words;

pub use laws::{
    first_tokens_refuse, gaps_do_not_matter, spelled_texts_have_trees, texts_have_one_tree,
    tokens_decide, trees_are_spelled,
};
pub use named::tables;
pub use qc_sql::statements;
pub use refusal::ParseRefusal;
pub use whole::parse;
pub use words::uncached_call;
