//! The lexer of MySQL's statements: tokens with their spans, what a token means, trimming, and the head of a text.
#![tactic(auto)]

mod ahead;
mod bytes;
mod content;
mod front;
mod heads;
mod laws;
mod lexer;
mod number;
mod place;
mod quoted;
mod token;
mod trim;
mod word;

pub use ahead::{Ahead, Lexeme};
pub use content::{quoted_name, quoted_text, token_bytes};
pub use heads::head;
pub use laws::tokens_stand_in_order;
pub use lexer::tokens;
pub use number::number_value;
pub use place::Lexer;
pub use qc_sql::statements::Head;
pub use token::{LexRefusal, Token, TokenKind, Tokens};
pub use trim::trimmed;
pub use word::{is_one_of, is_same_word, named_in};
