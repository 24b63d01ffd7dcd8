//! Words that mean something.

ghost use Rattle.std.specs.Prelude.{◌≡◌, find, option_map};
ghost use Rattle.qc_sql.specs.Rules.{same_word, uncached_words};
ghost use Rattle.qc_sql.specs.Reading.{is_reserved};
ghost use Rattle.qc_sql.specs.Grammar.{is_aggregate_word, is_plain_call, is_uncached_call, is_known_call, is_unsupported};

use qc_lex::{is_one_of, named_in};

/// The words that are no names, in any case.
static RESERVED: [&str; 50] = [
    "SELECT",
    "SQL_CACHE",
    "SQL_NO_CACHE",
    "FROM",
    "WHERE",
    "ORDER",
    "BY",
    "LIMIT",
    "OFFSET",
    "AS",
    "AND",
    "OR",
    "NOT",
    "IS",
    "NULL",
    "IN",
    "BETWEEN",
    "ASC",
    "DESC",
    "FOR",
    "LOCK",
    "JOIN",
    "INNER",
    "LEFT",
    "RIGHT",
    "CROSS",
    "NATURAL",
    "ON",
    "INSERT",
    "INTO",
    "VALUES",
    "UPDATE",
    "SET",
    "DELETE",
    "TRUNCATE",
    "CREATE",
    "DROP",
    "TABLE",
    "DATABASE",
    "PRIMARY",
    "KEY",
    "UNION",
    "GROUP",
    "HAVING",
    "DISTINCT",
    "EXISTS",
    "LIKE",
    "ALTER",
    "USE",
    "SHOW",
];

/// Whether a word is one that can be no name unless it is quoted, in any case. At most fifty comparisons of words.
#[tactic(auto, unfolding(qc_sql::specs::Reading::is_reserved))]
pub fn is_reserved(word: &[u8]) -> bool
    ensures { result ≡ is_reserved word.now }
{
    is_one_of(word, &RESERVED)
}

/// The aggregates' words.
static AGGREGATES: [&str; 4] = ["COUNT", "SUM", "MIN", "MAX"];

/// The words of other calls, which don't keep a SELECT out of the cache, or only with some arguments.
static PLAIN_CALLS: [&str; 4] = ["LENGTH", "CONCAT", "ENCRYPT", "UNIX_TIMESTAMP"];

/// The words of the calls that keep a SELECT out of the cache, whatever their arguments.
static UNCACHED_CALLS: [&str; 30] = [
    "AES_DECRYPT",
    "AES_ENCRYPT",
    "BENCHMARK",
    "CONNECTION_ID",
    "CONVERT_TZ",
    "CURDATE",
    "CURRENT_DATE",
    "CURRENT_TIME",
    "CURRENT_TIMESTAMP",
    "CURRENT_USER",
    "CURTIME",
    "DATABASE",
    "FOUND_ROWS",
    "GET_LOCK",
    "IS_FREE_LOCK",
    "IS_USED_LOCK",
    "LAST_INSERT_ID",
    "LOAD_FILE",
    "MASTER_POS_WAIT",
    "NOW",
    "PASSWORD",
    "RAND",
    "RANDOM_BYTES",
    "RELEASE_ALL_LOCKS",
    "RELEASE_LOCK",
    "SLEEP",
    "SYSDATE",
    "USER",
    "UUID",
    "UUID_SHORT",
];

/// Whether a word is an aggregate's, in any case.
#[tactic(auto, unfolding(qc_sql::specs::Grammar::is_aggregate_word))]
pub fn is_aggregate(word: &[u8]) -> bool
    ensures { result ≡ is_aggregate_word word.now }
{
    is_one_of(word, &AGGREGATES)
}

#[tactic(auto, unfolding(qc_sql::specs::Grammar::is_plain_call))]
fn is_plain_call(word: &[u8]) -> bool
    ensures { result ≡ is_plain_call word.now }
{
    is_one_of(word, &PLAIN_CALLS)
}

#[tactic(auto, unfolding(qc_sql::specs::Grammar::is_uncached_call))]
fn is_uncached_call(word: &[u8]) -> bool
    ensures { result ≡ is_uncached_call word.now }
{
    is_one_of(word, &UNCACHED_CALLS)
}

/// The name, in capitals, of the call with this word in any case, where it keeps a SELECT out of the cache whatever its arguments. At most 30
/// comparisons of words.
pub fn uncached_call(word: &[u8]) -> Option<&'static str>
    ensures { option_map (λ name. name.now) result ≡ find (same_word word.now) uncached_words }
{
    named_in(word, &UNCACHED_CALLS)
}

/// Whether a word is that of a call that is read, in any case. At most 38 comparisons of words.
pub fn is_known_call(word: &[u8]) -> bool
    ensures { result ≡ is_known_call word.now }
{
    is_aggregate(word) || is_plain_call(word) || is_uncached_call(word)
}

/// The words that aren't supported, wherever nothing goes on with them.
static UNSUPPORTED: [&str; 17] = [
    "UNION",
    "GROUP",
    "HAVING",
    "DISTINCT",
    "EXISTS",
    "LEFT",
    "RIGHT",
    "CROSS",
    "NATURAL",
    "ALTER",
    "AUTO_INCREMENT",
    "DEFAULT",
    "PREPARE",
    "EXECUTE",
    "CALL",
    "UNLOCK",
    "REPLACE",
];

/// Whether a word isn't supported wherever nothing goes on with it, in any case.
#[tactic(auto, unfolding(qc_sql::specs::Grammar::is_unsupported))]
pub fn is_unsupported(word: &[u8]) -> bool
    ensures { result ≡ is_unsupported word.now }
{
    is_one_of(word, &UNSUPPORTED)
}
