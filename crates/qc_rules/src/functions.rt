//! The functions whose answer is not of the tables alone.

ghost use Rattle.std.specs.Prelude.{◌≡◌, [], ◌∷◌, option_map};
ghost use Rattle.qc_sql.specs.Rules.{in_capitals};
ghost use Rattle.qc_rules.specs.Functions.{first_name};

use qc_lex::named_in;
use qc_parse::uncached_call;

/// The functions that keep a SELECT out of the cache with one argument: without a second one, the salt is a random one.
static UNCACHED_WITH_ONE: [&str; 1] = ["ENCRYPT"];

/// Those that do without arguments: they tell the present moment.
static UNCACHED_WITH_NONE: [&str; 1] = ["UNIX_TIMESTAMP"];

/// The name, in capitals, of the function that is called by this word in any case and with so many arguments, where it keeps a SELECT out of the
/// cache. At most 32 comparisons of words.
pub fn uncached_function(word: &[u8], arguments: usize) -> Option<&'static str>
    ensures { option_map (λ name. name.now) result ≡ first_name ((in_capitals word.now, arguments) ∷ []) }
{
    if let Some(name) = uncached_call(word) {
        return Some(name);
    }
    match arguments {
        0 => named_in(word, &UNCACHED_WITH_NONE),
        1 => named_in(word, &UNCACHED_WITH_ONE),
        _ => None,
    }
}
