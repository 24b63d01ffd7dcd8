//! When the cache is asked.

ghost use Rattle.std.specs.Prelude.{◌≡◌};
ghost use Rattle.qc_sql.specs.Rules.{asks};

use qc_sql::session::Asked;
use qc_sql::statements::Head;

/// Whether a text with this head asks the cache, under this cache type of the session: type 0 never does, type 1 always but after SQL_NO_CACHE, and
/// type 2, as any above it, only after SQL_CACHE. Whether the cache has memory isn't looked at.
pub fn asks(head: Head, kind: u8) -> Asked
    ensures { result ≡ asks head kind }
{
    match kind {
        0 => Asked::Off,
        1 => match head {
            Head::NoCache => Asked::No,
            _ => Asked::Yes,
        },
        _ => match head {
            Head::Cache => Asked::Yes,
            _ => Asked::No,
        },
    }
}
