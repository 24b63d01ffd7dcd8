//! Why a field or a line is none of a report's.

use qc_types::Or;

/// The bytes are not what a report has at their place.
#[derive(Clone, Copy, Debug, PartialEq, Eq)]
pub struct Misspelt;

impl From<Misspelt> for Or<Misspelt> {
    ghost use Rattle.std.specs.Prelude.{◌≡◌};
    ghost use Rattle.qc_types.specs.declared.memory.Or.TheVariants.{Other};

    ghost from_gives = { λ m e. e ≡ Other m };

    fn from(misspelt: Misspelt) -> Or<Misspelt> {
        Or::Other(misspelt)
    }
}
