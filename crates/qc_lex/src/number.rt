//! What digits mean.

ghost use Rattle.std.specs.Prelude.{◌≡◌, ◌+◌, ◌-◌, ◌*◌};
ghost use Rattle.qc_sql.specs.Tokens.{number_from};
ghost use Rattle.qc_lex.specs.Fronts.{below_2_to_64};

/// The number that digits spell, or none where it is 2^64 or more. Linear in their number.
pub fn number_value(digits: &[u8]) -> Option<u64>
    ensures { result ≡ below_2_to_64 (number_from 0 digits.now) }
{
    let mut value: u64 = 0;
    for digit in digits {
        value = with_digit(value, *digit)?;
    }
    Some(value)
}

/// The number with one digit more behind it, or none where that is 2^64 or more.
fn with_digit(value: u64, digit: u8) -> Option<u64>
    ensures { result ≡ below_2_to_64 (10 * value + (digit - 48)) }
{
    let tens = value.checked_mul(10)?;
    tens.checked_add(u64::from(digit.saturating_sub(b'0')))
}
