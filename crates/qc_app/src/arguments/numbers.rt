//! Numbers of the command line.

ghost use Rattle.std.specs.Prelude.{◌≡◌};
ghost use Rattle.std.specs.List.{list_all};
ghost use Rattle.std.specs.Char.{is_ascii_digit};
ghost use Rattle.qc_app.specs.Arguments as meant;

/// The most digits of a number.
const MOST_DIGITS: usize = 10;

/// The number that 1 to 10 ASCII digits write, where it lies from `low` to `high`. Linear in their number.
pub(crate) fn number_in(low: u32, high: u32, text: &str) -> Option<u32>
    ensures { result ≡ meant.number_in low high text.now }
{
    if text.len() > MOST_DIGITS || !all_digits(text.as_bytes()) {
        return None;
    }
    match text.parse::<u32>() {
        Ok(number) if low <= number && number <= high => Some(number),
        Ok(_) => None,
        Err(_) => None,
    }
}

/// Whether each byte is an ASCII digit.
fn all_digits(bytes: &[u8]) -> bool
    ensures { result ≡ list_all is_ascii_digit bytes.now }
{
    bytes.iter().all(|byte| byte.is_ascii_digit())
}
