//! Masks: a bit for each value, in words of 64, in each from the lowest on.

ghost use Rattle.std.specs.Prelude.{◌≡◌, ◌≤◌, ◌^◌, ℕ, ◌&&◌, count_ones, length};
ghost use Rattle.std.specs.List.{sum_by};
ghost use Rattle.qc_lane.specs.Lanes.{is_set, masked, words_for, EndsAt};

/// Leaves only the bits that are set in both. Linear in how many words there are.
pub fn mask_and(other: &[u64], out: &mut [u64])
    requires { length other.now ≡ length out.old }
    ensures { (i : ℕ) → is_set out.new i ≡ (is_set other.now i && is_set out.old i) }
{
    for (k, word) in out.iter_mut().enumerate() {
        *word &= other[k];
    }
}

/// How many bits are set. Linear in how many words there are.
pub fn mask_count(mask: &[u64]) -> u64
    requires { length mask.now ≤ 2 ^ 20 }
    ensures bits { result ≡ sum_by count_ones mask.now }
    ensures values { (xs : _) → length mask.now ≡ words_for (length xs) → EndsAt mask.now (length xs) → result ≡ length (masked mask.now xs) }
{
    let mut count = 0;
    for word in mask {
        count += word.count_ones() as u64;
    }
    count
}
