//! The bits of a mask that are set.

ghost use Rattle.std.specs.Prelude.{◌≡◌, ℕ, ◌+◌, ◌/◌, ◌<◌, ◌≤◌, length, true, false, IfSome, IfNone};
ghost use Rattle.qc_lane.specs.Lanes.{is_set};
ghost use Rattle.qc_lane.specs.SetBits.{AreClear, IsAhead};

/// The bits of a mask that are set, from the lowest on.
#[derive(Drop)]
pub struct SetBits {
    /// The word that is being read, and which one it is.
    word: u64,
    index: usize,
    /// The bits from here on are still to come.
    from: usize,
}

impl SetBits {
    /// All bits of a mask that are set.
    pub fn of(mask: &[u64]) -> SetBits
        ensures ahead { IsAhead mask.now result }
        ensures from { result.from ≡ 0 }
    {
        SetBits {
            word: mask.first().copied().unwrap_or(0),
            index: 0,
            from: 0,
        }
    }

    /// The next bit of this mask that is set, if any. Constant time, beside the words without such bits that it passes.
    pub fn next(&mut self, mask: &[u64]) -> Option<usize>
        requires few { length mask.now ≤ 1048576 }
        requires ahead { IsAhead mask.now self.old }
        ensures ahead { IsAhead mask.now self.new }
        ensures some { IfSome result (λ i. (self.old.from ≤ i) × (is_set mask.now i ≡ true) × AreClear mask.now self.old.from i × (self.new.from ≡ i + 1)) }
        ensures none { IfNone result ((i : ℕ) → self.old.from ≤ i → is_set mask.now i ≡ false) }
    {
        while self.word == 0 {
            if mask.len() - self.index <= 1 {
                return None;
            }
            self.index += 1;
            self.word = mask[self.index];
        }
        let low = self.word.trailing_zeros();
        self.word &= !(1 << low);
        let at = 64 * self.index + low as usize;
        self.from = at + 1;
        Some(at)
    }
}
