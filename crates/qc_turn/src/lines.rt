//! Where the table has the words of the region and the task words.

ghost use Rattle.std.specs.Prelude.{◌≡◌};
ghost use Rattle.qc_turn.specs.Words.{region_word, task_word};

/// The words of a line of the processor's cache.
const LINE_WORDS: usize = 8;

/// Where the table has this word of the region.
pub(crate) fn region_index(place: u32) -> usize
    ensures { result ≡ region_word place }
{
    place as usize + LINE_WORDS
}

/// Where the table has the task word of the seat with this number, beside a region of so many words.
pub(crate) fn task_index(words: u32, seat: u32) -> usize
    ensures { result ≡ task_word words seat }
{
    region_index(words) + LINE_WORDS * seat as usize
}
