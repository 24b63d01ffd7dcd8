//! What holds of all options that words may ask for.

ghost use Rattle.qc_app.specs.Laws.{AreRoundedOptions};

/// A law, with no code: the options of what words ask for are rounded and in their ranges, so a size that isn't 0 has 1024 bytes at least.
pub fn options_are_rounded()
    ensures { AreRoundedOptions }
{}
