//! Names of chains, places in the region, and what a chain has.

/// Names a chain.
#[derive(Clone, Copy, Debug, PartialEq, Eq)]
pub struct ChainName {
    /// Its number, from 0.
    pub number: u32,
}

/// A place in the region.
#[derive(Clone, Copy, Debug, PartialEq, Eq)]
pub struct Spot {
    /// The word, by its place in the region.
    pub word: u32,
    /// The byte of that word, from 0 to 7, the least significant first.
    pub byte: u8,
}

/// How much a chain has.
#[derive(Clone, Copy, Debug, PartialEq, Eq)]
pub struct Extent {
    /// How many blocks.
    pub blocks: u32,
    /// The words of its blocks together.
    pub words: u32,
    /// Its byte length.
    pub bytes: u32,
}
