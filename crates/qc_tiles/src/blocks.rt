//! What the calls on blocks take and answer. All numbers count words of 8 bytes.

ghost use Rattle.std.specs.Prelude.{◌≡◌, false};
ghost use Rattle.qc_tiles.specs.Tiles.{block_of, free_tile, tile};

/// The fewest words that a block has.
pub const LEAST_WORDS: u32 = 64;

/// Words of the region that stand together.
#[derive(Clone, Copy, Debug, PartialEq, Eq)]
pub struct Block {
    /// The place of its first word, from 0.
    pub first: u32,
    /// How many words it has, 64 or more.
    pub words: u32,
}

/// A block with its state, as the list of all blocks holds it.
#[derive(Clone, Copy, Debug, PartialEq, Eq)]
pub struct Tile {
    /// The place of its first word, from 0.
    pub first: u32,
    /// How many words it has, 64 or more.
    pub words: u32,
    /// Whether it is free. Otherwise it is handed out.
    pub free: bool,
    /// Whether it has to stay where it is. A free block is never pinned.
    pub pinned: bool,
}

/// No free block is large enough.
#[derive(Clone, Copy, Debug, PartialEq, Eq)]
pub struct NoTile {
    /// The words that were asked for, raised to 64 where they were fewer.
    pub need: u32,
    /// The words of the largest free block, or 0 where there is none.
    pub largest: u32,
}

/// A block that went to a lower place. Its words are to be copied there in rising order, since the places may overlap.
#[derive(Clone, Copy, Debug, PartialEq, Eq)]
pub struct Move {
    /// The place where its first word was.
    pub from: u32,
    /// The place where its first word is now.
    pub to: u32,
    /// How many words it has.
    pub words: u32,
}

/// A free block.
pub(crate) fn free_tile(first: u32, words: u32) -> Tile
    ensures { result ≡ free_tile first words }
{
    Tile {
        first,
        words,
        free: true,
        pinned: false,
    }
}

/// A block that is handed out.
pub(crate) fn used_tile(block: Block, pinned: bool) -> Tile
    ensures { result ≡ tile block.first block.words false pinned }
{
    Tile {
        first: block.first,
        words: block.words,
        free: false,
        pinned,
    }
}

/// A block without its state.
pub(crate) fn block_of(tile: Tile) -> Block
    ensures { result ≡ block_of tile }
{
    Block {
        first: tile.first,
        words: tile.words,
    }
}
