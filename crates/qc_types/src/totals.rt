/// The state of the cache's memory, as SHOW STATUS tells it.
#[derive(Clone, Copy, Debug, PartialEq, Eq)]
pub struct Totals {
    /// The blocks into which the memory is cut, free ones among them (`Qcache_total_blocks`).
    pub blocks: u32,
    /// The blocks that are free (`Qcache_free_blocks`).
    pub free_blocks: u32,
    /// The words of 8 bytes in the free blocks. `Qcache_free_memory` gives the same in bytes.
    pub free_words: u32,
}
