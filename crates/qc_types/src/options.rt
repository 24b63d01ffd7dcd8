/// The system variables of MySQL's query cache with which the server starts, already rounded.
#[derive(Clone, Copy, Debug, PartialEq, Eq)]
pub struct Options {
    /// Bytes of the cache's memory, a multiple of 1024 from 0 to 67,108,864. At 0 the cache is off (`query_cache_size`).
    pub size: u32,
    /// The most bytes of a reply that is kept, from 0 to 67,108,864 (`query_cache_limit`).
    pub limit: u32,
    /// Bytes of a result block, a multiple of 8 from 512 to 1,048,576 (`query_cache_min_res_unit`).
    pub unit: u32,
    /// The cache type with which sessions begin: 0 off, 1 on, 2 on demand (`query_cache_type`).
    pub kind: u8,
}
