/// What names a block in the cache.
#[derive(Clone, Copy, Debug, PartialEq, Eq, Hash)]
pub struct BlockKey {
    /// The slice.
    pub id: u64,
    /// The block's index in the slice.
    pub index: u32,
}
