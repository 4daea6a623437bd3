use crate::sizes::{Extent, Sizes};
use doc_text::Posts;

/// What the values of a document say that keep to their limits. The words of memory are those that are written.
#[derive(Drop)]
pub(crate) struct Said {
    pub(crate) extent: Extent,
    pub(crate) sizes: Sizes,
    pub(crate) controllers: Vec<u8>,
    pub(crate) words: Vec<u32>,
    pub(crate) core_tiles: Vec<u8>,
    pub(crate) posts: Posts,
}
