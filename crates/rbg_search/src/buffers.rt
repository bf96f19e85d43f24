//! The buffers that searches leave to later ones.

use crate::flat_pool::FlatPool;
use rbg_flat::Modifiers;
use std::alloc::Global;

/// What searches leave to later ones, so that these take less memory. A search borrows them.
#[derive(Drop)]
pub struct Buffers {
    /// Flat parts that are not in use.
    pub(crate) flats: FlatPool,
    /// Lists of modifiers that are not in use.
    pub(crate) lists: Vec<Modifiers>,
}

impl Buffers {
    /// Buffers that no search has used.
    pub fn new(alloc: Global) -> Buffers {
        Buffers {
            flats: FlatPool::new(alloc),
            lists: Vec::new(alloc),
        }
    }
}
