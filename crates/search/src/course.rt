use crate::trail::Trail;
use blocks::block::Block;

pub mod join;

// Where a search stands: its trail, the region that the trail leaves, how many slots are filled,
// and the slot after the one last filled. The filled slots are the front of the area that the caller
// lends, so they are counted here and kept there.
#[derive(Clone, Copy)]
pub struct Course {
    pub trail: Trail,
    pub region: Block,
    pub filled: usize,
    pub next: usize,
}
