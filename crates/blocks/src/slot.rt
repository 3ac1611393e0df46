use crate::block::Block;

// A place in a work area for one block: empty, or filled with it.
pub type Slot = Option<Block>;
