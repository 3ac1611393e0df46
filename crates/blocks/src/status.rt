// What a block is in a region.
#[derive(Clone, Copy, PartialEq, Eq, Debug)]
pub enum Status {
    // a bound of the block is true: no profile of the region is in the block
    Dead,
    // all its bounds are false: every profile of the region is in the block
    Broken,
    // one bound is open and the others are false: the setting, the side and the position, told as the
    // project wants a bound told
    Forcing((u8, u8, u32)),
    // none of these
    Open,
}
