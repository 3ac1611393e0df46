ghost use Rattle.std.specs.Prelude.{◌≡◌, length};

pub mod ends;
pub mod inside;
pub mod interval;
pub mod look;
pub mod resolve;

use crate::block::interval::Interval;

// A block: for each setting the positions from a low to a high one. One that is not declared has
// only position 0.
#[derive(Clone, Copy)]
pub struct Block {
    pub(crate) intervals: [Interval; 12],
    ghost twelve: { length intervals ≡ 12 },
}
