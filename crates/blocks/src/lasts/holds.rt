ghost use Rattle.std.specs.Prelude.{MatchBool};
ghost use Rattle.blocks.specs.Views.{ranges, FitToStand};

use crate::block::Block;
use crate::lasts::Lasts;

impl Lasts {
    // Whether a block may stand over these settings: high ≤ last everywhere, and at most four bounds.
    // One pass asks both, which two chains would not.
    pub fn holds(&self, block: &Block) -> bool
        ensures { MatchBool result (FitToStand self.now (ranges block.now)) (FitToStand self.now (ranges block.now) → ⊥) }
    {
        let mut count = 0;
        for (interval, last) in block.intervals.iter().zip(&self.last) {
            if interval.high > *last {
                return false;
            }
            count += interval.sides(*last);
        }
        count <= 4
    }
}
