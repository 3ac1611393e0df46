ghost use Rattle.blocks.specs.Views.{ranges, Resolves};

use crate::block::Block;
use scales::refusal::{Refusal, Stop};

impl Block {
    // This block and another resolved on a setting: the lesser low and the greater high there, the
    // overlap in every other setting. The place is the setting's number. (A zip over `iter_mut` was
    // tried: nothing is known of what is written through it.)
    pub fn resolve(&self, other: &Block, setting: u8) -> Result<Block, Refusal>
        ensures { Resolves setting (ranges self.now) (ranges other.now) result }
    {
        let mut intervals = self.intervals;
        for (i, theirs) in other.intervals.iter().enumerate() {
            let own = self.intervals[i];
            let both = if i == setting as usize {
                own.join(*theirs)
            } else {
                own.meet(*theirs)
            };
            intervals[i] = both.ok_or(Refusal::of(Stop::NotResolvable))?;
        }
        Ok(Block { intervals })
    }
}
