ghost use Rattle.std.specs.Prelude.{◌≡◌, ℕ, ◌<◌, length};
ghost use Rattle.rows.specs.Items.{items};
ghost use Rattle.blocks.specs.Bounds.{Profile, Meets};
ghost use Rattle.blocks.specs.Ranges.{In, end};
ghost use Rattle.blocks.specs.Views.{ranges};
ghost use Rattle.search.specs.Courses.{Joined};

use crate::course::Course;
use crate::trail::{Reason, TrailEntry};
use blocks::block::Block;
use blocks::bound::Bound;

// The end of a region that a bound narrows.
fn end_of(region: &Block, bound: Bound) -> u32
    ensures { result ≡ end bound (ranges region.now) }
{
    match bound {
        Bound::AtMost(setting, _) => region.high(setting),
        Bound::AtLeast(setting, _) => region.low(setting),
    }
}

impl Course {
    // A bound that some profile of the region meets joins the trail and narrows the region.
    pub(crate) fn join(&mut self, bound: Bound, reason: Reason)
        requires { (length (items self.old.trail.entries) < 192) × ((x : Profile) × In (ranges self.old.region) x × Meets x bound) }
        ensures { Joined self.old bound reason self.new }
    {
        let end = end_of(&self.region, bound);
        self.region = self.region.narrow(bound).unwrap();
        let entry = TrailEntry { bound, end, reason };
        self.trail.entries.push(entry).unwrap();
    }
}
