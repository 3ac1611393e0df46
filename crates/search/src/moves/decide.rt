ghost use Rattle.std.specs.Prelude.{◌<◌, length};
ghost use Rattle.blocks.specs.Views.{ranges};
ghost use Rattle.rows.specs.Items.{items};
ghost use Rattle.search.specs.Courses.{Undecided, DecidedOn};

use crate::course::Course;
use blocks::block::Block;
use blocks::bound::Bound;

impl Course {
    // The first open bound of a block joins the trail as decided.
    pub(super) fn decide(&mut self, block: &Block)
        requires { (length (items self.old.trail.entries) < 192) × Undecided (ranges block.now) (ranges self.old.region) }
        ensures { DecidedOn (ranges block.now) self.old self.new }
    {
        let bound = block.first_open(&self.region).unwrap();
        self.join(Bound::from(bound), None);
    }
}
