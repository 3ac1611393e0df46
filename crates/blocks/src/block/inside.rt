ghost use Rattle.std.specs.Prelude.{◌≡◌, ◌↔◌, MatchBool};
ghost use Rattle.blocks.specs.Ranges.{Inside, AllIn};
ghost use Rattle.blocks.specs.Views.{ranges};

use crate::block::Block;
use crate::block::interval::Interval;

impl Block {
    // The positions of each setting, the twelfth too.
    fn each(&self) -> &[Interval]
        ensures { result.now ≡ self.now.intervals }
    {
        &self.intervals
    }

    // Whether this block lies inside another.
    pub fn is_inside(&self, other: &Block) -> bool
        ensures answer { MatchBool result (Inside (ranges self.now) (ranges other.now)) (Inside (ranges self.now) (ranges other.now) → ⊥) }
        ensures profiles { Inside (ranges self.now) (ranges other.now) ↔ AllIn (ranges self.now) (ranges other.now) }
    {
        self.each()
            .iter()
            .zip(other.each())
            .all(|(own, others)| own.is_inside(others))
    }
}
