ghost use Rattle.std.specs.Prelude.{◌≡◌, ◌≤◌, length, take};

use crate::course::Course;
use crate::numbered::Numbered;
use crate::tally::Tally;
use blocks::block::Block;
use blocks::problem::Problem;
use blocks::slot::Slot;

pub mod decide;
pub mod learn;
pub mod step;

// How a search ends.
#[derive(Clone, Copy)]
pub enum Ended {
    // every block is dead in this region
    Found(Block),
    // the entries ran out
    Nothing,
    // a work block is to be kept, and every slot is a reason
    Full,
}

// A search under way: its problem, its work area, where it stands, and its sink with the tally of the
// lines that were made. The three references may be lent for different times.
// Ghost fields for the filled slots are no plainer: `Kept` says it too, and `step` has to show them anew.
#[derive(Drop)]
pub(crate) struct Search<'p, 'a, 's, K> {
    pub problem: Problem<'p>,
    pub area: &'a mut [Slot],
    pub course: Course,
    pub tally: Tally,
    pub sink: &'s mut K,
}

impl<K> Search<'_, '_, '_, K> {
    // The blocks of the rules and of the filled slots.
    pub(crate) fn blocks(&self) -> Numbered<'_, '_>
        requires { self.now.course.filled ≤ length self.now.area.now }
        ensures rules { result.rules.now ≡ self.now.problem.rules.now }
        ensures filled { result.filled.now ≡ take self.now.course.filled self.now.area.now }
    {
        Numbered {
            rules: self.problem.rules(),
            filled: &self.area[0..self.course.filled],
        }
    }
}
