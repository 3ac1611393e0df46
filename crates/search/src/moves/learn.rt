ghost use Rattle.std.specs.Prelude.{◌≡◌, ◌+◌, ◌<◌};
ghost use Rattle.blocks.specs.Lines.{k_line};
ghost use Rattle.blocks.specs.Problems.{posed};
ghost use Rattle.blocks.specs.Views.{ranges};
ghost use Rattle.search.specs.Moves.{GoingIn, MovedOn, SameWithin, BreaksFirst, Learnt, KeepsOn};

use crate::moves::{Ended, Search};
use blocks::block::Block;
use blocks::bound::Bound;
use blocks::line::Line;
use blocks::line::numbers::BlockNumber;
use blocks::sink::Sink;
use blocks::status::Status;

// The line that keeps the work block in a slot.
fn kept_in(slot: usize) -> Line
    requires { slot < 4096 }
    ensures { result ≡ k_line (100 + slot) }
{
    Line::Keep(BlockNumber::stopping(100 + slot))
}

impl<K: Sink> Search<'_, '_, '_, K> {
    // The work block of an analysis is kept in the first free slot, and its one open bound joins the trail.
    fn keep(&mut self, work: Block) -> Option<Ended>
        requires { Learnt (posed self.old.problem) (ranges work) self.old.course self.old.area.now }
        ensures did { KeepsOn K.step K.model (ranges work) self.old result self.new }
        ensures kept { SameWithin K.lent self.old self.new }
    {
        let slots = self.area.len();
        let Some(slot) = self.course.trail.free_slot(slots, self.course.next) else {
            return Some(Ended::Full);
        };
        self.area[slot] = Some(work);
        self.course.filled = self.course.filled.max(slot + 1);
        self.course.next = slot + 1;
        self.tally.send(self.sink, kept_in(slot));
        let Status::Forcing(bound) = work.status(&self.course.region) else {
            unreachable()
        };
        self.course.join(Bound::from(bound), Some(100 + slot));
        None
    }

    // The block of this number is broken, and the first that is broken or forcing: it is analysed.
    pub(super) fn conflict(&mut self, number: usize) -> Option<Ended>
        requires { GoingIn self.old × BreaksFirst (posed self.old.problem) self.old.course self.old.area.now number }
        ensures moved { MovedOn K.step K.model self.old result self.new }
        ensures kept { SameWithin K.lent self.old self.new }
    {
        let mut work = self.blocks().at(number).unwrap();
        self.tally
            .send(self.sink, Line::Take(BlockNumber::stopping(number)));
        if !self.analyse(&mut work) {
            return Some(Ended::Nothing);
        }
        self.keep(work)
    }
}
