ghost use Rattle.search.specs.Moves.{GoingIn, MovedOn, SameWithin};

use crate::moves::{Ended, Search};
use crate::scan::Scan;
use blocks::bound::Bound;
use blocks::sink::Sink;

impl<K: Sink> Search<'_, '_, '_, K> {
    // One step of the search, or its end.
    pub(crate) fn step(&mut self) -> Option<Ended>
        requires { GoingIn self.old }
        ensures moved { MovedOn K.step K.model self.old result self.new }
        ensures kept { SameWithin K.lent self.old self.new }
    {
        match self.blocks().scan(&self.course.region) {
            Scan::Broken(number) => self.conflict(number),
            Scan::Forcing(number, bound) => {
                self.course.join(Bound::from(bound), Some(number));
                None
            }
            Scan::Quiet(Some(number)) => {
                let block = self.blocks().at(number).unwrap();
                self.course.decide(&block);
                None
            }
            Scan::Quiet(None) => Some(Ended::Found(self.course.region)),
        }
    }
}
