ghost use Rattle.std.specs.Prelude.{◌≡◌};
ghost use Rattle.std.specs.Borrow.{GName};
ghost use Rattle.blocks.specs.Sinks.{result_of, next_of};
ghost use Rattle.checker.specs.Courts.{Court, court_of};
ghost use Rattle.checker.specs.Hearing.{JustTakes};
ghost use Rattle.checker.specs.Steps.{step};

use crate::judge::Judge;
use blocks::line::Line;
use blocks::sink::Sink;

impl Sink for Judge<'_> {
    ghost Model = { Court };

    ghost model = { court_of };

    ghost step = { step };

    ghost Lent = { GName };

    ghost lent = { λ j. j.area.ghost_name };

    // Takes a line, or refuses it by the number of its reason.
    fn take(&mut self, line: Line) -> Result<(), u32>
        ensures answer { result ≡ result_of (step (court_of self.old) line) }
        ensures state { court_of self.new ≡ next_of (court_of self.old) (step (court_of self.old) line) }
        ensures kept { self.new.area.ghost_name ≡ self.old.area.ghost_name }
        ensures law { JustTakes (court_of self.old) line result (court_of self.new) }
    {
        self.hear(line)
            .map_err(|refusal| u32::from(refusal.stop.number()))
    }
}
