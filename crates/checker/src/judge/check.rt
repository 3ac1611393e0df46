ghost use Rattle.scales.specs.Checks.{Outcome};
ghost use Rattle.checker.specs.Courts.{court_of};
ghost use Rattle.checker.specs.Hearing.{line_checks};

use crate::judge::Judge;
use crate::state::State;
use blocks::line::Line;
use scales::refusal::Refusal;

impl Judge<'_> {
    // What a line would meet now: nothing, or its refusal in full. So the refusal of a line that was
    // sent and refused can be read afterwards, since it has changed nothing. The match is that of
    // `hear` again: the project wants the state changed in place there.
    pub fn check(&self, line: Line) -> Result<(), Refusal>
        ensures { Outcome (line_checks (court_of self.now) line) (λ _. Unit {0}) result }
    {
        self.allow(line)?;
        match (&self.state, line) {
            (State::Idle, Line::Take(number)) => self.named(number).map(|_| ()),
            (State::Working(work), Line::Resolve(number, setting)) => {
                self.joined(work, number, setting).map(|_| ())
            }
            (State::Working(_), Line::Keep(number)) => self.slot(number).map(|_| ()),
            (State::Working(work), Line::End) => self.end(work),
            _ => unreachable(),
        }
    }
}
