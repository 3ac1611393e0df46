ghost use Rattle.std.specs.Prelude.{◌≡◌, ℕ, suc, ◌<◌, min, length, Some, slice_set};
ghost use Rattle.blocks.specs.Slots.{holdings};
ghost use Rattle.checker.specs.Courts.{court_of, phase_of, idle};
ghost use Rattle.checker.specs.Hearing.{Hears, onward};

use crate::judge::Judge;
use crate::state::State;
use blocks::block::Block;
use blocks::line::Line;
use scales::refusal::Refusal;

// The number of the line after this one. It stops at 99,999, where a refusal's place stops too.
fn next_line(line: u32) -> u32
    ensures { result ≡ min (suc line) 99999 }
{
    line.saturating_add(1).min(99_999)
}

// Each of these says that the area is still the one that was lent: a view of the judge that kept only
// its court could not name the area.
impl Judge<'_> {
    // One line on, in another state.
    fn enter(&mut self, state: State)
        ensures after { court_of self.new ≡ onward (court_of self.old) (phase_of state) (court_of self.old).slots }
        ensures lent { self.new.area.ghost_name ≡ self.old.area.ghost_name }
    {
        self.state = state;
        self.line = next_line(self.line);
    }

    // One line on, idle again with the work block in a slot.
    fn keep(&mut self, slot: usize, work: Block)
        requires { slot < length self.old.area.now }
        ensures after { court_of self.new ≡ onward (court_of self.old) idle (holdings (slice_set self.old.area.now slot (Some work))) }
        ensures lent { self.new.area.ghost_name ≡ self.old.area.ghost_name }
    {
        self.area[slot] = Some(work);
        self.enter(State::Idle);
    }

    // One line: taken, with the state that it leads to, or refused, and then nothing changes. State and
    // line are matched together, and the state changes in place.
    pub(super) fn hear(&mut self, line: Line) -> Result<(), Refusal>
        ensures outcome { Hears (court_of self.old) line result (court_of self.new) }
        ensures lent { self.new.area.ghost_name ≡ self.old.area.ghost_name }
    {
        self.allow(line)?;
        match (&self.state, line) {
            (State::Idle, Line::Take(number)) => {
                let block = self.named(number)?;
                self.enter(State::Working(block));
                Ok(())
            }
            (State::Working(work), Line::Resolve(number, setting)) => {
                let block = self.joined(work, number, setting)?;
                self.enter(State::Working(block));
                Ok(())
            }
            (State::Working(work), Line::Keep(number)) => {
                let slot = self.slot(number)?;
                let work = *work;
                self.keep(slot, work);
                Ok(())
            }
            (State::Working(work), Line::End) => {
                self.end(work)?;
                self.enter(State::Ended);
                Ok(())
            }
            _ => unreachable(),
        }
    }
}
