ghost use Rattle.std.specs.Prelude.{◌≡◌};
ghost use Rattle.scales.specs.Checks.{Outcome};
ghost use Rattle.checker.specs.Courts.{phase_of, court_of, finding_checks};
ghost use Rattle.checker.specs.Findings.{FoundRightly};

use crate::judge::Judge;
use crate::state::State;
use scales::refusal::{Refusal, Stop};

// What is found in a state, before the line of this number.
fn found(state: State, line: u32) -> Result<(), Refusal>
    ensures { Outcome (finding_checks (phase_of state) line) (λ _. Unit {0}) result }
{
    match state {
        State::Ended => Ok(()),
        _ => Err(Refusal::at_line(Stop::EndMissing, u64::from(line))),
    }
}

impl Judge<'_> {
    // Uses the judge up: accepted where the grounds have ended, else refused at the line after its
    // last. The area stays as the judge leaves it.
    pub fn finding(self) -> Result<(), Refusal>
        ensures answer { Outcome (finding_checks (court_of self.entry).phase (court_of self.entry).line) (λ _. Unit {0}) result }
        ensures area { self.exit.1.0.now ≡ self.entry.area.now }
        ensures rightly { FoundRightly (court_of self.entry) result }
    {
        let Judge {
            problem: _,
            area: _,
            state,
            line,
        } = self;
        found(state, line)
    }
}
