// Tests of the judge: worked grounds, the same with a line left out, and the edges of what is asked.
//
// The functions here hand a list of lines to a judge for the tests. That what they accept cannot be
// met is proved of them, from nothing but the contracts of the judge's calls.
#![tactic(auto)]

ghost use Rattle.std.specs.Prelude.{◌≡◌, true, is_ok};
ghost use Rattle.blocks.specs.Sinks.{state_after};
ghost use Rattle.blocks.specs.Views.{last_at};
ghost use Rattle.checker.specs.Courts.{court_of};
ghost use Rattle.checker.specs.Openings.{by_bounds, Possible};
ghost use Rattle.checker.specs.Steps.{step};
ghost use Rattle.checker_tests.specs.Firsts.{first_refusal};

use blocks::lasts::Lasts;
use blocks::line::Line;
use blocks::rule::Rule;
use blocks::ruleset::RuleSet;
use blocks::sink::Sink;
use blocks::slot::Slot;
use checker::judge::Judge;
use checker::open::open;
use scales::refusal::Refusal;

#[cfg(test)]
mod edges;
#[cfg(test)]
mod grounds;
#[cfg(test)]
mod worked;

// Lines to a judge, up to the first that is refused.
fn heard(judge: &mut Judge, lines: &[Line]) -> Result<(), Refusal>
    ensures { is_ok result ≡ true → court_of judge.new ≡ state_after step (court_of judge.old) lines.now }
{
    for line in lines {
        judge.check(*line)?;
        let _ = judge.take(*line);
    }
    Ok(())
}

// The first refusal of the two, if there is any.
fn first_of(heard: Result<(), Refusal>, found: Result<(), Refusal>) -> Result<(), Refusal>
    ensures { result ≡ first_refusal heard found }
{
    heard.and(found)
}

// What comes of rules and lines before a judge with this area: the first refusal, or the finding.
pub fn judged(
    lasts: &Lasts,
    rules: &[Rule],
    lines: &[Line],
    area: &mut [Slot],
) -> Result<(), Refusal>
    ensures { is_ok result ≡ true → Possible (last_at lasts.now) (by_bounds rules.now) → ⊥ }
{
    let mut place = RuleSet::new(*lasts);
    open(lasts, rules, &mut place)?;
    let mut judge = Judge::new(place.problem(), area);
    let heard = heard(&mut judge, lines);
    first_of(heard, judge.finding())
}
