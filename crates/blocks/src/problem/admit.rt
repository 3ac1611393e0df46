ghost use Rattle.std.specs.Prelude.{ℕ, ◌≤◌, [], length};
ghost use Rattle.scales.specs.Checks.{Outcome};
ghost use Rattle.blocks.specs.Rules.{bound_check, bound_checks};
ghost use Rattle.blocks.specs.Problems.{sheet_of, Admits, Breaking};

use crate::block::Block;
use crate::bound::Bound;
use crate::lasts::Lasts;
use crate::problem::Problem;
use crate::rule::Rule;
use crate::standing::Standing;
use scales::refusal::{Refusal, Stop};

// One bound of a rule, by its number from 1: its setting is declared and its position on the scale.
fn check_bound(lasts: &Lasts, place: u32, bound: Bound) -> Result<(), Refusal>
    ensures { Outcome (bound_check (sheet_of lasts.now []) place bound) (λ _. Unit {0}) result }
{
    if bound.setting() >= lasts.count() {
        return Err(Refusal {
            stop: Stop::Undeclared,
            place,
        });
    }
    if bound.position() > lasts.last(bound.setting()) {
        return Err(Refusal {
            stop: Stop::OffScale,
            place,
        });
    }
    Ok(())
}

// Every bound of a rule, in order.
fn check_bounds(lasts: &Lasts, bounds: &[Bound]) -> Result<(), Refusal>
    requires { length bounds.now ≤ 4 }
    ensures { Outcome (bound_checks (sheet_of lasts.now []) 1 bounds.now) (λ _. Unit {0}) result }
{
    for (i, bound) in bounds.iter().enumerate() {
        check_bound(lasts, i as u32 + 1, *bound)?;
    }
    Ok(())
}

// The block of the profiles that break every bound; None where there are none.
fn breaking(lasts: &Lasts, bounds: &[Bound]) -> Option<Block>
    ensures { Breaking lasts.now bounds.now result }
{
    let mut region = Block::everything(lasts);
    for bound in bounds {
        region = region.narrow(bound.opposite()?)?;
    }
    Some(region)
}

impl Problem<'_> {
    // What would stand for a rule, behind what stands already.
    pub fn admit(&self, rule: &Rule) -> Result<Standing, Refusal>
        ensures { Admits self.now.lasts.now self.now.rules.now rule.now.bounds.now result }
    {
        let n = rule.bounds.len();
        if n == 0 || n > 4 {
            return Err(Refusal::of(Stop::BoundCount));
        }
        check_bounds(self.lasts, rule.bounds)?;
        let block = breaking(self.lasts, rule.bounds).ok_or(Refusal::of(Stop::AlwaysMet))?;
        if self.rules.len() >= 48 {
            return Err(Refusal::of(Stop::RulesFull));
        }
        Ok(Standing { block })
    }
}
