ghost use Rattle.std.specs.Prelude.{[]};
ghost use Rattle.scales.specs.Checks.{Outcome};
ghost use Rattle.blocks.specs.Problems.{sheet_of};
ghost use Rattle.blocks.specs.Rules.{rules_checks};
ghost use Rattle.checker.specs.Openings.{by_bounds, Gathered, Opens};

use blocks::lasts::Lasts;
use blocks::rule::Rule;
use blocks::ruleset::RuleSet;
use scales::refusal::Refusal;

// The rules, each admitted behind those before it.
fn gathered(lasts: &Lasts, rules: &[Rule]) -> Result<RuleSet, Refusal>
    ensures { Outcome (rules_checks (sheet_of lasts.now []) (by_bounds rules.now)) (Gathered lasts.now (by_bounds rules.now)) result }
{
    let mut set = RuleSet::new(*lasts);
    for rule in rules {
        set.post(rule)?;
    }
    Ok(set)
}

// Opens rules for a judge: where all are admitted, they are copied into the lent place, on whose
// problem a judge is then made. The first refusal wins, and leaves the place as it was.
pub fn open(lasts: &Lasts, rules: &[Rule], place: &mut RuleSet) -> Result<(), Refusal>
    ensures { Opens lasts.now (by_bounds rules.now) place.old result place.new }
{
    *place = gathered(lasts, rules)?;
    Ok(())
}
