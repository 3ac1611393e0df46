ghost use Rattle.std.specs.Prelude.{◌≡◌};
ghost use Rattle.blocks.specs.Problems.{Poses};

use crate::lasts::Lasts;
use crate::problem::Problem;
use crate::standing::Standing;

impl<'a> Problem<'a> {
    // The problem of these settings and of what stands; None where it is not fit to stand.
    pub fn pose(lasts: &'a Lasts, rules: &'a [Standing]) -> Option<Problem<'a>>
        ensures { Poses lasts.now rules.now result }
    {
        if rules.len() > 48 || !rules.iter().all(|rule| lasts.holds(&rule.block)) {
            return None;
        }
        Some(Problem { lasts, rules })
    }

    // The settings' last positions.
    pub fn lasts(&self) -> &'a Lasts
        ensures { result.now ≡ self.now.lasts.now }
    {
        self.lasts
    }

    // What stands, in order.
    pub fn rules(&self) -> &'a [Standing]
        ensures { result.now ≡ self.now.rules.now }
    {
        self.rules
    }
}
