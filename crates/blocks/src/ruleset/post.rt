ghost use Rattle.std.specs.Prelude.{◌≡◌, [], length};
ghost use Rattle.blocks.specs.RuleSets.{sheet_in, PosesSet, Posted};
ghost use Rattle.blocks.specs.Problems.{sheet_of};

use crate::block::Block;
use crate::lasts::Lasts;
use crate::problem::Problem;
use crate::rule::Rule;
use crate::ruleset::RuleSet;
use crate::standing::Standing;
use rows::row::Row;
use scales::refusal::Refusal;

impl RuleSet {
    // These settings, and no rule.
    pub fn new(lasts: Lasts) -> RuleSet
        ensures { sheet_in result ≡ sheet_of lasts [] }
    {
        let blank = Standing {
            block: Block::everything(&lasts),
        };
        RuleSet {
            lasts,
            rules: Row::new(blank),
        }
    }

    // How many rules stand.
    pub fn count(&self) -> usize
        ensures { result ≡ length (sheet_in self.now).rules }
    {
        self.rules.len()
    }

    // The problem of what stands.
    pub fn problem(&self) -> Problem<'_>
        ensures { PosesSet self.now result }
    {
        Problem::pose(&self.lasts, self.rules.as_slice()).unwrap()
    }

    // One rule more, behind the others, where it is admitted.
    pub fn post(&mut self, rule: &Rule) -> Result<(), Refusal>
        ensures { Posted self.old rule.now.bounds.now result self.new }
    {
        let standing = self.problem().admit(rule)?;
        self.rules.push(standing).unwrap();
        Ok(())
    }
}
