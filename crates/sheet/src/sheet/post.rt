ghost use Rattle.std.specs.Prelude.{◌≡◌, []};
ghost use Rattle.checker.specs.Openings.{bounds_of};
ghost use Rattle.series.specs.Calls.{post as posting, answer, of_post, Does};
ghost use Rattle.sheet.specs.Sheets.{sheet_on, lasts_on, names_on};

use crate::sheet::Sheet;
use blocks::rule::Rule;
use scales::refusal::Refusal;

impl<R> Sheet<R> {
    // One rule more, behind the others, where it is admitted.
    pub fn post(&mut self, rule: &Rule) -> Result<(), Refusal>
        ensures does { Does (sheet_on self.old) (posting (bounds_of rule.now)) (answer (of_post result) [] []) (sheet_on self.new) }
        ensures names { names_on self.new ≡ names_on self.old }
    {
        self.rules.post(rule)
    }
}
