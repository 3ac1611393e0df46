ghost use Rattle.std.specs.Prelude.{◌≡◌};
ghost use Rattle.series.specs.Series.{closed, Series};
ghost use Rattle.sheet.specs.Settings.{lasts_of, names_of};
ghost use Rattle.sheet.specs.Sheets.{sheet_on, names_on};

use crate::draft::Draft;
use crate::sheet::Sheet;
use blocks::ruleset::RuleSet;
use std::marker::PhantomData;

impl Draft {
    // Uses the draft up: the sheet of its settings and names, in order, and of no rule. The empty
    // series of calls leads to it.
    pub fn close<R>(self) -> Sheet<R>
        ensures series { Series (lasts_of self) closed (sheet_on result) }
        ensures names { names_on result ≡ names_of self }
    {
        let Draft { lasts, names } = self;
        Sheet {
            names,
            rules: RuleSet::new(lasts),
            scales: PhantomData,
        }
    }
}
