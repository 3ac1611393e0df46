ghost use Rattle.std.specs.Prelude.{◌≡◌, ℕ, []};
ghost use Rattle.blocks.specs.Slots.{holdings};
ghost use Rattle.scales.specs.declared.refusal.Stop.{Stop};
ghost use Rattle.scales.specs.declared.refusal.Stop.TheVariants.{BadShape};
ghost use Rattle.scales.specs.Stops.{number, line_place};
ghost use Rattle.record.specs.declared.halt.Cause.TheVariants.{Shape, Sink};
ghost use Rattle.series.specs.Calls.{judge as judging, answer, of_judge, Does};
ghost use Rattle.sheet.specs.Sheets.{sheet_on};
ghost use Rattle.sheet.specs.Halts.{Known, ToldInFull};

use crate::sheet::Sheet;
use blocks::slot::Slot;
use checker::judge::Judge;
use record::feed::feed_record;
use record::halt::{Cause, Halt};
use scales::refusal::{Refusal, Stop};

// The refusal of a halt in full: a line of wrong shape, or the judge's own reason, at the halt's line.
fn refusal_of(halt: Halt) -> Refusal
    requires { Known halt }
    ensures { ToldInFull halt result }
{
    let stop = match halt.cause {
        Cause::Shape => Stop::BadShape,
        Cause::Sink(number) => Stop::try_from(number).unwrap(),
    };
    Refusal::at_line(stop, u64::from(halt.line))
}

impl<R> Sheet<R> {
    // Judges a whole record over the sheet's settings and standing rules, with a work area of its own:
    // line by line up to the first that is refused, and then its finding.
    pub fn judge(&self, bytes: &[u8], area: &mut [Slot]) -> Result<(), Refusal>
        ensures { Does (sheet_on self.now) (judging (holdings area.old) bytes.now) (answer (of_judge result) [] (holdings area.new)) (sheet_on self.now) }
    {
        // opening copies the rules into a place of the judge's own
        let place = self.rules;
        let mut judge = Judge::new(place.problem(), area);
        let read = feed_record(&mut judge, bytes);
        let found = judge.finding();
        match read {
            Ok(_) => found,
            Err(halt) => Err(refusal_of(halt)),
        }
    }
}
