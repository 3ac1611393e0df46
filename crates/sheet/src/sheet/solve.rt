ghost use Rattle.std.specs.Prelude.{◌≡◌, length};
ghost use Rattle.blocks.specs.Sinks.{state_after};
ghost use Rattle.blocks.specs.Slots.{holdings};
ghost use Rattle.series.specs.Accepting.{GroundsAccepted};
ghost use Rattle.series.specs.Calls.{solve as solving, of_solve, Done};
ghost use Rattle.series.specs.Hearers.{hearer};
ghost use Rattle.series.specs.Solving.{told};
ghost use Rattle.sheet.specs.Sheets.{sheet_on};

use crate::sheet::Sheet;
use blocks::sink::Sink;
use blocks::slot::Slot;
use scales::refusal::Refusal;
use search::solve::solve;
use search::verdict::Verdict;

impl<R> Sheet<R> {
    // Searches for a profile that meets every rule of the sheet, and sends the lines of its grounds to
    // the sink. What the area holds at the start is not read.
    pub fn solve<K: Sink>(&self, area: &mut [Slot], sink: &mut K) -> Result<Verdict, Refusal>
        ensures done { Done (sheet_on self.now) (solving (holdings area.old) (hearer K.Sink.step (K.Sink.model sink.old))) (of_solve (told result)) (holdings area.new) (sheet_on self.now)
            (λ sent. K.Sink.model sink.new ≡ state_after K.Sink.step (K.Sink.model sink.old) sent) }
        ensures kept { K.Sink.lent sink.new ≡ K.Sink.lent sink.old }
        ensures grounds { GroundsAccepted (sheet_on self.now) (length area.old) }
    {
        solve(&self.rules.problem(), area, sink)
    }
}
