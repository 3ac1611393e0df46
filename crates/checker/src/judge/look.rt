ghost use Rattle.std.specs.Prelude.{◌≡◌, [], ◌∷◌};
ghost use Rattle.std.specs.List.{slice_get};
ghost use Rattle.std.specs.Option.{option_map};
ghost use Rattle.scales.specs.declared.refusal.Stop.TheVariants.{NotAllowed};
ghost use Rattle.scales.specs.Stops.{line_place};
ghost use Rattle.scales.specs.Checks.{Outcome};
ghost use Rattle.blocks.specs.Problems.{posed};
ghost use Rattle.blocks.specs.Slots.{slot_at};
ghost use Rattle.blocks.specs.Views.{ranges};
ghost use Rattle.checker.specs.Courts.{court_of, block_in, asks};
ghost use Rattle.checker.specs.Hearing.{Allowed};

use crate::judge::Judge;
use crate::table::allowed;
use blocks::block::Block;
use blocks::line::Line;
use blocks::line::numbers::BlockNumber;
use scales::refusal::{Refusal, Stop};

impl Judge<'_> {
    // A refusal of the next line.
    pub(super) fn refusal(&self, stop: Stop) -> Refusal
        ensures { result ≡ line_place stop self.now.line }
    {
        Refusal::at_line(stop, u64::from(self.line))
    }

    // Whether the table allows a line now.
    pub(super) fn allow(&self, line: Line) -> Result<(), Refusal>
        ensures { Outcome (asks (court_of self.now) NotAllowed (Allowed (court_of self.now) line) ∷ []) (λ _. Unit {0}) result }
    {
        if !allowed(self.state.into(), line.into()) {
            return Err(self.refusal(Stop::NotAllowed));
        }
        Ok(())
    }

    // The block of a rule, where there is one of this number.
    fn ruled(&self, rule: usize) -> Option<Block>
        ensures { option_map ranges result ≡ slice_get (posed self.now.problem).rules rule }
    {
        self.problem
            .rules()
            .get(rule)
            .map(|standing| standing.block)
    }

    // The block in a slot, where the area has this slot and the slot is filled.
    fn kept(&self, slot: usize) -> Option<Block>
        ensures { option_map ranges result ≡ slot_at self.now.area.now slot }
    {
        self.area.get(slot).copied().flatten()
    }

    // The block of a number: rule i is block i, slot j is block 100 + j.
    pub(super) fn block(&self, number: BlockNumber) -> Option<Block>
        ensures { option_map ranges result ≡ block_in (court_of self.now) number.number }
    {
        let n = number.number() as usize;
        match n.checked_sub(100) {
            None => self.ruled(n),
            Some(slot) => self.kept(slot),
        }
    }
}
