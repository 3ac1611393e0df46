ghost use Rattle.std.specs.Prelude.{◌≡◌, ◌+◌, ◌<◌, [], ◌∷◌, length, Some, MatchBool};
ghost use Rattle.scales.specs.declared.refusal.Stop.TheVariants.{UnknownBlock, Undeclared, NotResolvable};
ghost use Rattle.scales.specs.Checks.{Outcome};
ghost use Rattle.blocks.specs.declared.line.Line.TheVariants.{Take, Resolve, Keep, End};
ghost use Rattle.blocks.specs.Ranges.{resolve, Resolvable};
ghost use Rattle.blocks.specs.Views.{ranges};
ghost use Rattle.checker.specs.Courts.{court_of, block_in, asks, working};
ghost use Rattle.checker.specs.Hearing.{Known, Whole, further_checks, Leads, onward};

use crate::judge::Judge;
use blocks::block::Block;
use blocks::line::numbers::{BlockNumber, SettingNumber};
use scales::refusal::{Refusal, Stop};

impl Judge<'_> {
    // The block that a line names.
    pub(super) fn named(&self, number: BlockNumber) -> Result<Block, Refusal>
        ensures { Outcome (asks (court_of self.now) UnknownBlock (Known (court_of self.now) (Take number)) ∷ []) (λ b. block_in (court_of self.now) number.number ≡ Some (ranges b)) result }
    {
        self.block(number).ok_or(self.refusal(Stop::UnknownBlock))
    }

    // The setting that a line names.
    fn setting(&self, number: SettingNumber) -> Result<u8, Refusal>
        ensures { Outcome (asks (court_of self.now) Undeclared (number.number < (court_of self.now).sheet.count) ∷ []) (λ s. s ≡ number.number) result }
    {
        let count = self.problem.lasts().count();
        u8::try_from(number.number())
            .ok()
            .filter(|setting| *setting < count)
            .ok_or(self.refusal(Stop::Undeclared))
    }

    // A block resolved into the work block, where that is allowed.
    fn resolved(&self, work: &Block, block: &Block, setting: u8) -> Result<Block, Refusal>
        ensures { Outcome (asks (court_of self.now) NotResolvable (Resolvable setting (ranges work.now) (ranges block.now)) ∷ []) (λ b. ranges b ≡ resolve setting (ranges work.now) (ranges block.now)) result }
    {
        let refusal = self.refusal(Stop::NotResolvable);
        work.resolve(block, setting).map_err(|_| refusal)
    }

    // What line r makes of the work block. Here and below the work block is the state's own. A struct
    // that says so would owe it each time it is made.
    pub(super) fn joined(
        &self,
        work: &Block,
        number: BlockNumber,
        setting: SettingNumber,
    ) -> Result<Block, Refusal>
        ensures { (court_of self.now).phase ≡ working (ranges work.now) → Outcome (further_checks (court_of self.now) (Resolve number setting)) (λ b. Leads (court_of self.now) (Resolve number setting) (onward (court_of self.now) (working (ranges b)) (court_of self.now).slots)) result }
    {
        let block = self.named(number)?;
        let setting = self.setting(setting)?;
        self.resolved(work, &block, setting)
    }

    // The slot that line k names.
    pub(super) fn slot(&self, number: BlockNumber) -> Result<usize, Refusal>
        ensures { Outcome (further_checks (court_of self.now) (Keep number)) (λ j. (number.number ≡ 100 + j) × (j < length self.now.area.now)) result }
    {
        let n = number.number() as usize;
        let slots = self.area.len();
        n.checked_sub(100)
            .filter(|slot| *slot < slots)
            .ok_or(self.refusal(Stop::UnknownBlock))
    }

    // Whether the work block is everything.
    fn is_everything(&self, work: &Block) -> bool
        ensures { (court_of self.now).phase ≡ working (ranges work.now) → MatchBool result (Whole (court_of self.now) End) (Whole (court_of self.now) End → ⊥) }
    {
        Block::everything(self.problem.lasts()).is_inside(work)
    }

    // Line e: the work block is everything.
    pub(super) fn end(&self, work: &Block) -> Result<(), Refusal>
        ensures { (court_of self.now).phase ≡ working (ranges work.now) → Outcome (further_checks (court_of self.now) End) (λ _. Unit {0}) result }
    {
        if !self.is_everything(work) {
            return Err(self.refusal(Stop::NotEverything));
        }
        Ok(())
    }
}
