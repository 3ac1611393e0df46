ghost use Rattle.std.specs.Prelude.{◌≡◌, ◌≤◌, length, Some, MatchOption};
ghost use Rattle.std.specs.List.{slice_get};
ghost use Rattle.blocks.specs.Views.{ranges};
ghost use Rattle.sheet.specs.Sheets.{sheet_on, lasts_on, names_on};

use crate::name::Name;
use crate::sheet::Sheet;
use blocks::block::Block;

// What a sheet tells of itself.
impl<R> Sheet<R> {
    // How many settings it has.
    pub fn settings(&self) -> u8
        ensures { result ≡ length (lasts_on self.now) }
    {
        self.rules.lasts.count()
    }

    // The last position of a setting; none for one that is not declared.
    pub fn last(&self, setting: u8) -> Option<u32>
        ensures { result ≡ slice_get (lasts_on self.now) setting }
    {
        (setting < self.rules.lasts.count()).then_some(self.rules.lasts.last(setting))
    }

    // The name of a setting; none for one that is not declared.
    pub fn name(&self, setting: u8) -> Option<Name>
        ensures { result ≡ slice_get (names_on self.now) setting }
    {
        self.names.as_slice().get(setting as usize).copied()
    }

    // How many rules stand on it.
    pub fn rules(&self) -> usize
        ensures { result ≡ length (sheet_on self.now).rules }
    {
        self.rules.count()
    }

    // The block of a standing rule, which holds the profiles that break it; none where fewer stand.
    pub fn block(&self, rule: usize) -> Option<Block>
        ensures { MatchOption result (length (sheet_on self.now).rules ≤ rule) (λ b. slice_get (sheet_on self.now).rules rule ≡ Some (ranges b)) }
    {
        let standing = self.rules.rules.as_slice().get(rule)?;
        Some(standing.block)
    }
}
