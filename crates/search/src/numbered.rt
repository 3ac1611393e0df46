ghost use Rattle.std.specs.Prelude.{◌≡◌, ◌+◌, ◌<◌, ◌≤◌, length, IfSome};
ghost use Rattle.std.specs.Option.{option_map};
ghost use Rattle.blocks.specs.Views.{ranges};
ghost use Rattle.search.specs.Numbers.{numbered, slot_numbers};
ghost use Rattle.search.specs.Scans.{Scanned};

use crate::scan::{Place, Scan, scan_over};
use blocks::block::Block;
use blocks::slot::Slot;
use blocks::standing::Standing;

// The blocks of a search by their numbers: rule i is block i, slot j is block 100 + j. The judge looks
// blocks up by itself: it shares no code with the search, so that a mistake here is none of its own.
#[derive(Clone, Copy)]
pub struct Numbered<'r, 's> {
    pub rules: &'r [Standing],
    pub filled: &'s [Slot],
}

// A slot's place as the number of its block.
fn block_of_slot(slot: Option<usize>) -> Option<usize>
    requires { IfSome slot (λ j. j < 4096) }
    ensures { result ≡ slot_numbers slot }
{
    slot.map(|j| 100 + j)
}

impl Numbered<'_, '_> {
    // The block of a number.
    pub fn at(&self, block: usize) -> Option<Block>
        ensures { option_map ranges result ≡ numbered self.now.rules.now self.now.filled.now block }
    {
        if block < 100 {
            self.rules.get(block).map(|rule| rule.block)
        } else {
            self.filled.get(block - 100).copied().flatten()
        }
    }

    // The first block, in the order of numbers, that is broken or forcing in a region.
    pub(crate) fn scan(&self, region: &Block) -> Scan
        requires { (length self.now.rules.now ≤ 48) × (length self.now.filled.now ≤ 4096) }
        ensures { Scanned (ranges region.now) (numbered self.now.rules.now self.now.filled.now) (100 + length self.now.filled.now) result }
    {
        match scan_over(region, self.rules) {
            Scan::Quiet(alive) => match scan_over(region, self.filled) {
                Scan::Broken(j) => Scan::Broken(100 + j),
                Scan::Forcing(j, bound) => Scan::Forcing(100 + j, bound),
                Scan::Quiet(slot) => Scan::Quiet(alive.or(block_of_slot(slot))),
            },
            found => found,
        }
    }
}
