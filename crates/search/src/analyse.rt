ghost use Rattle.std.specs.Prelude.{◌≡◌, Some};
ghost use Rattle.blocks.specs.Ranges.{Ranges, Resolvable, resolve, with_end};
ghost use Rattle.blocks.specs.Views.{ranges, Real};
ghost use Rattle.search.specs.Numbers.{numbered};
ghost use Rattle.search.specs.Moves.{ReadyIn, AnalysedIn, OnlyUndone};

use crate::moves::Search;
use crate::numbered::Numbered;
use crate::trail::TrailEntry;
use blocks::block::Block;
use blocks::line::Line;
use blocks::line::numbers::{BlockNumber, SettingNumber};
use blocks::sink::Sink;

// The block of this number is resolved into the work block on a setting.
fn resolve_into(blocks: &Numbered<'_, '_>, block: usize, setting: u8, work: &mut Block)
    requires { (b : Ranges) × (numbered blocks.now.rules.now blocks.now.filled.now block ≡ Some b) × Resolvable setting (ranges work.old) b }
    ensures { (b : Ranges) → numbered blocks.now.rules.now blocks.now.filled.now block ≡ Some b → ranges work.new ≡ resolve setting (ranges work.old) b }
{
    let other = blocks.at(block).unwrap();
    *work = work.resolve(&other, setting).unwrap();
}

// The region before an entry.
fn undo(region: &mut Block, entry: TrailEntry)
    requires { Real (with_end entry.bound entry.end (ranges region.old)) }
    ensures { ranges region.new ≡ with_end entry.bound entry.end (ranges region.old) }
{
    *region = region.undo(entry.bound, entry.end).unwrap();
}

impl<K: Sink> Search<'_, '_, '_, K> {
    // Takes the entries from the last backward, with the blocks of the rules and of the filled slots.
    // The region goes back with them, and the reasons of needed entries are resolved into the work block.
    // The answer is whether it stopped at a decided entry, which is taken too; if not, the entries ran out.
    pub(crate) fn analyse(&mut self, work: &mut Block) -> bool
        requires { ReadyIn self.old (ranges work.old) }
        ensures did { AnalysedIn K.step K.model self.old (ranges work.old) result (ranges work.new) self.new }
        ensures kept { OnlyUndone K.lent self.old self.new }
    {
        while let Some(entry) = self.course.trail.entries.pop() {
            undo(&mut self.course.region, entry);
            if !self.course.region.is_inside(work) {
                let Some(block) = entry.reason else {
                    return true;
                };
                let setting = entry.bound.setting();
                resolve_into(&self.blocks(), block, setting, work);
                self.tally.send(
                    self.sink,
                    Line::Resolve(BlockNumber::stopping(block), SettingNumber::from(setting)),
                );
            }
        }
        self.tally.send(self.sink, Line::End);
        false
    }
}
