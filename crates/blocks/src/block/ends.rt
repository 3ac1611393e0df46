ghost use Rattle.std.specs.Prelude.{◌≡◌};
ghost use Rattle.blocks.specs.Ranges.{everything, with_low, with_high, with_end, Back};
ghost use Rattle.blocks.specs.Views.{ranges, interval_at, last_at, BlockOf, Narrowed};

use crate::block::Block;
use crate::block::interval::Interval;
use crate::bound::Bound;
use crate::lasts::Lasts;

impl Block {
    // The block of every profile.
    pub fn everything(lasts: &Lasts) -> Block
        ensures { ranges result ≡ everything (last_at lasts.now) }
    {
        Block {
            intervals: lasts.last.map(Interval::up_to),
        }
    }

    // The positions of a setting; only 0 for one past the twelfth.
    pub(crate) fn interval(&self, setting: u8) -> Interval
        ensures { result ≡ interval_at self.now setting }
    {
        let interval = self.intervals.get(setting as usize).copied();
        interval.unwrap_or(Interval::up_to(0))
    }

    // The low position of a setting; 0 for one past the twelfth.
    pub fn low(&self, setting: u8) -> u32
        ensures { result ≡ (ranges self.now).low setting }
    {
        self.interval(setting).low
    }

    // The high position of a setting; 0 for one past the twelfth.
    pub fn high(&self, setting: u8) -> u32
        ensures { result ≡ (ranges self.now).high setting }
    {
        self.interval(setting).high
    }

    // The block with other positions for a setting. Past the twelfth there is only position 0.
    fn with(&self, setting: u8, interval: Interval) -> Option<Block>
        ensures { BlockOf (with_low setting interval.low (with_high setting interval.high (ranges self.now))) result }
    {
        if setting >= 12 {
            return (interval.high == 0).then_some(*self);
        }
        let mut intervals = self.intervals;
        intervals[setting as usize] = interval;
        Some(Block { intervals })
    }

    // The profiles of this region that meet a bound; None where no profile does.
    pub fn narrow(&self, bound: Bound) -> Option<Block>
        ensures { Narrowed bound (ranges self.now) result }
    {
        match bound {
            Bound::AtMost(setting, p) => self.with(setting, self.interval(setting).at_most(p)?),
            Bound::AtLeast(setting, p) => self.with(setting, self.interval(setting).at_least(p)?),
        }
    }

    // The region with the end that a bound has narrowed put back where it was.
    #[tactic(auto, using(crate::proofs::Viewing::back))]
    pub fn undo(&self, bound: Bound, end: u32) -> Option<Block>
        ensures answer { BlockOf (with_end bound end (ranges self.now)) result }
        ensures back { Back bound end (ranges self.now) }
    {
        match bound {
            Bound::AtMost(setting, _) => self.with(setting, Interval::new(self.low(setting), end)?),
            Bound::AtLeast(setting, _) => self.with(
                setting,
                Interval::new(end, self.high(setting))?,
            ),
        }
    }
}
