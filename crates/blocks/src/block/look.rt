ghost use Rattle.std.specs.Prelude.{◌≡◌};
ghost use Rattle.blocks.specs.Status.{more, see, Tells, TellsFirst, TellsOpenAt};
ghost use Rattle.blocks.specs.Views.{ranges};

use crate::block::Block;
use crate::bound::{AT_LEAST, AT_MOST};
use crate::status::Status;

impl Status {
    // One open bound more.
    fn and(self, bound: (u8, u8, u32)) -> Status
        ensures { result ≡ more self bound }
    {
        match self {
            Status::Dead => Status::Dead,
            Status::Broken => Status::Forcing(bound),
            Status::Forcing(_) | Status::Open => Status::Open,
        }
    }
}

impl Block {
    // What this block is in a region, after one setting more; begin with Broken.
    pub fn see(&self, region: &Block, setting: u8, seen: Status) -> Status
        ensures { result ≡ see (ranges region.now) (ranges self.now) setting seen }
    {
        let own = self.interval(setting);
        let there = region.interval(setting);
        if there.high < own.low || own.high < there.low {
            return Status::Dead;
        }
        let mut seen = seen;
        if there.low < own.low {
            seen = seen.and((setting, AT_MOST, own.low - 1));
        }
        if own.high < there.high {
            seen = seen.and((setting, AT_LEAST, own.high + 1));
        }
        seen
    }

    // What this block is in a region. A forced bound is told as setting, side and position.
    pub fn status(&self, region: &Block) -> Status
        ensures { Tells (ranges region.now) (ranges self.now) result }
    {
        (0..12).fold(Status::Broken, |seen, setting| {
            self.see(region, setting, seen)
        })
    }

    // The first open bound at a setting, at most before at least.
    fn open_at(&self, region: &Block, setting: u8) -> Option<(u8, u8, u32)>
        ensures { TellsOpenAt (ranges region.now) (ranges self.now) setting result }
    {
        let own = self.interval(setting);
        let there = region.interval(setting);
        if there.low < own.low && own.low <= there.high {
            return Some((setting, AT_MOST, own.low - 1));
        }
        if there.low <= own.high && own.high < there.high {
            return Some((setting, AT_LEAST, own.high + 1));
        }
        None
    }

    // The first open bound: lowest setting, at most before at least.
    pub fn first_open(&self, region: &Block) -> Option<(u8, u8, u32)>
        ensures { TellsFirst (ranges region.now) (ranges self.now) result }
    {
        (0..12).find_map(|setting| self.open_at(region, setting))
    }
}
