ghost use Rattle.std.specs.Prelude.{◌≡◌, length, Some, None, Option};
ghost use Rattle.std.specs.Option.{option_map};
ghost use Rattle.blocks.specs.Ranges.{Ranges};
ghost use Rattle.blocks.specs.Views.{ranges, block_of};
ghost use Rattle.blocks.specs.Slots.{slot_holds};
ghost use Rattle.search.specs.Scans.{holding, Scanned};

use blocks::block::Block;
use blocks::slot::Slot;
use blocks::standing::Standing;
use blocks::status::Status;

// A place that may hold a block: a standing rule always, a slot where it is filled.
pub trait Place {
    ghost holds: { Self → Option Ranges };

    fn block(&self) -> Option<Block>
        ensures { option_map ranges result ≡ holds self.now };
}

impl Place for Standing {
    ghost holds = { λ s. Some (block_of s) };

    fn block(&self) -> Option<Block> {
        Some(self.block)
    }
}

impl Place for Slot {
    ghost holds = { slot_holds };

    fn block(&self) -> Option<Block> {
        *self
    }
}

// What a scan comes to. Blocks go by their place.
#[derive(Clone, Copy)]
pub enum Scan {
    // the first block that is broken or forcing is this one, and broken
    Broken(usize),
    // it is this one, and forces this bound, told as the project wants a bound told
    Forcing(usize, (u8, u8, u32)),
    // no block is broken or forcing; the first that is not dead, if any
    Quiet(Option<usize>),
}

// Goes over places in order, up to the first block that is broken or forcing in a region. The project
// wants the scan as a loop with an index, and in it one over the settings, left by a label.
pub fn scan_over<P: Place>(region: &Block, places: &[P]) -> Scan
    ensures { Scanned (ranges region.now) (holding P.Place.holds places.now) (length places.now) result }
{
    let mut alive = None;
    'places: for (i, place) in places.iter().enumerate() {
        let Some(block) = place.block() else {
            continue;
        };
        let mut seen = Status::Broken;
        for setting in 0..12 {
            seen = block.see(region, setting, seen);
            if let Status::Dead = seen {
                continue 'places;
            }
        }
        match seen {
            Status::Broken => return Scan::Broken(i),
            Status::Forcing(bound) => return Scan::Forcing(i, bound),
            _ => alive = alive.or(Some(i)),
        }
    }
    Scan::Quiet(alive)
}
