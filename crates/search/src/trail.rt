ghost use Rattle.std.specs.Prelude.{◌≡◌, []};
ghost use Rattle.rows.specs.Items.{items};
ghost use Rattle.search.specs.Trails.{no_entry};

use blocks::bound::Bound;
use rows::row::Row;

pub mod reasons;

// Why a bound is on the trail: the number of the block that forced it, or none where it was decided. By
// number, as lines name blocks: the area is written meanwhile, so a reference would not do.
pub type Reason = Option<usize>;

// An entry of the trail. It keeps the end that its bound has narrowed, so that it can be undone.
#[derive(Clone, Copy)]
pub struct TrailEntry {
    pub bound: Bound,
    pub end: u32,
    pub reason: Reason,
}

// What an unused place of a trail holds. No derive: a bound has no default of its own.
impl Default for TrailEntry {
    ghost is_default = { λ e. e ≡ no_entry };

    fn default() -> TrailEntry {
        TrailEntry {
            bound: Bound::AtMost(0, 0),
            end: 0,
            reason: None,
        }
    }
}

// The entries so far, the last one last. A sheet has at most 192 bounds, and a trail each at most once.
#[derive(Clone, Copy)]
pub struct Trail {
    pub(crate) entries: Row<TrailEntry, 192>,
}

impl Trail {
    // No entry.
    pub(crate) fn new() -> Trail
        ensures { items result.entries ≡ [] }
    {
        Trail {
            entries: Row::new(TrailEntry::default()),
        }
    }
}
