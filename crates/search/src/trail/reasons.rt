ghost use Rattle.std.specs.Prelude.{ℕ, ◌+◌, ◌<◌, ◌≤◌, MatchBool, MatchOption};
ghost use Rattle.search.specs.Search.{IsReason, FreeSlot};
ghost use Rattle.search.specs.Trails.{trail_of, FirstFree};

use crate::trail::Trail;

impl Trail {
    // Whether the block of this number is the reason of an entry.
    pub fn has_reason(&self, block: usize) -> bool
        ensures { MatchBool result (IsReason (trail_of self.now) block) (IsReason (trail_of self.now) block → ⊥) }
    {
        self.entries
            .as_slice()
            .iter()
            .any(|entry| entry.reason == Some(block))
    }

    // The first slot from one on, and below another, that is no entry's reason; None where all are.
    // A find would be no plainer: its closure has to be told that the block's number fits.
    fn first_free(&self, from: usize, to: usize) -> Option<usize>
        requires { to ≤ 4096 }
        ensures { MatchOption result ((j : ℕ) → from ≤ j → j < to → IsReason (trail_of self.now) (100 + j)) (λ j. FirstFree (trail_of self.now) from to j) }
    {
        for slot in from..to {
            if !self.has_reason(100 + slot) {
                return Some(slot);
            }
        }
        None
    }

    // The first slot that is no entry's reason, going round from next; None where all are.
    pub(crate) fn free_slot(&self, slots: usize, next: usize) -> Option<usize>
        requires { (next ≤ slots) × (slots ≤ 4096) }
        ensures { MatchOption result ((j : ℕ) → j < slots → IsReason (trail_of self.now) (100 + j)) (λ j. FreeSlot slots next (trail_of self.now) j) }
    {
        self.first_free(next, slots)
            .or_else(|| self.first_free(0, next))
    }
}
