// Tests of bounds, rules and blocks at their edges.
//
// The answers in the tests are worked out by hand from the definitions. The two functions here read a
// block and an answer for the tests.
#![tactic(auto)]

ghost use Rattle.std.specs.Prelude.{◌≡◌, Some, None, Ok, Err, MatchBool};
ghost use Rattle.scales.specs.Stops.{number};
ghost use Rattle.blocks.specs.Views.{ranges};

use blocks::block::Block;
use scales::refusal::Refusal;

#[cfg(test)]
mod admitting;
#[cfg(test)]
mod declaring;
#[cfg(test)]
mod looking;
#[cfg(test)]
mod making;
#[cfg(test)]
mod narrowing;
#[cfg(test)]
mod resolving;
#[cfg(test)]
mod showing;

// Whether a block has these two ends on a setting.
pub fn has(block: &Block, setting: u8, low: u32, high: u32) -> bool
    ensures { MatchBool result (((ranges block.now).low setting ≡ low) × ((ranges block.now).high setting ≡ high)) (((ranges block.now).low setting ≡ low) × ((ranges block.now).high setting ≡ high) → ⊥) }
{
    block.low(setting) == low && block.high(setting) == high
}

// The number and the place of a refusal. It is read as the scales' tests read it; a function of this
// crate, so that what its tests call is held by an edit of its own.
pub fn refused<T: Drop>(answer: Result<T, Refusal>) -> Option<(u8, u32)>
    ensures { elim answer [ Ok _ ↦ result ≡ None | Err e ↦ result ≡ Some (number e.stop, e.place) ] }
{
    scale_edges::refused(answer)
}
