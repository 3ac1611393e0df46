ghost use Rattle.blocks.specs.Views.{FitToPose};

use crate::lasts::Lasts;
use crate::standing::Standing;

pub mod admit;
pub mod pose;

// A problem: the settings' last positions and what stands on them, at most 48 blocks of at most
// four bounds, each with low ≤ high ≤ last.
#[derive(Clone, Copy)]
pub struct Problem<'a> {
    lasts: &'a Lasts,
    rules: &'a [Standing],
    ghost fit: { FitToPose lasts.now rules.now },
}
