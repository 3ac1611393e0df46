ghost use Rattle.rows.specs.Items.{items};
ghost use Rattle.blocks.specs.Views.{FitToPose};

use crate::lasts::Lasts;
use crate::standing::Standing;
use rows::row::Row;

pub mod post;

// The settings' last positions with the rules that stand on them.
#[derive(Clone, Copy)]
pub struct RuleSet {
    pub lasts: Lasts,
    pub rules: Row<Standing, 48>,
    ghost fit: { FitToPose lasts (items rules) },
}
