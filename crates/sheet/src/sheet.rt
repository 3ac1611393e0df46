ghost use Rattle.std.specs.Prelude.{◌≡◌, length};
ghost use Rattle.rows.specs.Items.{items};

use crate::name::Name;
use blocks::ruleset::RuleSet;
use rows::row::Row;
use std::marker::PhantomData;

pub mod judge;
pub mod post;
pub mod solve;
pub mod tell;

// A closed sheet: its settings' names, and their last positions with the rules that stand on them. The
// names stand beside the last positions, as in a draft.
//
// R names the scales of its settings. No contract speaks of them yet; a value of R is never needed.
#[derive(Drop)]
pub struct Sheet<R> {
    pub(crate) names: Row<Name, 12>,
    pub(crate) rules: RuleSet,
    pub(crate) scales: PhantomData<R>,
    ghost named: { length (items names) ≡ rules.lasts.count },
}
