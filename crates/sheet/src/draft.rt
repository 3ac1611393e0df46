ghost use Rattle.std.specs.Prelude.{◌≡◌, length};
ghost use Rattle.rows.specs.Items.{items};

use crate::name::Name;
use blocks::lasts::Lasts;
use rows::row::Row;

pub mod close;
pub mod declare;

// A sheet that still takes settings, and nothing else.
//
// It is neither Clone nor Copy: closing it uses it up. The names stand beside the last positions and
// not with them, since all that a draft lends to lower layers are positions.
#[derive(Drop)]
pub struct Draft {
    lasts: Lasts,
    names: Row<Name, 12>,
    ghost named: { length (items names) ≡ lasts.count },
}
