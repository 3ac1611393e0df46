ghost use Rattle.std.specs.Prelude.{◌≤◌};

use std::fmt;

pub mod limits;

// A number in a line, of at most MAX.
#[derive(Clone, Copy, PartialEq, Eq)]
pub struct Number<const MAX: u32> {
    number: u32,
    ghost small: { number ≤ MAX },
}

// The number of a block: rule i is block i, slot j is block 100 + j. It fits five columns.
pub type BlockNumber = Number<99_999>;

// The number of a setting. It fits three columns.
pub type SettingNumber = Number<999>;

// A number is shown under the name of what it numbers, so that a block's and a setting's can be told
// apart. A derive would show both as a Number.
impl<const MAX: u32> fmt::Debug for Number<MAX> {
    fn fmt<W: fmt::Write>(&self, f: &mut fmt::Formatter<W>) -> fmt::Result {
        let name = match MAX {
            99_999 => "BlockNumber",
            999 => "SettingNumber",
            _ => "Number",
        };
        f.debug_struct(name).field("number", &self.number).finish()
    }
}
