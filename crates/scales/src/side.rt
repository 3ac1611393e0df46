ghost use Rattle.std.specs.Prelude.{MatchBool, Some};
ghost use Rattle.std.specs.Fmt.{padded};
ghost use Rattle.scales.specs.Sides.{Meets, side_words};

use std::fmt;

// The side of a position that a bound keeps to.
#[derive(Clone, Copy, PartialEq, Eq, Debug)]
pub enum Side {
    AtMost,
    AtLeast,
}

impl Side {
    // Whether a position meets the bound of this side at a limit.
    pub fn is_met(self, position: u32, limit: u32) -> bool
        ensures { MatchBool result (Meets self position limit) (Meets self position limit → ⊥) }
    {
        match self {
            Side::AtMost => position <= limit,
            Side::AtLeast => position >= limit,
        }
    }
}

// A side is shown as it stands before a limit.
impl fmt::Display for Side {
    ghost output = { λ s. Some (side_words s) };

    ghost styled_output = { λ s spec. Some (padded spec (side_words s)) };

    fn fmt<W: fmt::Write>(&self, f: &mut fmt::Formatter<W>) -> fmt::Result {
        f.pad(match self {
            Side::AtMost => "at most",
            Side::AtLeast => "at least",
        })
    }
}
