ghost use Rattle.std.specs.Prelude.{◌≡◌, ℕ};
ghost use Rattle.scales.specs.Laws.{ScaleLaws};
ghost use Rattle.scales.specs.Answers.{Placed, Valued};

use crate::refusal::Refusal;

// A finite set of at least one value, in a total order, with the values counted from 0.
//
// What a scale means is said by its ghost members, which only contracts see. An implementation
// chooses them freely and owes the law below; the answers of the three calls are pinned by them.
pub trait Scale {
    // the kind of value: a float, a signed whole number, a byte
    type Value: Copy;

    // which values are on the scale
    ghost on: { Self → Self.Value → Type 0 };

    // which of two values is the earlier
    ghost earlier: { Self → Self.Value → Self.Value → Type 0 };

    // the position of a value
    ghost position: { Self → Self.Value → ℕ };

    // the value that stands at a position
    ghost standing: { Self → ℕ → Self.Value };

    // the last position, which is the count of values less one
    ghost top: { Self → ℕ };

    // The last position.
    fn last(&self) -> u32
        ensures { result ≡ top self.now };

    // The position of a value; refused where the value is not on the scale.
    fn place(&self, v: Self::Value) -> Result<u32, Refusal>
        ensures { Placed (on self.now v) (position self.now v) result };

    // The value at a position; refused where the position is over the last.
    fn value(&self, p: u32) -> Result<Self::Value, Refusal>
        ensures { Valued (top self.now) p (standing self.now p) result };

    ghost keeps: { (s : Self) → ScaleLaws (on s) (earlier s) (position s) (standing s) (top s) };
}
