ghost use Rattle.std.specs.Prelude.{◌≡◌};
ghost use Rattle.scales.specs.Checks.{Outcome};
ghost use Rattle.scales.specs.Answers.{on_scale};
ghost use Rattle.blocks.specs.Bounds.{bound_at, setting, position, Opposite, TellsBack};

use scales::refusal::Refusal;
use scales::scale::Scale;
use scales::side::Side;

// The sides of a bound, as the numbers by which it is told. The project wants a bound told as plain
// numbers: setting, side and position.
pub(crate) const AT_MOST: u8 = 0;

pub(crate) const AT_LEAST: u8 = 1;

// A bound keeps one setting to one side of a position: the setting's number, then the position. Whoever
// looks at a bound asks for its side first, so the sides are cases and no field.
#[derive(Clone, Copy, PartialEq, Eq, Debug)]
pub enum Bound {
    AtMost(u8, u32),
    AtLeast(u8, u32),
}

impl Bound {
    // The bound on a setting at a value of its scale; refused where the value is not on the scale.
    pub fn new<S: Scale>(
        setting: u8,
        side: Side,
        scale: &S,
        value: S::Value,
    ) -> Result<Bound, Refusal>
        ensures { Outcome (on_scale (S.Scale.on scale.now value)) (λ b. b ≡ bound_at side setting (S.Scale.position scale.now value)) result }
    {
        let position = scale.place(value)?;
        Ok(match side {
            Side::AtMost => Bound::AtMost(setting, position),
            Side::AtLeast => Bound::AtLeast(setting, position),
        })
    }

    // The number of the setting.
    pub fn setting(self) -> u8
        ensures { result ≡ setting self }
    {
        match self {
            Bound::AtMost(setting, _) | Bound::AtLeast(setting, _) => setting,
        }
    }

    // The position.
    pub fn position(self) -> u32
        ensures { result ≡ position self }
    {
        match self {
            Bound::AtMost(_, position) | Bound::AtLeast(_, position) => position,
        }
    }

    // The bound that just the profiles breaking this one meet; None where no profile breaks it.
    pub fn opposite(self) -> Option<Bound>
        ensures { Opposite self result }
    {
        match self {
            Bound::AtMost(setting, position) => {
                Some(Bound::AtLeast(setting, position.checked_add(1)?))
            }
            Bound::AtLeast(setting, position) => {
                Some(Bound::AtMost(setting, position.checked_sub(1)?))
            }
        }
    }
}

// The bound that three numbers tell: the setting, the side and the position. Every side but 0 is taken
// for "at least".
impl From<(u8, u8, u32)> for Bound {
    ghost from_gives = { TellsBack };

    fn from((setting, side, position): (u8, u8, u32)) -> Bound {
        match side {
            AT_MOST => Bound::AtMost(setting, position),
            _ => Bound::AtLeast(setting, position),
        }
    }
}
