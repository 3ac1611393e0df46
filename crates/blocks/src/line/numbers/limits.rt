ghost use Rattle.std.specs.Prelude.{◌≡◌, ◌<◌, MatchOption};
ghost use Rattle.blocks.specs.Lines.{stopping_at, setting_number};

use crate::line::numbers::{Number, SettingNumber};

impl<const MAX: u32> Number<MAX> {
    // A number that is not over the limit.
    pub fn new(number: u32) -> Option<Number<MAX>>
        ensures { MatchOption result (MAX < number) (λ n. n.number ≡ number) }
    {
        if number > MAX {
            return None;
        }
        Some(Number { number })
    }

    // A number, stopping at the limit.
    pub fn stopping(number: usize) -> Number<MAX>
        ensures { result ≡ stopping_at MAX number }
    {
        Number {
            number: number.min(MAX as usize) as u32,
        }
    }

    // The number itself. The theorems on lines name the field, so there is no model.
    pub fn number(self) -> u32
        ensures { result ≡ self.entry.number }
    {
        self.number
    }
}

// The number of a sheet's setting. It always fits.
impl From<u8> for SettingNumber {
    ghost from_gives = { λ setting number. number ≡ setting_number setting };

    fn from(setting: u8) -> SettingNumber {
        Number::stopping(setting as usize)
    }
}
