ghost use Rattle.std.specs.Prelude.{◌≡◌, replicate};
ghost use Rattle.blocks.specs.Views.{last_at, Declared};

use crate::lasts::Lasts;
use scales::refusal::{Refusal, Stop};
use scales::scale::Scale;

impl Lasts {
    // No setting.
    pub fn new() -> Lasts
        ensures { (result.count ≡ 0) × (result.last ≡ replicate 12 0) }
    {
        Lasts {
            last: [0; 12],
            count: 0,
        }
    }

    // One setting more, on a scale; answers its number. Refused where there are twelve.
    pub fn declare<S: Scale>(&mut self, scale: &S) -> Result<u8, Refusal>
        ensures { Declared (S.Scale.top scale.now) self.old self.new result }
    {
        let at = self.count;
        if at >= 12 {
            return Err(Refusal::of(Stop::SettingsFull));
        }
        self.last[at] = scale.last();
        self.count = at + 1;
        Ok(at as u8)
    }

    // How many settings are declared.
    pub fn count(&self) -> u8
        ensures { result ≡ self.now.count }
    {
        self.count as u8
    }

    // The last position of a setting; 0 for one that is not declared.
    pub fn last(&self, setting: u8) -> u32
        ensures { result ≡ last_at self.now setting }
    {
        self.last.get(setting as usize).copied().unwrap_or(0)
    }
}
