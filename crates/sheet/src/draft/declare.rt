ghost use Rattle.std.specs.Prelude.{◌≡◌, []};
ghost use Rattle.sheet.specs.Settings.{Declares, lasts_of, names_of};

use crate::draft::Draft;
use crate::name::Name;
use blocks::lasts::Lasts;
use rows::row::Row;
use scales::refusal::Refusal;
use scales::scale::Scale;

impl Draft {
    // No setting.
    pub fn new() -> Draft
        ensures { (lasts_of result ≡ []) × (names_of result ≡ []) }
    {
        Draft {
            lasts: Lasts::new(),
            names: Row::new(Name { bytes: [0; 8] }),
        }
    }

    // One setting more, on a scale and with a name; answers its number. Refused where there are twelve.
    pub fn declare<S: Scale>(&mut self, scale: &S, name: Name) -> Result<u8, Refusal>
        ensures { Declares (S.Scale.top scale.now) name self.old result self.new }
    {
        let setting = self.lasts.declare(scale)?;
        self.names.push(name).unwrap();
        Ok(setting)
    }
}
