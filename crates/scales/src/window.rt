ghost use Rattle.std.specs.Prelude.{◌≡◌, ℕ, ◌≤◌, min};
ghost use Rattle.scales.specs.Checks.{Outcome};
ghost use Rattle.scales.specs.Models.{ScaleModel, model_of};
ghost use Rattle.scales.specs.Windows.{cut, end_checks, WindowOf};
ghost use Rattle.scales.specs.WindowLaws.{window_laws};

use crate::refusal::{Refusal, Stop};
use crate::scale::Scale;

// A scale cut to the values from one end to another, ends included, counted from the first.
// The ends are kept as positions on the scale below.
#[derive(Drop)]
pub struct Window<S> {
    scale: S,
    first: u32,
    end: u32,
    ghost ordered: { first ≤ end },
}

impl<S: Scale + Drop> Window<S> {
    // The window from one value to another.
    pub fn new(scale: S, from: S::Value, to: S::Value) -> Result<Window<S>, Refusal>
        ensures { Outcome (end_checks (model_of S.Scale scale) from to) (λ w. (w.scale ≡ scale) × WindowOf (model_of S.Scale scale) from to w.first w.end) result }
    {
        let Ok(first) = scale.place(from) else {
            return Err(Refusal::of(Stop::BadScale));
        };
        let Ok(end) = scale.place(to) else {
            return Err(Refusal::of(Stop::BadScale));
        };
        if first > end {
            return Err(Refusal::of(Stop::BadScale));
        }
        Ok(Window { scale, first, end })
    }
}

// A struct cannot state that its end is on the scale of a type parameter. So both ends are held to
// the scale's last wherever they are used; on a window that new has made, that changes nothing.
impl<S: Scale> Window<S> {
    // the position of the window's first value on the scale below
    fn low(&self) -> u32
        ensures { result ≡ min self.now.first (S.Scale.top self.now.scale) }
    {
        self.first.min(self.scale.last())
    }

    // the position of the window's last value on the scale below
    fn high(&self) -> u32
        ensures { result ≡ min self.now.end (S.Scale.top self.now.scale) }
    {
        self.end.min(self.scale.last())
    }
}

impl<S: Scale> Scale for Window<S> {
    type Value = S::Value;

    ghost on = { λ w. (cut (model_of S.Scale w.scale) w.first w.end).On };

    ghost earlier = { λ w. (cut (model_of S.Scale w.scale) w.first w.end).Earlier };

    ghost position = { λ w. (cut (model_of S.Scale w.scale) w.first w.end).position };

    ghost standing = { λ w. (cut (model_of S.Scale w.scale) w.first w.end).standing };

    ghost top = { λ w. (cut (model_of S.Scale w.scale) w.first w.end).top };

    ghost keeps = { λ w.
        let m : ScaleModel = record {
          Value = S.Value;
          On = S.Scale.on w.scale;
          Earlier = S.Scale.earlier w.scale;
          position = S.Scale.position w.scale;
          standing = S.Scale.standing w.scale;
          top = S.Scale.top w.scale;
        } in
        window_laws m (S.Scale.keeps w.scale) w.first w.end w.ordered };

    fn last(&self) -> u32 {
        self.high() - self.low()
    }

    fn place(&self, v: S::Value) -> Result<u32, Refusal> {
        let low = self.low();
        let p = self.scale.place(v)?;
        if p < low || p > self.end {
            return Err(Refusal::of(Stop::OffScale));
        }
        Ok(p - low)
    }

    fn value(&self, p: u32) -> Result<S::Value, Refusal> {
        let low = self.low();
        if p > self.high() - low {
            return Err(Refusal::of(Stop::OffScale));
        }
        self.scale.value(p + low)
    }
}
