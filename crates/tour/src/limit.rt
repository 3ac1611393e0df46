ghost use Rattle.std.specs.Prelude.{◌≡◌, [], ◌∷◌, MatchBool};
ghost use Rattle.scales.specs.declared.refusal.Stop.TheVariants.{OffScale};
ghost use Rattle.scales.specs.Answers.{on_scale};
ghost use Rattle.scales.specs.Checks.{check, Outcome};
ghost use Rattle.scales.specs.Models.{model_of};
ghost use Rattle.tour.specs.Limits.{KeepsTo};

use scales::refusal::Refusal;
use scales::scale::Scale;
use scales::side::Side;

// What a maker asks of one setting: a value on the named side of this one, or this one.
#[derive(Clone, Copy)]
pub(crate) struct Limit<V> {
    pub(crate) side: Side,
    pub(crate) value: V,
}

// Where a limit stands on its scale, and the value that is read back from there.
#[derive(Clone, Copy)]
pub(crate) struct Placed<V> {
    pub(crate) position: u32,
    pub(crate) value: V,
}

impl<V: Copy> Limit<V> {
    // Where the limit stands; refused where its value is not on the scale.
    pub(crate) fn place_on<S: Scale<Value = V>>(&self, scale: &S) -> Result<Placed<V>, Refusal>
        ensures { Outcome (on_scale (S.Scale.on scale.now self.now.value)) (λ p. (p.position ≡ S.Scale.position scale.now self.now.value) × (p.value ≡ self.now.value)) result }
    {
        let position = scale.place(self.value)?;
        let value = scale.value(position)?;
        Ok(Placed { position, value })
    }

    // Whether a value keeps to the limit; refused where one of the two is not on the scale.
    pub(crate) fn is_met_by<S: Scale<Value = V>>(&self, scale: &S, v: V) -> Result<bool, Refusal>
        ensures { Outcome (check OffScale (S.Scale.on scale.now v) ∷ check OffScale (S.Scale.on scale.now self.now.value) ∷ []) (λ b. MatchBool b (KeepsTo (model_of S.Scale scale.now) self.now.side self.now.value v) (KeepsTo (model_of S.Scale scale.now) self.now.side self.now.value v → ⊥)) result }
    {
        let position = scale.place(v)?;
        let limit = scale.place(self.value)?;
        Ok(self.side.is_met(position, limit))
    }
}
